ghost use Rattle.std.specs.Prelude.{◌≡◌, IfOk};
ghost use Rattle.clap.specs.Words.{app_of};
ghost use Rattle.tk_words.specs.Clap.{app_named};

use crate::verb::Verb;
use crate::{check, coordinate, generate, help, live, multi, replay, sessions, watched, window};
use clap::Command;
use std::alloc::{AllocError, Global};

/// What clap reads the words of a command by.
pub fn rules<'a>(alloc: Global, verb: Verb) -> Result<Command<'a>, AllocError>
    ensures { IfOk result (λ c. app_of c ≡ app_named verb) }
{
    match verb {
        Verb::Replay => replay::command(alloc, "replay"),
        Verb::Generate => generate::command(alloc),
        Verb::Live => live::command(alloc),
        Verb::Window => window::command(alloc),
        Verb::Multi => multi::command(alloc),
        Verb::Sessions => sessions::command(alloc),
        Verb::Trace => replay::command(alloc, "trace"),
        Verb::Check => check::command(alloc, "check"),
        Verb::Show => check::command(alloc, "show"),
        Verb::Coordinate => coordinate::command(alloc),
        Verb::Monitor => watched::command(alloc),
        Verb::Help => help::command(alloc),
        Verb::Version => Ok(Command::new(alloc, "version")),
    }
}
