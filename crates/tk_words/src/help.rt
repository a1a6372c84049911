ghost use Rattle.std.specs.Prelude.{◌≡◌, IfOk};
ghost use Rattle.clap.specs.Words.{app_of, found_of, rows_of};
ghost use Rattle.tk_words.specs.Clap.{help_app};
ghost use Rattle.tk_words.specs.Words.{help_of};

use crate::options::command_word;
use crate::parsing::value;
use crate::verb::{Verb, verb_named};
use clap::{ArgMatches, Command};
use std::alloc::{AllocError, Global};

/// What clap reads the words of `help` by.
pub fn command<'a>(alloc: Global) -> Result<Command<'a>, AllocError>
    ensures { IfOk result (λ c. app_of c ≡ help_app) }
{
    Command::new(alloc, "help").arg(command_word(alloc))
}

/// The command of which help is wished, where one is named.
pub fn wished(matches: &ArgMatches<'_>) -> Option<Option<Verb>>
    ensures { result ≡ help_of (rows_of (found_of matches.now)) }
{
    match value(matches, "command") {
        None => Some(None),
        Some(word) => Some(Some(verb_named(word)?)),
    }
}
