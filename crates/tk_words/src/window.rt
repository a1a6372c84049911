ghost use Rattle.std.specs.Prelude.{◌≡◌, Some, None, IfOk, IsErrOf};
ghost use Rattle.clap.specs.Words.{app_of, found_of, rows_of};
ghost use Rattle.tk_words.specs.Asked.{AreOfMonitors, IsCarriage, asked_replay};
ghost use Rattle.tk_words.specs.Clap.{window_app};
ghost use Rattle.tk_words.specs.Words.{window_of};

use crate::fault::WordsFault;
use crate::options::{log_words, option, with_carriage, with_order, with_sources};
use crate::parsing::short;
use crate::replay::{Replay, replay_with};
use clap::{ArgMatches, Command};
use std::alloc::{AllocError, Global};

/// What clap reads the words of `window` by.
pub fn command<'a>(alloc: Global) -> Result<Command<'a>, AllocError>
    ensures { IfOk result (λ c. app_of c ≡ window_app) }
{
    let command = with_sources(alloc, Command::new(alloc, "window"))?;
    let command = with_order(alloc, command.arg(option(alloc, "width", true))?)?;
    with_carriage(alloc, command)?.arg(log_words(alloc))
}

/// What they ask for by what clap found.
pub fn values<'a>(alloc: Global, matches: &ArgMatches<'a>) -> Result<Replay<'a>, WordsFault>
    ensures ok { IfOk result (λ r. window_of (rows_of (found_of matches.now)) ≡ Some (asked_replay r)) }
    ensures usage { IsErrOf result WordsFault.Usage → window_of (rows_of (found_of matches.now)) ≡ None }
    ensures monitors { IfOk result (λ r. AreOfMonitors r.sources.logs.items) }
    ensures carriage { IfOk result (λ r. IsCarriage r.carriage) }
{
    let Some(width) = short(matches, "width") else {
        return Err(WordsFault::Usage);
    };
    replay_with(alloc, matches, Some(width))
}
