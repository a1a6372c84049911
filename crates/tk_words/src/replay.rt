ghost use Rattle.std.specs.Prelude.{◌≡◌, Some, None, IfOk, IsErrOf};
ghost use Rattle.clap.specs.Words.{app_of, found_of, rows_of};
ghost use Rattle.tk_words.specs.Asked.{AreOfMonitors, IsCarriage, asked_replay};
ghost use Rattle.tk_words.specs.Clap.{replay_app};
ghost use Rattle.tk_words.specs.Words as spec;

use crate::carriage::{Carriage, carriage_in};
use crate::fault::WordsFault;
use crate::options::{log_words, with_carriage, with_order, with_sources};
use crate::sources::{Sources, order, sources_with};
use clap::{ArgMatches, Command};
use std::alloc::{AllocError, Global};

/// What the words of a replay ask for.
#[derive(Drop)]
pub struct Replay<'a> {
    pub sources: Sources<'a>,
    pub carriage: Carriage,
}

/// What clap reads the words of `replay` and of `trace` by, under this name.
pub fn command<'a>(alloc: Global, name: &'a str) -> Result<Command<'a>, AllocError>
    ensures { IfOk result (λ c. app_of c ≡ replay_app name.entry.now) }
{
    let command = with_sources(alloc, Command::new(alloc, name))?;
    let command = with_order(alloc, command)?;
    with_carriage(alloc, command)?.arg(log_words(alloc))
}

/// The values of a replay, with this window.
pub fn replay_with<'a>(
    alloc: Global,
    matches: &ArgMatches<'a>,
    width: Option<u64>,
) -> Result<Replay<'a>, WordsFault>
    ensures ok { IfOk result (λ r. spec.replay_with width (rows_of (found_of matches.now)) ≡ Some (asked_replay r)) }
    ensures usage { IsErrOf result WordsFault.Usage → spec.replay_with width (rows_of (found_of matches.now)) ≡ None }
    ensures monitors { IfOk result (λ r. AreOfMonitors r.sources.logs.items) }
    ensures carriage { IfOk result (λ r. IsCarriage r.carriage) }
{
    let Some(carriage) = carriage_in(matches) else {
        return Err(WordsFault::Usage);
    };
    let Some(order) = order(matches) else {
        return Err(WordsFault::Usage);
    };
    let sources = sources_with(alloc, matches, order, width)?;
    Ok(Replay { sources, carriage })
}
