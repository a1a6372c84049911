ghost use Rattle.std.specs.Prelude.{◌≡◌, Some, None, IfOk, IsErrOf};
ghost use Rattle.clap.specs.Words.{app_of, found_of, rows_of};
ghost use Rattle.tk_words.specs.Asked.{AreOfMonitors, asked_sources};
ghost use Rattle.tk_words.specs.Clap.{sessions_app};
ghost use Rattle.tk_words.specs.Words.{sessions_of};

use crate::fault::WordsFault;
use crate::options::{log_words, with_order, with_sources};
use crate::sources::{Sources, order, sources_with};
use clap::{ArgMatches, Command};
use std::alloc::{AllocError, Global};

/// What clap reads the words of `sessions` by.
pub fn command<'a>(alloc: Global) -> Result<Command<'a>, AllocError>
    ensures { IfOk result (λ c. app_of c ≡ sessions_app) }
{
    let command = with_sources(alloc, Command::new(alloc, "sessions"))?;
    with_order(alloc, command)?.arg(log_words(alloc))
}

/// What they ask for by what clap found.
pub fn values<'a>(alloc: Global, matches: &ArgMatches<'a>) -> Result<Sources<'a>, WordsFault>
    ensures ok { IfOk result (λ r. sessions_of (rows_of (found_of matches.now)) ≡ Some (asked_sources r)) }
    ensures usage { IsErrOf result WordsFault.Usage → sessions_of (rows_of (found_of matches.now)) ≡ None }
    ensures monitors { IfOk result (λ r. AreOfMonitors r.logs.items) }
{
    let Some(order) = order(matches) else {
        return Err(WordsFault::Usage);
    };
    sources_with(alloc, matches, order, None)
}
