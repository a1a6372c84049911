ghost use Rattle.std.specs.Prelude.{◌≡◌, ◌⊎◌, Some, None, IfOk, IsErrOf};
ghost use Rattle.clap.specs.Words.{app_of, found_of, rows_of};
ghost use Rattle.tk_words.specs.Asked.{AreOfMonitors, asked_live};
ghost use Rattle.tk_words.specs.Clap.{live_app};
ghost use Rattle.tk_words.specs.Words.{live_of};

use crate::carriage::frames;
use crate::fault::WordsFault;
use crate::options::{log_words, option, with_sources};
use crate::sources::{Sources, sources_with};
use clap::{ArgMatches, Command};
use std::alloc::{AllocError, Global};

/// What the words of a live run ask for.
#[derive(Drop)]
pub struct Live<'a> {
    /// Its settings, its objects and its logs, without an order.
    pub sources: Sources<'a>,
    /// The version of the frames behind the Hellos, 1 or 2.
    pub frames: u8,
}

/// What clap reads the words of `live` by.
pub fn command<'a>(alloc: Global) -> Result<Command<'a>, AllocError>
    ensures { IfOk result (λ c. app_of c ≡ live_app) }
{
    with_sources(alloc, Command::new(alloc, "live"))?
        .arg(option(alloc, "frames", false))?
        .arg(log_words(alloc))
}

/// What they ask for by what clap found.
pub fn values<'a>(alloc: Global, matches: &ArgMatches<'a>) -> Result<Live<'a>, WordsFault>
    ensures ok { IfOk result (λ l. live_of (rows_of (found_of matches.now)) ≡ Some (asked_live l)) }
    ensures usage { IsErrOf result WordsFault.Usage → live_of (rows_of (found_of matches.now)) ≡ None }
    ensures monitors { IfOk result (λ l. AreOfMonitors l.sources.logs.items) }
    ensures version { IfOk result (λ l. (l.frames ≡ 1) ⊎ (l.frames ≡ 2)) }
{
    let Some(frames) = frames(matches) else {
        return Err(WordsFault::Usage);
    };
    let sources = sources_with(alloc, matches, None, None)?;
    Ok(Live { sources, frames })
}
