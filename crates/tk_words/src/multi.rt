ghost use Rattle.std.specs.Prelude.{◌≡◌, Some, None, IfOk, IsErrOf};
ghost use Rattle.clap.specs.Words.{app_of, found_of, rows_of};
ghost use Rattle.tk_words.specs.Asked.{AreOfMonitors, asked_multi};
ghost use Rattle.tk_words.specs.Clap.{multi_app};
ghost use Rattle.tk_words.specs.Words.{multi_of};

use crate::fault::WordsFault;
use crate::options::{log_words, option, with_order};
use crate::parsing::named_file;
use crate::sources::{logs, order};
use clap::{ArgMatches, Command};
use std::alloc::{AllocError, Global};
use tk_base::Mon;

/// What the words of several queries ask for.
#[derive(Drop)]
pub struct Multi<'a> {
    pub objects: &'a str,
    pub queries: &'a str,
    pub order: Option<&'a str>,
    /// The logs in the order of the words; those of one monitor become its feeders.
    pub logs: Vec<(Mon, &'a str)>,
}

/// What clap reads the words of `multi` by.
pub fn command<'a>(alloc: Global) -> Result<Command<'a>, AllocError>
    ensures { IfOk result (λ c. app_of c ≡ multi_app) }
{
    let command = Command::new(alloc, "multi")
        .arg(option(alloc, "objects", true))?
        .arg(option(alloc, "queries", true))?;
    with_order(alloc, command)?.arg(log_words(alloc))
}

/// What they ask for by what clap found.
pub fn values<'a>(alloc: Global, matches: &ArgMatches<'a>) -> Result<Multi<'a>, WordsFault>
    ensures ok { IfOk result (λ m. multi_of (rows_of (found_of matches.now)) ≡ Some (asked_multi m)) }
    ensures usage { IsErrOf result WordsFault.Usage → multi_of (rows_of (found_of matches.now)) ≡ None }
    ensures monitors { IfOk result (λ m. AreOfMonitors m.logs.items) }
{
    let Some(objects) = named_file(matches, "objects") else {
        return Err(WordsFault::Usage);
    };
    let Some(queries) = named_file(matches, "queries") else {
        return Err(WordsFault::Usage);
    };
    let Some(order) = order(matches) else {
        return Err(WordsFault::Usage);
    };
    let logs = logs(alloc, matches)?;
    Ok(Multi {
        objects,
        queries,
        order,
        logs,
    })
}
