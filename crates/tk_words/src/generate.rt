ghost use Rattle.std.specs.Prelude.{◌≡◌, IfOk, option_map};
ghost use Rattle.clap.specs.Words.{app_of, found_of, rows_of};
ghost use Rattle.tk_words.specs.Asked.{asked_generate};
ghost use Rattle.tk_words.specs.Clap.{gen_app};
ghost use Rattle.tk_words.specs.Words.{generate_of};

use crate::options::option;
use crate::parsing::{long, short};
use clap::{ArgMatches, Command};
use std::alloc::{AllocError, Global};

/// What the words of `gen` ask for.
#[derive(Clone, Copy, Debug, PartialEq, Eq)]
pub struct Generate {
    pub seed: u64,
    pub monitors: u64,
    pub objects: u64,
    pub updates: u64,
    pub k: u64,
    pub epsilon: u128,
}

/// What clap reads the words of `gen` by.
pub fn command<'a>(alloc: Global) -> Result<Command<'a>, AllocError>
    ensures { IfOk result (λ c. app_of c ≡ gen_app) }
{
    Command::new(alloc, "gen")
        .arg(option(alloc, "seed", true))?
        .arg(option(alloc, "monitors", true))?
        .arg(option(alloc, "objects", true))?
        .arg(option(alloc, "updates", true))?
        .arg(option(alloc, "k", true))?
        .arg(option(alloc, "epsilon", true))
}

/// What they ask for by what clap found.
pub fn values(matches: &ArgMatches<'_>) -> Option<Generate>
    ensures { option_map asked_generate result ≡ generate_of (rows_of (found_of matches.now)) }
{
    Some(Generate {
        seed: short(matches, "seed")?,
        monitors: short(matches, "monitors")?,
        objects: short(matches, "objects")?,
        updates: short(matches, "updates")?,
        k: short(matches, "k")?,
        epsilon: long(matches, "epsilon")?,
    })
}
