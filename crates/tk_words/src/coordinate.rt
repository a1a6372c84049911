ghost use Rattle.std.specs.Prelude.{◌≡◌, IfOk, IfSome, option_map};
ghost use Rattle.clap.specs.Words.{app_of, found_of, rows_of};
ghost use Rattle.tk_words.specs.Asked.{IsCoordinate, asked_coordinate};
ghost use Rattle.tk_words.specs.Clap.{coordinate_app};
ghost use Rattle.tk_words.specs.Words.{coordinate_of};

use crate::options::{option, with_sources};
use crate::parsing::{listen_address, long, named_file, seconds, short, silence, times};
use crate::sources::own_weight;
use clap::{ArgMatches, Command};
use std::alloc::{AllocError, Global};

/// What the words of a coordinator ask for that runs as a process of its own.
#[derive(Clone, Copy, Debug, PartialEq, Eq)]
pub struct Coordinate<'a> {
    pub monitors: u64,
    pub k: u64,
    pub epsilon: u128,
    pub own_weight: u64,
    pub objects: &'a str,
    /// The number by which it and its monitors know one another.
    pub run: u64,
    /// An address and a port, of which 0 is one that the system chooses.
    pub listen: &'a str,
    /// How many seconds a link may be silent, 1 to 3,600.
    pub silence: u64,
    /// After how many sessions it ends, where it does.
    pub sessions: Option<u64>,
    /// For how many seconds a session waits for a monitor, where it does not wait for ever, 1 to 3,600.
    pub missing: Option<u64>,
}

/// What clap reads the words of `coordinate` by.
pub fn command<'a>(alloc: Global) -> Result<Command<'a>, AllocError>
    ensures { IfOk result (λ c. app_of c ≡ coordinate_app) }
{
    with_sources(alloc, Command::new(alloc, "coordinate"))?
        .arg(option(alloc, "monitors", true))?
        .arg(option(alloc, "run", true))?
        .arg(option(alloc, "listen", true))?
        .arg(option(alloc, "silence", false))?
        .arg(option(alloc, "sessions", false))?
        .arg(option(alloc, "missing", false))
}

/// What they ask for by what clap found.
pub fn values<'a>(matches: &ArgMatches<'a>) -> Option<Coordinate<'a>>
    ensures value { option_map asked_coordinate result ≡ coordinate_of (rows_of (found_of matches.now)) }
    ensures range { IfSome result IsCoordinate }
{
    Some(Coordinate {
        monitors: short(matches, "monitors")?,
        k: short(matches, "k")?,
        epsilon: long(matches, "epsilon")?,
        own_weight: own_weight(matches)?,
        objects: named_file(matches, "objects")?,
        run: short(matches, "run")?,
        listen: listen_address(matches)?,
        silence: silence(matches)?,
        sessions: times(matches, "sessions")?,
        missing: seconds(matches, "missing")?,
    })
}
