ghost use Rattle.std.specs.Prelude.{◌≡◌, Some, None, Err, IfOk, IsErrOf, map, string_bytes};
ghost use Rattle.clap.specs.Words.{found_of, rows_of};
ghost use Rattle.tk_words.specs.Asked.{HasCarriage, HasMonitors, IsRanged, asked_by};
ghost use Rattle.tk_words.specs.Words.{asked_with, verb_of as verb_named_by, words_of};

use crate::coordinate::Coordinate;
use crate::fault::WordsFault;
use crate::generate::Generate;
use crate::live::Live;
use crate::multi::Multi;
use crate::parsing::{named_file, parse};
use crate::replay::{Replay, replay_with};
use crate::rules::rules;
use crate::sources::Sources;
use crate::verb::{Verb, verb_of};
use crate::watched::Watched;
use crate::{coordinate, generate, help, live, multi, sessions, watched, window};
use clap::ArgMatches;
use std::alloc::Global;

/// What the words of the program ask for.
#[derive(Drop)]
pub enum Command<'a> {
    /// A replay of logs from files, as they are or with a window over them.
    Replay(Replay<'a>),
    /// A replay of logs that are made.
    Generate(Generate),
    /// A run over a net, of logs from files.
    Live(Live<'a>),
    /// A replay of logs from files for several queries.
    Multi(Multi<'a>),
    /// A replay of logs from files in which the coordinator may restart.
    Sessions(Sources<'a>),
    /// The trace of a replay.
    Trace(Replay<'a>),
    /// Whether a file is the trace of a legal run.
    Check(&'a str),
    /// What happened in the run that a trace tells.
    Show(&'a str),
    /// A coordinator as a process of its own.
    Coordinate(Coordinate<'a>),
    /// A monitor as a process of its own.
    Monitor(Watched<'a>),
    /// Help, of one command where it is named.
    Help(Option<Verb>),
    /// Which version of the program this is.
    Version,
}

/// What a command asks for by what clap found.
fn asked<'a>(alloc: Global, verb: Verb, matches: &ArgMatches<'a>) -> Result<Command<'a>, WordsFault>
    ensures ok { IfOk result (λ c. asked_with verb (rows_of (found_of matches.now)) ≡ Some (asked_by c)) }
    ensures usage { IsErrOf result WordsFault.Usage → asked_with verb (rows_of (found_of matches.now)) ≡ None }
    ensures monitors { IfOk result HasMonitors }
    ensures carriage { IfOk result HasCarriage }
    ensures ranged { IfOk result IsRanged }
{
    match verb {
        Verb::Replay => Ok(Command::Replay(replay_with(alloc, matches, None)?)),
        Verb::Generate => match generate::values(matches) {
            Some(values) => Ok(Command::Generate(values)),
            None => Err(WordsFault::Usage),
        },
        Verb::Live => Ok(Command::Live(live::values(alloc, matches)?)),
        Verb::Window => Ok(Command::Replay(window::values(alloc, matches)?)),
        Verb::Multi => Ok(Command::Multi(multi::values(alloc, matches)?)),
        Verb::Sessions => Ok(Command::Sessions(sessions::values(alloc, matches)?)),
        Verb::Trace => Ok(Command::Trace(replay_with(alloc, matches, None)?)),
        Verb::Check => match named_file(matches, "file") {
            Some(file) => Ok(Command::Check(file)),
            None => Err(WordsFault::Usage),
        },
        Verb::Show => match named_file(matches, "file") {
            Some(file) => Ok(Command::Show(file)),
            None => Err(WordsFault::Usage),
        },
        Verb::Coordinate => match coordinate::values(matches) {
            Some(values) => Ok(Command::Coordinate(values)),
            None => Err(WordsFault::Usage),
        },
        Verb::Monitor => Ok(Command::Monitor(watched::values(alloc, matches)?)),
        Verb::Help => match help::wished(matches) {
            Some(command) => Ok(Command::Help(command)),
            None => Err(WordsFault::Usage),
        },
        Verb::Version => Ok(Command::Version),
    }
}

/// Reads the words, which come without the program's name. The first is the command.
pub fn read<'a>(alloc: Global, words: &'a [String]) -> Result<Command<'a>, WordsFault>
    ensures ok { IfOk result (λ c. words_of (map string_bytes words.entry.now) ≡ Some (asked_by c)) }
    // Where the first names no command, they are refused whatever memory there is.
    ensures unknown { verb_named_by (map string_bytes words.entry.now) ≡ None → result ≡ Err WordsFault.Usage }
    // Where it names none, clap refuses the rest, or a value is not in its form.
    ensures usage { IsErrOf result WordsFault.Usage → words_of (map string_bytes words.entry.now) ≡ None }
    ensures monitors { IfOk result HasMonitors }
    ensures carriage { IfOk result HasCarriage }
    ensures ranged { IfOk result IsRanged }
{
    let Some(verb) = verb_of(words) else {
        return Err(WordsFault::Usage);
    };
    let matches = parse(rules(alloc, verb)?, words)?;
    asked(alloc, verb, &matches)
}
