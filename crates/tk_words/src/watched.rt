ghost use Rattle.std.specs.Prelude.{◌≡◌, ◌≤◌, false, Some, None, IfOk, IfSome, IsErrOf, codes, length, map, option_map};
ghost use Rattle.clap.specs.Words.{app_of, found_of, rows_of};
ghost use Rattle.tk_words.specs.Asked.{IsWatched, asked_monitor};
ghost use Rattle.tk_words.specs.Clap.{monitor_app};
ghost use Rattle.tk_words.specs.Forms.{connect_in, milliseconds_in, monitor_in, yes_in};
ghost use Rattle.tk_words.specs.Words.{monitor_of, optional, required, sources_of};

use crate::carriage::frames;
use crate::fault::WordsFault;
use crate::forms::{are_sources, connected, milliseconds, monitor, yes};
use crate::options::{option, source_words};
use crate::parsing::{further, named_file, short, silence, times, value};
use crate::recent::{Recent, recent_window};
use clap::{ArgMatches, Command};
use std::alloc::{AllocError, Global};
use tk_base::Mon;

/// How many milliseconds a monitor waits before it connects again where nothing else is said.
const USUAL_PAUSE: u64 = 500;

/// What the words of a monitor ask for that runs as a process of its own.
#[derive(Drop)]
pub struct Watched<'a> {
    pub number: Mon,
    pub objects: &'a str,
    /// The number by which it and its coordinator know one another.
    pub run: u64,
    /// The coordinator's host and port.
    pub connect: &'a str,
    /// The version of the frames behind the Hello, 1 or 2.
    pub frames: u8,
    /// How many milliseconds it waits before it connects again, 1 to 60,000.
    pub pause: u64,
    /// How many seconds a link may be silent, 1 to 3,600.
    pub silence: u64,
    /// After how many tries in a row that nobody answered it ends, where it does.
    pub tries: Option<u64>,
    /// Whether bad lines of its sources are passed over and counted.
    pub skip_bad: bool,
    /// The window over its streams, where it has one.
    pub window: Option<Recent>,
    /// Its streams 1, 2, .. in order, 1 to 8: each a file, or once `-`, the standard input.
    pub sources: Vec<&'a str>,
}

/// What clap reads the words of `monitor` by.
pub fn command<'a>(alloc: Global) -> Result<Command<'a>, AllocError>
    ensures { IfOk result (λ c. app_of c ≡ monitor_app) }
{
    Command::new(alloc, "monitor")
        .arg(option(alloc, "number", true))?
        .arg(option(alloc, "objects", true))?
        .arg(option(alloc, "run", true))?
        .arg(option(alloc, "connect", true))?
        .arg(option(alloc, "frames", false))?
        .arg(option(alloc, "pause", false))?
        .arg(option(alloc, "silence", false))?
        .arg(option(alloc, "tries", false))?
        .arg(option(alloc, "skip-bad", false))?
        .arg(option(alloc, "width", false))?
        .arg(option(alloc, "tick", false))?
        .arg(source_words(alloc))
}

/// The number of the monitor.
fn number(matches: &ArgMatches<'_>) -> Option<Mon>
    ensures value { option_map (λ m. m.0) result ≡ required monitor_in (codes "number") (rows_of (found_of matches.now)) }
    ensures range { IfSome result (λ m. (1 ≤ m.0) × (m.0 ≤ 64)) }
{
    monitor(value(matches, "number")?.as_bytes())
}

/// The address of the coordinator.
fn coordinator<'a>(matches: &ArgMatches<'a>) -> Option<&'a str>
    ensures { option_map (λ s. s.now) result ≡ required connect_in (codes "connect") (rows_of (found_of matches.now)) }
{
    connected(value(matches, "connect")?)
}

/// The optional pause, 500 milliseconds where there is none.
fn pause(matches: &ArgMatches<'_>) -> Option<u64>
    ensures value { result ≡ optional milliseconds_in (codes "pause") 500 (rows_of (found_of matches.now)) }
    ensures range { IfSome result (λ n. (1 ≤ n) × (n ≤ 60000)) }
{
    match value(matches, "pause") {
        None => Some(USUAL_PAUSE),
        Some(text) => milliseconds(text),
    }
}

/// Whether bad lines are passed over, which they are not where nothing is said.
fn skip_bad(matches: &ArgMatches<'_>) -> Option<bool>
    ensures { result ≡ optional yes_in (codes "skip-bad") false (rows_of (found_of matches.now)) }
{
    match value(matches, "skip-bad") {
        None => Some(false),
        Some(text) => yes(text),
    }
}

/// The sources that are named.
fn sources<'a>(alloc: Global, matches: &ArgMatches<'a>) -> Result<Vec<&'a str>, WordsFault>
    ensures ok { IfOk result (λ some. sources_of (rows_of (found_of matches.now)) ≡ Some (map (λ s. s.now) some.items)) }
    ensures usage { IsErrOf result WordsFault.Usage → sources_of (rows_of (found_of matches.now)) ≡ None }
    ensures count { IfOk result (λ some. (1 ≤ length some.items) × (length some.items ≤ 8)) }
{
    let Some(words) = further(matches, "source") else {
        return Err(WordsFault::Usage);
    };
    if !are_sources(words) {
        return Err(WordsFault::Usage);
    }
    Ok(Vec::from_slice(alloc, words)?)
}

/// What they ask for by what clap found.
pub fn values<'a>(alloc: Global, matches: &ArgMatches<'a>) -> Result<Watched<'a>, WordsFault>
    ensures ok { IfOk result (λ w. monitor_of (rows_of (found_of matches.now)) ≡ Some (asked_monitor w)) }
    ensures usage { IsErrOf result WordsFault.Usage → monitor_of (rows_of (found_of matches.now)) ≡ None }
    ensures range { IfOk result IsWatched }
{
    Ok(Watched {
        number: number(matches).ok_or(WordsFault::Usage)?,
        objects: named_file(matches, "objects").ok_or(WordsFault::Usage)?,
        run: short(matches, "run").ok_or(WordsFault::Usage)?,
        connect: coordinator(matches).ok_or(WordsFault::Usage)?,
        frames: frames(matches).ok_or(WordsFault::Usage)?,
        pause: pause(matches).ok_or(WordsFault::Usage)?,
        silence: silence(matches).ok_or(WordsFault::Usage)?,
        tries: times(matches, "tries").ok_or(WordsFault::Usage)?,
        skip_bad: skip_bad(matches).ok_or(WordsFault::Usage)?,
        window: recent_window(matches).ok_or(WordsFault::Usage)?,
        sources: sources(alloc, matches)?,
    })
}
