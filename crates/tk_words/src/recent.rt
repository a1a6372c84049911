ghost use Rattle.std.specs.Prelude.{◌≡◌, ◌≤◌, IfSome, option_map};
ghost use Rattle.clap.specs.Words.{found_of, rows_of};
ghost use Rattle.tk_words.specs.Asked.{IsRecent, asked_recent};
ghost use Rattle.tk_words.specs.Words.{recent_of, width_of};

use crate::forms::window_width;
use crate::parsing::{seconds, value};
use clap::ArgMatches;

/// The window of a monitor, which sums the last ticks of its streams.
#[derive(Clone, Copy, Debug, PartialEq, Eq)]
pub struct Recent {
    /// In ticks, 1 to 1,000,000.
    pub width: u64,
    /// How many seconds of the machine's clock a tick takes, 1 to 3,600, where no lines end ticks.
    pub tick: Option<u64>,
}

/// The width of the window, where it is written.
fn width(matches: &ArgMatches<'_>) -> Option<Option<u64>>
    ensures value { result ≡ width_of (rows_of (found_of matches.now)) }
    ensures range { IfSome result (λ written. IfSome written (λ n. (1 ≤ n) × (n ≤ 1000000))) }
{
    match value(matches, "width") {
        None => Some(None),
        Some(text) => Some(Some(window_width(text)?)),
    }
}

/// The window, where there is one. Only such a window has a tick.
pub fn recent_window(matches: &ArgMatches<'_>) -> Option<Option<Recent>>
    ensures value { option_map (option_map asked_recent) result ≡ recent_of (rows_of (found_of matches.now)) }
    ensures range { IfSome result (λ window. IfSome window IsRecent) }
{
    let width = width(matches)?;
    let tick = seconds(matches, "tick")?;
    match (width, tick) {
        (None, None) => Some(None),
        (None, Some(_)) => None,
        (Some(width), tick) => Some(Some(Recent { width, tick })),
    }
}
