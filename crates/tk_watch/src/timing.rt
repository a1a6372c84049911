//! The windows and the clock that a plan asks for.

ghost use Rattle.std.specs.Prelude.{◌≡◌, ◌≤◌, IfOk};
ghost use Rattle.tk_watch.specs.Fresh.{windows_for};

use crate::plan::Window;
use crate::windows::Windows;
use std::alloc::Global;
use std::time::Instant;
use tk_base::NoMemory;
use tk_recent::Metronome;

/// The windows of so many streams over so many objects.
pub(crate) fn windows_of(
    alloc: Global,
    window: Option<Window>,
    streams: u32,
    objects: u32,
) -> Result<Windows, NoMemory>
    requires { objects ≤ 65536 }
    ensures { IfOk result (λ windows. windows ≡ windows_for window streams objects) }
{
    match window {
        Some(Window { width, .. }) => Windows::new(alloc, streams, objects, width),
        None => Ok(Windows::none(alloc)),
    }
}

/// What ends the ticks, where a clock does. A tick takes at least a second.
pub(crate) fn clock_of(window: Option<Window>, now: Instant) -> Option<Metronome> {
    let seconds = window?.tick?;
    let seconds = u32::try_from(seconds).unwrap_or(u32::MAX).max(1);
    Some(Metronome::new(now, seconds))
}

/// Whether lines of the streams end the ticks.
pub(crate) fn has_marks(window: Option<Window>) -> bool {
    match window {
        Some(Window { tick, .. }) => tick.is_none(),
        None => false,
    }
}
