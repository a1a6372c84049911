//! The pause between two connections.

use crate::cell::{WatchCell, WatchName};
use crate::fault::FeedFault;
use std::sync::Wait;
use std::thread;
use std::time::{Clock, Duration};
use tk_wire::{Bell, Wire};

/// For how many milliseconds the fault of a stream may wait in a pause.
const STEP: u64 = 20;

/// Ends a tick that is due by the clock, and answers the fault of a stream.
fn tend<R: Wait + Clock, W: Wire + Drop, B: Bell + Drop, N: WatchName>(
    rt: &R,
    cell: &WatchCell<W, B, N>,
) -> Option<FeedFault> {
    let mut watched = cell.lock(rt);
    watched.keep_time(rt);
    watched.fault()
}

/// Lets so many milliseconds pass, unless a stream ends the process before.
pub(crate) fn pause<R: Wait + Clock, W: Wire + Drop, B: Bell + Drop, N: WatchName>(
    rt: &R,
    cell: &WatchCell<W, B, N>,
    milliseconds: u64,
) -> Option<FeedFault> {
    for _ in 0..milliseconds / STEP {
        let fault = tend(rt, cell);
        if fault.is_some() {
            return fault;
        }
        thread::sleep(rt, Duration::from_millis(STEP));
    }
    thread::sleep(rt, Duration::from_millis(milliseconds % STEP));
    tend(rt, cell)
}
