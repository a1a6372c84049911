//! What a reader that knows ticks gives.

use tk_input::Change;

/// One record of a stream, or the end of a tick.
#[derive(Clone, Copy, Debug, PartialEq, Eq)]
pub enum Item {
    Record(Change),
    Tick,
}
