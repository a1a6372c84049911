//! The events of several queries: a raise is one of all, any other of a single one.

use tk_base::{Feeder, Mon};

/// What happens next, as a line of the order file of several queries says. A number is that of a query, from 1.
#[derive(Clone, Copy, Debug, PartialEq, Eq)]
pub enum MultiEvent {
    /// The next change of a feeder arrives, for all queries.
    Raise(Mon, Feeder),
    /// The monitor looks whether it has something to tell of a query.
    Check(u32, Mon),
    /// The coordinator of a query takes the next frame of the monitor.
    Up(u32, Mon),
    /// The monitor takes the next frame of the coordinator of a query.
    Down(u32, Mon),
}
