//! Why a stream ends the process.

use tk_base::{Feeder, Obj};
use tk_stream::LineFault;

/// What was wrong with a stream.
#[derive(Clone, Copy, Debug, PartialEq, Eq)]
pub enum FeedKind {
    /// It cannot be read.
    Unread,
    /// The line of this number is none that the process understands.
    Bad { line: u32, fault: LineFault },
    /// With a record of this object the values would be too great.
    TooGreat(Obj),
    NoMemory,
}

/// The fault of a stream for which the process ends.
#[derive(Clone, Copy, Debug, PartialEq, Eq)]
pub struct FeedFault {
    pub stream: Feeder,
    pub kind: FeedKind,
}
