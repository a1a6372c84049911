//! How a monitor's process ended.

use crate::fault::FeedFault;

/// How a monitor's process ended.
#[derive(Clone, Copy, Debug, PartialEq, Eq)]
pub enum Verdict {
    /// Stop was taken.
    Done,
    /// The output cannot be written.
    WriteFault,
    /// As many dials in a row as there may be were answered by nobody.
    LinkFault,
    /// A stream failed, or gave what does not count.
    Fed(FeedFault),
    NoMemory,
}
