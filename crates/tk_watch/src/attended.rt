//! What one look at a connection comes to.

use crate::cause::Cause;
use crate::fault::FeedFault;

/// What one look at a connection comes to.
#[derive(Debug, Drop)]
pub enum Attended {
    /// More may have come.
    More,
    /// Nothing waits.
    Quiet,
    /// The connection is over.
    Left(Cause),
    /// Stop was taken. The counts of the streams stand here, and how many lines were passed over.
    Stopped { counts: Vec<u64>, skipped: u64 },
    /// A stream ended the process.
    Fed(FeedFault),
}
