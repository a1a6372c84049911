//! What became of a batch under the lock.

use crate::untold::Untold;

/// What became of a batch under the lock.
#[derive(Clone, Copy, Debug, PartialEq, Eq)]
pub(crate) enum Delivered {
    /// Nothing, since the process is over.
    Nothing,
    /// All of it was told, and there may be more.
    All,
    /// All of it was told, and then its stream closed.
    Closed,
    /// All of it was told, and the stream failed behind it.
    Failed,
    /// A record does not count, or a tick could not end, and nothing behind it was told.
    Stopped(Untold),
}
