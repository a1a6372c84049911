//! What a look at a connection found.

use crate::cause::Cause;

/// What a look at a connection found.
#[derive(Clone, Copy, Debug, PartialEq, Eq)]
pub enum Turned {
    /// More may have come.
    More,
    /// Nothing waits.
    Quiet,
    /// Stop was taken.
    Stopped,
    /// The connection is over.
    Left(Cause),
}
