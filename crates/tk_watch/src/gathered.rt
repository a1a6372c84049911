//! Why no more was read of a stream for now.

use crate::ended::Ended;
use crate::fault::FeedKind;

/// Why no more was read of a stream for now.
#[derive(Clone, Copy, Debug, PartialEq, Eq)]
pub(crate) enum Gathered {
    /// There may be more.
    More,
    /// There is none.
    Ended(Ended),
    /// The stream failed.
    Failed(FeedKind),
}
