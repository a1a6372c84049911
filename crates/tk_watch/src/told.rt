//! What becomes of a record.

/// What became of a record.
#[derive(Clone, Copy, Debug, PartialEq, Eq)]
pub enum Told {
    /// It counts. `broken` says whether something is broken behind it, `fresh` whether there was no room for it in the session,
    /// so that the monitor began anew.
    Done { broken: bool, fresh: bool },
    /// Its stream is closed.
    Closed,
    /// With it the sizes of the values would sum to more than 2^100.
    TooGreat,
    NoMemory,
}
