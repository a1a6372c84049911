/// What a raise did.
#[derive(Clone, Copy, Debug, PartialEq, Eq)]
pub enum Raised {
    /// One more change counts, and whether something is broken now.
    Done { broken: bool },
    /// The part has no more changes.
    Ended,
}

/// What a check sent.
#[derive(Clone, Copy, Debug, PartialEq, Eq)]
pub enum Checked {
    /// A Report, since something is broken.
    Reported,
    /// A Settled with `last`, since all parts are at their ends.
    ToldEnd,
    /// Nothing was due.
    Nothing,
}
