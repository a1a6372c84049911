/// What a turn of the coordinator does: what a taken frame, or a retune, brings about.
#[derive(Clone, Copy, Debug, PartialEq, Eq)]
pub enum TurnKind {
    /// A retune opens a wide round.
    Tune,
    /// A stale Report or Settled changes nothing.
    Stale,
    /// A frame is noted, and nothing is sent for it.
    Note,
    /// A short round deals with its reporter alone.
    Short,
    /// A Report opens a wide round.
    Wide,
    /// A Report opens a full round, which with one monitor ends at once.
    Full,
    /// The last awaited Values end a round.
    End,
}

/// A turn as the ledger and the streak read it.
#[derive(Clone, Copy, Debug, PartialEq, Eq)]
pub struct Turn {
    pub kind: TurnKind,
    /// Whether its Report failed the short test.
    pub fails: bool,
    /// Whether it opened a wide round.
    pub widens: bool,
    /// Whether at its end no round is open and every current answer is a Settled.
    pub calm: bool,
}
