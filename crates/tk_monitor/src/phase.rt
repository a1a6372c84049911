//! What a monitor took and said, as far as its next steps depend on it.

ghost use Rattle.std.specs.Prelude.{◌≡◌, ◌&&◌, nat_lt, not};

/// How far a monitor is in what the coordinator and it tell each other.
#[derive(Clone, Copy, Debug)]
pub(crate) struct Phase {
    /// The number of Assigns taken.
    pub seq: u64,
    /// A Report was sent since the last of them.
    pub reported: bool,
    /// A Settled with `last` was sent since.
    pub told: bool,
    pub stopped: bool,
}

impl Phase {
    /// Whether a Report may be sent: an Assign was taken, and none was sent since.
    pub fn may_report(self) -> bool
        ensures { result ≡ (nat_lt 0 self.seq && not self.reported) }
    {
        self.seq > 0 && !self.reported
    }

    /// An Assign is taken, and answered by a Report where something is broken.
    pub fn assigned(self, seq: u64, broken: bool, ended: bool) -> Phase
        ensures { result ≡ record self { seq = seq; reported = broken; told = not broken && ended } }
    {
        Phase {
            seq,
            reported: broken,
            told: !broken && ended,
            stopped: self.stopped,
        }
    }
}
