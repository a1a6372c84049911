ghost use Rattle.std.specs.Prelude.{◌≡◌, ℕ, ◌<◌, List, Bool, true, length};
ghost use Rattle.tk_wire.specs.Meanings.{Traffic, Counts, Takes, Gives, FitsSlice, FitsBytes, counts_taken, counts_given};

/// What a take answers.
#[derive(Clone, Copy, Debug, PartialEq, Eq)]
pub enum Took {
    /// So many bytes stand at the front of the slice, at least one.
    Bytes(usize),
    NotYet,
    /// Nothing will come any more.
    End,
    Failed,
}

/// What a give answers.
#[derive(Clone, Copy, Debug, PartialEq, Eq)]
pub enum Gave {
    /// So many bytes from the front were taken over, at least one.
    Bytes(usize),
    NotYet,
    Failed,
}

/// One end of a connection, over which bytes go both ways and which never waits.
pub trait Wire {
    /// Whether wires of this type tell their bytes. If not, `traffic` means nothing.
    ghost tells: { Bool };

    /// The bytes that passed and that are on their way.
    ghost traffic: { Self → Traffic };

    /// Its three counts, which every wire tells.
    ghost counts: { Self → Counts };

    /// Whether it was shut, which every wire tells.
    ghost is_shut: { Self → Bool };

    /// How many calls failed.
    fn faults(&self) -> u64
        ensures { result ≡ (counts self.now).faults };

    /// How many takes found the end.
    fn ends(&self) -> u64
        ensures { result ≡ (counts self.now).ends };

    /// How many bytes were taken.
    fn taken(&self) -> u64
        ensures { result ≡ (counts self.now).taken };

    /// Takes bytes to the front of a slice that is not empty.
    fn take(&mut self, into: &mut [u8]) -> Took
        requires { 0 < length into.old }
        ensures fits { FitsSlice result (length into.old) }
        ensures told { tells ≡ true → Takes result into.new (traffic self.old) (traffic self.new) }
        ensures counted { counts self.new ≡ counts_taken result (counts self.old) }
        ensures shut { is_shut self.new ≡ is_shut self.old };

    /// Gives bytes from the front of a slice that is not empty.
    fn give(&mut self, bytes: &[u8]) -> Gave
        requires { 0 < length bytes.now }
        ensures fits { FitsBytes result (length bytes.now) }
        ensures told { tells ≡ true → Gives result bytes.now (traffic self.old) (traffic self.new) }
        ensures counted { counts self.new ≡ counts_given result (counts self.old) }
        ensures shut { is_shut self.new ≡ is_shut self.old };

    /// Closes the connection, without memory. A wire that was shut is used no more.
    fn shut(&mut self)
        ensures told { tells ≡ true → traffic self.new ≡ traffic self.old }
        ensures counted { counts self.new ≡ counts self.old }
        ensures shut { is_shut self.new ≡ true };
}
