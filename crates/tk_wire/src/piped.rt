ghost use Rattle.std.specs.Prelude.{◌≡◌, ℕ, min, length, take};
ghost use Rattle.tk_wire.specs.Meanings.{Traffic};
ghost use Rattle.tk_wire.specs.Pipe.{free, with_more, without};
ghost use Rattle.tk_wire.specs.PipeWire.{drained, filled, left_in};

use crate::pipe::Pipe;
use crate::wire::Wire;

/// A wire in memory, whose bytes go on through pipes.
pub trait Piped: Wire {
    /// How many bytes go to or from a pipe at once, at most.
    ghost piece: { Self → ℕ };

    /// The wire with other bytes on it.
    ghost bearing: { Traffic → Self → Self };

    /// Moves bytes from the front of the outbox to the end of the pipe, and answers how many.
    fn drain(&mut self, to: &mut Pipe) -> usize
        ensures value { result ≡ min (piece self.old) (min (length (Self.traffic self.old).held) (free to.old)) }
        ensures wire { self.new ≡ bearing (drained result (Self.traffic self.old)) self.old }
        ensures told { Self.traffic self.new ≡ drained result (Self.traffic self.old) }
        ensures counted { Self.counts self.new ≡ Self.counts self.old }
        ensures pipe { to.new ≡ with_more (take result (Self.traffic self.old).held) to.old };

    /// Moves bytes from the front of the pipe to the end of the inbox, and answers how many.
    fn fill(&mut self, from: &mut Pipe) -> usize
        ensures value { result ≡ min (piece self.old) (min (length from.old.bytes) (left_in (Self.traffic self.old))) }
        ensures wire { self.new ≡ bearing (filled (take result from.old.bytes) (Self.traffic self.old)) self.old }
        ensures told { Self.traffic self.new ≡ filled (take result from.old.bytes) (Self.traffic self.old) }
        ensures counted { Self.counts self.new ≡ Self.counts self.old }
        ensures pipe { from.new ≡ without result from.old };

    /// With the bytes that are on it a wire is as it was.
    ghost bears_its_own: { (w : Self) → bearing (Self.traffic w) w ≡ w };
}
