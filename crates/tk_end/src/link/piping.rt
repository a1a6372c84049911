//! Bytes moved between pipes and a link's wire in memory.

ghost use Rattle.tk_end.specs.Piping.{Drains, Fills};

use crate::link::Link;
use tk_wire::{Pipe, Piped};

impl<W: Piped> Link<W> {
    /// Moves bytes from the front of the wire's outbox to the end of the pipe, and answers how many; none where it is shut.
    pub fn drain(&mut self, to: &mut Pipe) -> usize
        ensures { Drains W.piece W.bearing result self.old self.new to.old to.new }
    {
        if self.shut {
            return 0;
        }
        self.wire.drain(to)
    }

    /// Moves bytes from the front of the pipe to the end of the wire's inbox, and answers how many; none where it is shut.
    pub fn fill(&mut self, from: &mut Pipe) -> usize
        ensures { Fills W.piece W.bearing result self.old self.new from.old from.new }
    {
        if self.shut {
            return 0;
        }
        self.wire.fill(from)
    }
}
