//! The wire at one seat: bytes that pipes bring to it or take from it, and a look at it.

ghost use Rattle.std.specs.Prelude.{◌≡◌};
ghost use Rattle.tk_journal.specs.Laws.{IsMonitor};
ghost use Rattle.tk_hub.specs.End.{SeatDrains, SeatFills, TellsWire};
ghost use Rattle.tk_hub.specs.Seats.{AreSeats, link_of, with_link};

use crate::piping::{drain, fill};
use crate::seats::Seats;
use tk_base::Mon;
use tk_wire::{Pipe, Piped, Wire};

impl<W: Piped> Seats<W> {
    /// Moves bytes from the wire of one seat to a pipe.
    pub fn drain_at(&mut self, mon: Mon, to: &mut Pipe) -> usize
        requires { IsMonitor self.old.coordinator.settings mon.0 }
        ensures drains { SeatDrains W.piece W.bearing result
            (link_of self.old.links mon.0) (link_of self.new.links mon.0) to.old to.new }
        ensures rest { self.new ≡ record self.old { links = with_link mon.0 self.new.links self.old.links } }
        ensures kept { AreSeats self.new }
    {
        drain(&mut self.links[mon.0 as usize - 1], to)
    }

    /// Moves bytes from a pipe to the wire of one seat.
    pub fn fill_at(&mut self, mon: Mon, from: &mut Pipe) -> usize
        requires { IsMonitor self.old.coordinator.settings mon.0 }
        ensures fills { SeatFills W.piece W.bearing result
            (link_of self.old.links mon.0) (link_of self.new.links mon.0) from.old from.new }
        ensures rest { self.new ≡ record self.old { links = with_link mon.0 self.new.links self.old.links } }
        ensures kept { AreSeats self.new }
    {
        fill(&mut self.links[mon.0 as usize - 1], from)
    }
}

impl<W: Wire> Seats<W> {
    /// The wire of one seat, where that is taken.
    pub fn wire_at(&self, mon: Mon) -> Option<&W>
        requires { IsMonitor self.now.coordinator.settings mon.0 }
        ensures { TellsWire W.traffic W.counts W.tells (link_of self.now.links mon.0) result }
    {
        match &self.links[mon.0 as usize - 1] {
            Some(link) => Some(link.wire()),
            None => None,
        }
    }
}
