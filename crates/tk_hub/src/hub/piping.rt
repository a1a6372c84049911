//! The hub's wires: bytes that pipes bring to one or take from it, and a look at one.

ghost use Rattle.std.specs.Prelude.{◌≡◌};
ghost use Rattle.tk_journal.specs.Laws.{IsMonitor};
ghost use Rattle.tk_hub.specs.End.{SeatDrains, SeatFills, TellsWire};
ghost use Rattle.tk_hub.specs.Hub.{IsHub};
ghost use Rattle.tk_hub.specs.Seats.{link_of, with_link};

use crate::hub::Hub;
use tk_base::Mon;
use tk_wire::{Pipe, Piped, Wire};

impl<W: Piped> Hub<W> {
    /// As the drain of this monitor's wire; where that is not there or is shut nothing moves. It takes no memory.
    pub fn drain(&mut self, mon: Mon, to: &mut Pipe) -> usize
        requires { IsMonitor self.old.coordinator.settings mon.0 }
        ensures drains { SeatDrains W.piece W.bearing result
            (link_of self.old.links mon.0) (link_of self.new.links mon.0) to.old to.new }
        ensures rest { self.new ≡ record self.old { links = with_link mon.0 self.new.links self.old.links } }
        ensures kept { IsHub self.new }
    {
        self.seats.drain_at(mon, to)
    }

    /// As the fill of this monitor's wire; where that is not there or is shut nothing moves. It takes no memory.
    pub fn fill(&mut self, mon: Mon, from: &mut Pipe) -> usize
        requires { IsMonitor self.old.coordinator.settings mon.0 }
        ensures fills { SeatFills W.piece W.bearing result
            (link_of self.old.links mon.0) (link_of self.new.links mon.0) from.old from.new }
        ensures rest { self.new ≡ record self.old { links = with_link mon.0 self.new.links self.old.links } }
        ensures kept { IsHub self.new }
    {
        self.seats.fill_at(mon, from)
    }
}

impl<W: Wire> Hub<W> {
    /// The wire of this monitor, if it was admitted; it tells what is shown of it.
    pub fn wire_at(&self, mon: Mon) -> Option<&W>
        requires { IsMonitor self.now.coordinator.settings mon.0 }
        ensures tells { TellsWire W.traffic W.counts W.tells (link_of self.now.links mon.0) result }
        ensures kept { IsHub self.now }
    {
        self.seats.wire_at(mon)
    }
}
