//! How a link says: it writes an actor's frames, and gives them to its wire.

ghost use Rattle.std.specs.Prelude.{◌≡◌, ◌<◌, ◌≤◌, ◌+◌, ◌^◌, ◌↔◌, [], length, IfOk, OnErr, OnOk};
ghost use Rattle.tk_frames.specs.Encoding.{Appends};
ghost use Rattle.tk_wire.specs.Buffered.{Loses, counts_pushed};
ghost use Rattle.tk_end.specs.Actor.{CanBeSent};
ghost use Rattle.tk_end.specs.Link.{LeavesFull, Says, with_given};

use crate::actor::Actor;
use crate::link::Link;
use tk_base::{Mon, NoMemory};
use tk_frames::Frame;
use tk_wire::{Pushed, Wire};

impl<W: Wire> Link<W> {
    /// How many of the actor's frames were written.
    fn written(&self) -> usize
        ensures { result ≡ self.now.written }
    {
        self.written
    }

    /// Writes the next of the actor's frames.
    fn write_next(&mut self, frame: &Frame) -> Result<(), NoMemory>
        requires sent { CanBeSent frame.now }
        requires few { self.old.written + 1 < 2 ^ 64 }
        ensures ok { OnOk result (Appends self.old.version frame.now self.old.output self.new.output) }
        ensures moved { OnOk result (self.new ≡ record self.old { output = self.new.output; written = self.old.written + 1 }) }
        ensures err { OnErr result (self.new ≡ self.old) }
    {
        self.add(frame)?;
        self.written += 1;
        Ok(())
    }

    /// Writes the actor's frames for the peer that are not written yet. Nothing is given.
    fn write<A: Actor>(&mut self, actor: &A, peer: Mon) -> Result<(), NoMemory>
        requires peer { A.IsPeer peer.0 actor.now }
        requires within { self.old.written ≤ length (A.said peer.0 actor.now) }
        ensures says { Says (A.said peer.0 actor.now) self.old self.new }
        ensures ok { OnOk result (self.new.written ≡ length (A.said peer.0 actor.now)) }
        ensures wire { self.new ≡ record self.old { output = self.new.output; written = self.new.written } }
    {
        let count = actor.count(peer);
        let mut place = self.written();
        while place < count {
            self.write_next(actor.frame_at(peer, place))?;
            place += 1;
        }
        Ok(())
    }

    /// Gives until nothing is left to give, without memory.
    fn push(&mut self) -> Pushed
        ensures given { Loses self.old.tells self.old.output self.new.output self.old.traffic self.new.traffic }
        ensures empty { (result ≡ Pushed.Empty) ↔ (self.new.output ≡ []) }
        ensures full { LeavesFull result self.new }
        ensures counted { self.new.counts ≡ counts_pushed result self.old.counts }
        ensures rest { self.new ≡ with_given self.new self.old }
    {
        self.output.push(&mut self.wire)
    }

    /// Writes the actor's frames for the peer that are not written yet, and gives until nothing is left to give.
    pub fn say<A: Actor>(&mut self, actor: &A, peer: Mon) -> Result<Pushed, NoMemory>
        requires peer { A.IsPeer peer.0 actor.now }
        requires within { self.old.written ≤ length (A.said peer.0 actor.now) }
        ensures says { Says (A.said peer.0 actor.now) self.old self.new }
        // Where it has the memory, every frame is written, and what is not given has no room on the wire.
        ensures ok { OnOk result (self.new.written ≡ length (A.said peer.0 actor.now)) }
        ensures empty { IfOk result (λ pushed. (pushed ≡ Pushed.Empty) ↔ (self.new.output ≡ [])) }
        ensures full { IfOk result (λ pushed. LeavesFull pushed self.new) }
        ensures counted { IfOk result (λ pushed. self.new.counts ≡ counts_pushed pushed self.old.counts) }
        // Where it has not, nothing was given.
        ensures err { OnErr result (self.new ≡ record self.old { output = self.new.output; written = self.new.written }) }
    {
        self.write(actor, peer)?;
        Ok(self.push())
    }
}
