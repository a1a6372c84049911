ghost use Rattle.std.specs.Prelude.{◌≡◌, ◌<◌, [], true, false, length};
ghost use Rattle.std.specs.Arc.{arc_value};
ghost use Rattle.tk_wire.specs.Meanings.{Takes, Gives, FitsSlice, FitsBytes, counts_taken, counts_given};
ghost use Rattle.tk_net.specs.Counting.{untold};
ghost use Rattle.tk_net.specs.Memory.{new_memory_link, DoesTake, DoesGive};

use crate::link_counts::LinkCounts;
use crate::plan::Plan;
use crate::ring;
use crate::ring::RingEnds;
use rtrb::{Consumer, Producer};
use std::alloc::Global;
use std::marker::Model;
use std::sync::Arc;
use tk_wire::{Gave, Took, Wire};

/// One end of a connection in memory. Two rings join it to the other end, which a thread of its own may hold.
#[derive(Drop)]
pub struct MemLink {
    // None once the link was shut.
    outbox: Option<Producer<u8>>,
    inbox: Consumer<u8>,
    plan: Arc<Plan, Global>,
    counts: LinkCounts,
}

impl Model for MemLink {
    ghost use Rattle.std.specs.Prelude.{◌≡◌, [], is_none};
    ghost use Rattle.std.specs.Arc.{arc_value};
    ghost use Rattle.tk_net.specs.Memory.{MemoryLink};

    ghost Value = { MemoryLink };

    ghost view = { λ l. record { counts = l.counts; shut = is_none l.outbox; fails = (arc_value l.plan).fails } };

    ghost invariant = { λ l. (arc_value l.plan).fails ≡ [] → l.counts.faults ≡ 0 };
}

impl MemLink {
    /// The link over one end of a connection.
    pub(crate) fn new(ends: RingEnds, plan: Arc<Plan, Global>) -> MemLink
        ensures { result ≡ new_memory_link (arc_value plan).fails }
    {
        let RingEnds { outbox, inbox } = ends;
        MemLink {
            outbox: Some(outbox),
            inbox,
            plan,
            counts: LinkCounts::new(),
        }
    }

    pub(crate) fn counts(&self) -> &LinkCounts
        ensures { result.now ≡ self.now.counts }
    {
        &self.counts
    }
}

impl Wire for MemLink {
    ghost tells = { false };

    ghost traffic = { λ _. untold };

    ghost counts = { λ l. l.counts };

    ghost is_shut = { λ l. l.shut };

    fn faults(&self) -> u64
        ensures value { result ≡ self.now.counts.faults }
        // Where no call of its net is listed.
        ensures quiet { self.now.fails ≡ [] → result ≡ 0 }
    {
        let _ = &self.plan;
        self.counts.faults()
    }

    fn ends(&self) -> u64 {
        self.counts.ends()
    }

    fn taken(&self) -> u64 {
        self.counts.taken()
    }

    fn take(&mut self, into: &mut [u8]) -> Took
        requires { 0 < length into.old }
        // As every wire.
        ensures fits { FitsSlice result (length into.old) }
        ensures told { false ≡ true → Takes result into.new untold untold }
        ensures counted { self.new.counts ≡ counts_taken result self.old.counts }
        ensures shut { self.new.shut ≡ self.old.shut }
        // Where no call of its net is listed.
        ensures quiet { self.old.fails ≡ [] → DoesTake result }
        ensures kept { self.new ≡ record self.old { counts = self.new.counts } }
    {
        let took = ring::take(&self.plan, &mut self.inbox, into);
        self.counts.note_take(took);
        took
    }

    fn give(&mut self, bytes: &[u8]) -> Gave
        requires { 0 < length bytes.now }
        // As every wire.
        ensures fits { FitsBytes result (length bytes.now) }
        ensures told { false ≡ true → Gives result bytes.now untold untold }
        ensures counted { self.new.counts ≡ counts_given result self.old.counts }
        ensures shut { self.new.shut ≡ self.old.shut }
        // Where no call of its net is listed.
        ensures quiet { self.old.fails ≡ [] → DoesGive result }
        ensures kept { self.new ≡ record self.old { counts = self.new.counts } }
    {
        let gave = match &mut self.outbox {
            Some(outbox) => ring::give(&self.plan, outbox, bytes),
            None => Gave::NotYet,
        };
        self.counts.note_give(gave);
        gave
    }

    fn shut(&mut self)
        ensures told { false ≡ true → untold ≡ untold }
        ensures counted { self.new.counts ≡ self.old.counts }
        ensures shut { self.new.shut ≡ true }
        ensures kept { self.new ≡ record self.old { shut = true } }
    {
        self.outbox = None;
    }
}
