ghost use Rattle.std.specs.Prelude.{◌≡◌, ◌<◌, [], true, false, IfOk, IfSome};
ghost use Rattle.std.specs.Arc.{arc_value};
ghost use Rattle.tk_wire.specs.Net.{Accepts, IsNew, called, closed, connected, given_back, knocking_connected, listened, rest_given_back};
ghost use Rattle.tk_net.specs.Counting.{untold};
ghost use Rattle.tk_net.specs.Memory.{new_memory_net, new_memory_link, new_memory_rest, DoesWork, StaysSet};

use crate::mem_bell::MemBell;
use crate::mem_link::MemLink;
use crate::mem_rest::MemRest;
use crate::net_counts::NetCounts;
use crate::plan::Plan;
use crate::ring;
use crate::ring::RingEnds;
use std::alloc::Global;
use std::collections::VecDeque;
use std::marker::Model;
use std::sync::Arc;
use std::thread;
use tk_base::NoMemory;
use tk_wire::{Net, NetFault, Rest};

/// How often a wait lets others run.
const YIELDS: u32 = 8;

/// A net in memory, for tests.
#[derive(Drop)]
pub struct MemNet {
    alloc: Global,
    plan: Arc<Plan, Global>,
    // What the connections that wait are given, first come first.
    door: VecDeque<RingEnds>,
    counts: NetCounts,
}

impl Model for MemNet {
    ghost use Rattle.std.specs.VecDeque.{deque_len};
    ghost use Rattle.std.specs.Arc.{arc_value};
    ghost use Rattle.tk_net.specs.Memory.{MemoryNet};

    ghost Value = { MemoryNet };

    ghost view = { λ n. record {
      state = n.counts;
      knocking = deque_len n.door;
      fails = (arc_value n.plan).fails;
      flip = (arc_value n.plan).flip;
    } };
}

impl MemNet {
    /// A net that fails the calls `fails` and no other. `listen`, `connect`, `accept` and `wait`, the `take` and `give` of its
    /// links and the `rest` of its rests are numbered together, from 1. The byte at place `flip`, from 0, among all bytes
    /// given to its links is turned into its complement.
    pub fn new(alloc: Global, fails: Vec<u64>, flip: Option<u64>) -> Result<MemNet, NoMemory>
        ensures { IfOk result (λ net. net ≡ new_memory_net fails.items flip) }
    {
        let plan = Arc::new(alloc, Plan::new(fails, flip))?;
        Ok(MemNet {
            alloc,
            plan,
            door: VecDeque::new(alloc),
            counts: NetCounts::new(),
        })
    }

    /// How many bytes were given to its links so far.
    pub fn given(&self) -> u64 {
        self.plan.given()
    }
}

// What connects: the link, the rest and the bell of its owner, and what the other end is given.
fn connection(
    alloc: Global,
    plan: &Arc<Plan, Global>,
) -> Result<(MemLink, MemRest, MemBell, RingEnds), NoMemory>
    ensures link { IfOk result (λ made. made.0 ≡ new_memory_link (arc_value plan.now).fails) }
    ensures rest { IfOk result (λ made. made.1 ≡ new_memory_rest (arc_value plan.now).fails) }
{
    let (ours, theirs) = ring::joined(alloc)?;
    let link = MemLink::new(ours, Arc::try_clone(plan)?);
    let (rest, bell) = MemRest::pair(alloc, plan)?;
    Ok((link, rest, bell, theirs))
}

impl Net for MemNet {
    type Link = MemLink;

    type Rest = MemRest;

    type Bell = MemBell;

    ghost state = { λ n. n.state };

    ghost tells_knocking = { true };

    ghost knocking = { λ n. n.knocking };

    fn faults(&self) -> u64 {
        self.counts.faults()
    }

    fn taken(&self) -> u64 {
        self.counts.taken()
    }

    fn listen(&mut self) -> Result<(), NetFault>
        requires { self.old.state.listens ≡ false }
        // As every net that tells who knocks.
        ensures state { self.new.state ≡ listened result self.old.state }
        ensures knocking { true ≡ true → self.new.knocking ≡ self.old.knocking }
        // Where no call is listed.
        ensures quiet { self.old.fails ≡ [] → DoesWork result }
        ensures kept { StaysSet self.old self.new }
    {
        if self.plan.refuses() {
            return Err(self.counts.fault(NetFault::Failed));
        }
        self.counts.note_door();
        Ok(())
    }

    fn connect(&mut self) -> Result<(MemLink, MemRest, MemBell), NetFault>
        requires listens { self.old.state.listens ≡ true }
        requires links { self.old.state.links < 64 }
        // As every net that tells who knocks.
        ensures link { IfOk result (λ made. IsNew false untold made.0.counts) }
        ensures rest { IfOk result (λ made. made.1.faults ≡ 0) }
        ensures state { self.new.state ≡ connected result self.old.state }
        ensures knocking { true ≡ true → self.new.knocking ≡ knocking_connected result self.old.knocking }
        // Where no call is listed.
        ensures quiet { self.old.fails ≡ [] → DoesWork result }
        ensures link_fails { IfOk result (λ made. made.0.fails ≡ self.old.fails) }
        ensures rest_fails { IfOk result (λ made. made.1.fails ≡ self.old.fails) }
        ensures kept { StaysSet self.old self.new }
    {
        if self.plan.refuses() {
            return Err(self.counts.fault(NetFault::Failed));
        }
        let Ok((link, rest, bell, theirs)) = connection(self.alloc, &self.plan) else {
            return Err(NetFault::NoMemory);
        };
        let Ok(()) = self.door.push_back(theirs) else {
            return Err(NetFault::NoMemory);
        };
        self.counts.note_link();
        Ok((link, rest, bell))
    }

    fn accept(&mut self) -> Result<Option<MemLink>, NetFault>
        requires { self.old.state.listens ≡ true }
        // As every net that tells who knocks.
        ensures link { IfOk result (λ got. IfSome got (λ link. IsNew false untold link.counts)) }
        ensures state { self.new.state ≡ called result self.old.state }
        ensures knocking { true ≡ true → Accepts result self.old.knocking self.new.knocking }
        // Where no call is listed.
        ensures quiet { self.old.fails ≡ [] → DoesWork result }
        ensures link_fails { IfOk result (λ got. IfSome got (λ link. link.fails ≡ self.old.fails)) }
        ensures kept { StaysSet self.old self.new }
    {
        if self.plan.refuses() {
            return Err(self.counts.fault(NetFault::Failed));
        }
        let Ok(plan) = Arc::try_clone(&self.plan) else {
            return Err(NetFault::NoMemory);
        };
        match self.door.pop_front() {
            Some(ends) => Ok(Some(MemLink::new(ends, plan))),
            None => Ok(None),
        }
    }

    fn wait(&mut self) -> Result<(), NetFault>
        requires { self.old.state.listens ≡ true }
        // As every net that tells who knocks.
        ensures state { self.new.state ≡ called result self.old.state }
        ensures knocking { true ≡ true → self.new.knocking ≡ self.old.knocking }
        // Where no call is listed.
        ensures quiet { self.old.fails ≡ [] → DoesWork result }
        ensures kept { StaysSet self.old self.new }
    {
        if self.plan.refuses() {
            return Err(self.counts.fault(NetFault::Failed));
        }
        for _ in 0..YIELDS {
            thread::yield_now();
        }
        Ok(())
    }

    fn close(&mut self)
        ensures state { self.new.state ≡ closed self.old.state }
        ensures knocking { true ≡ true → self.new.knocking ≡ 0 }
        ensures kept { StaysSet self.old self.new }
    {
        self.door.clear();
        self.counts.note_closed();
    }

    fn back(&mut self, link: MemLink)
        ensures state { self.new.state ≡ given_back link.counts self.old.state }
        ensures knocking { true ≡ true → self.new.knocking ≡ self.old.knocking }
        ensures kept { StaysSet self.old self.new }
    {
        self.counts.note_back(link.counts());
    }

    fn back_rest(&mut self, rest: MemRest)
        ensures state { self.new.state ≡ rest_given_back rest.faults self.old.state }
        ensures knocking { true ≡ true → self.new.knocking ≡ self.old.knocking }
        ensures kept { StaysSet self.old self.new }
    {
        self.counts.note_rest(rest.faults());
    }
}
