ghost use Rattle.std.specs.Prelude.{◌≡◌, ◌<◌, ◌≤◌, ◌^◌, true, length, refl, IfOk};
ghost use Rattle.tk_wire.specs.Meanings.{Takes, Gives, FitsSlice, FitsBytes, counts_taken, counts_given};
ghost use Rattle.tk_wire.specs.PipeWire.{new_wire, refuses, took_of, gave_of, with_traffic, StaysSet, called};

use crate::pipe::Pipe;
use crate::piped::Piped;
use crate::wire::{Gave, Took, Wire};
use std::alloc::Global;
use std::marker::Model;
use tk_base::NoMemory;

/// A wire in memory, some of whose calls fail. It tells its bytes.
#[derive(Drop)]
pub struct PipeWire {
    inbox: Pipe,
    outbox: Pipe,
    piece: usize,
    fails: Vec<u64>,
    calls: u64,
    faults: u64,
    ends: u64,
    taken: u64,
    closed: bool,
    shut: bool,
}

impl Model for PipeWire {
    ghost use Rattle.std.specs.Prelude.{◌≡◌, ◌<◌, ◌++◌};
    ghost use Rattle.tk_wire.specs.PipeWire.{MemoryWire};

    ghost Value = { MemoryWire };

    ghost view = { λ w. record {
      traffic = record {
        came = w.inbox.past;
        waiting = w.inbox.bytes;
        went = w.outbox.past ++ w.outbox.bytes;
        held = w.outbox.bytes;
        room = w.outbox.room;
      };
      counts = record { faults = w.faults; ends = w.ends; taken = w.taken };
      piece = w.piece;
      fails = w.fails.items;
      calls = w.calls;
      closed = w.closed;
      shut = w.shut;
    } };

    ghost invariant = { λ w. (0 < w.piece) × (w.inbox.room ≡ w.outbox.room) };
}

impl PipeWire {
    /// An inbox and an outbox with room for 1 to 2^32 bytes each, taken at once. A call moves at most `piece` bytes,
    /// 1 to 65,536. Call i of `take` and `give`, numbered together from 1, fails where i is among `fails`.
    pub fn new(
        alloc: Global,
        room: usize,
        piece: usize,
        fails: Vec<u64>,
    ) -> Result<PipeWire, NoMemory>
        requires room { (0 < room) × (room ≤ 2 ^ 32) }
        requires piece { (0 < piece) × (piece ≤ 65536) }
        ensures { IfOk result (λ w. w ≡ new_wire room piece fails.items) }
    {
        let inbox = Pipe::new(alloc, room)?;
        let outbox = Pipe::new(alloc, room)?;
        Ok(PipeWire {
            inbox,
            outbox,
            piece,
            fails,
            calls: 0,
            faults: 0,
            ends: 0,
            taken: 0,
            closed: false,
            shut: false,
        })
    }

    /// From now on a take from an empty inbox answers End.
    pub fn close(&mut self)
        ensures { self.new ≡ record self.old { closed = true } }
    {
        self.closed = true;
    }

    // Counts a call, and says whether it fails.
    fn is_refused(&mut self) -> bool
        ensures value { result ≡ refuses self.old }
        ensures called { self.new ≡ called self.old }
    {
        self.calls = self.calls.saturating_add(1);
        let refused = self.fails.contains(&self.calls);
        if refused {
            self.faults = self.faults.saturating_add(1);
        }
        refused
    }
}

impl Wire for PipeWire {
    ghost tells = { true };

    ghost traffic = { λ w. w.traffic };

    ghost counts = { λ w. w.counts };

    ghost is_shut = { λ w. w.shut };

    fn faults(&self) -> u64 {
        self.faults
    }

    fn ends(&self) -> u64 {
        self.ends
    }

    fn taken(&self) -> u64 {
        self.taken
    }

    fn take(&mut self, into: &mut [u8]) -> Took
        requires { 0 < length into.old }
        // What it answers.
        ensures answer { result ≡ took_of (length into.old) self.old }
        ensures kept { StaysSet self.old self.new }
        // As every wire that tells its bytes.
        ensures fits { FitsSlice result (length into.old) }
        ensures told { true ≡ true → Takes result into.new self.old.traffic self.new.traffic }
        ensures counted { self.new.counts ≡ counts_taken result self.old.counts }
        ensures shut { self.new.shut ≡ self.old.shut }
    {
        if self.is_refused() {
            return Took::Failed;
        }
        if self.inbox.len() == 0 {
            if !self.closed {
                return Took::NotYet;
            }
            self.ends = self.ends.saturating_add(1);
            return Took::End;
        }
        let most = into.len().min(self.piece);
        let count = self.inbox.get(&mut into[..most]);
        self.taken = self.taken.saturating_add(count as u64);
        Took::Bytes(count)
    }

    fn give(&mut self, bytes: &[u8]) -> Gave
        requires { 0 < length bytes.now }
        // What it answers.
        ensures answer { result ≡ gave_of (length bytes.now) self.old }
        ensures kept { StaysSet self.old self.new }
        // As every wire that tells its bytes.
        ensures fits { FitsBytes result (length bytes.now) }
        ensures told { true ≡ true → Gives result bytes.now self.old.traffic self.new.traffic }
        ensures counted { self.new.counts ≡ counts_given result self.old.counts }
        ensures shut { self.new.shut ≡ self.old.shut }
    {
        if self.is_refused() {
            return Gave::Failed;
        }
        if self.outbox.free() == 0 {
            return Gave::NotYet;
        }
        let most = bytes.len().min(self.piece);
        Gave::Bytes(self.outbox.put(&bytes[..most]))
    }

    fn shut(&mut self)
        ensures kept { self.new ≡ record self.old { shut = true } }
        ensures told { true ≡ true → self.new.traffic ≡ self.old.traffic }
        ensures counted { self.new.counts ≡ self.old.counts }
        ensures shut { self.new.shut ≡ true }
    {
        self.shut = true;
    }
}

impl Piped for PipeWire {
    ghost piece = { λ w. w.piece };

    ghost bearing = { with_traffic };

    ghost bears_its_own = { λ w. refl };

    fn drain(&mut self, to: &mut Pipe) -> usize {
        self.outbox.move_to(to, self.piece)
    }

    fn fill(&mut self, from: &mut Pipe) -> usize {
        from.move_to(&mut self.inbox, self.piece)
    }
}
