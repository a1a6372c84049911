ghost use Rattle.std.specs.Prelude.{◌≡◌, ◌<◌, ◌≤◌, ◌^◌, [], true, false, refl, IfOk};
ghost use Rattle.tk_wire.specs.SureWire.{bearing_sure, counts_sure, most_sure};

use crate::pipe::Pipe;
use crate::piped::Piped;
use crate::wire::{Gave, Took, Wire};
use std::alloc::Global;
use std::marker::Model;
use tk_base::NoMemory;

/// How many bytes go to or from a pipe at once, at most.
const MOST: usize = 65_536;

/// A wire in memory of which no call fails, and which does not end. It tells its bytes.
#[derive(Drop)]
pub struct SureWire {
    inbox: Pipe,
    outbox: Pipe,
    taken: u64,
    shut: bool,
}

impl Model for SureWire {
    ghost use Rattle.std.specs.Prelude.{◌≡◌, ◌++◌};
    ghost use Rattle.tk_wire.specs.SureWire.{SureView};

    ghost Value = { SureView };

    ghost view = { λ w. record {
      traffic = record {
        came = w.inbox.past;
        waiting = w.inbox.bytes;
        went = w.outbox.past ++ w.outbox.bytes;
        held = w.outbox.bytes;
        room = w.outbox.room;
      };
      taken = w.taken;
      shut = w.shut;
    } };

    ghost invariant = { λ w. w.inbox.room ≡ w.outbox.room };
}

impl SureWire {
    /// An inbox and an outbox with room for 1 to 2^32 bytes each, taken at once.
    pub fn new(alloc: Global, room: usize) -> Result<SureWire, NoMemory>
        requires { (0 < room) × (room ≤ 2 ^ 32) }
        ensures { IfOk result (λ w. w ≡ record {
          traffic = record { came = []; waiting = []; went = []; held = []; room = room };
          taken = 0;
          shut = false;
        }) }
    {
        Ok(SureWire {
            inbox: Pipe::new(alloc, room)?,
            outbox: Pipe::new(alloc, room)?,
            taken: 0,
            shut: false,
        })
    }
}

impl Wire for SureWire {
    ghost tells = { true };

    ghost traffic = { λ w. w.traffic };

    ghost counts = { counts_sure };

    ghost is_shut = { λ w. w.shut };

    fn faults(&self) -> u64 {
        0
    }

    fn ends(&self) -> u64 {
        0
    }

    fn taken(&self) -> u64 {
        self.taken
    }

    fn take(&mut self, into: &mut [u8]) -> Took {
        if self.inbox.len() == 0 {
            return Took::NotYet;
        }
        let count = self.inbox.get(into);
        self.taken = self.taken.saturating_add(count as u64);
        Took::Bytes(count)
    }

    fn give(&mut self, bytes: &[u8]) -> Gave {
        if self.outbox.free() == 0 {
            return Gave::NotYet;
        }
        Gave::Bytes(self.outbox.put(bytes))
    }

    fn shut(&mut self) {
        self.shut = true;
    }
}

impl Piped for SureWire {
    ghost piece = { most_sure };

    ghost bearing = { bearing_sure };

    ghost bears_its_own = { λ w. refl };

    fn drain(&mut self, to: &mut Pipe) -> usize {
        self.outbox.move_to(to, MOST)
    }

    fn fill(&mut self, from: &mut Pipe) -> usize {
        from.move_to(&mut self.inbox, MOST)
    }
}
