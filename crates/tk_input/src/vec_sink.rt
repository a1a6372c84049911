//! An output in memory that can be read back, with the puts that are to fail given.

ghost use Rattle.std.specs.Prelude.{◌≡◌, [], ◌++◌, if◌then◌else◌, Some, IfOk, OnOk, OnErr, is_ok, not};
ghost use Rattle.tk_input.specs.Files.{HasRisen, one_more};
ghost use Rattle.tk_input.specs.Sink.{Grows, GrowsByFront, put_faults};
ghost use Rattle.tk_input.specs.VecSink.{fails_at};

use crate::sink::{PutFailed, Sink};
use std::alloc::Global;
use std::marker::Model;
use tk_base::NoMemory;

/// A sink in memory of a fixed room, some of whose puts fail.
#[derive(Debug, Drop)]
pub struct VecSink {
    bytes: Vec<u8>,
    room: usize,
    fails: Vec<u64>,
    puts: u64,
    faults: u64,
}

impl Model for VecSink {
    ghost use Rattle.std.specs.Prelude.{◌≤◌, vec_len, vec_capacity};
    ghost use Rattle.tk_input.specs.VecSink.{Holds};

    ghost Value = { Holds };

    ghost view = { λ s. record {
      written = s.bytes.items;
      room = s.room;
      fails = s.fails.items;
      puts = s.puts;
      faults = s.faults;
    } };

    ghost invariant = { λ s. (vec_len s.bytes ≤ s.room) × (s.room ≤ vec_capacity s.bytes) };
}

impl VecSink {
    /// Put i, from 1, fails where i is among `fails`, as does a put that passes the room.
    pub fn new(alloc: Global, room: usize, fails: Vec<u64>) -> Result<VecSink, NoMemory>
        ensures { IfOk result (λ s. s ≡ record { written = []; room = room; fails = fails.items; puts = 0; faults = 0 }) }
    {
        let Ok(bytes) = Vec::with_capacity(alloc, room) else {
            drop(fails);
            return Err(NoMemory);
        };
        Ok(VecSink {
            bytes,
            room,
            fails,
            puts: 0,
            faults: 0,
        })
    }

    /// All the bytes of the puts that did not fail.
    pub fn written(&self) -> &[u8]
        ensures { result.now ≡ self.now.written }
    {
        self.bytes.as_slice()
    }
}

impl Sink for VecSink {
    ghost written = { λ s. Some s.written };

    ghost fault_count = { λ s. s.faults };

    fn faults(&self) -> u64 {
        self.faults
    }

    fn put(&mut self, bytes: &[u8]) -> Result<(), PutFailed>
        // Which puts fail, and what is written.
        ensures fails { is_ok result ≡ not (fails_at self.old bytes.now) }
        ensures written { self.new.written ≡ (if is_ok result then self.old.written ++ bytes.now else self.old.written) }
        ensures kept { (self.new.room ≡ self.old.room) × (self.new.fails ≡ self.old.fails) }
        ensures puts { self.new.puts ≡ one_more self.old.puts }
        // As every implementation of the trait.
        ensures ok { OnOk result (Grows (Some self.old.written) (Some self.new.written) bytes.now) }
        ensures err { OnErr result (GrowsByFront (Some self.old.written) (Some self.new.written) bytes.now) }
        ensures failed { OnErr result (HasRisen self.old.faults self.new.faults) }
        ensures counted { self.new.faults ≡ put_faults result self.old.faults }
    {
        self.puts = self.puts.saturating_add(1);
        let fails = self.fails.contains(&self.puts) || self.room - self.bytes.len() < bytes.len();
        if fails || self.bytes.extend_from_slice(bytes).is_err() {
            self.faults = self.faults.saturating_add(1);
            return Err(PutFailed);
        }
        Ok(())
    }
}
