ghost use Rattle.std.specs.Prelude.{◌≡◌, ◌≤◌, ◌<◌, ◌++◌, [], drop, length, take, IfOk, OnErr, OnOk};
ghost use Rattle.tk_wire.specs.Greeting.{NamesMonitor, TellsStreams, greeting_bytes};
ghost use Rattle.tk_wire.specs.Meanings.{IsPiece};
ghost use Rattle.tk_net.specs.Chunks.{chunk_of, pulse};

use crate::chunk::{HEAD, PULSE, write_chunk};
use std::alloc::Global;
use std::marker::Model;
use tk_base::NoMemory;
use tk_wire::{Greeting, greetings_have_one_size};

/// How many bytes it has room for.
const ROOM: usize = 8_192;

/// What is to be written to a cable: what is left of a greeting, a pulse, or one chunk.
#[derive(Drop)]
pub(crate) struct Outlet {
    bytes: Vec<u8>,
    start: usize,
    end: usize,
}

impl Model for Outlet {
    ghost use Rattle.std.specs.Prelude.{◌≡◌, ◌≤◌, ℕ, List, slice_range, vec_len};

    ghost Value = { List ℕ };

    ghost view = { λ o. slice_range o.bytes.items o.start o.end };

    ghost invariant = { λ o. (o.start ≤ o.end) × (o.end ≤ vec_len o.bytes) × (vec_len o.bytes ≡ 8192) };
}

// Copies bytes to the front.
fn put_front(all: &mut [u8], bytes: &[u8])
    requires { length bytes.now ≤ length all.old }
    ensures { all.new ≡ bytes.now ++ drop (length bytes.now) all.old }
{
    all[..bytes.len()].copy_from_slice(bytes);
}

impl Outlet {
    /// Nothing is to be written. All memory that it ever has is taken here.
    pub(crate) fn new(alloc: Global) -> Result<Outlet, NoMemory>
        ensures { IfOk result (λ outlet. outlet ≡ []) }
    {
        Ok(Outlet {
            bytes: Vec::from_elem(alloc, 0, ROOM)?,
            start: 0,
            end: 0,
        })
    }

    /// The bytes that are left.
    pub(crate) fn left(&self) -> &[u8]
        ensures { result.now ≡ self.now }
    {
        &self.bytes[self.start..self.end]
    }

    /// Removes bytes that were written.
    pub(crate) fn remove(&mut self, count: usize)
        requires { count ≤ length self.old }
        ensures { self.new ≡ drop count self.old }
    {
        self.start += count;
    }

    // These bytes alone are to be written.
    fn set(&mut self, bytes: &[u8])
        requires { length bytes.now ≤ 8192 }
        ensures { self.new ≡ bytes.now }
    {
        put_front(&mut self.bytes, bytes);
        self.start = 0;
        self.end = bytes.len();
    }

    /// A pulse is to be written.
    pub(crate) fn put_pulse(&mut self)
        requires { self.old ≡ [] }
        ensures { self.new ≡ pulse }
    {
        self.set(&PULSE);
    }

    /// A greeting is to be written.
    pub(crate) fn put_greeting(&mut self, greeting: &Greeting) -> Result<(), NoMemory>
        requires monitor { NamesMonitor greeting.now }
        requires streams { TellsStreams greeting.now }
        ensures ok { OnOk result (self.new ≡ greeting_bytes greeting.now) }
        ensures err { OnErr result (self.new ≡ self.old) }
    {
        let mut bytes = Vec::new(*self.bytes.allocator());
        greeting.put(&mut bytes)?;
        greetings_have_one_size();
        self.set(&bytes);
        Ok(())
    }

    /// A chunk is to be written, of the front of some bytes. Answers how many it holds, at most 8,186.
    pub(crate) fn put_chunk(&mut self, bytes: &[u8]) -> usize
        requires empty { self.old ≡ [] }
        requires some { 0 < length bytes.now }
        ensures count { IsPiece result (length bytes.now) }
        ensures chunk { self.new ≡ chunk_of (take result bytes.now) }
    {
        let count = bytes.len().min(ROOM - HEAD);
        write_chunk(&bytes[..count], &mut self.bytes);
        self.start = 0;
        self.end = HEAD + count;
        count
    }
}
