ghost use Rattle.std.specs.Prelude.{◌≡◌, ◌<◌, ◌≤◌, ◌-◌, ◌↔◌, [], IsTrue, length, nat_lt, take, slice_range, IfOk, OnOk};
ghost use Rattle.tk_wire.specs.Meanings.{FitsSlice};
ghost use Rattle.tk_net.specs.Chunks.{IsThere, front_of as front};
ghost use Rattle.tk_net.specs.Cables.{Fills, HandsOut, Opens};

use crate::chunk::{Front, HEAD, PULSE, front_of};
use crate::source::Source;
use std::alloc::Global;
use std::marker::Model;
use tk_base::NoMemory;
use tk_wire::Took;

/// How many bytes it has room for at first. A greater chunk makes it greater.
const ROOM: usize = 4_096;

/// What came over a cable: the bytes of one chunk that are not taken yet, and behind them those that are not read as chunks.
#[derive(Drop)]
pub(crate) struct Inlet {
    bytes: Vec<u8>,
    start: usize,
    // Where the chunk ends that is taken.
    middle: usize,
    end: usize,
}

impl Model for Inlet {
    ghost use Rattle.std.specs.Prelude.{◌≤◌, ◌-◌, slice_range, vec_len};
    ghost use Rattle.tk_net.specs.Cables.{InletView};

    ghost Value = { InletView };

    ghost view = { λ i. record {
      held = slice_range i.bytes.items i.start i.middle;
      unread = slice_range i.bytes.items i.middle i.end;
      room = vec_len i.bytes - i.end;
    } };

    ghost invariant = { λ i. (i.start ≤ i.middle) × (i.middle ≤ i.end) × (i.end ≤ vec_len i.bytes) };
}

// Copies what stands between two places to the front.
fn move_to_front(bytes: &mut [u8], start: usize, end: usize)
    requires { (start ≤ end) × (end ≤ length bytes.old) }
    ensures moved { take (end - start) bytes.new ≡ slice_range bytes.old start end }
    ensures size { length bytes.new ≡ length bytes.old }
{
    bytes.copy_within(start..end, 0);
}

// Reads to the places from `end` on.
fn read_behind<S: Source>(source: &mut S, bytes: &mut [u8], end: usize) -> Took
    requires { end < length bytes.old }
    ensures fits { FitsSlice result (length bytes.old - end) }
    ensures front { take end bytes.new ≡ take end bytes.old }
    ensures size { length bytes.new ≡ length bytes.old }
{
    source.read(&mut bytes[end..])
}

impl Inlet {
    /// Nothing came.
    pub(crate) fn new(alloc: Global) -> Result<Inlet, NoMemory>
        ensures { IfOk result (λ inlet. (inlet.held ≡ []) × (inlet.unread ≡ [])) }
    {
        Ok(Inlet {
            bytes: Vec::from_elem(alloc, 0, ROOM)?,
            start: 0,
            middle: 0,
            end: 0,
        })
    }

    /// Whether bytes of a chunk are there to be taken.
    pub(crate) fn is_open(&self) -> bool
        ensures { result ≡ nat_lt 0 (length self.now.held) }
    {
        self.start < self.middle
    }

    /// Whether nothing is there that is not taken.
    pub(crate) fn is_empty(&self) -> bool
        ensures { IsTrue result ↔ ((self.now.held ≡ []) × (self.now.unread ≡ [])) }
    {
        self.start == self.end
    }

    /// Takes as many bytes of the chunk as fit.
    pub(crate) fn take(&mut self, into: &mut [u8]) -> usize
        ensures { HandsOut result self.old self.new into.old into.new }
    {
        let count = into.len().min(self.middle - self.start);
        into[..count].copy_from_slice(&self.bytes[self.start..self.start + count]);
        self.start += count;
        count
    }

    /// Reads what stands behind the chunk that was taken. A chunk whose check sum is right is opened, and a pulse is dropped.
    pub(crate) fn open_next(&mut self) -> Front
        requires { self.old.held ≡ [] }
        ensures value { result ≡ front self.old.unread }
        ensures whole { IsThere result self.old.unread }
        ensures opens { Opens result self.old self.new }
    {
        let front = front_of(&self.bytes[self.middle..self.end]);
        match front {
            Front::Pulse => {
                self.middle += PULSE.len();
                self.start = self.middle;
            }
            Front::Chunk(size) => {
                self.start = self.middle + HEAD;
                self.middle = self.start + size;
            }
            Front::Part(_) | Front::Bad => {}
        }
        front
    }

    /// Makes room for more, of a chunk of so many bytes in all.
    pub(crate) fn make_room(&mut self, size: usize) -> Result<(), NoMemory>
        requires taken { self.old.held ≡ [] }
        requires more { length self.old.unread < size }
        ensures taken { self.new.held ≡ [] }
        ensures unread { self.new.unread ≡ self.old.unread }
        ensures room { OnOk result (0 < self.new.room) }
    {
        if self.bytes.len() - self.middle < size {
            move_to_front(&mut self.bytes, self.middle, self.end);
            self.end -= self.middle;
            self.start = 0;
            self.middle = 0;
        }
        if self.bytes.len() < size {
            self.bytes.resize(size, 0)?;
        }
        Ok(())
    }

    /// One read, of as many bytes as there is room for.
    pub(crate) fn fill<S: Source>(&mut self, source: &mut S) -> Took
        requires { 0 < self.old.room }
        ensures { Fills result self.old self.new }
    {
        let took = read_behind(source, &mut self.bytes, self.end);
        if let Took::Bytes(count) = took {
            self.end += count;
        }
        took
    }
}
