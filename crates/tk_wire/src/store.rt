ghost use Rattle.std.specs.Prelude.{◌≡◌, ◌<◌, ◌≤◌, ◌+◌, ◌-◌, [], true, OnOk, length, take, drop, slice_range, vec_len};
ghost use Rattle.tk_wire.specs.Meanings.{FitsSlice, IsPiece, Takes, counts_taken};
ghost use Rattle.tk_wire.specs.Store.{Fills};

use crate::wire::{Took, Wire};
use std::alloc::Global;
use std::marker::Model;
use tk_base::NoMemory;

/// The most bytes of one take, so that a connection with little to say costs little.
pub const PIECE: usize = 4_096;

/// Bytes in their order, and room behind them.
#[derive(Drop)]
pub struct Store {
    bytes: Vec<u8>,
    start: usize,
    end: usize,
}

impl Model for Store {
    ghost use Rattle.std.specs.Prelude.{◌≤◌, ◌-◌, slice_range, vec_len};
    ghost use Rattle.tk_wire.specs.Store.{StoreView};

    ghost Value = { StoreView };

    ghost view = { λ s. record { held = slice_range s.bytes.items s.start s.end; room = vec_len s.bytes - s.end } };

    ghost invariant = { λ s. (s.start ≤ s.end) × (s.end ≤ vec_len s.bytes) };
}

/// Copies what stands between two places to the front, where what stands before is no shorter.
pub fn move_to_front(bytes: &mut [u8], start: usize, end: usize)
    requires within { (start ≤ end) × (end ≤ length bytes.old) }
    requires apart { end ≤ start + start }
    ensures { take (end - start) bytes.new ≡ slice_range bytes.old start end }
{
    let (front, back) = bytes.split_at_mut(start);
    front[..end - start].copy_from_slice(&back[..end - start]);
}

// Keeps so many bytes from a place on.
fn keep_range(bytes: &mut Vec<u8>, start: usize, count: usize)
    requires { start + count ≤ vec_len bytes.old }
    ensures { bytes.new.items ≡ take count (drop start bytes.old.items) }
{
    bytes.as_mut_slice().copy_within(start..start + count, 0);
    bytes.truncate(count);
}

// One take, to so many places from `end` on.
fn take_behind<W: Wire>(wire: &mut W, bytes: &mut [u8], end: usize, size: usize) -> Took
    requires size { 0 < size }
    requires within { end + size ≤ length bytes.old }
    ensures front { take end bytes.new ≡ take end bytes.old }
    ensures fits { FitsSlice result size }
    ensures told { W.tells ≡ true → Takes result (drop end bytes.new) (W.traffic wire.old) (W.traffic wire.new) }
    ensures counted { W.counts wire.new ≡ counts_taken result (W.counts wire.old) }
    ensures shut { W.is_shut wire.new ≡ W.is_shut wire.old }
{
    wire.take(&mut bytes[end..end + size])
}

impl Store {
    /// No bytes are held.
    pub fn new(alloc: Global) -> Store
        ensures { result.held ≡ [] }
    {
        Store {
            bytes: Vec::new(alloc),
            start: 0,
            end: 0,
        }
    }

    /// The bytes that are held, in order.
    pub fn held(&self) -> &[u8]
        ensures { result.now ≡ self.now.held }
    {
        &self.bytes[self.start..self.end]
    }

    /// Makes room for so many bytes. What stands before the bytes is only reclaimed where it is no shorter than
    /// they are, so each byte that was removed pays for one that moves.
    pub fn make_room(&mut self, room: usize) -> Result<(), NoMemory>
        requires { room ≤ 4096 }
        ensures room { OnOk result (room ≤ self.new.room) }
        ensures kept { self.new.held ≡ self.old.held }
    {
        if self.bytes.len() - self.end >= room {
            return Ok(());
        }
        if self.end - self.start <= self.start {
            move_to_front(&mut self.bytes, self.start, self.end);
            self.end -= self.start;
            self.start = 0;
        }
        if self.bytes.len() - self.end < room {
            self.bytes.resize(self.end + room, 0)?;
        }
        Ok(())
    }

    /// One take of at most so many bytes.
    pub fn fill<W: Wire>(&mut self, wire: &mut W, size: usize) -> Took
        requires size { IsPiece size 4096 }
        requires room { size ≤ self.old.room }
        ensures told { Fills result W.tells self.old.held self.new.held (W.traffic wire.old) (W.traffic wire.new) }
        ensures counted { W.counts wire.new ≡ counts_taken result (W.counts wire.old) }
        ensures shut { W.is_shut wire.new ≡ W.is_shut wire.old }
    {
        let took = take_behind(wire, &mut self.bytes, self.end, size);
        if let Took::Bytes(count) = took {
            self.end += count;
        }
        took
    }

    /// Removes bytes from the front.
    pub fn remove(&mut self, count: usize)
        requires { count ≤ length self.old.held }
        ensures { self.new.held ≡ drop count self.old.held }
    {
        self.start += count;
        if self.start == self.end {
            self.start = 0;
            self.end = 0;
        }
    }

    /// What stands between two places of the bytes, without memory.
    pub fn into_range(self, from: usize, to: usize) -> Vec<u8>
        requires { (from ≤ to) × (to ≤ length self.held) }
        ensures { result.items ≡ slice_range self.held from to }
    {
        let start = self.start + from;
        let mut bytes = self.bytes;
        keep_range(&mut bytes, start, to - from);
        bytes
    }
}
