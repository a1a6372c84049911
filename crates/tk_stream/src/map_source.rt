//! A stream in memory, in pieces of a chosen size, some of whose reads fail.

ghost use Rattle.std.specs.Prelude.{◌≡◌, ◌<◌, ◌≤◌, true, IfOk, is_ok, length, not, take};
ghost use Rattle.tk_input.specs.Files.{one_more};
ghost use Rattle.tk_stream.specs.MapStreams.{fails_next, read_now};
ghost use Rattle.tk_stream.specs.Source.{Gives, read_faults};

use crate::source::{ReadFailed, Source};
use std::marker::Model;

/// Bytes in memory that are still to be read.
#[derive(Debug, Drop)]
pub struct MapSource {
    bytes: Vec<u8>,
    at: usize,
    piece: usize,
    fails: Vec<u64>,
    reads: u64,
    faults: u64,
}

impl Model for MapSource {
    ghost use Rattle.std.specs.Prelude.{◌≤◌, drop, vec_len};
    ghost use Rattle.tk_stream.specs.MapStreams.{MapSourceView};

    ghost Value = { MapSourceView };

    ghost view = { λ s. record {
      rest = drop s.at s.bytes.items;
      piece = s.piece;
      fails = s.fails.items;
      reads = s.reads;
      faults = s.faults;
    } };

    ghost invariant = { λ s. (1 ≤ s.piece) × (s.at ≤ vec_len s.bytes) };
}

impl MapSource {
    /// Each read gives at most a piece. Read i, from 1, fails where i is among `fails`.
    pub fn new(bytes: Vec<u8>, piece: usize, fails: Vec<u64>) -> MapSource
        requires { 1 ≤ piece }
        ensures { result ≡ record { rest = bytes.items; piece = piece; fails = fails.items; reads = 0; faults = 0 } }
    {
        MapSource {
            bytes,
            at: 0,
            piece,
            fails,
            reads: 0,
            faults: 0,
        }
    }
}

/// Copies as many bytes as fit, and says how many.
fn copy_front(from: &[u8], piece: usize, room: &mut [u8]) -> usize
    ensures count { result ≡ read_now piece (length room.old) from.now }
    ensures front { take result room.new ≡ take result from.now }
{
    let count = from.len().min(piece).min(room.len());
    room[..count].copy_from_slice(&from[..count]);
    count
}

impl Source for MapSource {
    ghost tells = { true };

    ghost content = { λ s. s.rest };

    ghost fault_count = { λ s. s.faults };

    fn faults(&self) -> u64 {
        self.faults
    }

    fn read(&mut self, room: &mut [u8]) -> Result<usize, ReadFailed>
        requires { 0 < length room.old }
        // Which reads fail, and what is read.
        ensures fails { is_ok result ≡ not (fails_next self.old) }
        ensures piece { IfOk result (λ n. n ≡ read_now self.old.piece (length room.old) self.old.rest) }
        ensures kept { (self.new.piece ≡ self.old.piece) × (self.new.fails ≡ self.old.fails) }
        ensures reads { self.new.reads ≡ one_more self.old.reads }
        // As every implementation of the trait.
        ensures fits { IfOk result (λ n. n ≤ length room.old) }
        ensures told { true ≡ true → Gives result room.new self.old.rest self.new.rest }
        ensures counted { self.new.faults ≡ read_faults result self.old.faults }
    {
        self.reads = self.reads.saturating_add(1);
        if self.fails.contains(&self.reads) {
            self.faults = self.faults.saturating_add(1);
            return Err(ReadFailed);
        }
        let count = copy_front(&self.bytes[self.at..], self.piece, room);
        self.at += count;
        Ok(count)
    }
}
