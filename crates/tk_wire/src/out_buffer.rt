ghost use Rattle.std.specs.Prelude.{◌≡◌, ◌≤◌, ◌↔◌, [], ℕ, true, drop, vec_len, IfErr, IsErrOf, OnOk, OnErr};
ghost use Rattle.tk_frames.specs.declared.fault.EncodeFault.TheVariants as faults;
ghost use Rattle.tk_frames.specs.Encoding.{Appends, IsBadHello, Refuses};
ghost use Rattle.tk_frames.specs.Size.{IsShort};
ghost use Rattle.tk_frames.specs.Spelling.{IsVersion};
ghost use Rattle.tk_wire.specs.Buffered.{IsFull, Loses, counts_pushed};

use crate::store::move_to_front;
use crate::wire::{Gave, Wire};
use std::alloc::Global;
use std::marker::Model;
use tk_frames::{EncodeFault, Frame, encode};

/// What a push answers.
#[derive(Clone, Copy, Debug, PartialEq, Eq)]
pub enum Pushed {
    /// All bytes are given.
    Empty,
    NotYet,
    Failed,
}

/// Bytes of frames that are not given to a wire yet.
#[derive(Drop)]
pub struct OutBuffer {
    bytes: Vec<u8>,
    start: usize,
    version: u8,
}

impl Model for OutBuffer {
    ghost use Rattle.std.specs.Prelude.{◌≤◌, drop, vec_len};
    ghost use Rattle.tk_frames.specs.Spelling.{IsVersion};
    ghost use Rattle.tk_wire.specs.Buffered.{Buffer};

    ghost Value = { Buffer };

    ghost view = { λ b. record { bytes = drop b.start b.bytes.items; version = b.version } };

    ghost invariant = { λ b. (b.start ≤ vec_len b.bytes) × IsVersion b.version };
}

// Reclaims what stands before the bytes, where it is no shorter than they are, so each byte that was given pays for
// one that moves.
fn compact(bytes: &mut Vec<u8>, start: usize) -> usize
    requires { start ≤ vec_len bytes.old }
    ensures within { result ≤ vec_len bytes.new }
    ensures kept { drop result bytes.new.items ≡ drop start bytes.old.items }
{
    let end = bytes.len();
    if start == 0 || start < end - start {
        return start;
    }
    move_to_front(bytes, start, end);
    bytes.truncate(end - start);
    0
}

impl OutBuffer {
    /// An empty buffer that writes version 1. It takes no memory.
    pub fn new(alloc: Global) -> OutBuffer
        ensures { result ≡ record { bytes = []; version = 1 } }
    {
        OutBuffer {
            bytes: Vec::new(alloc),
            start: 0,
            version: 1,
        }
    }

    /// The version, 1 or 2, in which frames are added from now on. It takes no memory.
    pub fn set_version(&mut self, version: u8)
        requires { IsVersion version }
        ensures { self.new ≡ record self.old { version = version } }
    {
        self.version = version;
    }

    /// The bytes that are not given yet.
    pub fn bytes(&self) -> &[u8]
        ensures { result.now ≡ self.now.bytes }
    {
        &self.bytes[self.start..]
    }

    /// Writes the frame at the end. A Hello is looked at first, then the length.
    pub fn add(&mut self, frame: &Frame) -> Result<(), EncodeFault>
        // What is written is the frame's spelling.
        ensures ok { OnOk result (Appends self.old.version frame.now self.old.bytes self.new.bytes) }
        // An error leaves the bytes as they were, and comes only where it says.
        ensures err { OnErr result (self.new.bytes ≡ self.old.bytes) }
        ensures refused { IfErr result (Refuses self.old.version frame.now) }
        ensures hello { IsErrOf result faults.BadHello ↔ IsBadHello frame.now }
        ensures short { IsShort frame.now → (size : ℕ) → IsErrOf result (faults.TooLong size) → ⊥ }
        ensures version { self.new.version ≡ self.old.version }
    {
        self.start = compact(&mut self.bytes, self.start);
        encode(frame, self.version, &mut self.bytes)
    }

    /// Gives to the wire until no byte is left, without memory. NotYet says that the wire has no room.
    pub fn push<W: Wire>(&mut self, wire: &mut W) -> Pushed
        ensures given { Loses W.tells self.old.bytes self.new.bytes (W.traffic wire.old) (W.traffic wire.new) }
        ensures empty { (result ≡ Pushed.Empty) ↔ (self.new.bytes ≡ []) }
        ensures full { result ≡ Pushed.NotYet → W.tells ≡ true → IsFull (W.traffic wire.new) }
        ensures counted { W.counts wire.new ≡ counts_pushed result (W.counts wire.old) }
        ensures shut { W.is_shut wire.new ≡ W.is_shut wire.old }
        ensures version { self.new.version ≡ self.old.version }
    {
        while self.start < self.bytes.len() {
            match wire.give(&self.bytes[self.start..]) {
                Gave::Bytes(count) => self.start += count,
                Gave::NotYet => return Pushed::NotYet,
                Gave::Failed => return Pushed::Failed,
            }
        }
        self.bytes.clear();
        self.start = 0;
        Pushed::Empty
    }
}
