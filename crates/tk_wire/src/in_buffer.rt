ghost use Rattle.std.specs.Prelude.{◌≡◌, ◌≤◌, [], IfOk, OnErr, length, slice_range};
ghost use Rattle.tk_frames.specs.declared.answer.Next.{Next};
ghost use Rattle.tk_frames.specs.Answer.{Answers, HasKind};
ghost use Rattle.tk_frames.specs.Spelling.{IsVersion};
ghost use Rattle.tk_wire.specs.Buffered.{Pulls, counts_pulled, rest_of};

use crate::store::{PIECE, Store};
use crate::wire::{Took, Wire};
use std::alloc::Global;
use std::marker::Model;
use tk_base::NoMemory;
use tk_frames::{Next, next};

/// What a pull answers.
#[derive(Clone, Copy, Debug, PartialEq, Eq)]
pub enum Pulled {
    /// So many bytes came, 1 to 4,096.
    Got(usize),
    NotYet,
    /// Nothing will come any more.
    End,
    Failed,
    NoMemory,
}

/// Bytes that came and are not read as frames yet.
#[derive(Drop)]
pub struct InBuffer {
    alloc: Global,
    store: Store,
    version: u8,
}

impl Model for InBuffer {
    ghost use Rattle.tk_frames.specs.Spelling.{IsVersion};
    ghost use Rattle.tk_wire.specs.Buffered.{Buffer};

    ghost Value = { Buffer };

    ghost view = { λ b. record { bytes = b.store.held; version = b.version } };

    ghost invariant = { λ b. IsVersion b.version };
}

impl InBuffer {
    /// An empty buffer that reads version 1, and pulls at most 4,096 bytes at once. It takes no memory.
    pub fn new(alloc: Global) -> InBuffer
        ensures { result ≡ record { bytes = []; version = 1 } }
    {
        InBuffer {
            alloc,
            store: Store::new(alloc),
            version: 1,
        }
    }

    /// The version, 1 or 2, in which frames are read from now on. It takes no memory.
    pub fn set_version(&mut self, version: u8)
        requires { IsVersion version }
        ensures { self.new ≡ record self.old { version = version } }
    {
        self.version = version;
    }

    /// The bytes that are not read as frames yet.
    pub fn bytes(&self) -> &[u8]
        ensures { result.now ≡ self.now.bytes }
    {
        self.store.held()
    }

    /// One take, for which it has the memory before. Where it has not, the wire is as it was.
    pub fn pull<W: Wire>(&mut self, wire: &mut W) -> Pulled
        ensures bytes { Pulls result W.tells self.old.bytes self.new.bytes (W.traffic wire.old) (W.traffic wire.new) }
        ensures counted { W.counts wire.new ≡ counts_pulled result (W.counts wire.old) }
        ensures shut { W.is_shut wire.new ≡ W.is_shut wire.old }
        ensures memory { result ≡ Pulled.NoMemory → wire.new ≡ wire.old }
        ensures version { self.new.version ≡ self.old.version }
    {
        if self.store.make_room(PIECE).is_err() {
            return Pulled::NoMemory;
        }
        match self.store.fill(wire, PIECE) {
            Took::Bytes(count) => Pulled::Got(count),
            Took::NotYet => Pulled::NotYet,
            Took::End => Pulled::End,
            Took::Failed => Pulled::Failed,
        }
    }

    /// Reads the frame at the front, and removes it where it is whole. What is less than a frame is only looked at
    /// for its length, so a frame is read once, in time in proportion to its bytes, in whatever pieces it came.
    pub fn frame(&mut self) -> Result<Next, NoMemory>
        // As `next` of tk_frames answers, both ways.
        ensures answer { IfOk result (Answers self.old.version self.old.bytes) }
        ensures only { (next : Next) → Answers self.old.version self.old.bytes next → IfOk result (λ answer. answer ≡ next) }
        ensures memory { OnErr result (HasKind self.old.bytes) }
        // Nothing but a whole frame is removed.
        ensures rest { self.new.bytes ≡ rest_of result self.old.bytes }
        ensures version { self.new.version ≡ self.old.version }
    {
        let next = next(self.alloc, self.store.held(), self.version)?;
        if let Next::Whole(_, size) = &next {
            self.store.remove(*size);
        }
        Ok(next)
    }

    /// What stands between two places of the bytes that are not read, without memory.
    pub fn into_range(self, from: usize, to: usize) -> Vec<u8>
        requires { (from ≤ to) × (to ≤ length self.bytes) }
        ensures { result.items ≡ slice_range self.bytes from to }
    {
        self.store.into_range(from, to)
    }
}
