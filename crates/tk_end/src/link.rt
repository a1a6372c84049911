//! The link that a port and each seat of a hub have: how it begins, is shut, and gives its wire back.

ghost use Rattle.std.specs.Prelude.{◌≡◌, ◌↔◌, [], None, IsTrue, OnErr, OnOk, true};
ghost use Rattle.tk_frames.specs.declared.answer.Next.TheVariants as n;
ghost use Rattle.tk_frames.specs.Answer.{Answers};
ghost use Rattle.tk_frames.specs.Encoding.{Appends};
ghost use Rattle.tk_frames.specs.Spelling.{IsVersion};
ghost use Rattle.tk_end.specs.Actor.{CanBeSent};
ghost use Rattle.tk_end.specs.Inbox.{IsOdd};
ghost use Rattle.tk_end.specs.Link.{IsShut, link_over};

mod hearing;
mod piping;
mod saying;

use crate::inbox::Inbox;
use std::alloc::Global;
use std::marker::Model;
use tk_base::NoMemory;
use tk_frames::{BadFrame, EncodeFault, Frame};
use tk_wire::{InBuffer, OutBuffer, Wire};

/// One end of a connection: its wire, the bytes that came and are not taken as frames, and those that are to be given.
#[derive(Drop)]
pub struct Link<W: Wire> {
    wire: W,
    inbox: Inbox,
    output: OutBuffer,
    written: usize,
    shut: bool,
}

impl<W: Wire> Model for Link<W> {
    ghost use Rattle.std.specs.Prelude.{◌≡◌, true};
    ghost use Rattle.tk_end.specs.Link.{LinkView};

    ghost Value = { LinkView W };

    ghost view = { λ l. record {
      wire = l.wire;
      tells = W.tells;
      traffic = W.traffic l.wire;
      counts = W.counts l.wire;
      version = l.inbox.version;
      unread = l.inbox.unread;
      front = l.inbox.front;
      output = l.output.bytes;
      written = l.written;
      shut = l.shut;
    } };

    ghost invariant = { λ l. (l.output.version ≡ l.inbox.version) × (l.shut ≡ true → W.is_shut l.wire ≡ true) };
}

impl<W: Wire> Link<W> {
    /// Goes on over a wire with what came so far, in a version, 1 or 2. It takes no memory.
    pub fn new(alloc: Global, wire: W, came: InBuffer, version: u8) -> Link<W>
        requires { IsVersion version }
        ensures { result ≡ link_over wire W.tells (W.traffic wire) (W.counts wire) version came.bytes }
    {
        let mut came = came;
        came.set_version(version);
        let mut output = OutBuffer::new(alloc);
        output.set_version(version);
        Link {
            wire,
            inbox: Inbox::new(came),
            output,
            written: 0,
            shut: false,
        }
    }

    /// Writes a frame that is none of the actor's at the end of what is to be given.
    pub fn add(&mut self, frame: &Frame) -> Result<(), NoMemory>
        requires { CanBeSent frame.now }
        ensures ok { OnOk result (Appends self.old.version frame.now self.old.output self.new.output) }
        ensures err { OnErr result (self.new ≡ self.old) }
        ensures rest { self.new ≡ record self.old { output = self.new.output } }
    {
        match self.output.add(frame) {
            Ok(()) => Ok(()),
            Err(EncodeFault::NoMemory) => Err(NoMemory),
            Err(EncodeFault::BadHello) => unreachable!(),
            Err(EncodeFault::TooLong { .. }) => unreachable!(),
        }
    }

    /// Whether it was shut, and its wire with it.
    pub fn is_shut(&self) -> bool
        ensures value { result ≡ self.now.shut }
        ensures wire { IsTrue result → W.is_shut self.now.wire ≡ true }
    {
        self.shut
    }

    /// Whether so many of the actor's frames were written, and all that was written is given.
    pub fn has_said(&self, count: usize) -> bool
        ensures { IsTrue result ↔ ((self.now.written ≡ count) × (self.now.output ≡ [])) }
    {
        self.written == count && self.output.bytes().is_empty()
    }

    /// Shuts the wire, which is used no more. It takes no memory.
    pub fn shut(&mut self)
        ensures link { IsShut self.old self.new }
        ensures wire { W.is_shut self.new.wire ≡ true }
    {
        if !self.shut {
            self.wire.shut();
            self.shut = true;
        }
    }

    /// Its wire, which tells what it shows of it.
    pub fn wire(&self) -> &W
        ensures value { result.now ≡ self.now.wire }
        ensures traffic { W.traffic result.now ≡ self.now.traffic }
        ensures counts { W.counts result.now ≡ self.now.counts }
        ensures shut { self.now.shut ≡ true → W.is_shut result.now ≡ true }
        ensures tells { W.tells ≡ self.now.tells }
    {
        &self.wire
    }

    /// Its wire.
    pub fn into_wire(self) -> W
        ensures wire { result ≡ self.wire }
        ensures shut { self.shut ≡ true → W.is_shut result ≡ true }
    {
        self.wire
    }

    /// Its wire, and the frame at the front, where one was read and found no taker.
    pub fn into_frame(self) -> (W, Option<Frame>)
        ensures wire { result.0 ≡ self.wire }
        ensures frame { result.1 ≡ self.front }
        ensures shut { self.shut ≡ true → W.is_shut result.0 ≡ true }
    {
        (self.wire, self.inbox.into_frame())
    }

    /// Its wire, and the bytes at the front that are no frame. It takes no memory.
    pub fn into_odd(self, fault: BadFrame) -> (W, Vec<u8>)
        requires bad { Answers self.version self.unread (n.Bad fault) }
        requires nothing { self.front ≡ None }
        ensures wire { result.0 ≡ self.wire }
        ensures odd { IsOdd self.version fault self.unread result.1.items }
        ensures shut { self.shut ≡ true → W.is_shut result.0 ≡ true }
    {
        (self.wire, self.inbox.into_odd(fault))
    }
}
