//! What came over a connection, read frame by frame, with a place in front for one that is put back.

ghost use Rattle.std.specs.Prelude.{◌≡◌, ◌++◌, ℕ, List, Some, None};
ghost use Rattle.tk_frames.specs.Spelling.{IsSpelling, spelling};
ghost use Rattle.tk_wire.specs.Buffered.{Pulls, counts_pulled};
ghost use Rattle.tk_frames.specs.declared.answer.Next.TheVariants as n;
ghost use Rattle.tk_frames.specs.Answer.{Answers, HasPayload};
ghost use Rattle.tk_end.specs.Inbox.{HasSome, IsOdd, Reads};

use byteorder::{BigEndian, ByteOrder};
use std::marker::Model;
use tk_base::NoMemory;
use tk_frames::{BadFrame, Frame, Next};
use tk_wire::{InBuffer, Pulled, Wire};

/// What stands at the front of the bytes that came.
#[derive(Debug, Drop)]
pub enum Reading {
    Whole(Frame),
    Part,
    Bad(BadFrame),
}

/// Bytes that came and are not taken as frames. A frame that was read and found no taker goes back to the front.
#[derive(Drop)]
pub struct Inbox {
    buffer: InBuffer,
    front: Option<Frame>,
}

impl Model for Inbox {
    ghost use Rattle.std.specs.Prelude.{◌++◌};
    ghost use Rattle.tk_end.specs.Inbox.{Inbox as InboxView, IsSpelled, bytes_of};

    ghost Value = { InboxView };

    ghost view = { λ b. record {
      version = b.buffer.version;
      unread = bytes_of b.buffer.version b.front ++ b.buffer.bytes;
      front = b.front;
    } };

    ghost invariant = { λ b. IsSpelled b.buffer.version b.front };
}

fn read(buffer: &mut InBuffer) -> Result<Reading, NoMemory>
    ensures answer { Reads result buffer.old.version buffer.old.bytes buffer.new.bytes }
    ensures version { buffer.new.version ≡ buffer.old.version }
{
    match buffer.frame() {
        Ok(Next::Whole(frame, _)) => Ok(Reading::Whole(frame)),
        Ok(Next::Part) => Ok(Reading::Part),
        Ok(Next::Bad(fault)) => Ok(Reading::Bad(fault)),
        Err(_) => Err(NoMemory),
    }
}

/// The payload at the front, without its length.
fn payload(buffer: InBuffer) -> Vec<u8>
    requires { HasSome buffer.bytes }
    ensures { (bytes : List ℕ) → HasPayload bytes buffer.bytes → result.items ≡ bytes }
{
    let size = BigEndian::read_u32(buffer.bytes()) as usize;
    buffer.into_range(4, 4 + size)
}

impl Inbox {
    /// Goes on with what came so far.
    pub fn new(buffer: InBuffer) -> Inbox
        ensures { result ≡ record { version = buffer.version; unread = buffer.bytes; front = None } }
    {
        Inbox {
            buffer,
            front: None,
        }
    }

    /// Takes one piece of the wire to the end of what came, or says why none came.
    pub fn pull<W: Wire>(&mut self, wire: &mut W) -> Pulled
        ensures bytes { Pulls result W.tells self.old.unread self.new.unread (W.traffic wire.old) (W.traffic wire.new) }
        ensures counted { W.counts wire.new ≡ counts_pulled result (W.counts wire.old) }
        ensures shut { W.is_shut wire.new ≡ W.is_shut wire.old }
        ensures version { self.new.version ≡ self.old.version }
    {
        self.buffer.pull(wire)
    }

    /// Reads the frame at the front, which is then in the caller's hands, where a whole one stands there.
    pub fn read(&mut self) -> Result<Reading, NoMemory>
        ensures answer { Reads result self.old.version self.old.unread self.new.unread }
        ensures front { self.new.front ≡ None }
        ensures version { self.new.version ≡ self.old.version }
    {
        match self.front.take() {
            Some(frame) => Ok(Reading::Whole(frame)),
            None => read(&mut self.buffer),
        }
    }

    /// Puts a frame that was read back to the front.
    pub fn put_back(&mut self, frame: Frame)
        requires nothing { self.old.front ≡ None }
        requires spelled { IsSpelling self.old.version frame (spelling self.old.version frame) }
        ensures front { self.new.front ≡ Some frame }
        ensures unread { self.new.unread ≡ spelling self.old.version frame ++ self.old.unread }
        ensures version { self.new.version ≡ self.old.version }
    {
        self.front = Some(frame);
    }

    /// The frame at the front, where one was read and found no taker.
    pub fn into_frame(self) -> Option<Frame>
        ensures { result ≡ self.front }
    {
        self.front
    }

    /// The bytes at the front that are no frame: a length that no payload has, or a payload. It takes no memory.
    pub fn into_odd(self, fault: BadFrame) -> Vec<u8>
        requires bad { Answers self.version self.unread (n.Bad fault) }
        requires nothing { self.front ≡ None }
        ensures { IsOdd self.version fault self.unread result.items }
    {
        match fault {
            BadFrame::BadLength { .. } => self.buffer.into_range(0, 4),
            BadFrame::BadKind { .. } => payload(self.buffer),
            BadFrame::BadFields { .. } => payload(self.buffer),
        }
    }
}
