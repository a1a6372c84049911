//! A connection before its Hello: what comes over it is judged and kept, and it becomes a link or is closed.

ghost use Rattle.std.specs.Prelude.{◌≡◌, ◌≤◌, ◌∷◌, ℕ, [], false, true, IsTrue, IfSome, IfNone, length, take};
ghost use Rattle.tk_base.specs.declared.ids.Mon.{Mon as Number};
ghost use Rattle.tk_frames.specs.Spelling.{IsVersion};
ghost use Rattle.tk_frames.specs.declared.frame.Frame.TheVariants as f;
ghost use Rattle.tk_wire.specs.Buffered.{Pulls, counts_pulled};
ghost use Rattle.tk_hub.specs.Visitor.{BeginsWithHello, Gathers, GoesOn, Greets, HasGreeted, HasStrangeLength};
ghost use Rattle.tk_hub.specs.Visitor.{IsAwaited, IsStrange, IsUnlessMemory, IsUnused};
ghost use Rattle.tk_hub.specs.VisitorInside.{HasMore, Reads, Says, judged};
ghost use Rattle.tk_hub.specs.declared.visitor.Guest.{Guest as Greeter};

use std::alloc::Global;
use std::marker::Model;
use tk_base::Mon;
use tk_end::Link;
use tk_frames::{Frame, Next};
use tk_wire::{InBuffer, Pulled, Wire};

/// The length of a Hello, as it stands before it.
const HELLO_LENGTH: [u8; 4] = [0, 0, 0, 14];

/// Who greets.
#[derive(Clone, Copy, Debug, PartialEq, Eq)]
pub struct Guest {
    pub mon: Mon,
    pub version: u8,
}

/// What a connection without a Hello has said.
#[derive(Clone, Copy, Debug, PartialEq, Eq)]
pub enum Greeting {
    /// Nothing whole, and nothing more waits.
    Nothing,
    /// A Hello to this run.
    Hello(Guest),
    /// What is no Hello to this run, or its wire failed or ended before one was whole.
    Strange,
    NoMemory,
}

/// A connection that has said no Hello yet. All that came over it is kept.
#[derive(Drop)]
pub struct Visitor<W: Wire> {
    wire: W,
    came: InBuffer,
    front: Option<Frame>,
}

impl<W: Wire> Model for Visitor<W> {
    ghost use Rattle.std.specs.Prelude.{◌≡◌, ◌++◌};
    ghost use Rattle.tk_hub.specs.Visitor.{VisitorView};
    ghost use Rattle.tk_hub.specs.VisitorInside.{IsFront, IsWaiting, bytes_of};

    ghost Value = { VisitorView W };

    ghost view = { λ v. record {
      wire = v.wire;
      tells = W.tells;
      traffic = W.traffic v.wire;
      counts = W.counts v.wire;
      bytes = bytes_of v.front ++ v.came.bytes;
      front = v.front;
    } };

    ghost invariant = { λ v.
        (v.came.version ≡ 1) × IsFront v.front
        × IsWaiting W.tells (W.traffic v.wire) (W.counts v.wire) (bytes_of v.front ++ v.came.bytes) };
}

/// Whether four bytes are there, and they are no Hello's length.
fn is_strange(bytes: &[u8]) -> bool
    ensures strange { IsTrue result → HasStrangeLength bytes.now }
    ensures length_of_hello { result ≡ false → 4 ≤ length bytes.now → take 4 bytes.now ≡ 0 ∷ 0 ∷ 0 ∷ 14 ∷ [] }
{
    bytes.len() >= 4 && bytes[..4] != HELLO_LENGTH[..]
}

/// Reads the frame at the front, where it is as long as a Hello, or says why there will be none.
fn read(came: &mut InBuffer) -> Result<Option<Frame>, Greeting>
    requires { came.old.version ≡ 1 }
    ensures answer { Reads result came.old.bytes came.new.bytes }
    ensures version { came.new.version ≡ 1 }
{
    if is_strange(came.bytes()) {
        return Err(Greeting::Strange);
    }
    match came.frame() {
        Ok(Next::Whole(frame, _)) => Ok(Some(frame)),
        Ok(Next::Part) => Ok(None),
        Ok(Next::Bad(_)) => Err(Greeting::Strange),
        Err(_) => Err(Greeting::NoMemory),
    }
}

/// What a first frame says to a run.
fn judge(frame: &Frame, run: u64) -> Greeting
    ensures { result ≡ judged run frame.now }
{
    match frame {
        Frame::Hello {
            run: told,
            version,
            mon,
        } if *told == run => Greeting::Hello(Guest {
            mon: *mon,
            version: *version,
        }),
        _ => Greeting::Strange,
    }
}

impl<W: Wire> Visitor<W> {
    /// A connection over a wire that nothing has passed yet. It takes no memory.
    pub fn new(alloc: Global, wire: W) -> Visitor<W>
        requires { IsUnused W.tells (W.traffic wire) }
        ensures { result ≡ record {
          wire = wire;
          tells = W.tells;
          traffic = W.traffic wire;
          counts = W.counts wire;
          bytes = [];
          front = None;
        } }
    {
        Visitor {
            wire,
            came: InBuffer::new(alloc),
            front: None,
        }
    }

    fn pull(&mut self) -> Pulled
        ensures pulls { Pulls result self.old.tells self.old.bytes self.new.bytes self.old.traffic self.new.traffic }
        ensures counted { self.new.counts ≡ counts_pulled result self.old.counts }
        ensures told { W.counts self.new.wire ≡ self.new.counts }
        ensures same { (self.new.tells ≡ self.old.tells) × (self.new.front ≡ self.old.front) }
    {
        self.came.pull(&mut self.wire)
    }

    /// What came says, if it is whole or can be no greeting.
    fn greeting(&mut self, run: u64) -> Option<Greeting>
        ensures some { IfSome result (Says run self.new.bytes self.new.front) }
        ensures none { IfNone result (IsAwaited self.new.bytes) }
        ensures told { W.counts self.new.wire ≡ self.new.counts }
        ensures rest { self.new ≡ record self.old { front = self.new.front } }
    {
        if let Some(frame) = &self.front {
            return Some(judge(frame, run));
        }
        match read(&mut self.came) {
            Ok(Some(frame)) => {
                let greeting = judge(&frame, run);
                drop(self.front.replace(frame));
                Some(greeting)
            }
            Ok(None) => None,
            Err(greeting) => Some(greeting),
        }
    }

    /// What came says, if it is whole or can be no greeting; else pulls a piece, or says why none came.
    fn hear(&mut self, run: u64) -> Option<Greeting>
        ensures some { IfSome result (λ greeting. Greets run greeting self.old self.new) }
        ensures none { IfNone result (HasMore self.old self.new) }
        ensures gathers { Gathers self.old self.new }
        ensures told { W.counts self.new.wire ≡ self.new.counts }
    {
        if let Some(greeting) = self.greeting(run) {
            return Some(greeting);
        }
        match self.pull() {
            Pulled::Got(_) => None,
            Pulled::NotYet => Some(Greeting::Nothing),
            Pulled::End => Some(Greeting::Strange),
            Pulled::Failed => Some(Greeting::Strange),
            Pulled::NoMemory => Some(Greeting::NoMemory),
        }
    }

    /// Pulls until the first frame is whole; its length is judged as soon as four bytes are there.
    pub fn greet(&mut self, run: u64) -> Greeting
        ensures answer { Greets run result self.old self.new }
        // What came is answered, unless there was no memory to read it.
        ensures hello { (guest : Greeter)
            → BeginsWithHello run guest self.new.bytes → IsUnlessMemory result (Greeting.Hello guest) }
        ensures strange { IsStrange run self.new.bytes → IsUnlessMemory result Greeting.Strange }
        // Whatever is answered, all that came is kept.
        ensures gathers { Gathers self.old self.new }
        ensures told { W.counts self.new.wire ≡ self.new.counts }
    {
        loop {
            if let Some(greeting) = self.hear(run) {
                return greeting;
            }
        }
    }

    /// Goes on as the link of the guest that has greeted, in the version that it speaks. It takes no memory.
    pub fn into_link(self, alloc: Global, version: u8) -> Link<W>
        requires { IsVersion version }
        ensures goes_on { GoesOn self result }
        ensures greeted { (run : ℕ) (mon : Number) → self.front ≡ Some (f.Hello run version mon) → HasGreeted run mon result }
    {
        let Visitor { wire, came, front } = self;
        drop(front);
        Link::new(alloc, wire, came, version)
    }

    /// Shuts the wire of a stranger. It takes no memory.
    pub fn close(self) -> W
        ensures told { W.tells ≡ true → W.traffic result ≡ self.traffic }
        ensures counted { W.counts result ≡ self.counts }
        ensures shut { W.is_shut result ≡ true }
    {
        let mut wire = self.wire;
        wire.shut();
        wire
    }
}
