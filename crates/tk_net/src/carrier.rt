ghost use Rattle.std.specs.Prelude.{◌≡◌, ◌<◌, [], Some, length, nat_lt, IfOk, OnErr, OnOk};
ghost use Rattle.tk_wire.specs.Greeting.{NamesMonitor, TellsStreams, greeting_bytes};
ghost use Rattle.tk_wire.specs.Meanings.{FitsBytes, FitsSlice};
ghost use Rattle.tk_net.specs.Cables.{Carries, Writes};
ghost use Rattle.tk_net.specs.Chunks.{front_of};
ghost use Rattle.tk_net.specs.declared.carrier.Drawn.TheVariants as drawn;
ghost use Rattle.tk_net.specs.declared.chunk.Front.TheVariants as front;

use crate::chunk::Front;
use crate::inlet::Inlet;
use crate::outlet::Outlet;
use crate::socket::Socket;
use crate::vigil::{Look, Vigil};
use std::alloc::Global;
use std::time::Clock;
use tk_base::NoMemory;
use tk_wire::{Gave, Greeting, Took};

/// How many chunks and reads a take goes through at most. So a peer that gives nothing but pulses cannot keep it.
const STEPS: u32 = 10_000;

/// What came of reading a connection.
#[derive(Clone, Copy, Debug, PartialEq, Eq)]
pub(crate) enum Drawn {
    /// Bytes of a chunk are there to be taken.
    Open,
    NotYet,
    End,
    Failed,
}

/// Whether all that was to be written is written.
#[derive(Clone, Copy, Debug, PartialEq, Eq)]
pub(crate) enum Flushed {
    All,
    Part,
    Failed,
}

/// A socket, and what is on its way to it and from it.
#[derive(Drop)]
pub(crate) struct Carrier<H: Clock + Copy> {
    socket: Socket,
    vigil: Vigil<H>,
    inlet: Inlet,
    outlet: Outlet,
}

impl<H: Clock + Copy> Carrier<H> {
    /// A carrier over a socket by which no chunk went yet. A peer of which nothing comes for so many seconds is lost.
    pub(crate) fn new(
        alloc: Global,
        socket: Socket,
        clock: H,
        silence: u64,
    ) -> Result<Carrier<H>, NoMemory>
        ensures { IfOk result (λ carrier. carrier.outlet ≡ []) }
    {
        Ok(Carrier {
            socket,
            vigil: Vigil::new(clock, silence),
            inlet: Inlet::new(alloc)?,
            outlet: Outlet::new(alloc)?,
        })
    }

    // One read, of more of a chunk that has so many bytes in all. None where some came.
    fn pull(&mut self, size: usize) -> Option<Drawn>
        requires taken { self.old.inlet.held ≡ [] }
        requires more { length self.old.inlet.unread < size }
        ensures closed { self.new.inlet.held ≡ [] }
        ensures none { result ≡ Some drawn.Open → ⊥ }
    {
        if self.inlet.make_room(size).is_err() {
            return Some(Drawn::Failed);
        }
        match self.inlet.fill(&mut self.socket) {
            Took::Bytes(_) => {
                self.vigil.note_came();
                None
            }
            Took::NotYet => Some(Drawn::NotYet),
            Took::End if self.inlet.is_empty() => Some(Drawn::End),
            Took::End | Took::Failed => Some(Drawn::Failed),
        }
    }

    // One step on the way to the next chunk. None where there may be more.
    fn step(&mut self) -> Option<Drawn>
        requires { self.old.inlet.held ≡ [] }
        ensures pulse { front_of self.old.inlet.unread ≡ front.Pulse → result ≡ None }
        ensures bad { front_of self.old.inlet.unread ≡ front.Bad → result ≡ Some drawn.Failed }
        ensures open { result ≡ Some drawn.Open → 0 < length self.new.inlet.held }
        ensures closed { result ≡ None → self.new.inlet.held ≡ [] }
    {
        match self.inlet.open_next() {
            Front::Chunk(_) => Some(Drawn::Open),
            Front::Pulse => None,
            Front::Bad => Some(Drawn::Failed),
            Front::Part(size) => self.pull(size),
        }
    }

    // Reads until bytes of a chunk are there.
    fn draw(&mut self) -> Drawn
        requires { self.old.inlet.held ≡ [] }
        ensures { result ≡ Drawn.Open → 0 < length self.new.inlet.held }
    {
        for _ in 0..STEPS {
            if let Some(drawn) = self.step() {
                return drawn;
            }
        }
        Drawn::NotYet
    }

    /// Takes bytes out of chunks, and does what is due: writes what is left, and a pulse where `speaks` and nothing else went.
    pub(crate) fn take(&mut self, into: &mut [u8], speaks: bool) -> Took
        requires { 0 < length into.old }
        ensures { FitsSlice result (length into.old) }
    {
        if self.inlet.is_open() {
            return Took::Bytes(self.inlet.take(into));
        }
        match self.draw() {
            Drawn::Open => {
                let count = self.inlet.take(into);
                // Where the peer is lost, the take behind these bytes says so.
                let _ = self.tend(speaks);
                Took::Bytes(count)
            }
            Drawn::NotYet if self.tend(speaks) => Took::NotYet,
            Drawn::NotYet | Drawn::Failed => Took::Failed,
            Drawn::End => Took::End,
        }
    }

    // Writes what is left.
    fn flush(&mut self) -> Flushed
        ensures writes { Writes self.old.outlet self.new.outlet }
        ensures all { result ≡ Flushed.All → self.new.outlet ≡ [] }
    {
        while !self.outlet.left().is_empty() {
            match self.socket.write(self.outlet.left()) {
                Gave::Bytes(count) => {
                    self.outlet.remove(count);
                    self.vigil.note_went();
                }
                Gave::NotYet => return Flushed::Part,
                Gave::Failed => return Flushed::Failed,
            }
        }
        Flushed::All
    }

    // Writes a pulse, where all before it is written.
    fn beat(&mut self) -> Flushed
        requires { self.old.outlet ≡ [] }
    {
        self.outlet.put_pulse();
        self.flush()
    }

    // Does what is due, and says whether the connection goes on.
    fn tend(&mut self, speaks: bool) -> bool {
        let flushed = self.flush();
        let look = self.vigil.look();
        match (flushed, look) {
            (Flushed::Failed, _) | (_, Look::Silent) => false,
            (Flushed::All, Look::Quiet) if speaks => self.beat() != Flushed::Failed,
            _ => true,
        }
    }

    /// Takes a front of some bytes over as one chunk, once what was left before is written.
    pub(crate) fn give(&mut self, bytes: &[u8]) -> Gave
        requires { 0 < length bytes.now }
        ensures fits { FitsBytes result (length bytes.now) }
        ensures carries { Carries result bytes.now self.old.outlet self.new.outlet }
    {
        match self.flush() {
            Flushed::All => {}
            Flushed::Part => return Gave::NotYet,
            Flushed::Failed => return Gave::Failed,
        }
        let count = self.outlet.put_chunk(bytes);
        match self.flush() {
            Flushed::All | Flushed::Part => Gave::Bytes(count),
            Flushed::Failed => Gave::Failed,
        }
    }

    /// Has a greeting go ahead of all.
    pub(crate) fn greet(&mut self, greeting: &Greeting) -> Result<(), NoMemory>
        requires monitor { NamesMonitor greeting.now }
        requires streams { TellsStreams greeting.now }
        ensures ok { OnOk result (self.new.outlet ≡ greeting_bytes greeting.now) }
        ensures err { OnErr result (self.new.outlet ≡ self.old.outlet) }
    {
        self.outlet.put_greeting(greeting)
    }

    /// Writes what it can of what is left, and closes the socket.
    pub(crate) fn shut(&mut self) {
        let _ = self.flush();
        self.socket.shut();
    }
}
