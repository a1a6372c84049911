//! The port: a monitor's raises, checks and turns with the coordinator over its link, and what it leaves in the end.

ghost use Rattle.std.specs.Prelude.{◌≡◌, ◌<◌, ◌≤◌, ◌↔◌, [], true, false, Some, IfOk, OnOk, OnErr, length};
ghost use Rattle.tk_frames.specs.Encoding.{Appends};
ghost use Rattle.tk_frames.specs.Spelling.{IsVersion};
ghost use Rattle.tk_monitor.specs.Monitored.{IsFeederOf, Raises, checked_at};
ghost use Rattle.tk_trail.specs.Readings.{is_stopped, sent_by, taken_by};
ghost use Rattle.tk_trail.specs.Setup.{IsSetup};
ghost use Rattle.tk_wire.specs.Buffered.{counts_pushed};
ghost use Rattle.tk_end.specs.Link.{Covers, IsShut, LeavesFull, Says};
ghost use Rattle.tk_end.specs.Piping.{Drains, Fills};
ghost use Rattle.tk_port.specs.Port.{IsLeft, IsPort, IsStanding, LeavesOdd, Turns, TurnsOne, answer_of, halted_of, hello_of};
ghost use Rattle.tk_monitor.specs.Stepped.{checking, growing};
ghost use Rattle.tk_trail.specs.Growing.{grown};
ghost use Rattle.tk_trail.specs.Legal.{HasNext};
ghost use Rattle.tk_port.specs.declared.turn.Turn.{Turn as Turned};

use crate::course::Course;
use crate::exchange::{conclude, exchange, hear_one};
use crate::side::{COORDINATOR, Side};
use crate::turn::Turn;
use std::alloc::Global;
use std::marker::Model;
use tk_base::{Feeder, NoMemory};
use tk_end::Link;
use tk_frames::Frame;
use tk_input::Change;
use tk_monitor::{Checked, Monitor, Raised};
use tk_story::{Bytes, MonEnd, Received};
use tk_wire::{InBuffer, Pipe, Piped, Pushed, Wire};

/// A monitor and its end of the connection to the coordinator.
#[derive(Drop)]
pub struct Port<W: Wire> {
    run: u64,
    side: Side,
    link: Link<W>,
    course: Course,
}

impl<W: Wire> Model for Port<W> {
    ghost use Rattle.tk_port.specs.Port.{PortView, IsPort};

    ghost Value = { PortView W };

    ghost view = { λ p. record {
      run = p.run;
      monitor = p.side.monitor;
      link = p.link;
      course = p.course;
    } };

    ghost invariant = { λ p. IsPort (record {
      run = p.run;
      monitor = p.side.monitor;
      link = p.link;
      course = p.course;
    }) };
}

/// The end of a link on its course: what came next and was not taken, and the wire.
fn left<W: Wire>(link: Link<W>, course: Course) -> (Option<Received>, W)
    requires { IsStanding link course }
    ensures odd { LeavesOdd course link result.0 }
    ensures wire { result.1 ≡ link.wire }
    ensures shut { link.shut ≡ true → W.is_shut result.1 ≡ true }
{
    match course {
        Course::Refused(_) => {
            let (wire, frame) = link.into_frame();
            (frame.map(Received::Frame), wire)
        }
        Course::Bad(fault) => {
            let (wire, bytes) = link.into_odd(fault);
            (Some(Received::Bytes(Bytes::new(bytes))), wire)
        }
        Course::Open => (None, link.into_wire()),
        Course::Halted => (None, link.into_wire()),
        Course::Failed => (None, link.into_wire()),
    }
}

impl<W: Wire + Drop> Port<W> {
    /// A port that begins with the Hello of its monitor, in a run and in a version, 1 or 2.
    pub fn new(
        alloc: Global,
        wire: W,
        monitor: Monitor,
        run: u64,
        version: u8,
    ) -> Result<Port<W>, NoMemory>
        requires version { IsVersion version }
        requires setup { IsSetup monitor.setup }
        requires number { (0 < monitor.setup.number) × (monitor.setup.number ≤ 64) }
        requires trail { monitor.trail ≡ [] }
        requires came { W.tells ≡ true → (W.traffic wire).came ≡ [] }
        requires went { W.tells ≡ true → (W.traffic wire).went ≡ [] }
        ensures run { IfOk result (λ port. port.run ≡ run) }
        ensures monitor { IfOk result (λ port. port.monitor ≡ monitor) }
        ensures wire { IfOk result (λ port. port.link.wire ≡ wire) }
        ensures version { IfOk result (λ port. port.link.version ≡ version) }
        ensures hello { IfOk result (λ port. Appends version (hello_of port) [] port.link.output) }
        ensures course { IfOk result (λ port. port.course ≡ Course.Open) }
        ensures kept { IfOk result IsPort }
    {
        let hello = Frame::Hello {
            run,
            version,
            mon: monitor.number(),
        };
        let mut link = Link::new(alloc, wire, InBuffer::new(alloc), version);
        let added = link.add(&hello);
        drop(hello);
        let Ok(()) = added else {
            drop(link);
            drop(monitor);
            return Err(NoMemory);
        };
        Ok(Port {
            run,
            side: Side { monitor },
            link,
            course: Course::Open,
        })
    }
}

impl<W: Wire> Port<W> {
    /// Its monitor.
    pub fn monitor(&self) -> &Monitor
        ensures value { result.now ≡ self.now.monitor }
        ensures kept { IsPort self.now }
    {
        &self.side.monitor
    }

    /// Its wire, which tells what it shows of it.
    pub fn wire(&self) -> &W
        ensures value { result.now ≡ self.now.link.wire }
        ensures traffic { W.traffic result.now ≡ self.now.link.traffic }
        ensures counts { W.counts result.now ≡ self.now.link.counts }
        ensures shut { self.now.link.shut ≡ true → W.is_shut result.now ≡ true }
        ensures tells { W.tells ≡ self.now.link.tells }
        ensures kept { IsPort self.now }
    {
        self.link.wire()
    }

    /// Counts the next change of a feeder, without memory.
    pub fn raise(&mut self, f: Feeder) -> Raised
        requires { IsFeederOf self.old.monitor.setup f.0 }
        ensures answer { Raises self.old.monitor f result self.new.monitor }
        ensures rest { self.new ≡ record self.old { monitor = self.new.monitor } }
        ensures kept { IsPort self.new }
    {
        self.side.monitor.raise(f)
    }

    /// Puts a change in front of the last record of a feeder, as `Monitor::grow` does.
    pub fn grow(&mut self, f: Feeder, change: Change) -> Result<(), NoMemory>
        requires next { HasNext self.old.monitor.setup self.old.monitor.trail f.0 }
        requires limits { IsSetup (grown self.old.monitor.setup f.0 (change.obj.0, change.by)) }
        ensures ok { OnOk result (self.new ≡ record self.old {
          monitor = growing self.old.monitor f.0 (change.obj.0, change.by);
        }) }
        ensures err { OnErr result (self.new ≡ self.old) }
        ensures kept { IsPort self.new }
    {
        self.side.monitor.grow(f, change)
    }

    /// Sends a Report or tells the end where that is due.
    pub fn check(&mut self) -> Result<Checked, NoMemory>
        requires { self.old.course ≡ Course.Open }
        ensures answer { IfOk result (λ c. c ≡ checked_at self.old.monitor.setup self.old.monitor.trail) }
        ensures ok { OnOk result (self.new ≡ record self.old { monitor = checking self.old.monitor }) }
        ensures err { OnErr result (self.new ≡ self.old) }
        ensures kept { IsPort self.new }
    {
        self.side.monitor.check()
    }

    /// Writes what was sent and is not written, then gives until nothing is left to give. It never changes the monitor.
    pub fn push(&mut self) -> Result<Pushed, NoMemory>
        requires { self.old.course ≡ Course.Open }
        ensures says { Says (sent_by self.old.monitor.trail) self.old.link self.new.link }
        ensures rest { self.new ≡ record self.old { link = self.new.link } }
        // Where it has the memory, every frame is written, and what is not given has no room on the wire.
        ensures ok { OnOk result (self.new.link.written ≡ length (sent_by self.old.monitor.trail)) }
        ensures empty { IfOk result (λ pushed. (pushed ≡ Pushed.Empty) ↔ (self.new.link.output ≡ [])) }
        ensures full { IfOk result (λ pushed. LeavesFull pushed self.new.link) }
        ensures counted { IfOk result (λ pushed. self.new.link.counts ≡ counts_pushed pushed self.old.link.counts) }
        // Where it has not, nothing was given.
        ensures err { OnErr result (self.new.link.wire ≡ self.old.link.wire) }
        ensures kept { IsPort self.new }
    {
        self.link.say(&self.side, COORDINATOR)
    }

    /// Shuts the wire, without memory. A port that failed before stays so.
    pub fn halt(&mut self)
        ensures shut { IsShut self.old.link self.new.link }
        ensures wire { W.is_shut self.new.link.wire ≡ true }
        ensures course { self.new.course ≡ halted_of self.old.course }
        ensures rest { self.new ≡ record self.old { link = self.new.link; course = self.new.course } }
        ensures kept { IsPort self.new }
    {
        self.link.shut();
        self.course = self.course.halted();
    }

    /// Whether the wire is shut.
    pub fn halted(&self) -> bool
        ensures { result ≡ self.now.link.shut }
    {
        self.link.is_shut()
    }

    /// Says what was sent, pulls at most 64 pieces and takes their frames, checks, and says what was sent since.
    /// Costs what came and what is sent. After Failed, Refused or Bad the wire is shut, and each later turn answers the same.
    pub fn turn(&mut self) -> Turn
        requires { self.old.course ≡ Course.Halted → ⊥ }
        // A port that failed gives the same answer, and does nothing else.
        ensures closed { (turn : Turned) → answer_of self.old.course ≡ Some turn → (result ≡ turn) × (self.new ≡ self.old) }
        // So does a port whose monitor has taken Stop.
        ensures stopped { self.old.course ≡ Course.Open
            → is_stopped self.old.monitor.trail ≡ true → (result ≡ Turn.Stopped) × (self.new ≡ self.old) }
        ensures open { self.old.course ≡ Course.Open → Turns result self.old self.new }
        ensures not_halted { self.new.course ≡ Course.Halted → ⊥ }
        ensures kept { IsPort self.new }
    {
        if let Some(turn) = self.course.answer() {
            return turn;
        }
        if self.side.monitor.stopped() {
            return Turn::Stopped;
        }
        let turn = exchange(&mut self.link, &mut self.side);
        self.course = conclude(&mut self.link, turn);
        turn
    }

    /// Pulls until a frame is whole, and takes that one. It checks nothing and says nothing.
    pub fn take_one(&mut self) -> Turn
        requires not_halted { self.old.course ≡ Course.Halted → ⊥ }
        requires not_stopped { is_stopped self.old.monitor.trail ≡ false }
        ensures closed { (turn : Turned) → answer_of self.old.course ≡ Some turn → (result ≡ turn) × (self.new ≡ self.old) }
        ensures open { self.old.course ≡ Course.Open → TurnsOne result self.old self.new }
        ensures not_halted { self.new.course ≡ Course.Halted → ⊥ }
        ensures kept { IsPort self.new }
    {
        if let Some(turn) = self.course.answer() {
            return turn;
        }
        let turn = hear_one(&mut self.link, &mut self.side);
        self.course = conclude(&mut self.link, turn);
        turn
    }

    /// The monitor with what it was given next and did not take, and the wire. It takes no memory.
    pub fn into_end(self) -> (MonEnd, W)
        ensures monitor { result.0.monitor ≡ self.monitor }
        ensures odd { IsLeft self result.0.odd }
        ensures wire { result.1 ≡ self.link.wire }
        ensures shut { self.link.shut ≡ true → W.is_shut result.1 ≡ true }
        ensures covered { Covers self.link.version (taken_by self.monitor.trail) self.link.unread (W.counts result.1).taken }
        ensures kept { IsPort self }
    {
        let Port {
            side,
            link,
            course,
            ..
        } = self;
        let (odd, wire) = left(link, course);
        (MonEnd::new(side.monitor, odd), wire)
    }
}

impl<W: Piped> Port<W> {
    /// As the drain of its wire; where it is shut nothing moves.
    pub fn drain(&mut self, to: &mut Pipe) -> usize
        ensures drains { Drains W.piece W.bearing result self.old.link self.new.link to.old to.new }
        ensures rest { self.new ≡ record self.old { link = self.new.link } }
        ensures kept { IsPort self.new }
    {
        self.link.drain(to)
    }

    /// As the fill of its wire; where it is shut nothing moves.
    pub fn fill(&mut self, from: &mut Pipe) -> usize
        ensures fills { Fills W.piece W.bearing result self.old.link self.new.link from.old from.new }
        ensures rest { self.new ≡ record self.old { link = self.new.link } }
        ensures kept { IsPort self.new }
    {
        self.link.fill(from)
    }
}
