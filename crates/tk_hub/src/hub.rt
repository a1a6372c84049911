//! The hub, turn by turn: who is new is greeted, frames go both ways, and the lines of new sets are written.

ghost use Rattle.std.specs.Prelude.{◌≡◌, ◌≤◌, ◌↔◌, [], true, None, Ok, Some, IfOk, IsTrue, length, replicate};
ghost use Rattle.slab.specs.Slab.{slab_len};
ghost use Rattle.tk_base.specs.History.{IsFront};
ghost use Rattle.tk_input.specs.Files.{HasRisen};
ghost use Rattle.tk_journal.specs.Legal.{inputs_of};
ghost use Rattle.tk_hub.specs.Door.{GreetsHeld, HoldsNew, door};
ghost use Rattle.tk_hub.specs.Hub.{Closes, Cuts, EachOpen, IsFinished, IsFinishedBy, IsHub, Turns, TurnsOne, Works, Writes};
ghost use Rattle.tk_hub.specs.Hub.{door_of, seats_of, with_door};
ghost use Rattle.tk_hub.specs.Lines.{IsAt};
ghost use Rattle.tk_hub.specs.Writing.{CutsWhere, WritesUnless, turn_faults};
ghost use Rattle.tk_hub.specs.Seats.{AreSeats, EachShuts, admits, link_of, monitors_of, with_link};
ghost use Rattle.tk_hub.specs.Slot.{SeatSays};
ghost use Rattle.tk_hub.specs.Turn.{answer_of, course_of, halted_of, is_open};
ghost use Rattle.tk_hub.specs.Visitor.{IsUnused};
ghost use Rattle.tk_hub.specs.declared.course.HubTurn.{HubTurn as Turned};

mod ending;
mod piping;
mod retuning;

use crate::course::{Course, HubTurn};
use crate::lines::{LineFault, Lines};
use crate::lobby::{Admitted, Lobby};
use crate::room::Room;
use crate::seats::Seats;
use std::alloc::Global;
use std::marker::Model;
use tk_base::{Mon, NoMemory};
use tk_coord::Coordinator;
use tk_input::{Catalog, Sink};
use tk_wire::{Pushed, Wire};

/// The coordinator and its ends of the connections: one for each monitor that has said Hello, and those that have not.
#[derive(Drop)]
pub struct Hub<W: Wire> {
    alloc: Global,
    seats: Seats<W>,
    lobby: Lobby<W>,
    lines: Lines,
    course: Course,
    room: Room<W>,
}

impl<W: Wire> Model for Hub<W> {
    ghost use Rattle.tk_hub.specs.Hub.{HubView, IsHub};

    ghost Value = { HubView W };

    ghost view = { λ h. record {
      run = h.seats.run;
      coordinator = h.seats.coordinator;
      links = h.seats.links;
      held = h.lobby.held;
      strangers = h.lobby.strangers;
      lines = h.lines;
      course = h.course;
    } };

    ghost invariant = { λ h. IsHub (record {
      run = h.seats.run;
      coordinator = h.seats.coordinator;
      links = h.seats.links;
      held = h.lobby.held;
      strangers = h.lobby.strangers;
      lines = h.lines;
      course = h.course;
    }) };
}

/// Whether the final line is written, and all output is given.
fn is_finished<W: Wire + Drop>(seats: &Seats<W>, lines: Lines) -> bool
    ensures { IsTrue result ↔ IsFinishedBy seats.now lines }
{
    seats.coordinator().finished()
        && lines.passed == seats.coordinator().journal().len()
        && seats.has_said_all()
}

/// Greets, exchanges frames with each monitor, and writes new lines.
fn exchange<W: Wire + Drop, O: Sink>(
    alloc: Global,
    seats: &mut Seats<W>,
    lobby: &mut Lobby<W>,
    lines: &mut Lines,
    names: &Catalog,
    out: &mut O,
) -> HubTurn
    requires seats { AreSeats seats.old }
    requires at { IsAt seats.old.coordinator.journal lines.old }
    requires named { seats.old.coordinator.settings.objects ≤ length names.now }
    ensures works { Works W.counts result seats.old lobby.old seats.new lobby.new lines.new }
    ensures seats { AreSeats seats.new }
    ensures at { IsAt seats.new.coordinator.journal lines.new }
    ensures going { EachOpen seats.old.links → EachOpen seats.new.links }
    ensures few { slab_len lobby.new.held ≤ 64 }
    ensures more { lobby.old.strangers ≤ lobby.new.strangers }
    ensures forward { lines.old.passed ≤ lines.new.passed }
    ensures lines { WritesUnless result
        names.now seats.new.coordinator.journal lines.old lines.new (O.written out.old) (O.written out.new) }
    ensures cut { CutsWhere result
        names.now seats.new.coordinator.journal lines.old lines.new (O.written out.old) (O.written out.new) }
    ensures failed { result ≡ HubTurn.WriteFailed → HasRisen (O.fault_count out.old) (O.fault_count out.new) }
    ensures counted { O.fault_count out.new ≡ turn_faults result (O.fault_count out.old) }
{
    if lobby.greet(seats).is_err() {
        return HubTurn::NoMemory;
    }
    let turn = seats.exchange();
    if !turn.goes_on() {
        return turn;
    }
    match lines.write(alloc, seats.coordinator().journal(), names, out) {
        Err(LineFault::WriteFailed) => return HubTurn::WriteFailed,
        Err(LineFault::NoMemory) => return HubTurn::NoMemory,
        Ok(()) => {}
    }
    if is_finished(seats, *lines) {
        HubTurn::Finished
    } else {
        turn
    }
}

/// The course after a turn, for which all wires are shut where it is closed.
fn conclude<W: Wire + Drop>(seats: &mut Seats<W>, lobby: &mut Lobby<W>, turn: HubTurn) -> Course
    requires { slab_len lobby.old.held ≤ 64 }
    ensures course { result ≡ course_of turn }
    ensures closes { Closes (is_open (course_of turn)) (door lobby.old seats.old) (door lobby.new seats.new) }
    ensures rest { seats.new ≡ record seats.old { links = seats.new.links } }
    ensures kept { AreSeats seats.old → AreSeats seats.new }
    ensures few { slab_len lobby.new.held ≤ 64 }
{
    let course = Course::after(turn);
    if !course.is_open() {
        seats.shut();
        lobby.clear();
    }
    course
}

impl<W: Wire + Drop> Hub<W> {
    /// A hub without connections.
    pub fn new(alloc: Global, coordinator: Coordinator, run: u64) -> Result<Hub<W>, NoMemory>
        requires { inputs_of coordinator.journal ≡ [] }
        ensures run { IfOk result (λ hub. hub.run ≡ run) }
        ensures coordinator { IfOk result (λ hub. hub.coordinator ≡ coordinator) }
        ensures links { IfOk result (λ hub. hub.links ≡ replicate coordinator.settings.monitors None) }
        ensures held { IfOk result (λ hub. hub.held.slots ≡ []) }
        ensures strangers { IfOk result (λ hub. hub.strangers ≡ 0) }
        ensures lines { IfOk result (λ hub. hub.lines.passed ≡ 0) }
        ensures course { IfOk result (λ hub. hub.course ≡ Course.Open) }
        ensures kept { IfOk result IsHub }
    {
        let seats = Seats::new(alloc, coordinator, run)?;
        let Ok(room) = Room::new(alloc) else {
            // By name, as in `Seats::new`: `?` would drop each of its fields here, which is dear to prove.
            drop(seats);
            return Err(NoMemory);
        };
        // The coordinator is read for its clause, that each seat is that of its monitor.
        let _ = seats.coordinator();
        Ok(Hub {
            alloc,
            seats,
            lobby: Lobby::new(alloc),
            lines: Lines::new(),
            course: Course::Open,
            room,
        })
    }

    /// The coordinator.
    pub fn coordinator(&self) -> &Coordinator
        ensures value { result.now ≡ self.now.coordinator }
        ensures kept { IsHub self.now }
    {
        self.seats.coordinator()
    }

    /// How many connections were closed since they were no monitor's of this run.
    pub fn strangers(&self) -> u64
        ensures { result ≡ self.now.strangers }
    {
        self.lobby.strangers()
    }

    /// Holds a connection until its Hello, or closes it. Where there is no memory, it is dropped.
    pub fn admit(&mut self, wire: W) -> Result<Admitted, NoMemory>
        requires unused { IsUnused W.tells (W.traffic wire) }
        requires going { self.old.course ≡ Course.Open }
        ensures closed { (result ≡ Ok Admitted.Closed) ↔ (slab_len self.old.held ≡ 64) }
        ensures kept { result ≡ Ok Admitted.Kept
            → HoldsNew W.tells (W.traffic wire) (W.counts wire) wire self.old.held self.new.held }
        ensures same { (result ≡ Ok Admitted.Kept → ⊥) → self.new.held.slots ≡ self.old.held.slots }
        ensures rest { self.new ≡ record self.old { held = self.new.held } }
        ensures hub { IsHub self.new }
    {
        self.lobby.admit(wire)
    }

    /// Pulls from each connection without a Hello until its first frame is whole, and admits or closes it.
    pub fn greet(&mut self) -> Result<(), NoMemory>
        requires { self.old.course ≡ Course.Open }
        ensures greets { GreetsHeld W.counts self.old.run (monitors_of (seats_of self.old)) result
            (door_of self.old) (door_of self.new) }
        ensures more { self.old.strangers ≤ self.new.strangers }
        ensures rest { self.new ≡ with_door (door_of self.new) self.old }
        ensures kept { IsHub self.new }
    {
        self.lobby.greet(&mut self.seats)
    }

    /// Greets, takes frames of each monitor, at most 64 pieces each, says what was sent and writes new lines.
    /// Costs what came and what is sent, and over quiet connections one take each.
    pub fn turn<O: Sink>(&mut self, names: &Catalog, out: &mut O) -> HubTurn
        requires not_halted { self.old.course ≡ Course.Halted → ⊥ }
        requires written { self.old.course ≡ Course.WriteFailed → ⊥ }
        requires named { self.old.coordinator.settings.objects ≤ length names.now }
        // A hub that failed gives the same answer, one that has finished too, and neither does anything else.
        ensures closed { (turn : Turned) → answer_of self.old.course ≡ Some turn → (result ≡ turn) × (self.new ≡ self.old) }
        ensures over { self.old.course ≡ Course.Open → IsFinished self.old → (result ≡ HubTurn.Finished) × (self.new ≡ self.old) }
        ensures silent { (self.old.course ≡ Course.Open → IsFinished self.old) → out.new ≡ out.old }
        // Any other takes a turn. Finished says that all lines of all publications are written, and all is given.
        ensures goes { self.old.course ≡ Course.Open → (IsFinished self.old → ⊥) → Turns W.counts result self.old self.new }
        ensures finished { result ≡ HubTurn.Finished → IsFinished self.new }
        // The lines of the publications that were passed are written, and only WriteFailed leaves a part of one.
        ensures lines { Writes result names.now self.old self.new (O.written out.old) (O.written out.new) }
        ensures cut { Cuts result names.now self.old self.new (O.written out.old) (O.written out.new) }
        ensures forward { self.old.lines.passed ≤ self.new.lines.passed }
        ensures failed { result ≡ HubTurn.WriteFailed → HasRisen (O.fault_count out.old) (O.fault_count out.new) }
        ensures counted { O.fault_count out.new ≡ turn_faults result (O.fault_count out.old) }
        // Whatever it answers, its course is that of the answer, and what it was made with stays.
        ensures course { self.new.course ≡ course_of result }
        ensures run { self.new.run ≡ self.old.run }
        ensures settings { self.new.coordinator.settings ≡ self.old.coordinator.settings }
        ensures grows { IsFront self.old.coordinator.journal self.new.coordinator.journal }
        ensures more { self.old.strangers ≤ self.new.strangers }
        ensures kept { IsHub self.new }
    {
        if let Some(turn) = self.course.answer() {
            return turn;
        }
        if is_finished(&self.seats, self.lines) {
            return HubTurn::Finished;
        }
        let turn = exchange(
            self.alloc,
            &mut self.seats,
            &mut self.lobby,
            &mut self.lines,
            names,
            out,
        );
        self.course = conclude(&mut self.seats, &mut self.lobby, turn);
        turn
    }

    /// Whether a connection of this monitor is admitted, and not shut.
    pub fn is_admitted(&self, mon: Mon) -> bool
        ensures { result ≡ admits self.now.links mon.0 }
    {
        self.seats.is_admitted(mon)
    }

    /// Pulls until a frame of this monitor is whole, and takes that one.
    pub fn take_one(&mut self, mon: Mon) -> HubTurn
        requires going { self.old.course ≡ Course.Open }
        requires admitted { admits self.old.links mon.0 ≡ true }
        ensures turns { TurnsOne mon.0 result self.old self.new }
        ensures course { self.new.course ≡ course_of result }
        ensures run { self.new.run ≡ self.old.run }
        ensures settings { self.new.coordinator.settings ≡ self.old.coordinator.settings }
        ensures grows { IsFront self.old.coordinator.journal self.new.coordinator.journal }
        ensures kept { IsHub self.new }
    {
        let turn = self.seats.hear_one(mon);
        self.course = conclude(&mut self.seats, &mut self.lobby, turn);
        turn
    }

    /// Writes the frames for this monitor that are not written, then gives until nothing is left to give.
    pub fn push(&mut self, mon: Mon) -> Result<Pushed, NoMemory>
        requires going { self.old.course ≡ Course.Open }
        requires admitted { admits self.old.links mon.0 ≡ true }
        ensures says { SeatSays mon.0 self.old.coordinator result (link_of self.old.links mon.0) (link_of self.new.links mon.0) }
        ensures rest { self.new ≡ record self.old { links = with_link mon.0 self.new.links self.old.links } }
        ensures kept { IsHub self.new }
    {
        self.seats.say_at(mon)
    }

    /// Shuts the admitted wires, keeps them unused and drops the others. It takes no memory.
    pub fn halt(&mut self)
        ensures shut { EachShuts self.old.links self.new.links }
        ensures dropped { self.new.held.slots ≡ [] }
        ensures course { self.new.course ≡ halted_of self.old.course }
        ensures rest { self.new ≡ record self.old { links = self.new.links; held = self.new.held; course = self.new.course } }
        ensures kept { IsHub self.new }
    {
        self.seats.shut();
        self.lobby.clear();
        self.course = self.course.halted();
    }
}
