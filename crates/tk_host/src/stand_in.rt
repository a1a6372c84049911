//! A monitor that sits in the seat of one that is missing.

ghost use Rattle.std.specs.Prelude.{◌≡◌, ◌<◌, ◌≤◌, ◌∷◌, [], false, IfOk};
ghost use Rattle.tk_base.specs.Settings.{IsWithinLimits};
ghost use Rattle.tk_host.specs.Unfed.{IsUnfed};
ghost use Rattle.tk_input.specs.Changes.{closing};
ghost use Rattle.tk_monitor.specs.Monitored.{made};
ghost use Rattle.tk_port.specs.declared.course.Course.TheVariants.{Halted, Open};

use std::alloc::Global;
use std::marker::Model;
use tk_base::{Mon, NoMemory, Obj, Places, Settings};
use tk_input::{Change, Changes, Part};
use tk_monitor::Monitor;
use tk_port::{Port, Turn};
use tk_wire::{Gave, Pipe, PipeWire, Took, Wire};

/// How many bytes are on their way to a stand-in, or from it.
const ROOM: usize = 16_384;

/// In which version of the frames it speaks.
const VERSION: u8 = 1;

/// A monitor over one stream that is open and gave nothing, whose frames are taken and given here: it answers as any other, and
/// never tells its end. Contracts see its port, and its counts as those of a wire.
#[derive(Drop)]
pub struct StandIn {
    port: Port<PipeWire>,
    // What was given to it and has not come to its wire, and what went from its wire and was not taken.
    down: Pipe,
    up: Pipe,
    faults: u64,
    taken: u64,
    shut: bool,
}

impl Model for StandIn {
    ghost use Rattle.tk_host.specs.Unfed.{StandInView};
    ghost use Rattle.tk_port.specs.declared.course.Course.{Course};
    ghost use Rattle.tk_port.specs.declared.course.Course.TheVariants.{Halted};
    ghost use Rattle.std.specs.Prelude.{◌≡◌};

    ghost Value = { StandInView };

    ghost view = { λ s. record {
      port = s.port;
      counts = record { faults = s.faults; ends = 0; taken = s.taken };
      shut = s.shut;
    } };

    ghost invariant = { λ s. s.port.course ≡ Halted → ⊥ };
}

/// The part of a stream that is open and gave nothing.
fn unfed_part(alloc: Global) -> Result<Part, NoMemory>
    ensures { IfOk result (λ part. part ≡ closing ∷ []) }
{
    let mut changes = Changes::new(alloc);
    changes.push(Change { obj: Obj(1), by: 0 })?;
    Ok(Part::new(changes))
}

/// Such a part alone.
fn unfed_parts(alloc: Global) -> Result<Vec<Part>, NoMemory>
    ensures { IfOk result (λ parts. parts.items ≡ (closing ∷ []) ∷ []) }
{
    let part = unfed_part(alloc)?;
    let mut parts = Vec::new(alloc);
    parts.push(part)?;
    Ok(parts)
}

/// The place in front of its closing record.
fn unfed_start(alloc: Global) -> Result<Places, NoMemory>
    ensures { IfOk result (λ from. from ≡ 0 ∷ []) }
{
    let places = Vec::from_slice(alloc, &[0])?;
    Ok(Places::new(places))
}

/// A monitor over such a part.
fn unfed(alloc: Global, settings: &Settings, mon: Mon) -> Result<Monitor, NoMemory>
    requires { IsWithinLimits settings.now }
    ensures { IfOk result (λ m. m ≡ made settings.now mon.0 ((closing ∷ []) ∷ []) (0 ∷ [])) }
{
    let from = unfed_start(alloc)?;
    let parts = unfed_parts(alloc)?;
    Monitor::new(alloc, settings, mon, parts, &from)
}

/// A wire in memory, over which nothing has passed.
fn unfed_wire(alloc: Global) -> Result<PipeWire, NoMemory>
    ensures came { IfOk result (λ wire. wire.traffic.came ≡ []) }
    ensures went { IfOk result (λ wire. wire.traffic.went ≡ []) }
{
    PipeWire::new(alloc, ROOM, ROOM, Vec::new(alloc))
}

/// A port of such a monitor over such a wire.
fn unfed_port(
    alloc: Global,
    settings: &Settings,
    mon: Mon,
    run: u64,
) -> Result<Port<PipeWire>, NoMemory>
    requires limits { IsWithinLimits settings.now }
    requires number { (0 < mon.0) × (mon.0 ≤ 64) }
    ensures monitor { IfOk result (λ port. port.monitor ≡ made settings.now mon.0 ((closing ∷ []) ∷ []) (0 ∷ [])) }
    ensures run { IfOk result (λ port. port.run ≡ run) }
    ensures course { IfOk result (λ port. port.course ≡ Open) }
{
    let wire = unfed_wire(alloc)?;
    let monitor = unfed(alloc, settings, mon)?;
    Port::new(alloc, wire, monitor, run, VERSION)
}

/// Whether a stand-in goes on after a turn of its port.
fn goes_on(turn: Turn) -> bool {
    match turn {
        Turn::Quiet => true,
        Turn::More => true,
        Turn::Stopped => true,
        Turn::Failed => false,
        Turn::Refused(_) => false,
        Turn::Bad(_) => false,
        Turn::NoMemory => false,
    }
}

/// Gives a port what has come and takes what it says. Says whether it goes on.
fn turn(port: &mut Port<PipeWire>, down: &mut Pipe, up: &mut Pipe) -> bool
    requires { port.old.course ≡ Halted → ⊥ }
    ensures { port.new.course ≡ Halted → ⊥ }
{
    port.fill(down);
    let turn = port.turn();
    port.drain(up);
    goes_on(turn)
}

impl StandIn {
    /// A stand-in over a port, to which nothing was given.
    fn over(port: Port<PipeWire>, down: Pipe, up: Pipe) -> StandIn
        requires { port.course ≡ Open }
        ensures port { result.port ≡ port }
        ensures counts { result.counts ≡ record { faults = 0; ends = 0; taken = 0 } }
    {
        StandIn {
            port,
            down,
            up,
            faults: 0,
            taken: 0,
            shut: false,
        }
    }

    /// A stand-in for a monitor of a run, to which nothing was given.
    pub fn new(alloc: Global, settings: &Settings, mon: Mon, run: u64) -> Result<StandIn, NoMemory>
        requires limits { IsWithinLimits settings.now }
        requires number { (0 < mon.0) × (mon.0 ≤ 64) }
        ensures { IfOk result (IsUnfed settings.now mon.0 run) }
    {
        let down = Pipe::new(alloc, ROOM)?;
        let up = Pipe::new(alloc, ROOM)?;
        let port = unfed_port(alloc, settings, mon, run)?;
        Ok(StandIn::over(port, down, up))
    }
}

impl Wire for StandIn {
    ghost tells = { false };

    ghost traffic = { λ s. s.port.link.traffic };

    ghost counts = { λ s. s.counts };

    ghost is_shut = { λ s. s.shut };

    fn faults(&self) -> u64 {
        self.faults
    }

    fn ends(&self) -> u64 {
        // A count is read for the clause: what was counted says that no take finds an end.
        let _faults = self.faults;
        0
    }

    fn taken(&self) -> u64 {
        self.taken
    }

    fn take(&mut self, into: &mut [u8]) -> Took {
        if !turn(&mut self.port, &mut self.down, &mut self.up) {
            self.faults = self.faults.saturating_add(1);
            return Took::Failed;
        }
        let count = self.up.get(into);
        if count == 0 {
            return Took::NotYet;
        }
        self.taken = self.taken.saturating_add(count as u64);
        Took::Bytes(count)
    }

    fn give(&mut self, bytes: &[u8]) -> Gave {
        match self.down.put(bytes) {
            0 => Gave::NotYet,
            count => Gave::Bytes(count),
        }
    }

    fn shut(&mut self) {
        self.shut = true;
    }
}
