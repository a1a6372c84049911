//! How a line is made: its monitor says Hello, which goes over the line in pieces, and the hub admits it.

ghost use Rattle.std.specs.Prelude.{◌≡◌, ◌<◌, ◌≤◌, ℕ, [], IfOk, OnOk};
ghost use Rattle.tk_frames.specs.Spelling.{IsVersion};
ghost use Rattle.tk_trail.specs.Setup.{IsSetup};
ghost use Rattle.tk_bytes.specs.Greeting.{CanJoin, IsOpening, IsOver, SeatsOne, hello_in, waiting_on};
ghost use Rattle.tk_bytes.specs.Line.{IsLine};

use crate::line::Line;
use crate::upward::say;
use std::alloc::Global;
use tk_base::NoMemory;
use tk_hub::Hub;
use tk_monitor::Monitor;
use tk_port::Port;
use tk_wire::{Pipe, Piped, SureWire};

/// The number of the run.
pub const RUN: u64 = 1;

/// How many bytes a wire has room for, those that came to it and those that it gives.
const ROOM: usize = 4_096;

/// How many bytes a Hello has.
const HELLO: usize = 18;

/// What the bytes of a line go over: the wire at its monitor's end, and the pipes of both ways.
struct Ways {
    wire: SureWire,
    up: Pipe,
    down: Pipe,
}

fn new_ways(alloc: Global, piece: usize) -> Result<Ways, NoMemory>
    requires { (0 < piece) × (piece ≤ 65536) }
    ensures wire { IfOk result (λ ways. ways.wire.traffic ≡ waiting_on 4096 []) }
    ensures up { IfOk result (λ ways. ways.up ≡ record { past = []; bytes = []; room = piece }) }
    ensures down { IfOk result (λ ways. ways.down ≡ record { past = []; bytes = []; room = piece }) }
{
    let wire = SureWire::new(alloc, ROOM)?;
    let up = Pipe::new(alloc, piece)?;
    let down = Pipe::new(alloc, piece)?;
    Ok(Ways { wire, up, down })
}

/// A line of a monitor that has said Hello.
fn begin(alloc: Global, monitor: Monitor, piece: usize, version: u8) -> Result<Line, NoMemory>
    requires setup { IsSetup monitor.setup }
    requires number { (0 < monitor.setup.number) × (monitor.setup.number ≤ 64) }
    requires trail { monitor.trail ≡ [] }
    requires piece { (0 < piece) × (piece ≤ 65536) }
    requires version { IsVersion version }
    ensures monitor { IfOk result (λ line. line.port.monitor ≡ monitor) }
    ensures opening { IfOk result IsOpening }
    ensures held { IfOk result (λ line. line.port.link.traffic.held ≡ hello_in line.port) }
    ensures over { IfOk result (IsOver piece version) }
{
    let Ways { wire, up, down } = new_ways(alloc, piece)?;
    let mut port = Port::new(alloc, wire, monitor, RUN, version)?;
    // The wire is read for its clause, that nothing has passed it.
    let _ = port.wire();
    match say(&mut port) {
        Ok(()) => Ok(Line { port, up, down }),
        Err(NoMemory) => {
            drop(port);
            Err(NoMemory)
        }
    }
}

/// Moves the Hello of a line to a wire at its other end, piece by piece.
fn carry_hello(line: &mut Line, wire: &mut SureWire)
    requires opening { IsOpening line.old }
    requires held { line.old.port.link.traffic.held ≡ hello_in line.old.port }
    requires unused { wire.old.traffic ≡ waiting_on 4096 [] }
    ensures opening { IsOpening line.new }
    ensures given { line.new.port.link.traffic.held ≡ [] }
    ensures waits { wire.new.traffic ≡ waiting_on 4096 (hello_in line.new.port) }
    ensures monitor { line.new.port.monitor ≡ line.old.port.monitor }
    ensures over { (piece version : ℕ) → IsOver piece version line.old → IsOver piece version line.new }
{
    let mut came = 0;
    while came < HELLO {
        line.port.drain(&mut line.up);
        came += wire.fill(&mut line.up);
    }
}

/// Carries the Hello of a line to the hub, which admits its monitor.
fn introduce(alloc: Global, hub: &mut Hub<SureWire>, line: &mut Line) -> Result<(), NoMemory>
    requires can { CanJoin line.old.port.monitor.setup.number hub.old }
    requires opening { IsOpening line.old }
    requires held { line.old.port.link.traffic.held ≡ hello_in line.old.port }
    ensures line { OnOk result (IsLine line.old.port.monitor.setup.number hub.new line.new) }
    ensures seats { OnOk result (SeatsOne line.old.port.monitor.setup.number hub.old hub.new) }
    ensures monitor { line.new.port.monitor ≡ line.old.port.monitor }
    ensures over { (piece version : ℕ) → IsOver piece version line.old → IsOver piece version line.new }
{
    let mut wire = SureWire::new(alloc, ROOM)?;
    carry_hello(line, &mut wire);
    hub.admit(wire)?;
    hub.greet()?;
    Ok(())
}

/// A line of a monitor that the hub has admitted.
pub fn join(
    alloc: Global,
    hub: &mut Hub<SureWire>,
    monitor: Monitor,
    piece: usize,
    version: u8,
) -> Result<Line, NoMemory>
    requires can { CanJoin monitor.setup.number hub.old }
    requires setup { IsSetup monitor.setup }
    requires number { monitor.setup.number ≤ 64 }
    requires trail { monitor.trail ≡ [] }
    requires piece { (0 < piece) × (piece ≤ 65536) }
    requires version { IsVersion version }
    ensures line { IfOk result (IsLine monitor.setup.number hub.new) }
    ensures monitor { IfOk result (λ line. line.port.monitor ≡ monitor) }
    ensures over { IfOk result (IsOver piece version) }
    ensures seats { OnOk result (SeatsOne monitor.setup.number hub.old hub.new) }
{
    let mut line = begin(alloc, monitor, piece, version)?;
    match introduce(alloc, hub, &mut line) {
        Ok(()) => Ok(line),
        Err(NoMemory) => {
            drop(line);
            Err(NoMemory)
        }
    }
}
