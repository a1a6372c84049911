//! A frame that goes from the coordinator to a monitor, as bytes.

ghost use Rattle.std.specs.Prelude.{◌≡◌, OnErr, OnOk};
ghost use Rattle.tk_frames.specs.declared.frame.Frame.{Frame};
ghost use Rattle.tk_bytes.specs.Line.{CarriesDown, ComesDown, IsLine, IsSaidTo, IsWrittenTo, KeepsOthers, SaysTo, StepsDown};

use crate::line::Line;
use tk_base::{Mon, NoMemory};
use tk_hub::Hub;
use tk_port::Turn;
use tk_wire::{Pushed, SureWire};

/// Writes what was sent to a monitor and is not written, and gives until nothing is left or the wire is full.
fn say(hub: &mut Hub<SureWire>, line: &Line, mon: Mon) -> Result<(), NoMemory>
    requires { IsLine mon.0 hub.old line.now }
    ensures says { SaysTo mon.0 hub.old hub.new }
    ensures said { OnOk result (IsSaidTo mon.0 hub.new) }
    ensures line { IsLine mon.0 hub.new line.now }
{
    let pushed = hub.push(mon);
    // The wire is read for its clause, that no call of it failed.
    let _ = hub.wire_at(mon);
    match pushed? {
        Pushed::Empty => Ok(()),
        Pushed::NotYet => Ok(()),
        Pushed::Failed => unreachable!(),
    }
}

/// Moves a piece from the coordinator's wire to a monitor's, and answers whether with it a frame was whole and taken.
fn step(hub: &mut Hub<SureWire>, line: &mut Line, mon: Mon) -> Result<bool, NoMemory>
    requires line { IsLine mon.0 hub.old line.old }
    requires said { IsSaidTo mon.0 hub.old }
    requires next { (frame : Frame) × ComesDown mon.0 hub.old.coordinator line.old.port.monitor frame }
    ensures line { IsLine mon.0 hub.new line.new }
    ensures moves { StepsDown mon.0 result hub.old line.old hub.new line.new }
    ensures err { OnErr result (line.new.port.monitor ≡ line.old.port.monitor) }
    ensures coordinator { hub.new.coordinator ≡ hub.old.coordinator }
    ensures written { IsWrittenTo mon.0 hub.new }
    ensures others { KeepsOthers mon.0 hub.old hub.new }
{
    hub.drain(mon, &mut line.down);
    line.port.fill(&mut line.down);
    let turn = line.port.take_one();
    // The wire is read for its clause, that no call of it failed.
    let _ = line.port.wire();
    match turn {
        Turn::More => Ok(true),
        Turn::Stopped => Ok(true),
        Turn::Quiet => Ok(false),
        Turn::NoMemory => Err(NoMemory),
        Turn::Failed => unreachable!(),
        Turn::Refused(_) => unreachable!(),
        Turn::Bad(_) => unreachable!(),
    }
}

/// A monitor takes the next frame of the coordinator, which comes to it in pieces.
pub fn carry_down(hub: &mut Hub<SureWire>, line: &mut Line, mon: Mon) -> Result<(), NoMemory>
    requires line { IsLine mon.0 hub.old line.old }
    requires next { (frame : Frame) × ComesDown mon.0 hub.old.coordinator line.old.port.monitor frame }
    ensures line { IsLine mon.0 hub.new line.new }
    ensures ok { CarriesDown mon.0 result hub.old line.old line.new }
    ensures err { OnErr result (line.new.port.monitor ≡ line.old.port.monitor) }
    ensures coordinator { hub.new.coordinator ≡ hub.old.coordinator }
    ensures others { KeepsOthers mon.0 hub.old hub.new }
{
    say(hub, line, mon)?;
    while !step(hub, line, mon)? {
        say(hub, line, mon)?;
    }
    Ok(())
}
