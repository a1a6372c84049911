//! A frame that goes from a monitor to the coordinator, as bytes.

ghost use Rattle.std.specs.Prelude.{◌≡◌, OnErr, OnOk};
ghost use Rattle.tk_frames.specs.declared.frame.Frame.{Frame};
ghost use Rattle.tk_port.specs.Port.{IsPort};
ghost use Rattle.tk_port.specs.declared.course.Course.TheVariants as c;
ghost use Rattle.tk_trail.specs.Readings.{sent_by};
ghost use Rattle.tk_end.specs.Link.{Says};
ghost use Rattle.tk_bytes.specs.Line.{CarriesUp, ComesUp, IsLine, IsSaid, KeepsOthers, StepsUp};
ghost use Rattle.tk_bytes.specs.Way.{IsSure};

use crate::line::Line;
use tk_base::{Mon, NoMemory};
use tk_hub::{Hub, HubTurn};
use tk_port::Port;
use tk_wire::{Pushed, SureWire};

/// Writes what was sent and is not written, and gives until nothing is left or the wire is full.
pub fn say(port: &mut Port<SureWire>) -> Result<(), NoMemory>
    requires { port.old.course ≡ c.Open }
    ensures says { Says (sent_by port.old.monitor.trail) port.old.link port.new.link }
    ensures said { OnOk result (IsSaid (sent_by port.old.monitor.trail) port.new.link) }
    ensures sure { IsSure port.new.link.counts }
    ensures rest { port.new ≡ record port.old { link = port.new.link } }
    ensures kept { IsPort port.new }
{
    let pushed = port.push();
    // The wire is read for its clause, that no call of it failed.
    let _ = port.wire();
    match pushed? {
        Pushed::Empty => Ok(()),
        Pushed::NotYet => Ok(()),
        Pushed::Failed => unreachable!(),
    }
}

/// Moves a piece from a monitor's wire to the coordinator's, and answers whether with it a frame was whole and taken.
fn step(hub: &mut Hub<SureWire>, line: &mut Line, mon: Mon) -> Result<bool, NoMemory>
    requires line { IsLine mon.0 hub.old line.old }
    requires said { IsSaid (sent_by line.old.port.monitor.trail) line.old.port.link }
    requires next { (frame : Frame) × ComesUp mon.0 hub.old.coordinator line.old.port.monitor frame }
    ensures line { IsLine mon.0 hub.new line.new }
    ensures moves { StepsUp mon.0 result hub.old line.old hub.new line.new }
    ensures err { OnErr result (hub.new.coordinator ≡ hub.old.coordinator) }
    ensures port { line.new.port.monitor ≡ line.old.port.monitor }
    ensures written { line.new.port.link.written ≡ line.old.port.link.written }
    ensures others { KeepsOthers mon.0 hub.old hub.new }
{
    line.port.drain(&mut line.up);
    hub.fill(mon, &mut line.up);
    let turn = hub.take_one(mon);
    // The wire is read for its clause, that no call of it failed.
    let _ = hub.wire_at(mon);
    match turn {
        HubTurn::More => Ok(true),
        HubTurn::Quiet => Ok(false),
        HubTurn::NoMemory => Err(NoMemory),
        HubTurn::Finished => unreachable!(),
        HubTurn::Failed => unreachable!(),
        HubTurn::Refused(_, _) => unreachable!(),
        HubTurn::Bad(_, _) => unreachable!(),
        HubTurn::WriteFailed => unreachable!(),
    }
}

/// The coordinator takes the next frame of a monitor, which comes to it in pieces.
pub fn carry_up(hub: &mut Hub<SureWire>, line: &mut Line, mon: Mon) -> Result<(), NoMemory>
    requires line { IsLine mon.0 hub.old line.old }
    requires next { (frame : Frame) × ComesUp mon.0 hub.old.coordinator line.old.port.monitor frame }
    ensures line { IsLine mon.0 hub.new line.new }
    ensures ok { CarriesUp mon.0 result hub.old line.old hub.new }
    ensures err { OnErr result (hub.new.coordinator ≡ hub.old.coordinator) }
    ensures port { line.new.port.monitor ≡ line.old.port.monitor }
    ensures others { KeepsOthers mon.0 hub.old hub.new }
{
    say(&mut line.port)?;
    while !step(hub, line, mon)? {
        say(&mut line.port)?;
    }
    Ok(())
}
