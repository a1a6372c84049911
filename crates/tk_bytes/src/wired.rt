//! The nodes of a world whose frames go as bytes: each step of one of them, over its line.

ghost use Rattle.std.specs.Prelude.{◌≡◌, IfOk, map};

mod making;

use crate::downward::carry_down;
use crate::line::Line;
use crate::upward::carry_up;
use crate::walked::Walked;
use std::alloc::Global;
use std::marker::Model;
use tk_base::{Feeder, Mon, NoMemory};
use tk_coord::Coordinator;
use tk_hub::Hub;
use tk_monitor::{Monitor, Raised};
use tk_story::{CoordEnd, MonEnd};
use tk_wire::SureWire;
use tk_world::Nodes;

/// A coordinator and its monitors at the ends of wires in memory, between which bytes go through pipes.
#[derive(Drop)]
pub struct Wired {
    hub: Hub<SureWire>,
    lines: Vec<Walked>,
}

impl Model for Wired {
    ghost use Rattle.tk_world.specs.Nodes.{NodesView};

    ghost Value = { NodesView };

    ghost use Rattle.tk_bytes.specs.Wired.{AreWired, seen_of};

    ghost view = { λ w. seen_of w.hub w.lines.items };

    ghost invariant = { λ w. AreWired w.hub w.lines.items };
}

/// The monitor of a line. Here and below what is left is dropped by name: a place that drops the end of a wire by itself is
/// dear to prove.
fn monitor_of(walked: Walked) -> Monitor
    ensures { result ≡ walked.line.port.monitor }
{
    let Walked { line, .. } = walked;
    let Line { port, .. } = line;
    let (end, wire) = port.into_end();
    drop(wire);
    let MonEnd { monitor, odd } = end;
    drop(odd);
    monitor
}

/// The monitors of some lines.
fn monitors_of(alloc: Global, lines: Vec<Walked>) -> Result<Vec<Monitor>, NoMemory>
    ensures { IfOk result (λ monitors. monitors.items ≡ map (λ w. w.line.port.monitor) lines.items) }
{
    let mut monitors = Vec::with_capacity(alloc, lines.len())?;
    for walked in lines {
        monitors.push(monitor_of(walked))?;
    }
    Ok(monitors)
}

/// The coordinator of a hub.
fn coordinator_of(hub: Hub<SureWire>) -> Coordinator
    ensures { result ≡ hub.coordinator }
{
    let (end, wires) = hub.into_end();
    drop(wires);
    let CoordEnd { coordinator, odd } = end;
    drop(odd);
    coordinator
}

impl Nodes for Wired {
    ghost seen = { λ w. w };

    fn coordinator(&self) -> &Coordinator {
        self.hub.coordinator()
    }

    fn monitor(&self, mon: Mon) -> &Monitor {
        self.lines[mon.0 as usize - 1].line.port.monitor()
    }

    fn taken(&self, mon: Mon) -> usize {
        self.lines[mon.0 as usize - 1].taken
    }

    fn got(&self, mon: Mon) -> usize {
        self.lines[mon.0 as usize - 1].got
    }

    fn raise(&mut self, mon: Mon, f: Feeder) -> Raised {
        let walked = &mut self.lines[mon.0 as usize - 1];
        walked.line.port.raise(f)
    }

    fn check(&mut self, mon: Mon) -> Result<(), NoMemory> {
        let walked = &mut self.lines[mon.0 as usize - 1];
        walked.line.port.check()?;
        Ok(())
    }

    fn up(&mut self, mon: Mon) -> Result<(), NoMemory> {
        let walked = &mut self.lines[mon.0 as usize - 1];
        carry_up(&mut self.hub, &mut walked.line, mon)?;
        prove!(walked.got < walked.line.port.monitor().sent());
        walked.got += 1;
        Ok(())
    }

    fn down(&mut self, mon: Mon) -> Result<(), NoMemory> {
        let walked = &mut self.lines[mon.0 as usize - 1];
        carry_down(&mut self.hub, &mut walked.line, mon)?;
        prove!(walked.taken < self.hub.coordinator().sent(mon));
        walked.taken += 1;
        Ok(())
    }

    fn retune(&mut self, k: u64, epsilon: u128) -> Result<(), NoMemory> {
        match self.hub.retune(k, epsilon) {
            Ok(()) => Ok(()),
            Err(_) => Err(NoMemory),
        }
    }

    fn into_parts(self, alloc: Global) -> Result<(Coordinator, Vec<Monitor>), NoMemory> {
        let Wired { hub, lines } = self;
        let coordinator = coordinator_of(hub);
        match monitors_of(alloc, lines) {
            Ok(monitors) => Ok((coordinator, monitors)),
            Err(NoMemory) => {
                drop(coordinator);
                Err(NoMemory)
            }
        }
    }
}
