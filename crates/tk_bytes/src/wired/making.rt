//! How wired nodes begin: a hub without connections, which then admits a line of each monitor.

ghost use Rattle.std.specs.Prelude.{◌≡◌, ◌<◌, ◌≤◌, [], IfOk, OnOk, map};
ghost use Rattle.tk_frames.specs.Spelling.{IsVersion};
ghost use Rattle.tk_journal.specs.Laws.{IsMonitor};
ghost use Rattle.tk_journal.specs.Legal.{inputs_of};
ghost use Rattle.tk_journal.specs.Readings.{monitors};
ghost use Rattle.tk_world.specs.Nodes.{IsFresh, fresh_seat, fresh_seats};
ghost use Rattle.tk_world.specs.World.{CanRun};
ghost use Rattle.tk_bytes.specs.Greeting.{AreMade, CanJoin, SeatsOne};
ghost use Rattle.tk_bytes.specs.Wired.{IsWalked, seat_of};

use crate::greeting::{RUN, join};
use crate::walked::Walked;
use crate::wired::Wired;
use std::alloc::Global;
use tk_base::{Cut, Mon, NoMemory, Settings};
use tk_coord::Coordinator;
use tk_hub::{Hub, an_opening_has_no_input};
use tk_input::Logs;
use tk_wire::SureWire;
use tk_world::{Seat, new_seat};

/// What the lines are made of.
#[derive(Clone, Copy)]
struct Plan<'p> {
    settings: &'p Settings,
    logs: &'p Logs,
    from: &'p Cut,
    piece: usize,
    version: u8,
}

/// The line of a monitor that has taken and sent nothing.
fn new_walked(
    alloc: Global,
    hub: &mut Hub<SureWire>,
    plan: &Plan<'_>,
    mon: Mon,
) -> Result<Walked, NoMemory>
    requires run { CanRun plan.now.settings.now plan.now.logs.now plan.now.from.now }
    requires monitor { IsMonitor plan.now.settings.now mon.0 }
    requires few { plan.now.settings.now.monitors ≤ 64 }
    requires piece { (0 < plan.now.piece) × (plan.now.piece ≤ 65536) }
    requires version { IsVersion plan.now.version }
    requires can { CanJoin mon.0 hub.old }
    requires begins { inputs_of hub.old.coordinator.journal ≡ [] }
    ensures walked { IfOk result (IsWalked mon.0 hub.new) }
    ensures seat { IfOk result (λ w. seat_of w ≡ fresh_seat plan.now.settings.now plan.now.logs.now plan.now.from.now mon.0) }
    ensures seats { OnOk result (SeatsOne mon.0 hub.old hub.new) }
{
    let Plan {
        settings,
        logs,
        from,
        piece,
        version,
    } = *plan;
    let Seat {
        monitor,
        taken,
        got,
    } = new_seat(alloc, settings, logs, from, mon)?;
    let line = join(alloc, hub, monitor, piece, version)?;
    Ok(Walked { line, taken, got })
}

/// The lines of all monitors, ascending.
fn new_lines(
    alloc: Global,
    hub: &mut Hub<SureWire>,
    plan: &Plan<'_>,
) -> Result<Vec<Walked>, NoMemory>
    requires run { CanRun plan.now.settings.now plan.now.logs.now plan.now.from.now }
    requires piece { (0 < plan.now.piece) × (plan.now.piece ≤ 65536) }
    requires version { IsVersion plan.now.version }
    requires settings { hub.old.coordinator.settings ≡ plan.now.settings.now }
    requires begins { inputs_of hub.old.coordinator.journal ≡ [] }
    requires none { AreMade 0 hub.old [] }
    ensures made { IfOk result (λ lines. AreMade plan.now.settings.now.monitors hub.new lines.items) }
    ensures seats { IfOk result (λ lines. map seat_of lines.items
        ≡ fresh_seats plan.now.settings.now plan.now.logs.now plan.now.from.now) }
    ensures coordinator { OnOk result (hub.new.coordinator ≡ hub.old.coordinator) }
{
    let count = plan.settings.monitors();
    let mut lines = Vec::with_capacity(alloc, count as usize)?;
    for j in 0..count {
        lines.push(new_walked(alloc, hub, plan, Mon(j + 1))?)?;
    }
    Ok(lines)
}

impl Wired {
    /// A coordinator that has opened and has admitted every monitor of some logs, which have taken and sent nothing but
    /// their Hello, in a version, 1 or 2. No wire moves more than `piece` bytes at once, 1 to 65,536.
    pub fn new(
        alloc: Global,
        settings: Settings,
        logs: &Logs,
        from: &Cut,
        piece: usize,
        version: u8,
    ) -> Result<Wired, NoMemory>
        requires run { CanRun settings logs.now from.now }
        requires piece { (0 < piece) × (piece ≤ 65536) }
        requires version { IsVersion version }
        ensures settings { IfOk result (λ w. w.coordinator.settings ≡ settings) }
        ensures fresh { IfOk result (λ w. IsFresh w logs.now from.now) }
    {
        let coordinator = Coordinator::new(alloc, settings)?;
        an_opening_has_no_input();
        let mut hub = Hub::new(alloc, coordinator, RUN)?;
        let plan = Plan {
            settings: &settings,
            logs,
            from,
            piece,
            version,
        };
        match new_lines(alloc, &mut hub, &plan) {
            Ok(lines) => Ok(Wired { hub, lines }),
            Err(NoMemory) => {
                drop(hub);
                Err(NoMemory)
            }
        }
    }
}
