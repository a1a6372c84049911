//! A monitor's seat in a plain world, and when a monitor of any world is at rest or quiet.

ghost use Rattle.std.specs.Prelude.{◌≡◌, map, IfOk};
ghost use Rattle.tk_input.specs.Logs.{IsMonitor as IsMonitorOf};
ghost use Rattle.tk_journal.specs.Readings.{monitors};
ghost use Rattle.tk_trail.specs.Setup.{IsSetup};
ghost use Rattle.tk_world.specs.Nodes.{AtSeat, HasSeat, sent_to};
ghost use Rattle.tk_world.specs.Nodes.{fresh_seat};
ghost use Rattle.tk_world.specs.Seats.{are_links_empty, is_quiet_seat, is_resting_seat, sends_nothing};
ghost use Rattle.tk_world.specs.World.{CanRun};

use crate::nodes::Nodes;
use std::alloc::Global;
use tk_base::{Cut, Mon, NoMemory, Settings};
use tk_input::Logs;
use tk_monitor::{Checked, Monitor};

/// A monitor and how far its two links were walked. The frames on a link are those that one end sent
/// beyond what the other took.
#[derive(Drop)]
pub struct Seat {
    pub monitor: Monitor,
    /// How many frames of the coordinator the monitor took.
    pub taken: usize,
    /// How many frames of the monitor the coordinator took.
    pub got: usize,
}

/// Whether nothing is on the links of a monitor.
pub fn has_empty_links<N: Nodes>(nodes: &N, mon: Mon) -> bool
    requires { HasSeat (N.seen nodes.now) mon.0 }
    ensures { AtSeat (N.seen nodes.now) mon.0 (λ seat. result ≡ are_links_empty (sent_to (N.seen nodes.now) mon.0) seat) }
{
    nodes.taken(mon) >= nodes.coordinator().sent(mon) && nodes.got(mon) >= nodes.monitor(mon).sent()
}

/// Whether besides nothing is due at it.
pub fn is_at_rest<N: Nodes>(nodes: &N, mon: Mon) -> bool
    requires { HasSeat (N.seen nodes.now) mon.0 }
    ensures { AtSeat (N.seen nodes.now) mon.0 (λ seat. result ≡ is_resting_seat (sent_to (N.seen nodes.now) mon.0) seat) }
{
    has_empty_links(nodes, mon) && is_nothing(nodes.monitor(mon).checked())
}

/// Whether besides nothing is broken at it.
pub fn is_quiet<N: Nodes>(nodes: &N, mon: Mon) -> bool
    requires { HasSeat (N.seen nodes.now) mon.0 }
    ensures { AtSeat (N.seen nodes.now) mon.0 (λ seat. result ≡ is_quiet_seat (sent_to (N.seen nodes.now) mon.0) seat) }
{
    has_empty_links(nodes, mon) && !nodes.monitor(mon).broken()
}

fn is_nothing(checked: Checked) -> bool
    ensures { result ≡ sends_nothing checked }
{
    match checked {
        Checked::Nothing => true,
        Checked::Reported => false,
        Checked::ToldEnd => false,
    }
}

/// A monitor of some logs that has taken and sent nothing.
pub fn new_seat(
    alloc: Global,
    settings: &Settings,
    logs: &Logs,
    from: &Cut,
    mon: Mon,
) -> Result<Seat, NoMemory>
    requires run { CanRun settings.now logs.now from.now }
    requires monitor { IsMonitorOf logs.now mon.0 }
    ensures value { IfOk result (λ seat. seat ≡ fresh_seat settings.now logs.now from.now mon.0) }
    ensures setup { IfOk result (λ seat. IsSetup seat.monitor.setup) }
{
    let parts = logs.parts(alloc, mon)?;
    let places = from.at(mon.0 as usize - 1);
    Ok(Seat {
        monitor: Monitor::new(alloc, settings, mon, parts, places)?,
        taken: 0,
        got: 0,
    })
}

/// The monitors of some logs, which have taken and sent nothing.
pub fn new_seats(
    alloc: Global,
    settings: &Settings,
    logs: &Logs,
    from: &Cut,
) -> Result<Vec<Seat>, NoMemory>
    requires { CanRun settings.now logs.now from.now }
    ensures { IfOk result (λ seats. seats.items ≡ map (fresh_seat settings.now logs.now from.now) (monitors settings.now)) }
{
    let count = settings.monitors();
    let mut seats = Vec::with_capacity(alloc, count as usize)?;
    for j in 0..count {
        seats.push_reserved(new_seat(alloc, settings, logs, from, Mon(j + 1))?);
    }
    Ok(seats)
}
