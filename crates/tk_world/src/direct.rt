//! The nodes of a plain world, which take one another's frames as they are.

ghost use Rattle.std.specs.Prelude.{◌≡◌, ◌<◌, ◌≤◌, None, IfOk, OnErr, OnOk, map};
ghost use Rattle.tk_journal.specs.Refusal.{refusal_of};
ghost use Rattle.tk_journal.specs.declared.noted.Noted.TheVariants.{Got};
ghost use Rattle.tk_trail.specs.Refusal.{refusal_of as monitor_refusal_of};
ghost use Rattle.tk_world.specs.Nodes.{IsFresh, with_input};
ghost use Rattle.tk_monitor.specs.Stepped.{taking};
ghost use Rattle.tk_world.specs.Taking.{CanTakeDown, CanTakeUp, TakesDown, TakesUp};
ghost use Rattle.tk_world.specs.World.{CanRun};

use crate::nodes::Nodes;
use crate::seat::{Seat, new_seats};
use std::alloc::Global;
use std::marker::Model;
use tk_base::{Cut, Feeder, Mon, NoMemory, Settings};
use tk_coord::{CoordRefusal, Coordinator};
use tk_frames::Frame;
use tk_input::Logs;
use tk_monitor::{Monitor, Raised};
use tk_trail::MonitorRefusal;

/// A coordinator and its monitors, which are handed one another's frames.
#[derive(Drop)]
pub struct Direct {
    coordinator: Coordinator,
    seats: Vec<Seat>,
}

impl Model for Direct {
    ghost use Rattle.tk_world.specs.Nodes.{NodesView};

    ghost Value = { NodesView };

    ghost view = { λ d. record { coordinator = d.coordinator; seats = d.seats.items } };
}

impl Direct {
    /// A coordinator that has opened, and the monitors of some logs, which have taken and sent nothing.
    pub fn new(
        alloc: Global,
        settings: Settings,
        logs: &Logs,
        from: &Cut,
    ) -> Result<Direct, NoMemory>
        requires { CanRun settings logs.now from.now }
        ensures settings { IfOk result (λ d. d.coordinator.settings ≡ settings) }
        ensures fresh { IfOk result (λ d. IsFresh d logs.now from.now) }
    {
        Ok(Direct {
            seats: new_seats(alloc, &settings, logs, from)?,
            coordinator: Coordinator::new(alloc, settings)?,
        })
    }
}

/// Want of memory, the only refusal that an accepted frame meets at the coordinator.
fn of_coordinator(refusal: CoordRefusal) -> NoMemory
    requires { refusal ≡ CoordRefusal.NoMemory }
{
    match refusal {
        CoordRefusal::NoMemory => NoMemory,
        _ => unreachable!(),
    }
}

/// Want of memory, the only refusal that an accepted frame meets at its monitor.
fn of_monitor(refusal: MonitorRefusal) -> NoMemory
    requires { refusal ≡ MonitorRefusal.NoMemory }
{
    match refusal {
        MonitorRefusal::NoMemory => NoMemory,
        _ => unreachable!(),
    }
}

/// The coordinator takes a frame that it does not refuse.
fn hand_up(coordinator: &mut Coordinator, mon: Mon, frame: Frame) -> Result<(), NoMemory>
    requires some_monitor { 0 < mon.0 }
    requires monitor { mon.0 ≤ coordinator.old.settings.monitors }
    requires accepted { refusal_of coordinator.old.settings coordinator.old.journal mon.0 frame ≡ None }
    ensures ok { OnOk result (coordinator.new ≡ with_input coordinator.old (Got mon frame)) }
    ensures err { OnErr result (coordinator.new ≡ coordinator.old) }
{
    match coordinator.take(mon, frame) {
        Ok(()) => Ok(()),
        Err((refusal, frame)) => {
            // By name: a pattern that leaves it out is dear to prove.
            drop(frame);
            Err(of_coordinator(refusal))
        }
    }
}

/// A monitor takes a frame that it does not refuse.
fn hand_down(monitor: &mut Monitor, frame: Frame) -> Result<(), NoMemory>
    requires { monitor_refusal_of monitor.old.setup monitor.old.trail frame ≡ None }
    ensures ok { OnOk result (monitor.new ≡ taking monitor.old frame) }
    ensures err { OnErr result (monitor.new ≡ monitor.old) }
{
    match monitor.take(frame) {
        Ok(()) => Ok(()),
        Err((refusal, frame)) => {
            drop(frame);
            Err(of_monitor(refusal))
        }
    }
}

/// The coordinator takes the next frame of a seat. Like its counterpart it is a function over the parts, so that no place of
/// its caller has more to show than that they go on.
fn take_up(coordinator: &mut Coordinator, seat: &mut Seat, mon: Mon) -> Result<(), NoMemory>
    requires some_monitor { 0 < mon.0 }
    requires monitor { mon.0 ≤ coordinator.old.settings.monitors }
    requires can { CanTakeUp coordinator.old mon.0 seat.old }
    ensures ok { OnOk result (TakesUp mon coordinator.old coordinator.new seat.old seat.new) }
    ensures coordinator { OnErr result (coordinator.new ≡ coordinator.old) }
    ensures seat { OnErr result (seat.new ≡ seat.old) }
{
    let frame = seat.monitor.sent_at(seat.got).try_clone()?;
    hand_up(coordinator, mon, frame)?;
    prove!(seat.got < seat.monitor.sent());
    seat.got += 1;
    Ok(())
}

/// A monitor takes the next frame of the coordinator.
fn take_down(coordinator: &Coordinator, seat: &mut Seat, mon: Mon) -> Result<(), NoMemory>
    requires some_monitor { 0 < mon.0 }
    requires monitor { mon.0 ≤ coordinator.now.settings.monitors }
    requires can { CanTakeDown coordinator.now mon.0 seat.old }
    ensures ok { OnOk result (TakesDown mon.0 coordinator.now seat.old seat.new) }
    ensures err { OnErr result (seat.new ≡ seat.old) }
{
    let frame = coordinator.sent_at(mon, seat.taken).try_clone()?;
    hand_down(&mut seat.monitor, frame)?;
    prove!(seat.taken < coordinator.sent(mon));
    seat.taken += 1;
    Ok(())
}

/// The monitors of some seats.
fn monitors_of(alloc: Global, seats: Vec<Seat>) -> Result<Vec<Monitor>, NoMemory>
    ensures { IfOk result (λ monitors. monitors.items ≡ map (λ seat. seat.monitor) seats.items) }
{
    let mut monitors = Vec::with_capacity(alloc, seats.len())?;
    for seat in seats {
        let Seat { monitor, .. } = seat;
        monitors.push_reserved(monitor);
    }
    Ok(monitors)
}

impl Nodes for Direct {
    ghost seen = { λ d. d };

    fn coordinator(&self) -> &Coordinator {
        &self.coordinator
    }

    fn monitor(&self, mon: Mon) -> &Monitor {
        &self.seats[mon.0 as usize - 1].monitor
    }

    fn taken(&self, mon: Mon) -> usize {
        self.seats[mon.0 as usize - 1].taken
    }

    fn got(&self, mon: Mon) -> usize {
        self.seats[mon.0 as usize - 1].got
    }

    fn raise(&mut self, mon: Mon, f: Feeder) -> Raised {
        self.seats[mon.0 as usize - 1].monitor.raise(f)
    }

    fn check(&mut self, mon: Mon) -> Result<(), NoMemory> {
        self.seats[mon.0 as usize - 1].monitor.check()?;
        Ok(())
    }

    fn up(&mut self, mon: Mon) -> Result<(), NoMemory> {
        take_up(
            &mut self.coordinator,
            &mut self.seats[mon.0 as usize - 1],
            mon,
        )?;
        Ok(())
    }

    fn down(&mut self, mon: Mon) -> Result<(), NoMemory> {
        take_down(&self.coordinator, &mut self.seats[mon.0 as usize - 1], mon)?;
        Ok(())
    }

    fn retune(&mut self, k: u64, epsilon: u128) -> Result<(), NoMemory> {
        match self.coordinator.retune(k, epsilon) {
            Ok(()) => Ok(()),
            Err(_) => Err(NoMemory),
        }
    }

    fn into_parts(self, alloc: Global) -> Result<(Coordinator, Vec<Monitor>), NoMemory> {
        let Direct { coordinator, seats } = self;
        match monitors_of(alloc, seats) {
            Ok(monitors) => Ok((coordinator, monitors)),
            Err(NoMemory) => {
                // By name: `?` would drop each of its fields here, which is dear to prove.
                drop(coordinator);
                Err(NoMemory)
            }
        }
    }
}
