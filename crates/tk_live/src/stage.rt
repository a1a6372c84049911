//! The set-up of a live run: the net is opened, and the hub, the ports and all room are made.

ghost use Rattle.std.specs.Prelude.{◌≡◌, ◌+◌, ◌<◌, ◌≤◌, true, false, All, [], length, map, IfOk, vec_capacity};
ghost use Rattle.tk_frames.specs.Spelling.{IsVersion};
ghost use Rattle.tk_hub.specs.declared.course.Course.TheVariants.{Open};
ghost use Rattle.tk_journal.specs.Laws.{IsMonitor};
ghost use Rattle.tk_journal.specs.Legal.{opened, start as begun_by};
ghost use Rattle.tk_journal.specs.Publishing.{publications};
ghost use Rattle.tk_journal.specs.Readings.{is_stopped};
ghost use Rattle.tk_live.specs.Crew.{made_in};
ghost use Rattle.tk_live.specs.Hosting.{CanHost, HasGone};
ghost use Rattle.tk_live.specs.Made.{all_planned, planned};
ghost use Rattle.tk_live.specs.Slots.{berth_made};
ghost use Rattle.tk_wire.specs.Net.{IsNew};

use crate::berths::Crew;
use crate::plan::Plan;
use crate::worked::Berth;
use std::alloc::Global;
use tk_base::{Mon, NoMemory};
use tk_coord::Coordinator;
use tk_hub::Hub;
use tk_monitor::Monitor;
use tk_port::Port;
use tk_story::MonEnd;
use tk_wire::{Net, NetFault, Rest, Wire};

/// All that is made before a worker is started: the hub, the ports, and the room for what the workers leave.
#[derive(Drop)]
pub struct Stage<W: Wire, Q: Rest, B> {
    pub hub: Hub<W>,
    pub crew: Crew<W, Q, B>,
    pub ends: Vec<MonEnd>,
}

/// An empty list with room for so many.
fn room_for<T: Drop>(alloc: Global, count: usize) -> Result<Vec<T>, NetFault>
    ensures empty { IfOk result (λ list. list.items ≡ []) }
    ensures room { IfOk result (λ list. count ≤ vec_capacity list) }
{
    match Vec::with_capacity(alloc, count) {
        Ok(list) => Ok(list),
        Err(_) => Err(NetFault::NoMemory),
    }
}

/// A port for a monitor of a plan, at the places from which it runs, over a new link.
fn make_port<W: Wire + Drop>(
    alloc: Global,
    plan: &Plan,
    mon: Mon,
    link: W,
) -> Result<Port<W>, NoMemory>
    requires version { IsVersion plan.now.version }
    requires monitor { IsMonitor plan.now.input.settings mon.0 }
    requires link { IsNew W.tells (W.traffic link) (W.counts link) }
    ensures made { IfOk result (λ port. made_in port.monitor plan.now.version ≡ planned plan.now mon.0) }
    ensures version { IfOk result (λ port. port.link.version ≡ plan.now.version) }
    ensures run { IfOk result (λ port. port.run ≡ plan.now.run) }
{
    let input = &plan.input;
    let parts = input.logs.parts(alloc, mon)?;
    let places = plan.from.at(mon.0 as usize - 1);
    let monitor = Monitor::new(alloc, &input.settings, mon, parts, places)?;
    Port::new(alloc, link, monitor, plan.run, plan.version)
}

/// A port for a monitor, with its rest and its bell.
fn make_berth<N: Net>(
    alloc: Global,
    plan: &Plan,
    mon: Mon,
    net: &mut N,
) -> Result<Berth<N::Link, N::Rest, N::Bell>, NetFault>
    requires version { IsVersion plan.now.version }
    requires monitor { IsMonitor plan.now.input.settings mon.0 }
    requires listens { (N.state net.old).listens ≡ true }
    requires links { (N.state net.old).links < 64 }
    ensures made { IfOk result (λ berth. berth_made berth ≡ planned plan.now mon.0) }
    ensures run { IfOk result (λ berth. berth.port.run ≡ plan.now.run) }
    ensures links { IfOk result (λ berth. (N.state net.new).links ≡ (N.state net.old).links + 1) }
    ensures gone { HasGone (N.state net.old) (N.state net.new) }
{
    let (link, rest, bell) = net.connect()?;
    let Ok(port) = make_port(alloc, plan, mon, link) else {
        return Err(NetFault::NoMemory);
    };
    Ok(Berth {
        port,
        version: plan.version,
        rest,
        bell,
    })
}

/// A port for each monitor, ascending.
fn make_berths<N: Net>(
    alloc: Global,
    plan: &Plan,
    net: &mut N,
) -> Result<Vec<Berth<N::Link, N::Rest, N::Bell>>, NetFault>
    requires version { IsVersion plan.now.version }
    requires listens { (N.state net.old).listens ≡ true }
    requires links { (N.state net.old).links ≡ 0 }
    ensures made { IfOk result (λ all. map berth_made all.items ≡ all_planned plan.now) }
    ensures runs { IfOk result (λ all. All (λ b. b.port.run ≡ plan.now.run) all.items) }
    ensures gone { HasGone (N.state net.old) (N.state net.new) }
{
    let count = plan.input.settings.monitors();
    let mut berths = room_for(alloc, count as usize)?;
    for j in 0..count {
        berths.push_reserved(make_berth(alloc, plan, Mon(j + 1), net)?);
    }
    Ok(berths)
}

/// A port for each monitor, and the room for the workers and for what they leave.
fn make_crew<N: Net>(
    alloc: Global,
    plan: &Plan,
    net: &mut N,
) -> Result<Crew<N::Link, N::Rest, N::Bell>, NetFault>
    requires version { IsVersion plan.now.version }
    requires listens { (N.state net.old).listens ≡ true }
    requires links { (N.state net.old).links ≡ 0 }
    ensures made { IfOk result (λ crew. map berth_made crew.berths.items ≡ all_planned plan.now) }
    ensures runs { IfOk result (λ crew. All (λ b. b.port.run ≡ plan.now.run) crew.berths.items) }
    ensures gone { HasGone (N.state net.old) (N.state net.new) }
{
    let berths = make_berths(alloc, plan, net)?;
    let slots = room_for(alloc, berths.len())?;
    let workers = room_for(alloc, berths.len())?;
    Ok(Crew {
        berths,
        slots,
        workers,
    })
}

/// A hub for the settings of an input.
fn make_hub<W: Wire + Drop>(alloc: Global, plan: &Plan) -> Result<Hub<W>, NetFault>
    ensures run { IfOk result (λ hub. hub.run ≡ plan.now.run) }
    ensures settings { IfOk result (λ hub. hub.coordinator.settings ≡ plan.now.input.settings) }
    ensures begins { IfOk result (λ hub. hub.coordinator.journal ≡ opened (begun_by plan.now.input.settings)) }
    ensures course { IfOk result (λ hub. hub.course ≡ Open) }
    ensures unwritten { IfOk result (λ hub. publications hub.coordinator.journal ≡ []) }
    ensures unstopped { IfOk result (λ hub. is_stopped hub.coordinator.journal ≡ false) }
{
    let Ok(coordinator) = Coordinator::new(alloc, plan.input.settings) else {
        return Err(NetFault::NoMemory);
    };
    match Hub::new(alloc, coordinator, plan.run) {
        Ok(hub) => Ok(hub),
        Err(_) => Err(NetFault::NoMemory),
    }
}

/// Opens the net, connects a link for each monitor, and takes the room for what the workers leave.
pub fn make_stage<N: Net>(
    alloc: Global,
    plan: &Plan,
    net: &mut N,
) -> Result<Stage<N::Link, N::Rest, N::Bell>, NetFault>
    requires version { IsVersion plan.now.version }
    requires listens { (N.state net.old).listens ≡ false }
    requires links { (N.state net.old).links ≡ 0 }
    ensures settings { IfOk result (λ s. s.hub.coordinator.settings ≡ plan.now.input.settings) }
    ensures begins { IfOk result (λ s. s.hub.coordinator.journal ≡ opened (begun_by plan.now.input.settings)) }
    ensures hub { IfOk result (λ s. CanHost s.hub (N.state net.new) plan.now.input.names) }
    ensures made { IfOk result (λ s. map berth_made s.crew.berths.items ≡ all_planned plan.now) }
    // The hub lets in who says the number of the run, and each port says it.
    ensures run { IfOk result (λ s. s.hub.run ≡ plan.now.run) }
    ensures runs { IfOk result (λ s. All (λ b. b.port.run ≡ plan.now.run) s.crew.berths.items) }
    ensures empty { IfOk result (λ s. s.ends.items ≡ []) }
    ensures ends { IfOk result (λ s. length s.crew.berths.items ≤ vec_capacity s.ends) }
    ensures gone { HasGone (N.state net.old) (N.state net.new) }
{
    net.listen()?;
    let crew = make_crew(alloc, plan, net)?;
    let ends = room_for(alloc, crew.berths.len())?;
    let hub = make_hub(alloc, plan)?;
    Ok(Stage { hub, crew, ends })
}
