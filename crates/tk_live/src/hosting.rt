//! The hub's part in a live run: it waits on the net, admits connections and takes turns until the run ends.

ghost use Rattle.std.specs.Prelude.{◌≡◌, true, IfErr};
ghost use Rattle.tk_hub.specs.Hub.{IsHub};
ghost use Rattle.tk_hub.specs.declared.course.Course.TheVariants.{Open};
ghost use Rattle.tk_live.specs.declared.parting.Parting.TheVariants.{Finished as Done};
ghost use Rattle.tk_live.specs.Hosted.{HostsFrom};
ghost use Rattle.tk_live.specs.Hosting.{CanGoOn, CanHost, Closes, GoesRound, HasGone, Hosts, IsOfNet};
ghost use Rattle.tk_live.specs.Parting.{faults_of, left_on, round_faults};

use crate::parting::Parting;
use std::sync::Wait;
use tk_hub::{Hub, HubTurn};
use tk_input::{Catalog, Sink};
use tk_serve::Alarm;
use tk_wire::{Net, Wire};

/// How many connections are accepted between two turns at most.
const KNOCKS: u32 = 64;

/// Waits until something may have come, where nothing is left to do.
fn pause<N: Net>(net: &mut N, is_idle: bool) -> Result<(), Parting>
    requires listens { (N.state net.old).listens ≡ true }
    ensures net { HasGone (N.state net.old) (N.state net.new) }
    ensures fault { IfErr result IsOfNet }
{
    if is_idle { Ok(net.wait()?) } else { Ok(()) }
}

/// Accepts a connection, where one waits, and hands it to the hub. Says whether one did.
fn admit_one<N: Net>(hub: &mut Hub<N::Link>, net: &mut N) -> Result<bool, Parting>
    requires going { hub.old.course ≡ Open }
    requires kept { IsHub hub.old }
    requires listens { (N.state net.old).listens ≡ true }
    ensures rest { hub.new ≡ record hub.old { held = hub.new.held } }
    ensures kept { IsHub hub.new }
    ensures net { HasGone (N.state net.old) (N.state net.new) }
    ensures fault { IfErr result IsOfNet }
{
    let Some(link) = net.accept()? else {
        return Ok(false);
    };
    hub.admit(link)?;
    Ok(true)
}

/// Accepts connections that wait, and hands them to the hub. Says whether there may be more.
fn admit<N: Net>(hub: &mut Hub<N::Link>, net: &mut N) -> Result<bool, Parting>
    requires going { hub.old.course ≡ Open }
    requires listens { (N.state net.old).listens ≡ true }
    ensures rest { hub.new ≡ record hub.old { held = hub.new.held } }
    ensures kept { IsHub hub.new }
    ensures net { HasGone (N.state net.old) (N.state net.new) }
    ensures fault { IfErr result IsOfNet }
{
    // The hub is read for its clause, that it is one.
    let _ = hub.coordinator();
    for _ in 0..KNOCKS {
        if !admit_one(hub, net)? {
            return Ok(false);
        }
    }
    Ok(true)
}

/// Whether nothing is left to do before something comes: what waits is told of once, so after a turn or a door that may
/// have more there is no wait.
fn is_idle(more: bool, turn: HubTurn) -> bool {
    match turn {
        HubTurn::More => false,
        _ => !more,
    }
}

/// One round: unless the alarm is raised it waits where nothing is left to do, admits who waits, and turns the hub. Says
/// whether nothing is left then, or why the loop ends.
fn go_round<N: Net, O: Sink>(
    hub: &mut Hub<N::Link>,
    net: &mut N,
    names: &Catalog,
    out: &mut O,
    alarm: &Alarm,
    idle: bool,
) -> Result<bool, Parting>
    requires { CanGoOn hub.old (N.state net.old) names.now }
    ensures goes { GoesRound result names.now hub.old hub.new (N.state net.old) (N.state net.new)
        (O.written out.old) (O.written out.new) }
    ensures counted { O.fault_count out.new ≡ round_faults result (O.fault_count out.old) }
{
    if alarm.raised() {
        return Err(Parting::Alarmed);
    }
    pause(net, idle)?;
    let more = admit(hub, net)?;
    let turn = hub.turn(names, out);
    match Parting::after(turn) {
        Some(parting) => Err(parting),
        None => Ok(is_idle(more, turn)),
    }
}

/// Goes round until the hub is done, something failed or the alarm is raised.
fn attend<R: Wait, N: Net, O: Sink>(
    rt: &R,
    hub: &mut Hub<N::Link>,
    net: &mut N,
    names: &Catalog,
    out: &mut O,
    alarm: &Alarm,
) -> Parting
    requires { CanHost hub.old (N.state net.old) names.now }
    ensures hosts { Hosts result names.now hub.old hub.new (N.state net.old) (N.state net.new)
        (O.written out.old) (O.written out.new) }
    ensures counted { O.fault_count out.new ≡ faults_of result (O.fault_count out.old) }
{
    // The hub is read for its clause, that it is one.
    let _ = hub.coordinator();
    let mut idle = true;
    for _ in rt.forever() {
        match go_round(hub, net, names, out, alarm, idle) {
            Ok(is_idle) => idle = is_idle,
            Err(parting) => return parting,
        }
    }
    unreachable!()
}

/// The hub's side of a live run: the hub, and what it is run over.
#[derive(Drop)]
pub struct Host<'h, N: Net, O: Sink> {
    pub hub: Hub<N::Link>,
    pub net: &'h mut N,
    pub out: &'h mut O,
}

impl<'h, N: Net, O: Sink> Host<'h, N, O> {
    /// Runs the hub until the run is done or can't be. After another end than that it is halted, unless its wires are shut,
    /// and the door is closed, so that no worker waits for ever.
    pub fn run<R: Wait>(self, rt: &R, names: &Catalog, alarm: &Alarm) -> (Host<'h, N, O>, Parting)
        requires { CanHost self.hub (N.state self.net.now) names.now }
        ensures same_net { result.0.net.ghost_name ≡ self.entry.net.ghost_name }
        ensures same_out { result.0.out.ghost_name ≡ self.entry.out.ghost_name }
        ensures hosts { HostsFrom N.state O.Sink result.1 names.now self.entry result.0 }
    {
        let Host { mut hub, net, out } = self;
        let parting = attend(rt, &mut hub, net, names, out, alarm);
        leave(&mut hub, net, parting);
        (Host { hub, net, out }, parting)
    }
}

/// Halts a hub whose loop ended so, where that is due.
fn halt<W: Wire + Drop>(hub: &mut Hub<W>, parting: Parting)
    ensures coordinator { hub.new.coordinator ≡ hub.old.coordinator }
    ensures finished { parting ≡ Done → hub.new ≡ hub.old }
    ensures course { hub.new.course ≡ left_on parting hub.old.course }
    ensures kept { IsHub hub.new }
{
    // The hub is read for its clause, that it is one.
    let _ = hub.coordinator();
    if parting.halts() {
        hub.halt();
    }
}

/// Ends the hub's side where the run is not done: halts the hub and closes the door, each where it is due.
fn leave<N: Net>(hub: &mut Hub<N::Link>, net: &mut N, parting: Parting)
    ensures { Closes parting hub.old hub.new (N.state net.old) (N.state net.new) }
{
    halt(hub, parting);
    if parting.is_done() {
        return;
    }
    net.close();
}
