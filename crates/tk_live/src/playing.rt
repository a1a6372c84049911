//! The workers and the hub of a live run, side by side until all have ended.

ghost use Rattle.std.specs.Prelude.{◌≡◌, map};
ghost use Rattle.tk_live.specs.Hosted.{HostsFrom};
ghost use Rattle.tk_live.specs.Hosting.{CanHost, Hosts};
ghost use Rattle.tk_live.specs.Parting.{faults_of};
ghost use Rattle.tk_live.specs.Slots.{berth_made, worked_made};

use crate::berths::Crew;
use crate::crew::{join_all, start};
use crate::hosting::Host;
use crate::parting::Parting;
use crate::signals::Signals;
use crate::worked::Worked;
use std::marker::Sync;
use std::sync::Wait;
use std::thread;
use std::thread::{Scope, Threads};
use tk_hub::Hub;
use tk_input::{Catalog, Sink};
use tk_serve::Gate;
use tk_wire::Net;

/// Starts the workers in a scope, runs the host beside them, and waits for them.
fn play_beside<'s, 'a: 's, 'h, R: Threads + Wait + Sync, N: Net + 'a, G: Gate + Sync, O: Sink>(
    scope: &'s Scope<'s, &'a ()>,
    rt: &'a R,
    crew: Crew<N::Link, N::Rest, N::Bell>,
    host: Host<'h, N, O>,
    names: &Catalog,
    gate: &'a G,
    signals: &'a Signals,
) -> (Host<'h, N, O>, Parting, Vec<Worked<N::Link, N::Rest>>)
    requires { CanHost host.hub (N.state host.net.now) names.now }
    ensures same_net { result.0.net.ghost_name ≡ host.entry.net.ghost_name }
    ensures same_out { result.0.out.ghost_name ≡ host.entry.out.ghost_name }
    ensures hosts { HostsFrom N.state O.Sink result.1 names.now host.entry result.0 }
    ensures made { map worked_made result.2.items ≡ map berth_made crew.berths.items }
{
    let Crew {
        berths,
        slots,
        workers,
        ..
    } = crew;
    let slots = start(scope, rt, berths, slots, gate, signals);
    let (host, parting) = host.run(rt, names, &signals.alarm);
    (host, parting, join_all(rt, slots, workers))
}

/// The same in a scope of its own.
fn play_in<'a, 'h, R: Threads + Wait + Sync, N: Net + 'a, G: Gate + Sync, O: Sink>(
    rt: &'a R,
    crew: Crew<N::Link, N::Rest, N::Bell>,
    host: Host<'h, N, O>,
    names: &'a Catalog,
    gate: &'a G,
    signals: &'a Signals,
) -> (Host<'h, N, O>, Parting, Vec<Worked<N::Link, N::Rest>>)
    requires { CanHost host.hub (N.state host.net.now) names.now }
    ensures same_net { result.0.net.ghost_name ≡ host.entry.net.ghost_name }
    ensures same_out { result.0.out.ghost_name ≡ host.entry.out.ghost_name }
    ensures hosts { HostsFrom N.state O.Sink result.1 names.now host.entry result.0 }
    ensures made { map worked_made result.2.items ≡ map berth_made crew.berths.items }
{
    thread::scope(
        thread::scope_env(),
        rt,
        move |scope| -> (Host<N, O>, Parting, Vec<Worked<N::Link, N::Rest>>)
            requires { CanHost host.hub (N.state host.net.now) names.now }
            ensures same_net { result.0.net.ghost_name ≡ host.entry.net.ghost_name }
            ensures same_out { result.0.out.ghost_name ≡ host.entry.out.ghost_name }
            ensures hosts { HostsFrom N.state O.Sink result.1 names.entry.now host.entry result.0 }
            ensures made { map worked_made result.2.items ≡ map berth_made crew.berths.items }
        { play_beside(scope, rt, crew, host, names, gate, signals) },
    )
}

/// The last use of two things that were lent together: each is left as it is.
fn end_loans<N, O>(net: &mut N, out: &mut O)
    ensures net { net.new ≡ net.old }
    ensures out { out.new ≡ out.old }
{
    let _ = net;
    let _ = out;
}

/// The hub with its workers, until all have ended: the hub, why its loop ended, and what each worker left.
pub fn play<R: Threads + Wait + Sync, N: Net, G: Gate + Sync, O: Sink>(
    rt: &R,
    crew: Crew<N::Link, N::Rest, N::Bell>,
    hub: Hub<N::Link>,
    names: &Catalog,
    gate: &G,
    net: &mut N,
    out: &mut O,
) -> (Hub<N::Link>, Parting, Vec<Worked<N::Link, N::Rest>>)
    requires { CanHost hub (N.state net.old) names.now }
    ensures hosts { Hosts result.1 names.now hub result.0 (N.state net.old) (N.state net.new)
        (O.written out.old) (O.written out.new) }
    ensures counted { O.fault_count out.new ≡ faults_of result.1 (O.fault_count out.old) }
    ensures made { map worked_made result.2.items ≡ map berth_made crew.berths.items }
{
    let signals = Signals::new();
    let host = Host { hub, net, out };
    let (host, parting, workers) = play_in(rt, crew, host, names, gate, &signals);
    let Host { hub, net, out } = host;
    end_loans(net, out);
    (hub, parting, workers)
}
