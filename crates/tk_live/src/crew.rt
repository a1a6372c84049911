//! The workers of a live run: how they are started, one for each port, and waited for.

ghost use Rattle.std.specs.Prelude.{◌≡◌, ◌≤◌, [], length, map, vec_capacity};
ghost use Rattle.tk_live.specs.Crew.{made_in};
ghost use Rattle.tk_live.specs.Slots.{berth_made, slot_made, worked_made};

use crate::signals::Signals;
use crate::worked::{Berth, Worked};
use std::marker::{Send, Sync};
use std::snapshot::Snapshot;
use std::sync::Wait;
use std::thread::{Promise, PromisedHandle, Scope, Threads};
use tk_monitor::Monitor;
use tk_serve::{Gate, retire, serve};
use tk_wire::{Bell, Rest, Wire};

/// The promise that a worker's end is that of the monitor that was made, and keeps the version of its frames.
#[derive(Drop)]
pub struct EndOf {
    made: Snapshot<Monitor>,
    version: u8,
}

impl<W: Wire, Q: Rest> Promise<Worked<W, Q>> for EndOf {
    ghost kept_by = { λ p worked. made_in worked.served.end.monitor worked.version ≡ made_in p.made.value p.version };
}

/// A worker in a thread of its own, or what was left here where no thread could be made for it.
#[derive(Drop)]
pub enum Slot<W: Wire, Q: Rest> {
    There(PromisedHandle<Worked<W, Q>, EndOf>),
    Here(Worked<W, Q>),
}

/// Serves a port to its end, unless a thread was lacking: then the hub is not there yet, or will not stay.
fn work<
    R: Threads + Wait + Sync,
    W: Wire + Send + Drop,
    Q: Rest + Send + Drop,
    B: Bell + Send + Sync + Drop,
    G: Gate + Sync,
>(rt: &R, berth: Berth<W, Q, B>, gate: &G, signals: &Signals) -> Worked<W, Q>
    ensures { worked_made result ≡ berth_made berth }
{
    let version = berth.version;
    let alarm = &signals.alarm;
    let served = if signals.idle.raised() {
        retire(berth.port, berth.rest)
    } else {
        serve(rt, berth.port, berth.rest, &berth.bell, gate, alarm)
    };
    Worked { served, version }
}

/// Starts a worker. Where no thread can be made for it, its port is not served, and the hub is told not to wait.
fn start_one<
    's,
    'a: 's,
    R: Threads + Wait + Sync,
    W: Wire + Send + Drop + 'a,
    Q: Rest + Send + Drop + 'a,
    B: Bell + Send + Sync + Drop + 'a,
    G: Gate + Sync,
>(
    scope: &'s Scope<'s, &'a ()>,
    rt: &'a R,
    berth: Berth<W, Q, B>,
    gate: &'a G,
    signals: &'a Signals,
) -> Slot<W, Q>
    ensures { slot_made result ≡ berth_made berth }
{
    let promise = EndOf {
        made: Snapshot::of(berth.port.monitor()),
        version: berth.version,
    };
    match scope.spawn_with(promise, move || work(rt, berth, gate, signals)) {
        Ok(handle) => Slot::There(handle),
        Err(refused) => {
            signals.call_off();
            Slot::Here((refused.value)())
        }
    }
}

/// Starts a worker for each port, in the room that was taken for them.
pub fn start<
    's,
    'a: 's,
    R: Threads + Wait + Sync,
    W: Wire + Send + Drop + 'a,
    Q: Rest + Send + Drop + 'a,
    B: Bell + Send + Sync + Drop + 'a,
    G: Gate + Sync,
>(
    scope: &'s Scope<'s, &'a ()>,
    rt: &'a R,
    berths: Vec<Berth<W, Q, B>>,
    room: Vec<Slot<W, Q>>,
    gate: &'a G,
    signals: &'a Signals,
) -> Vec<Slot<W, Q>>
    requires room { length berths.items ≤ vec_capacity room }
    requires empty { room.items ≡ [] }
    ensures made { map slot_made result.items ≡ map berth_made berths.items }
    ensures count { length result.items ≡ length berths.items }
{
    let mut slots = room;
    for berth in berths {
        slots.push_reserved(start_one(scope, rt, berth, gate, signals));
    }
    slots
}

/// Waits for a worker.
fn join_one<R: Threads, W: Wire + Drop, Q: Rest + Drop>(rt: &R, slot: Slot<W, Q>) -> Worked<W, Q>
    ensures { worked_made result ≡ slot_made slot }
{
    match slot {
        Slot::There(handle) => handle.join(rt),
        Slot::Here(worked) => worked,
    }
}

/// Waits for all workers, in the room that was taken for what they leave.
pub fn join_all<R: Threads, W: Wire + Drop, Q: Rest + Drop>(
    rt: &R,
    slots: Vec<Slot<W, Q>>,
    room: Vec<Worked<W, Q>>,
) -> Vec<Worked<W, Q>>
    requires room { length slots.items ≤ vec_capacity room }
    requires empty { room.items ≡ [] }
    ensures { map worked_made result.items ≡ map slot_made slots.items }
{
    let mut all = room;
    for slot in slots {
        all.push_reserved(join_one(rt, slot));
    }
    all
}
