//! How a port is served: its feeders in threads, beside them turns with a rest behind each quiet one.

ghost use Rattle.std.specs.Prelude.{◌≡◌, [], IfOk, length};
ghost use Rattle.tk_monitor.specs.Monitored.{IsFeederOf};
ghost use Rattle.tk_trail.specs.Legal.{IsLegal};
ghost use Rattle.tk_trail.specs.Readings.{taken_by};
ghost use Rattle.tk_trail.specs.Setup.{IsSetup};
ghost use Rattle.tk_end.specs.Link.{Covers};
ghost use Rattle.tk_story.specs.Ends.{as_made};
ghost use Rattle.tk_serve.specs.Serving.{why_of};

use crate::alarm::Alarm;
use crate::cell::{PortCell, PortName, Shared};
use crate::feeding::feed;
use crate::gate::Gate;
use crate::served::{Served, retire};
use std::marker::Brand;
use std::sync::{Mutex, Wait};
use std::thread;
use std::thread::Threads;
use tk_base::{Feeder, Mon, NoMemory};
use tk_monitor::Monitor;
use tk_port::{Port, Turn};
use tk_wire::{Bell, Rest, Wire};

/// How many feeders a monitor has: as many as places, which take memory while they are counted.
fn feeders_of(monitor: &Monitor) -> Result<u32, NoMemory>
    requires { IsSetup monitor.now.setup }
    ensures { IfOk result (λ count. count ≡ length monitor.now.setup.parts) }
{
    let places = monitor.places()?;
    Ok(places.len() as u32)
}

/// Where Stop was not taken, halts the port and raises the alarm.
fn leave<R: Wait, W: Wire, N: PortName>(rt: &R, cell: &PortCell<W, N>, alarm: &Alarm) {
    if !cell.lock(rt).leave() {
        alarm.raise();
    }
}

/// Turn by turn under the lock, with a rest after each quiet one; until a turn ends the exchange, a rest fails or finds no
/// memory, or the port is halted.
fn attend<R: Wait, W: Wire, N: PortName, Q: Rest>(
    rt: &R,
    cell: &PortCell<W, N>,
    rest: &mut Q,
    alarm: &Alarm,
) {
    for _ in rt.forever() {
        let turn = cell.lock(rt).turn();
        match turn {
            Some(Turn::More) => {}
            Some(Turn::Quiet) => {
                if rest.rest().is_err() {
                    break;
                }
            }
            _ => break,
        }
    }
    leave(rt, cell, alarm);
}

/// The feeders in threads of their own, or here where no thread can be made, and beside them the turns. It returns once
/// all feeders have ended.
fn attend_all<
    'a,
    R: Threads + Wait + Sync,
    W: Wire + Send + Drop,
    N: PortName + Send,
    Q: Rest + Drop,
    B: Bell + Sync,
    G: Gate + Sync,
>(
    rt: &'a R,
    cell: &'a PortCell<W, N>,
    mon: Mon,
    feeders: u32,
    rest: Q,
    bell: &'a B,
    gate: &'a G,
    alarm: &'a Alarm,
) -> Q
    requires { feeders ≡ length N.setup.parts }
{
    thread::scope(
        thread::scope_env(),
        rt,
        move |scope| -> Q
            requires { feeders ≡ length N.setup.parts }
        {
            for f in 0..feeders {
                let f = Feeder(f + 1);
                let run = move ||
                    requires { IsFeederOf N.setup f.0 }
                { feed(rt, cell, mon, f, gate, bell) };
                if let Err(refused) = scope.spawn(run) {
                    (refused.value)();
                }
            }
            let mut rest = rest;
            attend(rt, cell, &mut rest, alarm);
            rest
        },
    )
}

/// As `serve`, for a port of this name.
fn serve_as<
    R: Threads + Wait + Sync,
    W: Wire + Send + Drop,
    N: PortName + Send,
    Q: Rest + Drop,
    B: Bell + Sync,
    G: Gate + Sync,
>(rt: &R, port: Port<W>, rest: Q, bell: &B, gate: &G, alarm: &Alarm) -> Served<W, Q>
    requires settings { port.monitor.settings ≡ N.settings }
    requires setup { port.monitor.setup ≡ N.setup }
    requires version { port.link.version ≡ N.version }
    ensures settings { result.end.monitor.settings ≡ N.settings }
    ensures setup { result.end.monitor.setup ≡ N.setup }
    ensures legal { IsLegal result.end.monitor.setup result.end.monitor.trail }
    ensures covered { Covers N.version (taken_by result.end.monitor.trail) [] (W.counts result.link).taken }
    ensures why { result.why ≡ why_of result.end (W.counts result.link) (Q.fault_count result.rest) }
{
    let mon = port.monitor().number();
    let feeders = feeders_of(port.monitor());
    let cell: PortCell<W, N> = Mutex::new(Shared::new(port));
    let rest = match feeders {
        Ok(feeders) => attend_all(rt, &cell, mon, feeders, rest, bell, gate, alarm),
        Err(_) => {
            leave(rt, &cell, alarm);
            rest
        }
    };
    let Shared { port, .. } = cell.into_inner();
    retire(port, rest)
}

/// Serves a port: its feeders raise their changes in threads of a scope of its own, and turn by turn it exchanges frames
/// with the coordinator, until Stop or an end before it. It may wait, and what it promises holds if it returns.
pub fn serve<
    R: Threads + Wait + Sync,
    W: Wire + Send + Drop,
    Q: Rest + Drop,
    B: Bell + Sync,
    G: Gate + Sync,
>(rt: &R, port: Port<W>, rest: Q, bell: &B, gate: &G, alarm: &Alarm) -> Served<W, Q>
    // The end is that of the given port.
    ensures monitor { as_made result.end.monitor ≡ as_made port.monitor }
    ensures legal { IsLegal result.end.monitor.setup result.end.monitor.trail }
    // No fewer bytes were taken from its link than the frames have that its monitor took.
    ensures covered { Covers port.link.version (taken_by result.end.monitor.trail) [] (W.counts result.link).taken }
    // Why it ended is the first cause that its end, its link and its rest show.
    ensures why { result.why ≡ why_of result.end (W.counts result.link) (Q.fault_count result.rest) }
{
    serve_as::<R, W, Brand, Q, B, G>(rt, port, rest, bell, gate, alarm)
}
