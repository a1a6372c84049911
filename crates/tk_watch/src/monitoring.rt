//! The process: its feeders in threads, and beside them one connection after the other.

ghost use Rattle.std.specs.Prelude.{◌≡◌, ◌≤◌, Err, IsSome, Some, length};
ghost use Rattle.tk_watch.specs.Connections.{Writes, faults_told};
ghost use Rattle.tk_watch.specs.Fresh.{IsUncounted};
ghost use Rattle.tk_watch.specs.Passing.{Passes, faults_passed};
ghost use Rattle.tk_watch.specs.Watch.{IsWatch, named_of};
ghost use Rattle.tk_watch.specs.declared.verdict.Verdict.TheVariants.{LinkFault as Unlinked};

use crate::cause::Cause;
use crate::cell::{WatchCell, WatchName, Watched};
use crate::feeding::{Shared, start};
use crate::passing::pass;
use crate::pausing::pause;
use crate::plan::Plan;
use crate::reaching::reach;
use crate::timing::has_marks;
use crate::verdict::Verdict;
use crate::watch::Watch;
use crate::wish::Wish;
use std::alloc::Global;
use std::marker::{Brand, Send, Sync};
use std::sync::{Arc, Mutex, Wait};
use std::thread::Threads;
use std::time::{Clock, Instant};
use tk_base::Feeder;
use tk_input::{Catalog, Sink};
use tk_stream::{Records, Source};
use tk_wire::{Bell, Dialed, Dialer, Rest, Wire};

/// The most streams that a monitor has.
const MOST_STREAMS: u32 = 8;

/// The next connection, from its dial on.
fn step<
    R: Wait + Clock,
    L: Dialed + Send + Drop,
    Q: Rest + Send + Drop,
    B: Bell + Send + Sync + Drop,
    N: WatchName,
    D: Dialer<Link = L, Rest = Q, Bell = B>,
    O: Sink,
>(
    rt: &R,
    alloc: Global,
    shared: &Shared<L, B, N>,
    plan: &Plan,
    number: u64,
    dialer: &mut D,
    out: &mut O,
) -> Result<Cause, Verdict>
    ensures passes { Passes L N.named number result (O.written out.old) (O.written out.new) }
    ensures tries { result ≡ Err Unlinked → IsSome plan.now.tries }
    ensures counted { O.fault_count out.new ≡ faults_passed result (O.fault_count out.old) }
{
    match reach(rt, &shared.cell, plan, dialer) {
        Ok(made) => pass(rt, alloc, shared, number, made, out),
        Err(verdict) => Err(verdict),
    }
}

/// Lets the pause pass behind a connection, unless the session was full. A fault that comes meanwhile ends the next one.
fn rest_behind<R: Wait + Clock, W: Wire + Drop, B: Bell + Drop, N: WatchName>(
    rt: &R,
    cell: &WatchCell<W, B, N>,
    plan: &Plan,
    cause: Cause,
) {
    match cause {
        Cause::Full => {}
        _ => {
            let _ = pause(rt, cell, plan.pause);
        }
    }
}

/// One connection after the other, with a pause behind each but one that was full, until the process ends.
fn go_on<
    R: Wait + Clock,
    L: Dialed + Send + Drop,
    Q: Rest + Send + Drop,
    B: Bell + Send + Sync + Drop,
    N: WatchName,
    D: Dialer<Link = L, Rest = Q, Bell = B>,
    O: Sink,
>(
    rt: &R,
    alloc: Global,
    shared: &Shared<L, B, N>,
    plan: &Plan,
    dialer: &mut D,
    out: &mut O,
) -> Verdict
    ensures writes { Writes L N.named result (O.written out.old) (O.written out.new) }
    ensures tries { result ≡ Unlinked → IsSome plan.now.tries }
    ensures counted { O.fault_count out.new ≡ faults_told result (O.fault_count out.old) }
{
    let mut number: u64 = 1;
    for _ in rt.forever() {
        match step(rt, alloc, shared, plan, number, dialer, out) {
            Ok(cause) => rest_behind(rt, &shared.cell, plan, cause),
            Err(verdict) => return verdict,
        }
        number = number.saturating_add(1);
    }
    unreachable!()
}

/// Starts a feeder for each stream. Says whether each has a thread.
fn start_all<
    R: Threads + Wait + Copy + Send + 'static,
    L: Dialed + Send + Drop + 'static,
    B: Bell + Send + Drop + 'static,
    N: WatchName + Send + 'static,
    S: Source + Send + Drop + 'static,
>(rt: R, alloc: Global, shared: &Arc<Shared<L, B, N>, Global>, sources: Vec<Records<S>>) -> bool
    requires sources { length sources.items ≤ N.named.streams }
    requires few { length sources.items ≤ 8 }
{
    let mut sources = sources;
    for _ in 0..MOST_STREAMS {
        let f = Feeder(sources.len() as u32);
        let Some(records) = sources.pop() else {
            return true;
        };
        let Ok(theirs) = Arc::try_clone(shared) else {
            return false;
        };
        if !start(rt, alloc, theirs, f, records) {
            return false;
        }
    }
    true
}

/// The watch with the windows of its streams, unless memory is wanted, or the clock, which no system refuses.
fn watched_of<R: Clock, L: Dialed + Drop, B: Bell + Drop, N: WatchName>(
    rt: &R,
    alloc: Global,
    watch: Watch<L>,
    plan: &Plan,
) -> Option<Watched<L, B, N>>
    requires named { named_of watch ≡ N.named }
    requires uncounted { IsUncounted watch }
{
    let Ok(now) = Instant::now(rt) else {
        drop(watch);
        return None;
    };
    Watched::new(alloc, watch, plan.window, now).ok()
}

/// What the feeders share.
fn share<R: Clock, L: Dialed + Drop, B: Bell + Drop, N: WatchName>(
    rt: &R,
    alloc: Global,
    watch: Watch<L>,
    names: Catalog,
    plan: &Plan,
) -> Option<Arc<Shared<L, B, N>, Global>>
    requires named { named_of watch ≡ N.named }
    requires uncounted { IsUncounted watch }
    requires names { length names ≡ N.named.objects }
{
    let made: Option<Watched<L, B, N>> = watched_of(rt, alloc, watch, plan);
    let Some(watched) = made else {
        drop(names);
        return None;
    };
    let shared = Shared::new(watched, names, has_marks(plan.window));
    Arc::new(alloc, shared).ok()
}

/// As `monitor`, for a watch of this name.
fn monitor_as<
    R: Threads + Wait + Clock + Copy + Send + 'static,
    L: Dialed + Send + Drop + 'static,
    Q: Rest + Send + Drop,
    B: Bell + Send + Sync + Drop + 'static,
    N: WatchName + Send + 'static,
    D: Dialer<Link = L, Rest = Q, Bell = B>,
    S: Source + Send + Drop + 'static,
    O: Sink,
>(
    rt: R,
    alloc: Global,
    watch: Watch<L>,
    names: Catalog,
    sources: Vec<Records<S>>,
    plan: &Plan,
    dialer: &mut D,
    out: &mut O,
) -> Verdict
    requires named { named_of watch ≡ N.named }
    requires names { length names ≡ N.named.objects }
    requires sources { length sources.items ≡ N.named.streams }
    requires few { N.named.streams ≤ 8 }
    requires uncounted { IsUncounted watch }
    ensures writes { Writes L N.named result (O.written out.old) (O.written out.new) }
    ensures tries { result ≡ Unlinked → IsSome plan.now.tries }
    ensures counted { O.fault_count out.new ≡ faults_told result (O.fault_count out.old) }
{
    let made: Option<Arc<Shared<L, B, N>, Global>> = share(&rt, alloc, watch, names, plan);
    let Some(shared) = made else {
        return Verdict::NoMemory;
    };
    if !start_all(rt, alloc, &shared, sources) {
        return Verdict::NoMemory;
    }
    go_on(&rt, alloc, &shared, plan, dialer, out)
}

/// Runs a monitor: each of its streams is read in a thread of its own, which lives as long as the process, and each record
/// counts as it comes. Beside them it dials its coordinator, serves the connection, and where that is left it waits and dials
/// again, until Stop is taken. Where the plan has a window, what the ticks of its streams counted is taken back as they leave it,
/// and the ticks end by lines or by the clock, whether it is connected or not. It may wait, and what it promises holds if it returns.
pub fn monitor<
    R: Threads + Wait + Clock + Copy + Send + 'static,
    L: Dialed + Send + Drop + 'static,
    Q: Rest + Send + Drop,
    B: Bell + Send + Sync + Drop + 'static,
    D: Dialer<Link = L, Rest = Q, Bell = B>,
    S: Source + Send + Drop + 'static,
    O: Sink,
>(
    rt: R,
    alloc: Global,
    watch: Watch<L>,
    names: Catalog,
    sources: Vec<Records<S>>,
    plan: &Plan,
    dialer: &mut D,
    out: &mut O,
) -> Verdict
    requires names { length names ≡ (named_of watch).objects }
    requires sources { length sources.items ≡ (named_of watch).streams }
    requires few { (named_of watch).streams ≤ 8 }
    requires uncounted { IsUncounted watch }
    // What is written are the lines of the connections, in order, each with its cause. Done says that Stop was taken.
    ensures writes { Writes L (named_of watch) result (O.written out.old) (O.written out.new) }
    // Nobody answered only where tries are counted, and a failed write is told just where there is one.
    ensures tries { result ≡ Unlinked → IsSome plan.now.tries }
    ensures counted { O.fault_count out.new ≡ faults_told result (O.fault_count out.old) }
{
    monitor_as::<R, L, Q, B, Brand, D, S, O>(rt, alloc, watch, names, sources, plan, dialer, out)
}
