//! One connection: its lines, and what its serving comes to.

ghost use Rattle.std.specs.Prelude.{◌≡◌, false, Err, IfOk};
ghost use Rattle.tk_wire.specs.Net.{IsNew};
ghost use Rattle.tk_watch.specs.Connections.{Ends, HasJoined};
ghost use Rattle.tk_watch.specs.Passing.{Passes, PassesBehind, faults_passed};
ghost use Rattle.tk_watch.specs.declared.verdict.Verdict.TheVariants.{LinkFault as Unlinked};

use crate::attended::Attended;
use crate::attending::attend;
use crate::cause::Cause;
use crate::cell::{WatchCell, WatchName};
use crate::feeding::Shared;
use crate::saying::{tell_ended, tell_joined, tell_left};
use crate::verdict::Verdict;
use std::alloc::Global;
use std::marker::{Send, Sync};
use std::sync::Wait;
use std::time::Clock;
use tk_base::NoMemory;
use tk_input::Sink;
use tk_wire::{Bell, Dialed, Rest, Wire};

/// Writes the line of a connection that is over so, behind the line that it was made.
fn tell_over<W: Wire, N: WatchName, O: Sink>(
    alloc: Global,
    number: u64,
    over: Attended,
    out: &mut O,
) -> Result<Cause, Verdict>
    requires { Ends W N.named over }
    ensures passes { PassesBehind W N.named number result (O.written out.old) (O.written out.new) }
    ensures linked { result ≡ Err Unlinked → ⊥ }
    ensures counted { O.fault_count out.new ≡ faults_passed result (O.fault_count out.old) }
{
    match over {
        Attended::Left(cause) => match tell_left(alloc, number, cause, out) {
            Ok(()) => Ok(cause),
            Err(verdict) => Err(verdict),
        },
        Attended::Stopped { counts, skipped } => {
            let told = tell_ended(alloc, counts.as_slice(), skipped, out);
            drop(counts);
            match told {
                Ok(()) => Err(Verdict::Done),
                Err(verdict) => Err(verdict),
            }
        }
        Attended::Fed(fault) => Err(Verdict::Fed(fault)),
        Attended::More => unreachable!(),
        Attended::Quiet => unreachable!(),
    }
}

/// Serves a connection whose line was written, and leaves it.
fn serve<R: Wait + Clock, W: Wire + Drop, B: Bell + Drop, N: WatchName, Q: Rest, O: Sink>(
    rt: &R,
    alloc: Global,
    shared: &Shared<W, B, N>,
    number: u64,
    rest: &mut Q,
    out: &mut O,
) -> Result<Cause, Verdict>
    ensures passes { PassesBehind W N.named number result (O.written out.old) (O.written out.new) }
    ensures linked { result ≡ Err Unlinked → ⊥ }
    ensures counted { O.fault_count out.new ≡ faults_passed result (O.fault_count out.old) }
{
    let attended = attend(rt, alloc, &shared.cell, rest, &shared.wish, out);
    shared.cell.lock(rt).leave();
    match attended {
        Ok(over) => tell_over::<W, N, O>(alloc, number, over, out),
        Err(verdict) => Err(verdict),
    }
}

/// Begins a connection under the lock, and answers how many records each stream gave.
fn begin<R: Wait, L: Dialed + Drop, B: Bell + Drop, N: WatchName>(
    rt: &R,
    alloc: Global,
    cell: &WatchCell<L, B, N>,
    link: L,
    bell: B,
) -> Result<Vec<u64>, NoMemory>
    requires new { IsNew L.Wire.tells (L.Wire.traffic link) (L.Wire.counts link) }
    requires once { L.greeted link ≡ false }
    ensures { IfOk result (λ counts. HasJoined L N.named counts.items) }
{
    cell.lock(rt).begin(alloc, link, bell)
}

/// One connection, over a link that was dialed: its line, the connection served until it is over, and the line of that.
pub(crate) fn pass<
    R: Wait + Clock,
    L: Dialed + Send + Drop,
    Q: Rest + Send + Drop,
    B: Bell + Send + Sync + Drop,
    N: WatchName,
    O: Sink,
>(
    rt: &R,
    alloc: Global,
    shared: &Shared<L, B, N>,
    number: u64,
    made: (L, Q, B),
    out: &mut O,
) -> Result<Cause, Verdict>
    requires new { IsNew L.Wire.tells (L.Wire.traffic made.0) (L.Wire.counts made.0) }
    requires once { L.greeted made.0 ≡ false }
    ensures passes { Passes L N.named number result (O.written out.old) (O.written out.new) }
    ensures linked { result ≡ Err Unlinked → ⊥ }
    ensures counted { O.fault_count out.new ≡ faults_passed result (O.fault_count out.old) }
{
    let (link, rest, bell) = made;
    let Ok(counts) = begin(rt, alloc, &shared.cell, link, bell) else {
        drop(rest);
        return Err(Verdict::NoMemory);
    };
    let told = tell_joined(alloc, number, counts.as_slice(), out);
    drop(counts);
    if let Err(verdict) = told {
        drop(rest);
        return Err(verdict);
    }
    let mut rest = rest;
    serve(rt, alloc, shared, number, &mut rest, out)
}
