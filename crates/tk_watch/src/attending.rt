//! How a connection is served: look by look under the lock, with a rest behind each quiet one.

ghost use Rattle.std.specs.Prelude.{◌≡◌, IfErr, IfOk, IfSome, OnOk};
ghost use Rattle.tk_watch.specs.Connections.{Ends, IsOver};
ghost use Rattle.tk_watch.specs.Ends.{HaveTicked};
ghost use Rattle.tk_watch.specs.Passing.{HasStopped, HasTold, faults_stopped};

use crate::attended::Attended;
use crate::cause::Cause;
use crate::cell::{WatchCell, WatchName};
use crate::saying::tell_tick;
use crate::tick_end::TickEnd;
use crate::verdict::Verdict;
use crate::wish::Wish;
use std::alloc::Global;
use std::sync::Wait;
use std::time::Clock;
use tk_base::NoMemory;
use tk_input::Sink;
use tk_wire::{Bell, Rest, Wire};

/// One look under the lock, for which the feeders make way. A tick that is due by the clock ends before it. Where one ended since
/// the last look, that is told with what the look comes to.
fn look<R: Wait + Clock, W: Wire + Drop, B: Bell + Drop, N: WatchName>(
    rt: &R,
    alloc: Global,
    cell: &WatchCell<W, B, N>,
    wish: &Wish,
) -> Result<(Option<TickEnd>, Attended), NoMemory>
    ensures ticked { IfOk result (λ came. IfSome came.0 (HaveTicked W N.named)) }
    ensures over { IfOk result (λ came. IsOver W N.named came.1) }
{
    wish.set(true);
    let mut watched = cell.lock(rt);
    wish.set(false);
    watched.keep_time(rt);
    let ended = watched.take_end(alloc)?;
    let Ok(attended) = watched.look(alloc) else {
        drop(ended);
        return Err(NoMemory);
    };
    Ok((ended, attended))
}

/// Writes the line of the last ends of ticks, where one is to be told.
fn tell_ended<W: Wire, N: WatchName, O: Sink>(
    alloc: Global,
    ended: Option<TickEnd>,
    out: &mut O,
) -> Result<(), Verdict>
    requires { IfSome ended (HaveTicked W N.named) }
    ensures ok { OnOk result (HasTold W N.named (O.written out.old) (O.written out.new)) }
    ensures err { IfErr result (λ v. HasStopped W N.named v (O.written out.old) (O.written out.new)) }
    ensures counted { O.fault_count out.new ≡ faults_stopped result (O.fault_count out.old) }
{
    let Some(end) = ended else {
        return Ok(());
    };
    let told = tell_tick(alloc, &end, out);
    drop(end);
    told
}

/// One look, and behind it outside of the lock the line of an end of ticks that it found.
fn look_and_tell<R: Wait + Clock, W: Wire + Drop, B: Bell + Drop, N: WatchName, O: Sink>(
    rt: &R,
    alloc: Global,
    cell: &WatchCell<W, B, N>,
    wish: &Wish,
    out: &mut O,
) -> Result<Attended, Verdict>
    ensures over { IfOk result (λ attended. IsOver W N.named attended) }
    ensures ok { OnOk result (HasTold W N.named (O.written out.old) (O.written out.new)) }
    ensures err { IfErr result (λ v. HasStopped W N.named v (O.written out.old) (O.written out.new)) }
    ensures counted { O.fault_count out.new ≡ faults_stopped result (O.fault_count out.old) }
{
    let Ok((ended, attended)) = look(rt, alloc, cell, wish) else {
        return Err(Verdict::NoMemory);
    };
    match tell_ended::<W, N, O>(alloc, ended, out) {
        Ok(()) => Ok(attended),
        Err(verdict) => {
            drop(attended);
            Err(verdict)
        }
    }
}

/// Serves the connection until it is over: Stop was taken, the link failed, or a stream ended the process. Ends of ticks are told
/// as they come, and it ends too where one cannot be. It may wait.
pub(crate) fn attend<
    R: Wait + Clock,
    W: Wire + Drop,
    B: Bell + Drop,
    N: WatchName,
    Q: Rest,
    O: Sink,
>(
    rt: &R,
    alloc: Global,
    cell: &WatchCell<W, B, N>,
    rest: &mut Q,
    wish: &Wish,
    out: &mut O,
) -> Result<Attended, Verdict>
    ensures over { IfOk result (λ attended. Ends W N.named attended) }
    ensures ok { OnOk result (HasTold W N.named (O.written out.old) (O.written out.new)) }
    ensures err { IfErr result (λ v. HasStopped W N.named v (O.written out.old) (O.written out.new)) }
    ensures counted { O.fault_count out.new ≡ faults_stopped result (O.fault_count out.old) }
{
    for _ in rt.forever() {
        let attended = match look_and_tell(rt, alloc, cell, wish, out) {
            Ok(attended) => attended,
            Err(verdict) => return Err(verdict),
        };
        match attended {
            Attended::More => {}
            Attended::Quiet => {
                if rest.rest().is_err() {
                    return Ok(Attended::Left(Cause::Link));
                }
            }
            over => return Ok(over),
        }
    }
    unreachable!()
}
