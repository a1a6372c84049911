//! How a coordinator is reached.

ghost use Rattle.std.specs.Prelude.{◌≡◌, false, true, IfErr, IfOk, IsSome};
ghost use Rattle.tk_wire.specs.Net.{IsNew};
ghost use Rattle.tk_watch.specs.Passing.{IsUnreached};
ghost use Rattle.tk_watch.specs.declared.verdict.Verdict.TheVariants.{LinkFault as Unlinked};

use crate::cell::{WatchCell, WatchName};
use crate::pausing::pause;
use crate::plan::Plan;
use crate::verdict::Verdict;
use std::sync::Wait;
use std::time::Clock;
use tk_base::NoMemory;
use tk_wire::{Bell, Dialer, Wire};

/// Whether that many dials in a row are enough.
fn is_enough(tries: Option<u64>, unanswered: u64) -> bool
    ensures { result ≡ true → IsSome tries }
{
    match tries {
        Some(most) => most <= unanswered,
        None => false,
    }
}

/// Dials until somebody answers, nobody did so often enough, or a stream ends the process.
pub(crate) fn reach<R: Wait + Clock, W: Wire + Drop, B: Bell + Drop, N: WatchName, D: Dialer>(
    rt: &R,
    cell: &WatchCell<W, B, N>,
    plan: &Plan,
    dialer: &mut D,
) -> Result<(D::Link, D::Rest, D::Bell), Verdict>
    ensures link { IfOk result (λ made. IsNew D.Link.tells (D.Link.traffic made.0) (D.Link.counts made.0)) }
    ensures greeted { IfOk result (λ made. D.Link.greeted made.0 ≡ false) }
    ensures ended { IfErr result IsUnreached }
    ensures tries { IfErr result (λ verdict. verdict ≡ Unlinked → IsSome plan.now.tries) }
{
    let mut unanswered: u64 = 0;
    for _ in rt.forever() {
        match dialer.dial() {
            Ok(Some(made)) => return Ok(made),
            Ok(None) => unanswered = unanswered.saturating_add(1),
            Err(NoMemory) => return Err(Verdict::NoMemory),
        }
        if is_enough(plan.tries, unanswered) {
            return Err(Verdict::LinkFault);
        }
        if let Some(fault) = pause(rt, cell, plan.pause) {
            return Err(Verdict::Fed(fault));
        }
    }
    unreachable!()
}
