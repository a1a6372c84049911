ghost use Rattle.std.specs.Prelude.{◌≡◌, ◌≤◌, false, true, length};
ghost use Rattle.tk_input.specs.Files.{HasRisen};
ghost use Rattle.tk_host.specs.Coordinating.{Coordinates, run_faults};
ghost use Rattle.tk_host.specs.Holding.{FailsHost, HoldsAll};

use crate::contact::Contact;
use crate::coordinated::Coordinated;
use crate::holding::{Plan, hold, open};
use crate::knock::Knock;
use crate::reach::Reach;
use std::alloc::Global;
use std::sync::Wait;
use std::time::Clock;
use tk_base::Settings;
use tk_input::{Catalog, Sink};
use tk_wire::Host;

/// Holds sessions one after the other over a door that listens, until one has told the final set or the process ends.
fn hold_all<R: Wait + Clock, H: Host, C: Reach<Link = H::Link> + Drop, O: Sink>(
    rt: &R,
    alloc: Global,
    host: &mut H,
    plan: &Plan<'_>,
    limit: u64,
    out: &mut O,
) -> Coordinated
    requires listens { (H.state host.old).listens ≡ true }
    requires named { plan.now.settings.objects ≤ length plan.now.names.now }
    ensures holds { HoldsAll result plan.now.names.now plan.now.settings plan.now.missing limit (O.written out.old) (O.written out.new) }
    ensures failed { FailsHost result (H.state host.old) (H.state host.new) }
    ensures counted { O.fault_count out.new ≡ run_faults result (O.fault_count out.old) }
{
    let mut first: Option<Knock<C>> = None;
    for number in 0..limit {
        match hold(rt, alloc, host, plan, number + 1, first, out) {
            Ok(next) => first = next,
            Err(end) => return end,
        }
    }
    Coordinated::Done
}

/// Runs a coordinator over a host: it listens at an address, and holds sessions until one has told the final set or as many
/// have ended as are asked for. It tells where it listens, each session with who joins it, which sets are published and
/// why it ended, each line by one put. Where a monitor has not joined a session within so many seconds, if that is asked for,
/// a stand-in takes its seat. Once done it keeps the links for at most so many seconds of silence.
pub fn coordinate<R: Wait + Clock, H: Host, O: Sink>(
    rt: &R,
    alloc: Global,
    host: &mut H,
    names: &Catalog,
    settings: &Settings,
    run: u64,
    at: &str,
    sessions: Option<u64>,
    missing: Option<u64>,
    silence: u64,
    out: &mut O,
) -> Coordinated
    requires listens { (H.state host.old).listens ≡ false }
    requires named { settings.now.objects ≤ length names.now }
    // What was written is the text of sessions, each with a legal journal from the start of these settings.
    ensures coordinates { Coordinates result names.now settings.now missing sessions (O.written out.old) (O.written out.new) }
    // A failed link has its cause, and a failed write is told just where there is one.
    ensures failed { result ≡ Coordinated.LinkFault → HasRisen (H.state host.old).faults (H.state host.new).faults }
    ensures counted { O.fault_count out.new ≡ run_faults result (O.fault_count out.old) }
{
    if let Err(end) = open(alloc, host, at, out) {
        return end;
    }
    let plan = Plan {
        names,
        settings: *settings,
        run,
        missing,
        silence,
    };
    let limit = sessions.unwrap_or(u64::MAX);
    hold_all::<R, H, Contact<H::Link>, O>(rt, alloc, host, &plan, limit, out)
}
