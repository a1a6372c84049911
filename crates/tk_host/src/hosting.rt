ghost use Rattle.std.specs.Prelude.{◌≡◌, ◌<◌, ◌≤◌, true, IfErr, IfSome, None, length};
ghost use Rattle.tk_host.specs.Going.{IsGoing, IsOfHost, IsOfSession, Serves, Steps, TellsMore, TellsOf, faults_left, left, step_faults};
ghost use Rattle.tk_host.specs.Room.{HasRoom};

use crate::cause::Cause;
use crate::knock::Knock;
use crate::over::Over;
use crate::reach::Reach;
use crate::seat::Seat;
use crate::session::Session;
use crate::stand_in::StandIn;
use crate::waiting::{deadline, is_past};
use std::alloc::Global;
use std::sync::Wait;
use std::time::{Clock, Instant};
use tk_base::Mon;
use tk_hub::HubTurn;
use tk_input::{Catalog, Sink};
use tk_wire::{Host, Wire};

/// How many connections are accepted between two turns at most.
const KNOCKS: u32 = 64;

/// Waits until something may have come, where nothing is left to do.
fn pause<H: Host>(host: &mut H, idle: bool) -> Result<(), Over>
    requires { (H.state host.old).listens ≡ true }
    ensures serves { Serves result (H.state host.old) (H.state host.new) }
    ensures over { IfErr result IsOfHost }
{
    if idle {
        host.wait()?;
    }
    Ok(())
}

/// A connection that waits, if one does.
fn accept<H: Host, C: Reach<Link = H::Link>>(host: &mut H) -> Result<Option<Knock<C>>, Over>
    requires { (H.state host.old).listens ≡ true }
    ensures serves { Serves result (H.state host.old) (H.state host.new) }
    ensures over { IfErr result IsOfHost }
{
    let Some((link, greeting)) = host.accept()? else {
        return Ok(None);
    };
    Ok(Some(Knock {
        link: C::far(link),
        greeting,
    }))
}

/// Lets those join that wait. Says whether there may be more.
fn admit<H: Host, C: Reach<Link = H::Link> + Drop, O: Sink>(
    alloc: Global,
    host: &mut H,
    session: &mut Session<C>,
    out: &mut O,
) -> Result<bool, Over>
    requires listens { (H.state host.old).listens ≡ true }
    requires going { IsGoing session.old }
    ensures steps { Steps result session.old session.new }
    ensures tells { TellsMore result session.old session.new (O.written out.old) (O.written out.new) }
    ensures serves { Serves result (H.state host.old) (H.state host.new) }
    ensures counted { O.fault_count out.new ≡ step_faults result (O.fault_count out.old) }
{
    for _ in 0..KNOCKS {
        match accept(host)? {
            Some(knock) => session.join(alloc, knock, out)?,
            None => return Ok(false),
        }
    }
    Ok(true)
}

/// Whether nothing is left to do before something comes: what waits is told of once, so after a turn or a door that may
/// have more there is no wait.
fn is_idle(more: bool, turn: HubTurn) -> bool {
    match turn {
        HubTurn::More => false,
        _ => !more,
    }
}

/// A turn of the hub, and the sets that it published. Says whether nothing is left to do.
fn play_turn<W: Wire + Drop, O: Sink>(
    alloc: Global,
    session: &mut Session<W>,
    names: &Catalog,
    more: bool,
    out: &mut O,
) -> Result<bool, Over>
    requires going { IsGoing session.old }
    requires room { HasRoom session.old.hub.coordinator.journal }
    requires named { session.old.hub.coordinator.settings.objects ≤ length names.now }
    ensures steps { Steps result session.old session.new }
    ensures inside { IfErr result IsOfSession }
    ensures tells { TellsOf names.now result session.old session.new (O.written out.old) (O.written out.new) }
    ensures counted { O.fault_count out.new ≡ step_faults result (O.fault_count out.old) }
{
    let turn = session.turn(names);
    session.end_early()?;
    session.tell(alloc, names, out)?;
    session.after(turn)?;
    Ok(is_idle(more || session.is_answered(), turn))
}

/// Plays a turn, where the session has room for it. Says whether nothing is left to do.
fn play<W: Wire + Drop, O: Sink>(
    alloc: Global,
    session: &mut Session<W>,
    names: &Catalog,
    more: bool,
    out: &mut O,
) -> Result<bool, Over>
    requires going { IsGoing session.old }
    requires named { session.old.hub.coordinator.settings.objects ≤ length names.now }
    ensures steps { Steps result session.old session.new }
    ensures inside { IfErr result IsOfSession }
    ensures tells { TellsOf names.now result session.old session.new (O.written out.old) (O.written out.new) }
    ensures counted { O.fault_count out.new ≡ step_faults result (O.fault_count out.old) }
{
    match session.weigh() {
        Ok(()) => play_turn(alloc, session, names, more, out),
        Err(over) => Err(over),
    }
}

/// The least monitor whose seat a stand-in is to take: not all have come, and the time has passed.
fn lacking<R: Clock, W: Wire + Drop>(
    rt: &R,
    session: &Session<W>,
    until: Option<Instant>,
) -> Option<Mon>
    ensures mon { IfSome result (λ mon. (0 < mon.0) × (mon.0 ≤ 64)) }
    ensures missing { IfSome result (λ mon. session.now.missing ≡ None → ⊥) }
{
    if session.is_complete() || !is_past(rt, until) {
        return None;
    }
    session.absent()
}

/// A stand-in takes the seat of a monitor.
fn replace<C: Reach + Drop, O: Sink>(
    alloc: Global,
    session: &mut Session<C>,
    mon: Mon,
    out: &mut O,
) -> Result<(), Over>
    requires going { IsGoing session.old }
    requires mon { (0 < mon.0) × (mon.0 ≤ 64) }
    requires missing { session.old.missing ≡ None → ⊥ }
    ensures steps { Steps result session.old session.new }
    ensures inside { IfErr result IsOfSession }
    ensures tells { TellsMore result session.old session.new (O.written out.old) (O.written out.new) }
    ensures counted { O.fault_count out.new ≡ step_faults result (O.fault_count out.old) }
{
    let Ok(stand_in) = StandIn::new(alloc, session.settings(), mon, session.run()) else {
        return Err(Over::Ended(Cause::Memory));
    };
    session.seat(alloc, Seat::Missing(mon), C::near(stand_in), out)
}

/// A stand-in takes the seat of a monitor that has not come, where the time for it is over. Says whether there may be more to
/// do: so it was before, or one takes a seat.
fn fill<R: Clock, C: Reach + Drop, O: Sink>(
    rt: &R,
    alloc: Global,
    session: &mut Session<C>,
    until: Option<Instant>,
    more: bool,
    out: &mut O,
) -> Result<bool, Over>
    requires { IsGoing session.old }
    ensures steps { Steps result session.old session.new }
    ensures inside { IfErr result IsOfSession }
    ensures tells { TellsMore result session.old session.new (O.written out.old) (O.written out.new) }
    ensures counted { O.fault_count out.new ≡ step_faults result (O.fault_count out.old) }
{
    let Some(mon) = lacking(rt, session, until) else {
        return Ok(more);
    };
    replace(alloc, session, mon, out)?;
    Ok(true)
}

/// Lets those join that wait, and fills the seat of one for which the time is over. Says whether there may be more.
fn gather<R: Clock, H: Host, C: Reach<Link = H::Link> + Drop, O: Sink>(
    rt: &R,
    alloc: Global,
    host: &mut H,
    session: &mut Session<C>,
    until: Option<Instant>,
    out: &mut O,
) -> Result<bool, Over>
    requires listens { (H.state host.old).listens ≡ true }
    requires going { IsGoing session.old }
    ensures steps { Steps result session.old session.new }
    ensures tells { TellsMore result session.old session.new (O.written out.old) (O.written out.new) }
    ensures serves { Serves result (H.state host.old) (H.state host.new) }
    ensures counted { O.fault_count out.new ≡ step_faults result (O.fault_count out.old) }
{
    let more = admit(alloc, host, session, out)?;
    fill(rt, alloc, session, until, more, out)
}

/// Waits, fills the seats, and plays a turn. Says whether nothing is left to do.
fn step<R: Clock, H: Host, C: Reach<Link = H::Link> + Drop, O: Sink>(
    rt: &R,
    alloc: Global,
    host: &mut H,
    session: &mut Session<C>,
    names: &Catalog,
    until: Option<Instant>,
    idle: bool,
    out: &mut O,
) -> Result<bool, Over>
    requires listens { (H.state host.old).listens ≡ true }
    requires going { IsGoing session.old }
    requires named { session.old.hub.coordinator.settings.objects ≤ length names.now }
    ensures steps { Steps result session.old session.new }
    ensures tells { TellsOf names.now result session.old session.new (O.written out.old) (O.written out.new) }
    ensures serves { Serves result (H.state host.old) (H.state host.new) }
    ensures counted { O.fault_count out.new ≡ step_faults result (O.fault_count out.old) }
{
    pause(host, idle)?;
    let more = gather(rt, alloc, host, session, until, out)?;
    play(alloc, session, names, more, out)
}

/// Plays a session over a door that listens, until it is left.
fn play_on<R: Wait + Clock, H: Host, C: Reach<Link = H::Link> + Drop, O: Sink>(
    rt: &R,
    alloc: Global,
    host: &mut H,
    session: &mut Session<C>,
    names: &Catalog,
    out: &mut O,
) -> Over
    requires listens { (H.state host.old).listens ≡ true }
    requires going { IsGoing session.old }
    requires named { session.old.hub.coordinator.settings.objects ≤ length names.now }
    ensures steps { Steps (left result) session.old session.new }
    ensures tells { TellsOf names.now (left result) session.old session.new (O.written out.old) (O.written out.new) }
    ensures serves { Serves (left result) (H.state host.old) (H.state host.new) }
    ensures counted { O.fault_count out.new ≡ faults_left result (O.fault_count out.old) }
{
    let until = deadline(rt, session.missing());
    let mut idle = true;
    for _ in rt.forever() {
        match step(rt, alloc, host, session, names, until, idle, out) {
            Ok(next) => idle = next,
            Err(over) => return over,
        }
    }
    unreachable!()
}

/// Lets the first join, where there is one.
fn welcome<W: Wire + Drop, O: Sink>(
    alloc: Global,
    session: &mut Session<W>,
    first: Option<Knock<W>>,
    out: &mut O,
) -> Result<(), Over>
    requires { IsGoing session.old }
    ensures steps { Steps result session.old session.new }
    ensures inside { IfErr result IsOfSession }
    ensures tells { TellsMore result session.old session.new (O.written out.old) (O.written out.new) }
    ensures counted { O.fault_count out.new ≡ step_faults result (O.fault_count out.old) }
{
    match first {
        Some(knock) => session.join(alloc, knock, out),
        None => Ok(()),
    }
}

/// Runs a session over a door that listens, until it is left. A connection with which it begins joins first.
pub fn attend<R: Wait + Clock, H: Host, C: Reach<Link = H::Link> + Drop, O: Sink>(
    rt: &R,
    alloc: Global,
    host: &mut H,
    session: &mut Session<C>,
    first: Option<Knock<C>>,
    names: &Catalog,
    out: &mut O,
) -> Over
    requires listens { (H.state host.old).listens ≡ true }
    requires going { IsGoing session.old }
    requires named { session.old.hub.coordinator.settings.objects ≤ length names.now }
    ensures steps { Steps (left result) session.old session.new }
    ensures tells { TellsOf names.now (left result) session.old session.new (O.written out.old) (O.written out.new) }
    ensures serves { Serves (left result) (H.state host.old) (H.state host.new) }
    ensures counted { O.fault_count out.new ≡ faults_left result (O.fault_count out.old) }
{
    match welcome(alloc, session, first, out) {
        Ok(()) => play_on(rt, alloc, host, session, names, out),
        Err(over) => over,
    }
}
