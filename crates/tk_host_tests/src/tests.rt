//! What a coordinator over a host in memory tells.

ghost use Rattle.std.specs.Prelude.{◌≡◌, ◌≤◌, false, length, IfSome};

use crate::monitors::{RUN, knock, play, settled};
use std::alloc::Global;
use std::marker::Sync;
use std::sync::Wait;
use std::test::Fail;
use std::thread;
use std::thread::Threads;
use std::time::Clock;
use tk_base::Settings;
use tk_host::{Coordinated, coordinate};
use tk_input::{Catalog, VecSink};
use tk_net::{MemDialer, MemHost};
use tk_wire::{Beginning, Host};

/// The call of a host at which it fails, so that no run waits for ever.
const MOST: u64 = 10_000_000;

/// A call of a host at which it fails once it has told what it can of one monitor.
const LATE: u64 = 1_001;

/// What a coordinator of two monitors tells in at most so many sessions, and how it ended.
fn coordinated<R: Wait + Clock>(
    rt: &R,
    alloc: Global,
    host: &mut MemHost,
    sessions: u64,
    missing: Option<u64>,
    out: &mut VecSink,
) -> Option<Coordinated>
    requires { host.old.state.listens ≡ false }
{
    let settings = Settings::new(1, 0, 1, 2, 2).ok()?;
    let names = Catalog::read(alloc, b"a\nb\n").ok()?;
    if names.len() != 2 {
        drop(names);
        return None;
    }
    let ended = coordinate(
        rt,
        alloc,
        host,
        &names,
        &settings,
        RUN,
        "memory",
        Some(sessions),
        missing,
        1,
        out,
    );
    drop(names);
    Some(ended)
}

/// A host of two monitors that fails at a call, and a dialer of it.
fn memory(alloc: Global, call: u64) -> Option<(MemHost, MemDialer)>
    ensures { IfSome result (λ made. made.0.state.listens ≡ false) }
{
    let fails = Vec::from_slice(alloc, &[call]).ok()?;
    let (host, mut dialers) = MemHost::new(alloc, RUN, 2, 1, fails).ok()?;
    let dialer = dialers.pop()?;
    drop(dialers);
    Some((host, dialer))
}

/// The text of a run of which both logs are told whole.
const WHOLE: &[u8] = b"listening memory\n\
session 1\n\
joined 1 at 0\n\
joined 2 at 0\n\
final 1 cut 1:2 2:2 members a\n";

/// The text of two sessions: in the first a monitor greets again, and in the second its link ends.
const TWICE: &[u8] = b"listening memory\n\
session 1\n\
joined 1 at 1000\n\
ended 1 again 1\n\
session 2\n\
joined 1 at 1000\n\
ended 2 link 1\n";

/// How a coordinator ended that two monitors came to, and whether these came to the end.
fn run_both<'a, R: Threads + Wait + Clock + Sync>(
    rt: &'a R,
    alloc: Global,
    host: &'a mut MemHost,
    dialer: &'a mut MemDialer,
    out: &'a mut VecSink,
) -> (Option<Coordinated>, bool)
    requires { host.old.state.listens ≡ false }
{
    thread::join(
        rt,
        move ||
            requires { host.now.state.listens ≡ false }
        { coordinated(rt, alloc, host, 1, None, out) },
        move || play(alloc, dialer),
    )
}

/// How a coordinator ended that two strangers and two monitors came to, whether the monitors came to the end, whether the
/// text is whole, and how many strangers it counted.
fn met<R: Threads + Wait + Clock + Sync>(
    rt: &R,
    alloc: Global,
) -> Option<(Coordinated, bool, bool, u64)> {
    let (mut host, mut dialer) = memory(alloc, MOST)?;
    let mut out = VecSink::new(alloc, 1_000, Vec::new(alloc)).ok()?;
    let new = Beginning { count: 0, start: 0 };
    knock(alloc, &mut dialer, RUN + 1, 1, new);
    knock(alloc, &mut dialer, RUN, 3, new);
    let (ended, is_done) = run_both(rt, alloc, &mut host, &mut dialer, &mut out);
    let is_whole = out.written() == WHOLE;
    let strangers = host.strangers();
    drop(host);
    drop(dialer);
    drop(out);
    Some((ended?, is_done, is_whole, strangers))
}

#[test]
fn two_monitors_come_to_the_final_set_and_strangers_do_not_join(
    rt: HostRuntime,
) -> Result<(), Fail> {
    let seen = met(&rt, rt.alloc());
    assert_eq!(rt; seen, Some((Coordinated::Done, true, true, 2)));
    Ok(())
}

/// How a coordinator ended after two sessions to which one monitor greeted twice, and whether it told that.
fn greeted_twice<R: Wait + Clock>(rt: &R, alloc: Global) -> Option<(Coordinated, bool)> {
    let (mut host, mut dialer) = memory(alloc, MOST)?;
    let mut out = VecSink::new(alloc, 1_000, Vec::new(alloc)).ok()?;
    let told = Beginning {
        count: 1000,
        start: 37,
    };
    knock(alloc, &mut dialer, RUN, 1, told);
    knock(alloc, &mut dialer, RUN, 1, told);
    let ended = coordinated(rt, alloc, &mut host, 2, None, &mut out);
    let is_told = out.written() == TWICE;
    drop(host);
    drop(dialer);
    drop(out);
    Some((ended?, is_told))
}

#[test]
fn a_monitor_that_greets_again_is_the_first_of_the_next_session(
    rt: HostRuntime,
) -> Result<(), Fail> {
    let seen = greeted_twice(&rt, rt.alloc());
    assert_eq!(rt; seen, Some((Coordinated::Done, true)));
    Ok(())
}

/// The text of a session in which monitor 2 does not join.
const WITHOUT: &[u8] = b"listening memory\n\
session 1\n\
joined 1 at 0\n\
missing 2\n\
set 1 cut 1:2 2:- members a\n";

/// How a coordinator ended to which one of two monitors came, where a stand-in takes a seat at once and the host fails in the end,
/// and whether it told the set without the other.
fn left_alone<R: Wait + Clock>(rt: &R, alloc: Global) -> Option<(Coordinated, bool)> {
    let (mut host, mut dialer) = memory(alloc, LATE)?;
    let mut out = VecSink::new(alloc, 1_000, Vec::new(alloc)).ok()?;
    let one = settled(alloc, &mut dialer);
    let ended = coordinated(rt, alloc, &mut host, 1, Some(0), &mut out);
    let is_told = out.written() == WITHOUT;
    drop(one);
    drop(host);
    drop(dialer);
    drop(out);
    Some((ended?, is_told))
}

#[test]
fn a_missing_monitor_does_not_stop_the_other(rt: HostRuntime) -> Result<(), Fail> {
    let seen = left_alone(&rt, rt.alloc());
    assert_eq!(rt; seen, Some((Coordinated::LinkFault, true)));
    Ok(())
}
