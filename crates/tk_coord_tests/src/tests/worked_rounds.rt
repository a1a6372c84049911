//! The factors that single rounds give.

use super::{Factors, Said, Turn, after, coordinator};
use std::alloc::Global;
use tk_base::Settings;
use tk_coord::Coordinator;

/// Monitor 2 tells that b is at 3 there, above a.
const B_AT_3: Turn<'static> = (2, Said::Report(1, 0, &[2], &[(1, 0), (2, 3)]));

/// Monitor 1 tells that b is at 2 there, above a.
const B_AT_2: Turn<'static> = (1, Said::Report(1, 0, &[2], &[(1, 0), (2, 2)]));

/// The factors of a and of b at a coordinator of two monitors that takes these turns.
fn dealt(alloc: Global, epsilon: u128, turns: &[Turn<'_>]) -> Option<(Factors, Factors)> {
    let seen = after(alloc, coordinator(alloc, 2, epsilon), turns, &[])?;
    Some(seen.factors)
}

/// Whether no round is open at a coordinator of one monitor that takes these turns, whether b leads, and the own factors.
fn alone(alloc: Global, turns: &[Turn<'_>]) -> Option<(bool, bool, Option<(i128, i128)>)> {
    let seen = after(alloc, coordinator(alloc, 1, 0), turns, &[])?;
    Some((seen.idle, seen.leads, seen.own))
}

#[test]
fn two_monitors(rt: HostRuntime) {
    static FIRST: [Turn<'static>; 2] = [B_AT_3, (1, Said::Values(1, 1, 5, &[(1, 5), (2, 0)]))];
    let wanted = (Some((0, 0, 0)), Some((0, 4, -4)));
    assert!(rt; dealt(rt.alloc(), 0, &FIRST) == Some(wanted));
    static SHORT: [Turn<'static>; 1] = [B_AT_3];
    let wanted = (Some((0, 0, 0)), Some((4, 0, -4)));
    assert!(rt; dealt(rt.alloc(), 4, &SHORT) == Some(wanted));
    static BELOW: [Turn<'static>; 2] = [B_AT_3, (1, Said::Values(1, 1, 0, &[(1, 0), (2, 0)]))];
    let wanted = (Some((2, -1, -1)), Some((1, 1, -2)));
    assert!(rt; dealt(rt.alloc(), 2, &BELOW) == Some(wanted));
}

/// A coordinator of two objects and two monitors, with epsilon 2 and no share of the leeway.
fn without_a_share(alloc: Global) -> Option<Coordinator> {
    let settings = Settings::new(1, 2, 0, 2, 2).ok()?;
    Coordinator::new(alloc, settings).ok()
}

/// The factors of a and of b there.
fn dealt_without_a_share(alloc: Global, turns: &[Turn<'_>]) -> Option<(Factors, Factors)> {
    let seen = after(alloc, without_a_share(alloc), turns, &[])?;
    Some(seen.factors)
}

#[test]
fn own_weight_0(rt: HostRuntime) {
    static FULL: [Turn<'static>; 2] = [B_AT_3, (1, Said::Values(1, 1, 0, &[(1, 0), (2, 0)]))];
    let wanted = (Some((2, -1, -1)), Some((0, 2, -2)));
    assert!(rt; dealt_without_a_share(rt.alloc(), &FULL) == Some(wanted));
}

/// The factors of b alone.
fn dealt_to_b(alloc: Global, turns: &[(u32, Said<'_>)]) -> Factors {
    let (_, second) = dealt(alloc, 0, turns)?;
    second
}

#[test]
fn reports_that_cross(rt: HostRuntime) {
    static BROKEN_ON_ARRIVAL: [Turn<'static>; 3] = [
        B_AT_3,
        (2, Said::Report(2, 0, &[2], &[(1, 0), (2, 13)])),
        (1, Said::Values(1, 1, 5, &[(1, 5), (2, 0)])),
    ];
    let wanted = (Some((3, -1, -2)), Some((3, 8, -11)));
    assert!(rt; dealt(rt.alloc(), 4, &BROKEN_ON_ARRIVAL) == Some(wanted));
    static DURING_A_ROUND: [Turn<'static>; 3] = [
        B_AT_2,
        B_AT_3,
        (2, Said::Values(1, 1, 0, &[(1, 0), (2, 3)])),
    ];
    assert!(rt; dealt_to_b(rt.alloc(), &DURING_A_ROUND) == Some((2, 0, -2)));
    static CROSSING: [Turn<'static>; 3] = [
        B_AT_2,
        (2, Said::Values(1, 1, 0, &[(1, 0), (2, 0)])),
        B_AT_3,
    ];
    assert!(rt; dealt_to_b(rt.alloc(), &CROSSING) == Some((1, -1, 0)));
}

#[test]
fn one_monitor(rt: HostRuntime) {
    const FIRST: Turn<'static> = (1, Said::Report(1, 0, &[2], &[(1, 0), (2, 3)]));
    static ONCE: [Turn<'static>; 1] = [FIRST];
    assert!(rt; alone(rt.alloc(), &ONCE) == Some((true, true, Some((0, 2)))));
    // On the tie the member stays.
    static TIE: [Turn<'static>; 2] = [FIRST, (1, Said::Report(2, 1, &[1], &[(1, 3), (2, 3)]))];
    assert!(rt; alone(rt.alloc(), &TIE) == Some((true, true, Some((2, 2)))));
}

/// A coordinator of three objects and one monitor.
fn of_three(alloc: Global) -> Option<Coordinator> {
    let settings = Settings::new(1, 0, 1, 3, 1).ok()?;
    Coordinator::new(alloc, settings).ok()
}

/// The own factors of a and of b there after a member fell.
fn fallen(alloc: Global) -> Option<(i128, i128)> {
    const FELL: Said<'static> = Said::Report(1, -4, &[2, 3], &[(1, -4), (2, 0), (3, 0)]);
    let seen = after(alloc, of_three(alloc), &[(1, FELL)], &[])?;
    seen.own
}

#[test]
fn fallen_member(rt: HostRuntime) {
    assert!(rt; fallen(rt.alloc()) == Some((0, 2)));
}
