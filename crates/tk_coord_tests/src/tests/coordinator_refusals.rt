//! Which frames are refused, and why.

use super::{Case, GREATEST, Said, Turn, after, coordinator};
use std::alloc::Global;
use tk_base::Obj;
use tk_coord::CoordRefusal;
use tk_frames::Kind;

/// The greatest border, 2^113.
const BORDER: i128 = 10_384_593_717_069_655_257_060_992_658_440_192;

/// A Report of b at 3, which opens a full round of a new coordinator of two monitors.
const B_AT_3: Said<'static> = Said::Report(1, 0, &[2], &[(1, 0), (2, 3)]);

/// How many entries the journal of a new coordinator of so many monitors has, which takes these turns and then answers
/// so.
fn answered(alloc: Global, monitors: u64, turns: &[Turn<'_>], cases: &[Case<'_>]) -> Option<usize> {
    let seen = after(alloc, coordinator(alloc, monitors, 0), turns, cases)?;
    Some(seen.entries)
}

#[test]
fn refused_reports(rt: HostRuntime) {
    const AHEAD: CoordRefusal = CoordRefusal::AheadOfSequence { at: 1, got: 2 };
    const GREAT: i128 = GREATEST + 1;
    const LOW: i128 = -BORDER - 1;
    static CASES: [Case<'static>; 6] = [
        (2, Said::Report(2, 0, &[2], &[(1, 0), (2, 3)]), Err(AHEAD)),
        (
            2,
            Said::Report(1, 0, &[1], &[(1, 0)]),
            Err(CoordRefusal::WrongObjects),
        ),
        (
            2,
            Said::Report(1, 0, &[2], &[(1, 0), (2, GREAT)]),
            Err(CoordRefusal::TooGreatValue(Obj(2))),
        ),
        (
            2,
            Said::Report(1, 0, &[2], &[(1, 0), (2, 0)]),
            Err(CoordRefusal::NotBroken(Obj(2))),
        ),
        (
            2,
            Said::Report(1, 1, &[2], &[(1, 0), (2, 3)]),
            Err(CoordRefusal::BadBorder {
                border: 1,
                least: 0,
            }),
        ),
        (
            2,
            Said::Report(1, LOW, &[2], &[(1, 0), (2, 3)]),
            Err(CoordRefusal::BadBorder {
                border: LOW,
                least: 0,
            }),
        ),
    ];
    static TURNS: [Turn<'static>; 1] = [(2, B_AT_3)];
    static AGAIN: [Case<'static>; 1] = [(2, B_AT_3, Err(CoordRefusal::AfterReport { seq: 1 }))];
    assert!(rt; answered(rt.alloc(), 2, &[], &CASES) == Some(2));
    assert!(rt; answered(rt.alloc(), 2, &TURNS, &AGAIN) == Some(4));
}

#[test]
fn refused_values(rt: HostRuntime) {
    const BEHIND: CoordRefusal = CoordRefusal::BehindSequence { at: 1, got: 0 };
    const LOW: i128 = -GREATEST - 1;
    static CASES: [Case<'static>; 5] = [
        (
            1,
            Said::Values(7, 1, 0, &[(1, 0), (2, 0)]),
            Err(CoordRefusal::NotAsked { round: 7 }),
        ),
        (
            2,
            Said::Values(1, 1, 0, &[(1, 0), (2, 3)]),
            Err(CoordRefusal::NotAsked { round: 1 }),
        ),
        (1, Said::Values(1, 0, 0, &[(1, 0), (2, 0)]), Err(BEHIND)),
        (
            1,
            Said::Values(1, 1, 0, &[(2, 0)]),
            Err(CoordRefusal::WrongObjects),
        ),
        (
            1,
            Said::Values(1, 1, 0, &[(1, LOW), (2, 0)]),
            Err(CoordRefusal::TooGreatValue(Obj(1))),
        ),
    ];
    static TURNS: [Turn<'static>; 1] = [(2, B_AT_3)];
    assert!(rt; answered(rt.alloc(), 2, &TURNS, &CASES) == Some(4));
}

#[test]
fn refused_settleds(rt: HostRuntime) {
    const AHEAD: CoordRefusal = CoordRefusal::AheadOfSequence { at: 1, got: 2 };
    static CASES: [Case<'static>; 4] = [
        (1, Said::Settled(2, false, &[0]), Err(AHEAD)),
        (1, Said::Settled(1, false, &[]), Err(CoordRefusal::BadCut)),
        (1, Said::Settled(1, false, &[1]), Ok(())),
        (1, Said::Settled(1, false, &[0]), Err(CoordRefusal::BadCut)),
    ];
    const LAST: Said<'static> = Said::Settled(1, true, &[0]);
    static TURNS: [Turn<'static>; 1] = [(1, LAST)];
    static STOPPED: [Case<'static>; 1] = [(1, LAST, Err(CoordRefusal::AfterStop))];
    // A stale Report is noted alone, whatever stands in it.
    static STALE: [Case<'static>; 1] = [(1, Said::Report(0, 0, &[], &[]), Ok(()))];
    assert!(rt; answered(rt.alloc(), 2, &[], &CASES) == Some(3));
    assert!(rt; answered(rt.alloc(), 1, &TURNS, &STOPPED) == Some(4));
    assert!(rt; answered(rt.alloc(), 2, &[], &STALE) == Some(3));
}

#[test]
fn refused_kinds(rt: HostRuntime) {
    const HELLO: CoordRefusal = CoordRefusal::NotForCoordinator(Kind::Hello);
    const STOP: CoordRefusal = CoordRefusal::NotForCoordinator(Kind::Stop);
    static CASES: [Case<'static>; 2] = [
        (1, Said::Hello(1), Err(HELLO)),
        (2, Said::Stop, Err(STOP)),
    ];
    assert!(rt; answered(rt.alloc(), 2, &[], &CASES) == Some(2));
}
