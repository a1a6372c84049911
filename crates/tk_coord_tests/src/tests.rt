//! What monitors say in plain numbers, and what a coordinator of the objects a and b makes of it.

mod coordinator_refusals;
mod factor_past_its_limit;
mod worked_rounds;

use std::alloc::Global;
use tk_base::{Mon, Obj, ObjSet, Pairs, Places, Settings};
use tk_coord::{CoordRefusal, Coordinator};
use tk_frames::Frame;

/// The greatest value, and the greatest epsilon, 2^100.
const GREATEST: i128 = 1_267_650_600_228_229_401_496_703_205_376;

/// A frame of a monitor in plain numbers.
#[derive(Clone, Copy)]
enum Said<'a> {
    /// A Report's sequence number, border, failed objects and values.
    Report(u64, i128, &'a [u32], &'a [(u32, i128)]),
    /// Values of a round: the round, its sequence number, border and values.
    Values(u64, u64, i128, &'a [(u32, i128)]),
    /// A Settled's sequence number, whether it is the last, and its places.
    Settled(u64, bool, &'a [u32]),
    /// A Hello of this monitor.
    Hello(u32),
    Stop,
}

/// A monitor, and what it says.
type Turn<'a> = (u32, Said<'a>);

/// The same, and what is answered to it.
type Case<'a> = (u32, Said<'a>, Result<(), CoordRefusal>);

/// A coordinator of the objects a and b, with k 1.
fn coordinator(alloc: Global, monitors: u64, epsilon: u128) -> Option<Coordinator> {
    let settings = Settings::new(1, epsilon, 1, 2, monitors).ok()?;
    Coordinator::new(alloc, settings).ok()
}

fn set(alloc: Global, numbers: &[u32]) -> Option<ObjSet> {
    let mut list = Vec::new(alloc);
    for number in numbers {
        list.push(Obj(*number)).ok()?;
    }
    ObjSet::new(list).ok()
}

fn pairs(alloc: Global, numbers: &[(u32, i128)]) -> Option<Pairs> {
    let mut list = Vec::new(alloc);
    for (o, number) in numbers {
        list.push((Obj(*o), *number)).ok()?;
    }
    Pairs::new(list).ok()
}

fn report(
    alloc: Global,
    seq: u64,
    border: i128,
    failed: &[u32],
    values: &[(u32, i128)],
) -> Option<Frame> {
    let failed = set(alloc, failed)?;
    let values = pairs(alloc, values)?;
    Some(Frame::Report {
        seq,
        border,
        failed,
        values,
    })
}

fn values(
    alloc: Global,
    round: u64,
    seq: u64,
    border: i128,
    values: &[(u32, i128)],
) -> Option<Frame> {
    let values = pairs(alloc, values)?;
    Some(Frame::Values {
        round,
        seq,
        border,
        values,
    })
}

fn settled(alloc: Global, seq: u64, last: bool, places: &[u32]) -> Option<Frame> {
    let places = Places::new(places.to_vec(alloc).ok()?);
    Some(Frame::Settled { seq, last, places })
}

fn hello(mon: u32) -> Frame {
    Frame::Hello {
        run: 1,
        version: 1,
        mon: Mon(mon),
    }
}

fn frame(alloc: Global, said: Said<'_>) -> Option<Frame> {
    match said {
        Said::Report(seq, border, failed, shown) => report(alloc, seq, border, failed, shown),
        Said::Values(round, seq, border, shown) => values(alloc, round, seq, border, shown),
        Said::Settled(seq, last, places) => settled(alloc, seq, last, places),
        Said::Hello(mon) => Some(hello(mon)),
        Said::Stop => Some(Frame::Stop),
    }
}

/// What a coordinator answers to a frame of a monitor, if there is such a monitor.
fn taken(c: &mut Coordinator, mon: u32, frame: Frame) -> Option<Result<(), CoordRefusal>> {
    if mon == 0 || mon > c.settings().monitors() {
        return None;
    }
    match c.take(Mon(mon), frame) {
        Ok(()) => Some(Ok(())),
        Err((refusal, frame)) => {
            drop(frame);
            Some(Err(refusal))
        }
    }
}

/// What it answers to this.
fn answer(
    alloc: Global,
    c: &mut Coordinator,
    mon: u32,
    said: Said<'_>,
) -> Option<Result<(), CoordRefusal>> {
    let frame = frame(alloc, said)?;
    taken(c, mon, frame)
}

/// Whether it takes these in turn.
fn takes(alloc: Global, c: &mut Coordinator, turns: &[Turn<'_>]) -> bool {
    for (mon, said) in turns {
        if answer(alloc, c, *mon, *said) != Some(Ok(())) {
            return false;
        }
    }
    true
}

/// Whether it answers so to each of these in turn.
fn answers(alloc: Global, c: &mut Coordinator, cases: &[Case<'_>]) -> bool {
    for (mon, said, wanted) in cases {
        if answer(alloc, c, *mon, *said) != Some(*wanted) {
            return false;
        }
    }
    true
}

/// The factors of an object: the coordinator's own, and those of two monitors.
type Factors = Option<(i128, i128, i128)>;

fn factors(c: &Coordinator, o: u32) -> Factors {
    let settings = c.settings();
    if o == 0 || o > settings.objects() || settings.monitors() < 2 {
        return None;
    }
    let o = Obj(o);
    Some((c.own(o), c.factor(Mon(1), o), c.factor(Mon(2), o)))
}

/// The coordinator's own factors of a and of b.
fn own(c: &Coordinator) -> Option<(i128, i128)> {
    if c.settings().objects() < 2 {
        return None;
    }
    Some((c.own(Obj(1)), c.own(Obj(2))))
}

/// Whether an object is a member.
fn leads(c: &Coordinator, o: u32) -> bool {
    c.members().has(Obj(o))
}

/// What stands at a coordinator of a and b.
#[derive(Clone, Copy)]
struct Standing {
    /// How many entries its journal has.
    entries: usize,
    /// Whether no round is open.
    idle: bool,
    /// Its own factors of a and of b.
    own: Option<(i128, i128)>,
    /// Those of two monitors beside its own, of a and of b.
    factors: (Factors, Factors),
    /// Whether b leads.
    leads: bool,
}

fn seen(c: &Coordinator) -> Standing {
    Standing {
        entries: c.journal().len(),
        idle: c.idle(),
        own: own(c),
        factors: (factors(c, 1), factors(c, 2)),
        leads: leads(c, 2),
    }
}

/// What stands at a coordinator that takes these turns and then answers so to those cases.
fn seen_after(
    alloc: Global,
    c: &mut Coordinator,
    turns: &[Turn<'_>],
    cases: &[Case<'_>],
) -> Option<Standing> {
    if !takes(alloc, c, turns) || !answers(alloc, c, cases) {
        return None;
    }
    Some(seen(c))
}

/// The same of one that ends here. Tests end one here where they can, since each place that drops one is dear to prove.
fn last_seen(
    alloc: Global,
    c: Coordinator,
    turns: &[Turn<'_>],
    cases: &[Case<'_>],
) -> Option<Standing> {
    let mut c = c;
    let seen = seen_after(alloc, &mut c, turns, cases);
    drop(c);
    seen
}

/// The same, if there is one.
fn after(
    alloc: Global,
    c: Option<Coordinator>,
    turns: &[Turn<'_>],
    cases: &[Case<'_>],
) -> Option<Standing> {
    match c {
        Some(c) => last_seen(alloc, c, turns, cases),
        None => None,
    }
}
