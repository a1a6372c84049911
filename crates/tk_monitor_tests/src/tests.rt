//! What a monitor of the objects a and b refuses, answers and says, step by step over one log.

ghost use Rattle.std.specs.Prelude.{◌≡◌, IfSome, length};

use std::alloc::Global;
use tk_base::{Feeder, Mon, Obj, ObjSet, Pairs, Places, Settings};
use tk_frames::{Frame, Kind};
use tk_input::{Catalog, Logs, Part};
use tk_monitor::{Checked, Monitor, Raised};
use tk_trail::MonitorRefusal;

const PAST_LIMIT: i128 = 5_192_296_858_534_827_628_530_496_329_220_097;

/// Logs of the objects a and b, with one part of these records.
fn logs_of(alloc: Global, records: &[u8]) -> Option<Logs> {
    let names = Catalog::read(alloc, b"a\nb\n").ok()?;
    let part = Part::read(alloc, records, &names);
    let objects = names.len() as u32;
    drop(names);
    let parts = vec![in alloc; (Mon(1), part.ok()?)].ok()?;
    Logs::new(alloc, parts, objects).ok()
}

/// A monitor over such logs, from the start of its part.
fn monitor(alloc: Global, records: &[u8]) -> Option<Monitor>
    ensures objects { IfSome result (λ m. m.setup.objects ≡ 2) }
    ensures feeder { IfSome result (λ m. length m.setup.parts ≡ 1) }
{
    let settings = Settings::new(1, 0, 1, 2, 1).ok()?;
    let logs = logs_of(alloc, records)?;
    if settings.objects() == 2
        && logs.objects() == 2
        && logs.monitors() == 1
        && logs.feeders(Mon(1)) == 1
    {
        let parts = logs.parts(alloc, Mon(1));
        drop(logs);
        let parts = parts.ok()?;
        let from = Places::new(vec![in alloc; 0].ok()?);
        Monitor::new(alloc, &settings, Mon(1), parts, &from).ok()
    } else {
        drop(logs);
        None
    }
}

fn set(alloc: Global, numbers: &[u32]) -> Option<ObjSet> {
    let mut list = Vec::new(alloc);
    for number in numbers {
        list.push(Obj(*number)).ok()?;
    }
    ObjSet::new(list).ok()
}

fn pairs(alloc: Global, numbers: &[(u32, i128)]) -> Option<Pairs> {
    let mut list = Vec::new(alloc);
    for (o, number) in numbers {
        list.push((Obj(*o), *number)).ok()?;
    }
    Pairs::new(list).ok()
}

fn assign(alloc: Global, seq: u64, members: &[u32], changes: &[(u32, i128)]) -> Option<Frame> {
    let members = set(alloc, members)?;
    let changes = pairs(alloc, changes)?;
    Some(Frame::Assign {
        seq,
        members,
        changes,
    })
}

fn collect(alloc: Global, asked: &[u32]) -> Option<Frame> {
    let objects = set(alloc, asked)?;
    Some(Frame::Collect { round: 1, objects })
}

fn hello() -> Frame {
    Frame::Hello {
        run: 1,
        version: 1,
        mon: Mon(1),
    }
}

/// What is done with a monitor, in plain words.
#[derive(Clone, Copy)]
enum Does<'a> {
    Raise,
    Check,
    /// An Assign's sequence number, members and changes.
    Assign(u64, &'a [u32], &'a [(u32, i128)]),
    /// The objects of a Collect of round 1.
    Collect(&'a [u32]),
    Stop,
    Hello,
}

/// What a monitor makes of it.
#[derive(Clone, Copy, PartialEq)]
enum Answer {
    Raised(Raised),
    Checked(Checked),
    Taken,
    Refused(MonitorRefusal),
}

const CALM: Answer = Answer::Raised(Raised::Done { broken: false });

const BROKEN: Answer = Answer::Raised(Raised::Done { broken: true });

const NOTHING: Answer = Answer::Checked(Checked::Nothing);

/// Assign 1 with the member a, and this factor of b.
fn assigned(factor: &[(u32, i128)]) -> (Does<'_>, Answer) {
    (Does::Assign(1, &[1], factor), Answer::Taken)
}

fn taken(m: &mut Monitor, frame: Frame) -> Answer
    ensures { m.new.setup ≡ m.old.setup }
{
    match m.take(frame) {
        Ok(()) => Answer::Taken,
        Err((refusal, _)) => Answer::Refused(refusal),
    }
}

fn done(alloc: Global, m: &mut Monitor, does: Does<'_>) -> Option<Answer>
    requires { length m.old.setup.parts ≡ 1 }
    ensures { m.new.setup ≡ m.old.setup }
{
    Some(match does {
        Does::Raise => Answer::Raised(m.raise(Feeder(1))),
        Does::Check => Answer::Checked(m.check().ok()?),
        Does::Assign(seq, members, changes) => taken(m, assign(alloc, seq, members, changes)?),
        Does::Collect(asked) => taken(m, collect(alloc, asked)?),
        Does::Stop => taken(m, Frame::Stop),
        Does::Hello => taken(m, hello()),
    })
}

/// Whether a monitor answers so to each of these in turn.
fn answers(alloc: Global, m: &mut Monitor, steps: &[(Does<'_>, Answer)]) -> bool
    requires { length m.old.setup.parts ≡ 1 }
    ensures { m.new.setup ≡ m.old.setup }
{
    for (does, wanted) in steps {
        if done(alloc, m, *does) != Some(*wanted) {
            return false;
        }
    }
    true
}

/// A monitor in plain numbers: its sequence number, frames sent, entries and slack, and whether it has ended, is broken and was
/// stopped.
type Numbers = (u64, usize, usize, Option<i128>, [bool; 3]);

fn numbers(m: &Monitor) -> Numbers {
    let marks = [m.ended(), m.broken(), m.stopped()];
    (m.seq(), m.sent(), m.trail().len(), m.slack(), marks)
}

/// Whether a monitor answers so, and its numbers then. A monitor ends here or in `last_said`, since each place that may drop
/// one is dear to prove.
fn last_played(alloc: Global, m: Monitor, steps: &[(Does<'_>, Answer)]) -> (bool, Numbers)
    requires { length m.setup.parts ≡ 1 }
{
    let mut m = m;
    let all = answers(alloc, &mut m, steps);
    let numbers = numbers(&m);
    drop(m);
    (all, numbers)
}

/// The same of a new monitor over such records.
fn played(alloc: Global, records: &[u8], steps: &[(Does<'_>, Answer)]) -> Option<(bool, Numbers)> {
    match monitor(alloc, records) {
        Some(m) => Some(last_played(alloc, m, steps)),
        None => None,
    }
}

#[test]
fn refused_assigns(rt: HostRuntime) {
    let early = MonitorRefusal::WrongSequence { has: 0, got: 2 };
    let again = MonitorRefusal::WrongSequence { has: 1, got: 1 };
    let steps = [
        (Does::Assign(2, &[1], &[]), Answer::Refused(early)),
        (
            Does::Assign(1, &[3], &[]),
            Answer::Refused(MonitorRefusal::BadMembers),
        ),
        (
            Does::Assign(1, &[], &[]),
            Answer::Refused(MonitorRefusal::BadMembers),
        ),
        (
            Does::Assign(1, &[1], &[(3, 0)]),
            Answer::Refused(MonitorRefusal::BadChange(Obj(3))),
        ),
        (
            Does::Assign(1, &[1], &[(2, PAST_LIMIT)]),
            Answer::Refused(MonitorRefusal::BadChange(Obj(2))),
        ),
        (Does::Assign(1, &[1], &[(2, 0)]), Answer::Taken),
        (Does::Assign(1, &[1], &[]), Answer::Refused(again)),
    ];
    let numbers = (1, 1, 2, Some(0), [false; 3]);
    assert!(rt; played(rt.alloc(), b"b,1\n", &steps) == Some((true, numbers)));
}

#[test]
fn refused_collects_and_others(rt: HostRuntime) {
    let bad = Answer::Refused(MonitorRefusal::BadCollect);
    let early = (Does::Stop, Answer::Refused(MonitorRefusal::EarlyStop));
    let hello = MonitorRefusal::NotForMonitor(Kind::Hello);
    let steps = [
        (Does::Collect(&[1]), bad),
        (Does::Hello, Answer::Refused(hello)),
        early,
    ];
    let numbers = (0, 0, 0, None, [false; 3]);
    assert!(rt; played(rt.alloc(), b"b,1\n", &steps) == Some((true, numbers)));
    let steps = [
        assigned(&[(2, 0)]),
        (Does::Collect(&[]), bad),
        (Does::Collect(&[2]), bad),
        (Does::Collect(&[1, 3]), bad),
        early,
    ];
    let numbers = (1, 1, 2, Some(0), [false; 3]);
    assert!(rt; played(rt.alloc(), b"b,1\n", &steps) == Some((true, numbers)));
}

#[test]
fn ends_are_told_once(rt: HostRuntime) {
    let told = (Does::Check, Answer::Checked(Checked::ToldEnd));
    let steps = [
        assigned(&[(2, 0)]),
        (Does::Check, NOTHING),
        (Does::Raise, CALM),
        told,
        (Does::Check, NOTHING),
    ];
    let numbers = (1, 2, 4, Some(1), [true, false, false]);
    assert!(rt; played(rt.alloc(), b"a,1\n", &steps) == Some((true, numbers)));
    let empty = [
        assigned(&[(2, 0)]),
        (Does::Check, NOTHING),
        (Does::Stop, Answer::Taken),
        (Does::Stop, Answer::Refused(MonitorRefusal::AfterStop)),
    ];
    let numbers = (1, 1, 3, Some(0), [true, false, true]);
    assert!(rt; played(rt.alloc(), b"", &empty) == Some((true, numbers)));
}

/// How many changes of its only feeder a monitor raised.
fn place(m: &Monitor) -> Option<u32> {
    let places = m.places().ok()?;
    if places.len() == 1 {
        Some(places.at(0))
    } else {
        None
    }
}

/// Whether the last of some steps made a monitor send a frame, then its place and the level of b.
type Said = (bool, Option<u32>, i128);

/// What is seen of a monitor behind these steps, and of this frame.
fn said(alloc: Global, m: &mut Monitor, steps: &[(Does<'_>, Answer)], frame: &Frame) -> Said
    requires feeder { length m.old.setup.parts ≡ 1 }
    requires objects { m.old.setup.objects ≡ 2 }
{
    let all = answers(alloc, m, steps);
    let sent = m.sent();
    let is_said = sent > 0 && *m.sent_at(sent - 1) == *frame;
    (all && is_said, place(m), m.level(Obj(2)))
}

/// The same of one that ends here.
fn last_said(alloc: Global, m: Monitor, steps: &[(Does<'_>, Answer)], frame: &Frame) -> Said
    requires feeder { length m.setup.parts ≡ 1 }
    requires objects { m.setup.objects ≡ 2 }
{
    let mut m = m;
    let said = said(alloc, &mut m, steps, frame);
    drop(m);
    said
}

/// The same of a new monitor over such records, if there is such a frame.
fn says(
    alloc: Global,
    records: &[u8],
    steps: &[(Does<'_>, Answer)],
    frame: Option<Frame>,
) -> Option<Said> {
    let frame = frame?;
    let said = match monitor(alloc, records) {
        Some(m) => Some(last_said(alloc, m, steps, &frame)),
        None => None,
    };
    drop(frame);
    said
}

/// Report 1 with the border 0, the failed object b, and the values a 0 and b 4.
fn report(alloc: Global) -> Option<Frame> {
    let failed = set(alloc, &[2])?;
    let values = pairs(alloc, &[(1, 0), (2, 4)])?;
    Some(Frame::Report {
        seq: 1,
        border: 0,
        failed,
        values,
    })
}

#[test]
fn a_report_holds_what_is_broken(rt: HostRuntime) {
    let steps = [
        assigned(&[(2, -3)]),
        (Does::Raise, BROKEN),
        (Does::Check, Answer::Checked(Checked::Reported)),
        (Does::Raise, Answer::Raised(Raised::Ended)),
    ];
    let said = says(rt.alloc(), b"b,4\n", &steps, report(rt.alloc()));
    assert!(rt; said == Some((true, Some(1), 1)));
}

/// Values of round 1 under an Assign, with a border, the value 0 of a, and this one of b.
fn values(alloc: Global, seq: u64, border: i128, b: i128) -> Option<Frame> {
    let values = pairs(alloc, &[(1, 0), (2, b)])?;
    Some(Frame::Values {
        round: 1,
        seq,
        border,
        values,
    })
}

#[test]
fn values_stay_under_other_factors(rt: HostRuntime) {
    let steps = [
        assigned(&[(2, -3)]),
        (Does::Raise, BROKEN),
        (Does::Assign(2, &[1], &[(1, 2), (2, -9)]), Answer::Taken),
        (Does::Collect(&[1, 2]), Answer::Taken),
    ];
    let answer = values(rt.alloc(), 2, 2, 4);
    let said = says(rt.alloc(), b"b,4\n", &steps, answer);
    assert!(rt; said == Some((true, Some(1), -5)));
}
