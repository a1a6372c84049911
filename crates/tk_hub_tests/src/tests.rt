//! Connections in plain bytes, and what a hub of run 5 makes of them, over two monitors and the objects a and b, with k 1.

ghost use Rattle.std.specs.Prelude.{◌≡◌, ◌≤◌, IfSome, length, true};
ghost use Rattle.tk_hub.specs.declared.course.Course.TheVariants as on;
ghost use Rattle.tk_hub.specs.Visitor.{IsUnused};

use std::alloc::Global;
use tk_base::{Mon, Settings};
use tk_coord::{CoordRefusal, Coordinator};
use tk_frames::{BadFrame, Frame, Kind};
use tk_hub::{Admitted, Hub, HubTurn, an_opening_has_no_input};
use tk_input::{Catalog, VecSink};
use tk_story::Received;
use tk_wire::{Pipe, PipeWire, Piped, Wire};

/// A length that no Hello has.
const LONG: [u8; 4] = [0, 32, 0, 0];

/// Hello of monitor 3 in run 5 and version 1.
const HELLO_OF_3: [u8; 18] = [0, 0, 0, 14, 1, 0, 0, 0, 0, 0, 0, 0, 5, 1, 0, 0, 0, 3];

/// Hello of monitor 2 in run 5 and version 3.
const HELLO_IN_3: [u8; 18] = [0, 0, 0, 14, 1, 0, 0, 0, 0, 0, 0, 0, 5, 3, 0, 0, 0, 2];

/// Hello of monitor 2 in run 6 and version 1.
const HELLO_TO_6: [u8; 18] = [0, 0, 0, 14, 1, 0, 0, 0, 0, 0, 0, 0, 6, 1, 0, 0, 0, 2];

/// Hello of monitor 2 in run 5 and version 1, twice.
const TWICE: [u8; 36] = [
    0, 0, 0, 14, 1, 0, 0, 0, 0, 0, 0, 0, 5, 1, 0, 0, 0, 2, 0, 0, 0, 14, 1, 0, 0, 0, 0, 0, 0, 0, 5,
    1, 0, 0, 0, 2,
];

/// That Hello, and a payload of no kind.
const NO_KIND: [u8; 23] = [
    0, 0, 0, 14, 1, 0, 0, 0, 0, 0, 0, 0, 5, 1, 0, 0, 0, 2, 0, 0, 0, 1, 9,
];

/// That Hello, and half of a frame.
const CUT_OFF: [u8; 28] = [
    0, 0, 0, 14, 1, 0, 0, 0, 0, 0, 0, 0, 5, 1, 0, 0, 0, 2, 0, 0, 0, 18, 6, 0, 0, 0, 0, 0,
];

/// That Hello, and Report 1 with the border 1, the failed object b, and the values a 0 and b 3.
const BORDER_1: [u8; 99] = [
    0, 0, 0, 14, 1, 0, 0, 0, 0, 0, 0, 0, 5, 1, 0, 0, 0, 2, 0, 0, 0, 77, 2, 0, 0, 0, 0, 0, 0, 0, 1,
    0, 0, 0, 0, 0, 0, 0, 0, 0, 0, 0, 0, 0, 0, 0, 1, 0, 0, 0, 1, 0, 0, 0, 2, 0, 0, 0, 2, 0, 0, 0, 1,
    0, 0, 0, 0, 0, 0, 0, 0, 0, 0, 0, 0, 0, 0, 0, 0, 0, 0, 0, 2, 0, 0, 0, 0, 0, 0, 0, 0, 0, 0, 0, 0,
    0, 0, 0, 3,
];

/// A connection: the bytes that wait on it, which call of its wire fails, if one does, whether a call moves one byte alone,
/// and whether it has ended behind its bytes.
#[derive(Clone, Copy)]
struct Connection<'a> {
    bytes: &'a [u8],
    fails: u64,
    is_slow: bool,
    has_ended: bool,
}

/// A connection that goes on, on which these bytes wait.
fn came(bytes: &[u8]) -> Connection<'_> {
    Connection {
        bytes,
        fails: 0,
        is_slow: false,
        has_ended: false,
    }
}

/// A wire of such a connection before its bytes.
fn empty_wire(alloc: Global, came: Connection<'_>) -> Option<PipeWire>
    ensures { IfSome result (λ wire. IsUnused true wire.traffic) }
{
    let fails = vec![in alloc; came.fails].ok()?;
    let piece = if came.is_slow { 1 } else { 64 };
    PipeWire::new(alloc, 256, piece, fails).ok()
}

/// A wire of such a connection.
fn wire(alloc: Global, came: Connection<'_>) -> Option<PipeWire>
    ensures { IfSome result (λ wire. IsUnused true wire.traffic) }
{
    let mut pipe = Pipe::new(alloc, 256).ok()?;
    let mut wire = empty_wire(alloc, came)?;
    pipe.put(came.bytes);
    for _ in 0..came.bytes.len() {
        wire.fill(&mut pipe);
    }
    if came.has_ended {
        wire.close();
    }
    Some(wire)
}

/// A hub of run 5: two monitors over the objects a and b, with k 1.
fn hub(alloc: Global) -> Option<Hub<PipeWire>>
    ensures course { IfSome result (λ hub. hub.course ≡ on.Open) }
    ensures objects { IfSome result (λ hub. hub.coordinator.settings.objects ≤ 2) }
{
    let settings = Settings::new(1, 0, 1, 2, 2).ok()?;
    match Coordinator::new(alloc, settings) {
        Ok(coordinator) => {
            an_opening_has_no_input();
            Hub::new(alloc, coordinator, 5).ok()
        }
        Err(_) => None,
    }
}

/// Lets a connection in.
fn let_in(hub: &mut Hub<PipeWire>, alloc: Global, came: Connection<'_>) -> Option<Admitted>
    requires { hub.old.course ≡ on.Open }
    ensures course { hub.new.course ≡ on.Open }
    ensures settings { hub.new.coordinator.settings ≡ hub.old.coordinator.settings }
{
    let wire = wire(alloc, came)?;
    hub.admit(wire).ok()
}

/// What two turns answer, and whether they wrote nothing; none where the first one cannot write.
type Turns = Option<(HubTurn, HubTurn, bool)>;

fn both_turns(hub: &mut Hub<PipeWire>, names: &Catalog, out: &mut VecSink) -> Turns
    requires course { hub.old.course ≡ on.Open }
    requires named { hub.old.coordinator.settings.objects ≤ length names.now }
{
    let first = hub.turn(names, out);
    if first == HubTurn::WriteFailed {
        return None;
    }
    Some((first, hub.turn(names, out), out.written().is_empty()))
}

/// The same with names and a sink of their own.
fn two_turns(hub: &mut Hub<PipeWire>, alloc: Global) -> Turns
    requires course { hub.old.course ≡ on.Open }
    requires objects { hub.old.coordinator.settings.objects ≤ 2 }
{
    let mut out = VecSink::new(alloc, 64, Vec::new(alloc)).ok()?;
    let names = Catalog::read(alloc, b"a\nb\n").ok()?;
    let turns = if names.len() < 2 {
        None
    } else {
        both_turns(hub, &names, &mut out)
    };
    drop(names);
    drop(out);
    turns
}

/// Lets one connection in, and answers what two turns do over it.
fn over_one(hub: &mut Hub<PipeWire>, alloc: Global, came: Connection<'_>) -> Turns
    requires course { hub.old.course ≡ on.Open }
    requires objects { hub.old.coordinator.settings.objects ≤ 2 }
{
    let_in(hub, alloc, came)?;
    two_turns(hub, alloc)
}

/// How many bytes the only wire took.
fn taken(wires: &[PipeWire]) -> Option<u64> {
    match wires {
        [wire] => Some(wire.taken()),
        _ => None,
    }
}

/// What a hub does not take: a Hello of a run, a version and a monitor, the kind of a payload, or anything else.
#[derive(Clone, Copy, PartialEq)]
enum Odd {
    Hello(u64, u8, Mon),
    Kind(u8),
    Else,
}

fn odd_of(received: &Received) -> Odd {
    match received {
        Received::Frame(Frame::Hello { run, version, mon }) => Odd::Hello(*run, *version, *mon),
        Received::Bytes(bytes) => match bytes.as_slice() {
            [kind] => Odd::Kind(*kind),
            _ => Odd::Else,
        },
        _ => Odd::Else,
    }
}

/// What was not taken, and of which monitor.
type Left = Option<(Mon, Odd)>;

/// What a hub leaves that it did not take, and how many bytes its only wire took. Hubs end here alone, since each place
/// that drops one is dear to prove.
fn left_by(hub: Hub<PipeWire>) -> (Left, Option<u64>) {
    let (end, wires) = hub.into_end();
    let taken = taken(&wires);
    drop(wires);
    let left = match &end.odd {
        Some((mon, received)) => Some((*mon, odd_of(received))),
        None => None,
    };
    drop(end);
    (left, taken)
}

/// What two turns of a hub answer and whether they write nothing, how many were strangers, how many bytes the only wire
/// that was admitted took, and what was not taken.
type Played = (Turns, u64, Option<u64>, Left);

/// These of a hub to which one connection comes, and which then ends.
fn last_played(hub: Hub<PipeWire>, alloc: Global, came: Connection<'_>) -> Played
    requires course { hub.course ≡ on.Open }
    requires objects { hub.coordinator.settings.objects ≤ 2 }
{
    let mut hub = hub;
    let turns = over_one(&mut hub, alloc, came);
    let strangers = hub.strangers();
    hub.halt();
    let (left, taken) = left_by(hub);
    (turns, strangers, taken, left)
}

/// The same of a new hub.
fn played(alloc: Global, came: Connection<'_>) -> Option<Played> {
    match hub(alloc) {
        Some(hub) => Some(last_played(hub, alloc, came)),
        None => None,
    }
}

/// Bytes that come and whether their connection ends behind them, what both turns answer, how many are strangers, how
/// many bytes the only wire took, and what is not taken.
type Case<'a> = (&'a [u8], bool, HubTurn, u64, Option<u64>, Left);

fn holds(alloc: Global, case: Case<'_>) -> bool {
    let (bytes, has_ended, turn, strangers, taken, left) = case;
    let connection = Connection {
        has_ended,
        ..came(bytes)
    };
    let turns = Some((turn, turn, true));
    played(alloc, connection) == Some((turns, strangers, taken, left))
}

/// The first case that does not hold, up to their number.
fn first_wrong(alloc: Global, cases: &[Case<'_>]) -> usize {
    for i in 0..cases.len() {
        if !holds(alloc, cases[i]) {
            return i;
        }
    }
    cases.len()
}

#[test]
fn strangers_are_closed_and_counted(rt: HostRuntime) {
    static CASES: [Case<'static>; 4] = [
        (&LONG, false, HubTurn::Quiet, 1, None, None),
        (&HELLO_OF_3, false, HubTurn::Quiet, 1, None, None),
        (&HELLO_IN_3, false, HubTurn::Quiet, 1, None, None),
        (&HELLO_TO_6, false, HubTurn::Quiet, 1, None, None),
    ];
    assert!(rt; first_wrong(rt.alloc(), &CASES) == 4);
}

#[test]
fn what_is_wrong_behind_a_hello_closes_the_hub_and_is_left(rt: HostRuntime) {
    const HELLO: HubTurn = HubTurn::Refused(Mon(2), CoordRefusal::NotForCoordinator(Kind::Hello));
    const BORDER: CoordRefusal = CoordRefusal::BadBorder {
        border: 1,
        least: 0,
    };
    const BAD: HubTurn = HubTurn::Bad(Mon(2), BadFrame::BadKind { kind: 9 });
    const SECOND: Left = Some((Mon(2), Odd::Hello(5, 1, Mon(2))));
    const KIND: Left = Some((Mon(2), Odd::Kind(9)));
    const REPORT: Left = Some((Mon(2), Odd::Else));
    static CASES: [Case<'static>; 4] = [
        (&TWICE, false, HELLO, 0, Some(36), SECOND),
        (&NO_KIND, false, BAD, 0, Some(23), KIND),
        (
            &BORDER_1,
            false,
            HubTurn::Refused(Mon(2), BORDER),
            0,
            Some(99),
            REPORT,
        ),
        (&CUT_OFF, true, HubTurn::Failed, 0, Some(28), None),
    ];
    assert!(rt; first_wrong(rt.alloc(), &CASES) == 4);
}

/// The Hello of monitor 2 over a slow wire, of which a call behind those that bring it fails.
fn failing(call: u64) -> Connection<'static>
    requires { call ≤ 20 }
{
    Connection {
        bytes: &TWICE[..18],
        fails: 18 + call,
        is_slow: true,
        has_ended: false,
    }
}

/// The first such call whose failure is not the answer of both turns, up to the call 21.
fn first_late(alloc: Global) -> u64 {
    let turns = Some((HubTurn::Failed, HubTurn::Failed, true));
    for call in 1..21 {
        if played(alloc, failing(call)) != Some((turns, 0, Some(18), None)) {
            return call;
        }
    }
    21
}

#[test]
fn a_failed_call_is_answered_at_every_turn(rt: HostRuntime) {
    assert!(rt; first_late(rt.alloc()) == 21);
}

/// How many are strangers once one more connection is greeted, and whether monitor 2 is there.
type Greeted = Option<(u64, bool)>;

fn greeted(hub: &mut Hub<PipeWire>, alloc: Global, bytes: &[u8]) -> Greeted
    requires { hub.old.course ≡ on.Open }
    ensures { hub.new.course ≡ on.Open }
{
    let_in(hub, alloc, came(bytes))?;
    hub.greet().ok()?;
    Some((hub.strangers(), hub.is_admitted(Mon(2))))
}

/// The same of a Hello to another run and of two Hellos of monitor 2, in a hub that then ends.
fn last_greeted(hub: Hub<PipeWire>, alloc: Global) -> (Greeted, Greeted, Greeted)
    requires { hub.course ≡ on.Open }
{
    let mut hub = hub;
    let other = greeted(&mut hub, alloc, &HELLO_TO_6);
    let first = greeted(&mut hub, alloc, &TWICE[..18]);
    let second = greeted(&mut hub, alloc, &TWICE[..18]);
    left_by(hub);
    (other, first, second)
}

/// The same of a new hub.
fn all_greeted(alloc: Global) -> Option<(Greeted, Greeted, Greeted)> {
    match hub(alloc) {
        Some(hub) => Some(last_greeted(hub, alloc)),
        None => None,
    }
}

#[test]
fn a_monitor_is_admitted_once(rt: HostRuntime) {
    let wanted = (Some((1, false)), Some((1, true)), Some((2, true)));
    assert!(rt; all_greeted(rt.alloc()) == Some(wanted));
}
