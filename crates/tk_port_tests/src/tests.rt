//! Monitor 1 over a log of the objects a and b, at its end of a connection of run 5 over which these bytes come.

ghost use Rattle.std.specs.Prelude.{◌≡◌, ◌<◌, ◌≤◌, [], IfSome, length};
ghost use Rattle.tk_trail.specs.Setup.{IsSetup};
ghost use Rattle.tk_port.specs.declared.course.Course.TheVariants as on;

use std::alloc::Global;
use tk_base::{Feeder, Mon, Obj, Places, Settings};
use tk_frames::{BadFrame, Frame};
use tk_input::{Catalog, Logs, Part};
use tk_monitor::{Checked, Monitor, Raised};
use tk_port::{Port, Turn};
use tk_story::Received;
use tk_trail::MonitorRefusal;
use tk_wire::{Pipe, PipeWire, Pushed, Wire};

/// Assign 1 of member a, with the factor 2^112 + 1 of a.
const ASSIGN_PAST_LIMIT: [u8; 45] = [
    0, 0, 0, 41, 5, 0, 0, 0, 0, 0, 0, 0, 1, 0, 0, 0, 1, 0, 0, 0, 1, 0, 0, 0, 1, 0, 0, 0, 1, 0, 1,
    0, 0, 0, 0, 0, 0, 0, 0, 0, 0, 0, 0, 0, 1,
];

/// Assign 1 twice.
const TWICE: [u8; 50] = [
    0, 0, 0, 21, 5, 0, 0, 0, 0, 0, 0, 0, 1, 0, 0, 0, 1, 0, 0, 0, 1, 0, 0, 0, 0, 0, 0, 0, 21, 5, 0,
    0, 0, 0, 0, 0, 0, 1, 0, 0, 0, 1, 0, 0, 0, 1, 0, 0, 0, 0,
];

/// Assign 1, and a Collect of round 1 of object 3.
const ASKED_PAST: [u8; 46] = [
    0, 0, 0, 21, 5, 0, 0, 0, 0, 0, 0, 0, 1, 0, 0, 0, 1, 0, 0, 0, 1, 0, 0, 0, 0, 0, 0, 0, 17, 3, 0,
    0, 0, 0, 0, 0, 0, 1, 0, 0, 0, 1, 0, 0, 0, 3,
];

/// Assign 1, and Stop.
const STOPPED: [u8; 30] = [
    0, 0, 0, 21, 5, 0, 0, 0, 0, 0, 0, 0, 1, 0, 0, 0, 1, 0, 0, 0, 1, 0, 0, 0, 0, 0, 0, 0, 1, 7,
];

/// Assign 1, and two Collects of member a.
const THREE: [u8; 67] = [
    0, 0, 0, 21, 5, 0, 0, 0, 0, 0, 0, 0, 1, 0, 0, 0, 1, 0, 0, 0, 1, 0, 0, 0, 0, 0, 0, 0, 17, 3, 0,
    0, 0, 0, 0, 0, 0, 1, 0, 0, 0, 1, 0, 0, 0, 1, 0, 0, 0, 17, 3, 0, 0, 0, 0, 0, 0, 0, 1, 0, 0, 0,
    1, 0, 0, 0, 1,
];

/// Assign 1, and a payload of no kind.
const NO_KIND: [u8; 30] = [
    0, 0, 0, 21, 5, 0, 0, 0, 0, 0, 0, 0, 1, 0, 0, 0, 1, 0, 0, 0, 1, 0, 0, 0, 0, 0, 0, 0, 1, 9,
];

/// Logs of the objects a and b, with one part of these records.
fn logs_of(alloc: Global, records: &[u8]) -> Option<Logs> {
    let names = Catalog::read(alloc, b"a\nb\n").ok()?;
    let part = Part::read(alloc, records, &names);
    let objects = names.len() as u32;
    drop(names);
    let part = part.ok()?;
    let Ok(mut parts) = Vec::with_capacity(alloc, 1) else {
        return None;
    };
    parts.push_reserved((Mon(1), part));
    Logs::new(alloc, parts, objects).ok()
}

/// Monitor 1 over these records of the objects a and b.
fn monitor(alloc: Global, records: &[u8]) -> Option<Monitor>
    ensures { IfSome result (λ m. (IsSetup m.setup) × (m.setup.number ≡ 1) × (length m.setup.parts ≡ 1) × (m.trail ≡ [])) }
{
    let settings = Settings::new(1, 0, 1, 2, 1).ok()?;
    let logs = logs_of(alloc, records)?;
    if settings.objects() == 2
        && logs.objects() == 2
        && logs.monitors() == 1
        && logs.feeders(Mon(1)) == 1
    {
        let parts = logs.parts(alloc, Mon(1));
        drop(logs);
        let parts = parts.ok()?;
        let from = Places::new(vec![in alloc; 0].ok()?);
        Monitor::new(alloc, &settings, Mon(1), parts, &from).ok()
    } else {
        drop(logs);
        None
    }
}

/// A wire whose calls move so many bytes and of which one fails, if there is such a call.
fn wire(alloc: Global, piece: usize, call: u64) -> Option<PipeWire>
    requires { (0 < piece) × (piece ≤ 65536) }
    ensures { IfSome result (λ wire. (wire.traffic.came ≡ []) × (wire.traffic.went ≡ [])) }
{
    let fails = vec![in alloc; call].ok()?;
    PipeWire::new(alloc, 256, piece, fails).ok()
}

/// A port of run 5 in version 1 over such a wire: monitor 1 over these records of the objects a and b.
fn port(alloc: Global, records: &[u8], piece: usize, call: u64) -> Option<Port<PipeWire>>
    requires piece { (0 < piece) × (piece ≤ 65536) }
    ensures { IfSome result (λ port. (port.course ≡ on.Open) × (length port.monitor.setup.parts ≡ 1)) }
{
    let wire = wire(alloc, piece, call)?;
    match monitor(alloc, records) {
        Some(monitor) => Port::new(alloc, wire, monitor, 5, 1).ok(),
        None => {
            drop(wire);
            None
        }
    }
}

/// Puts bytes on their way to the port, as far as its wire lets them in.
fn send(port: &mut Port<PipeWire>, pipe: &mut Pipe, bytes: &[u8])
    ensures course { port.new.course ≡ port.old.course }
    ensures monitor { port.new.monitor ≡ port.old.monitor }
{
    pipe.put(bytes);
    for _ in 0..bytes.len() {
        port.fill(pipe);
    }
}

/// What a turn answers, and how many entries the trail then has.
type Turned = (Turn, usize);

fn turned(port: &mut Port<PipeWire>) -> Turned
    requires { port.old.course ≡ on.Halted → ⊥ }
    ensures { port.new.course ≡ on.Halted → ⊥ }
{
    (port.turn(), port.monitor().trail().len())
}

/// What a port does not take: Stop, the kind of a payload or a length that no frame has, or anything else.
#[derive(Clone, Copy, PartialEq)]
enum Odd {
    Stop,
    Kind(u8),
    Length([u8; 4]),
    Else,
}

fn odd_of(received: Option<&Received>) -> Odd {
    match received {
        Some(Received::Frame(Frame::Stop)) => Odd::Stop,
        Some(Received::Bytes(bytes)) => match bytes.as_slice() {
            [kind] => Odd::Kind(*kind),
            [a, b, c, d] => Odd::Length([*a, *b, *c, *d]),
            _ => Odd::Else,
        },
        _ => Odd::Else,
    }
}

/// What a port leaves that it did not take, and how many bytes its wire took. Ports end here alone, since each place that
/// drops one is dear to prove.
fn left_by(port: Port<PipeWire>) -> (Odd, u64) {
    let (end, wire) = port.into_end();
    let left = (odd_of(end.odd.as_ref()), wire.taken());
    drop(wire);
    drop(end);
    left
}

/// What is seen of a port: what three turns answered, whether the wire is shut, what was not taken, and how many bytes the
/// wire took.
#[derive(Clone, Copy)]
struct Seen {
    turns: [Turned; 3],
    is_shut: bool,
    odd: Odd,
    taken: u64,
}

/// The same of a port to which these bytes come, and which then ends.
fn last_seen(port: Port<PipeWire>, pipe: &mut Pipe, bytes: &[u8]) -> Seen
    requires { port.course ≡ on.Open }
{
    let mut port = port;
    send(&mut port, pipe, bytes);
    let turns = [turned(&mut port), turned(&mut port), turned(&mut port)];
    let is_shut = port.halted();
    let (odd, taken) = left_by(port);
    Seen {
        turns,
        is_shut,
        odd,
        taken,
    }
}

/// The same over a wire whose calls move so many bytes and of which one fails.
fn played(alloc: Global, bytes: &[u8], piece: usize, call: u64) -> Option<Seen>
    requires { (0 < piece) × (piece ≤ 65536) }
{
    let mut pipe = Pipe::new(alloc, 256).ok()?;
    match port(alloc, b"a,5\n", piece, call) {
        Some(port) => Some(last_seen(port, &mut pipe, bytes)),
        None => None,
    }
}

/// What three turns answer, once these bytes came in such pieces.
fn turns(alloc: Global, bytes: &[u8], piece: usize) -> Option<[Turned; 3]>
    requires { (0 < piece) × (piece ≤ 65536) }
{
    let seen = played(alloc, bytes, piece, 0)?;
    Some(seen.turns)
}

/// Bytes that a port does not take: what it answers at each turn, behind how many entries, what is left of them at its
/// end, and how many its wire took.
type Case<'a> = (&'a [u8], Turn, usize, Odd, u64);

fn holds(alloc: Global, case: Case<'_>) -> bool {
    let (bytes, turn, entries, odd, taken) = case;
    match played(alloc, bytes, 64, 0) {
        Some(seen) => {
            seen.turns == [(turn, entries); 3] && seen.odd == odd && seen.taken == taken
        }
        None => false,
    }
}

/// The first case that does not hold, up to their number.
fn first_wrong(alloc: Global, cases: &[Case<'_>]) -> usize {
    for i in 0..cases.len() {
        if !holds(alloc, cases[i]) {
            return i;
        }
    }
    cases.len()
}

#[test]
fn what_a_port_does_not_take_closes_it_and_is_left(rt: HostRuntime) {
    const AGAIN: MonitorRefusal = MonitorRefusal::WrongSequence { has: 1, got: 1 };
    const CHANGE: MonitorRefusal = MonitorRefusal::BadChange(Obj(1));
    const LENGTH: BadFrame = BadFrame::BadLength { length: 0 };
    const KIND: BadFrame = BadFrame::BadKind { kind: 9 };
    static CASES: [Case<'static>; 6] = [
        (&TWICE, Turn::Refused(AGAIN), 2, Odd::Else, 50),
        (&ASSIGN_PAST_LIMIT, Turn::Refused(CHANGE), 0, Odd::Else, 45),
        (
            &ASKED_PAST,
            Turn::Refused(MonitorRefusal::BadCollect),
            2,
            Odd::Else,
            46,
        ),
        (
            &STOPPED,
            Turn::Refused(MonitorRefusal::EarlyStop),
            2,
            Odd::Stop,
            30,
        ),
        (
            &[0, 0, 0, 0, 7],
            Turn::Bad(LENGTH),
            0,
            Odd::Length([0; 4]),
            5,
        ),
        (&NO_KIND, Turn::Bad(KIND), 2, Odd::Kind(9), 30),
    ];
    assert!(rt; first_wrong(rt.alloc(), &CASES) == 6);
}

/// What three turns answer where this call of the wire fails, and whether the wire is shut. The first gives 18 bytes and
/// takes once, each other takes once.
fn failing(alloc: Global, call: u64) -> Option<([Turned; 3], bool)> {
    let seen = played(alloc, b"", 1, call)?;
    let turns = seen.turns;
    Some((turns, seen.is_shut))
}

/// The first call of the wire whose failure is not the answer of all three turns, up to the call 20.
fn first_late(alloc: Global) -> u64 {
    let failed = Some(([(Turn::Failed, 0); 3], true));
    for call in 1..20 {
        if failing(alloc, call) != failed {
            return call;
        }
    }
    20
}

#[test]
fn a_failed_call_is_answered_at_every_turn(rt: HostRuntime) {
    let late = [(Turn::Quiet, 0), (Turn::Failed, 0), (Turn::Failed, 0)];
    assert!(rt; first_late(rt.alloc()) == 20);
    assert!(rt; failing(rt.alloc(), 20) == Some((late, true)));
}

#[test]
fn a_turn_takes_64_pieces(rt: HostRuntime) {
    let (more, quiet) = ((Turn::More, 4), (Turn::Quiet, 6));
    assert!(rt; turns(rt.alloc(), &THREE, 1) == Some([more, quiet, quiet]));
    assert!(rt; turns(rt.alloc(), &THREE, 64) == Some([quiet; 3]));
}

/// What a check, a push, a turn of one frame and, once the port is halted, two raises answer.
type Answers = (Checked, Pushed, Option<Turn>, Raised, Raised);

fn by_hand(port: &mut Port<PipeWire>) -> Option<Answers>
    requires course { port.old.course ≡ on.Open }
    requires feeder { length port.old.monitor.setup.parts ≡ 1 }
{
    let checked = port.check().ok()?;
    let pushed = port.push().ok()?;
    let taken = if port.monitor().stopped() {
        None
    } else {
        Some(port.take_one())
    };
    port.halt();
    let first = port.raise(Feeder(1));
    Some((checked, pushed, taken, first, port.raise(Feeder(1))))
}

/// These answers of a port to which two Assigns come, and how many entries its trail has at its end.
fn last_raised(port: Port<PipeWire>, pipe: &mut Pipe) -> (Option<Answers>, usize)
    requires course { port.course ≡ on.Open }
    requires feeder { length port.monitor.setup.parts ≡ 1 }
{
    let mut port = port;
    send(&mut port, pipe, &TWICE);
    let answers = by_hand(&mut port);
    let entries = port.monitor().trail().len();
    left_by(port);
    (answers, entries)
}

/// The same of a new port.
fn raised(alloc: Global) -> Option<(Option<Answers>, usize)> {
    let mut pipe = Pipe::new(alloc, 256).ok()?;
    match port(alloc, b"b,5\n", 64, 0) {
        Some(port) => Some(last_raised(port, &mut pipe)),
        None => None,
    }
}

#[test]
fn a_raise_is_counted_whatever_the_wire_does(rt: HostRuntime) {
    const ANSWERS: Answers = (
        Checked::Nothing,
        Pushed::Empty,
        Some(Turn::More),
        Raised::Done { broken: true },
        Raised::Ended,
    );
    assert!(rt; raised(rt.alloc()) == Some((Some(ANSWERS), 3)));
}
