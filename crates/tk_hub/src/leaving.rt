//! What is left at the seats of a hub that is done with.

ghost use Rattle.std.specs.Prelude.{◌≡◌, ◌≤◌, [], true, length, vec_capacity};
ghost use Rattle.tk_hub.specs.End.{AreCounted, AreShut, IsOddBytes, IsOddFrame, LeavesOdd, wires_of};
ghost use Rattle.tk_hub.specs.Leaving.{IsStanding, LeavesAt, StandsAt};
ghost use Rattle.tk_hub.specs.Turn.{IsBadAt};

use crate::course::Course;
use tk_base::Mon;
use tk_end::Link;
use tk_frames::BadFrame;
use tk_story::{Bytes, Received};
use tk_wire::Wire;

/// The frame at the front of the link of a monitor, and its wire.
fn left_refused<W: Wire>(link: Link<W>, mon: Mon) -> (Option<(Mon, Received)>, W)
    ensures odd { IsOddFrame mon link result.0 }
    ensures wire { result.1 ≡ link.wire }
    ensures counted { W.counts result.1 ≡ link.counts }
    ensures shut { link.shut ≡ true → W.is_shut result.1 ≡ true }
{
    let (wire, frame) = link.into_frame();
    (frame.map(|frame| (mon, Received::Frame(frame))), wire)
}

/// The bytes at the front of the link of a monitor, which are no frame, and its wire.
fn left_bad<W: Wire>(link: Link<W>, mon: Mon, fault: BadFrame) -> (Option<(Mon, Received)>, W)
    requires { IsBadAt fault link }
    ensures odd { IsOddBytes mon fault link result.0 }
    ensures wire { result.1 ≡ link.wire }
    ensures counted { W.counts result.1 ≡ link.counts }
    ensures shut { link.shut ≡ true → W.is_shut result.1 ≡ true }
{
    let (wire, bytes) = link.into_odd(fault);
    (Some((mon, Received::Bytes(Bytes::new(bytes)))), wire)
}

/// The end of the link of a monitor: what came next and was not taken, and the wire.
fn left<W: Wire>(link: Link<W>, mon: Mon, course: Course) -> (Option<(Mon, Received)>, W)
    requires { StandsAt mon course link }
    ensures odd { LeavesAt mon course link result.0 }
    ensures wire { result.1 ≡ link.wire }
    ensures counted { W.counts result.1 ≡ link.counts }
    ensures shut { link.shut ≡ true → W.is_shut result.1 ≡ true }
{
    match course {
        Course::Refused(from, _) if from == mon => left_refused(link, mon),
        Course::Bad(from, fault) if from == mon => left_bad(link, mon, fault),
        Course::Refused(..) => (None, link.into_wire()),
        Course::Bad(..) => (None, link.into_wire()),
        Course::Open => (None, link.into_wire()),
        Course::Halted => (None, link.into_wire()),
        Course::Failed => (None, link.into_wire()),
        Course::WriteFailed => (None, link.into_wire()),
    }
}

/// What came next of some monitor and was not taken, and the wires of the links, in the room that was given.
pub fn leave<W: Wire + Drop>(
    links: Vec<Option<Link<W>>>,
    course: Course,
    room: Vec<W>,
) -> (Option<(Mon, Received)>, Vec<W>)
    requires standing { IsStanding course links.items }
    requires few { length links.items ≤ 64 }
    requires empty { room.items ≡ [] }
    requires room { 64 ≤ vec_capacity room }
    ensures odd { LeavesOdd course links.items result.0 }
    ensures wires { result.1.items ≡ wires_of links.items }
    ensures counted { AreCounted W.counts links.items }
    ensures shut { AreShut W.is_shut links.items }
{
    let mut wires = room;
    let mut odd = None;
    let mut mon = 0;
    for seat in links {
        mon += 1;
        if let Some(link) = seat {
            let (next, wire) = left(link, Mon(mon), course);
            odd = odd.or(next);
            wires.push_reserved(wire);
        }
    }
    (odd, wires)
}
