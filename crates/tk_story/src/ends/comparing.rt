// What was received on a link beside what was sent there.
ghost use Rattle.std.specs.Prelude.{length, ◌≡◌, ◌↔◌, IsTrue, IfOk, IfErr, IsErr, OnOk, Some, slice_get};
ghost use Rattle.std.specs.Option.{option_copied, option_map};
ghost use Rattle.tk_frames.specs.declared.frame.Frame.{Frame};
ghost use Rattle.tk_journal.specs.Laws.{IsMonitor};
ghost use Rattle.tk_journal.specs.Links.{frames_to, got_from as got_from_entry};
ghost use Rattle.tk_trail.specs.Legal.{IsLegal};
ghost use Rattle.tk_trail.specs.Readings.{sent_by, taken_in as taken_in_entry};
ghost use Rattle.tk_story.specs.Comparing.{AreTrailsLegal, Finds, FindsBehind, IsDifference};
ghost use Rattle.tk_story.specs.Ends.{AreOrdered, TellsDifference, down_link, kept_by, odd_from as odd_of, up_link};
ghost use Rattle.tk_story.specs.declared.ends.difference.Direction.TheVariants.{UpLink, DownLink};
ghost use Rattle.tk_story.specs.declared.ends.received.Received.TheVariants as r;

use crate::ends::Ends;
use crate::ends::coord_end::CoordEnd;
use crate::ends::difference::{Difference, Direction};
use crate::ends::join_fault::JoinFault;
use crate::ends::mon_end::MonEnd;
use crate::ends::received::Received;
use crate::same::is_same_frame;
use tk_base::{Mon, NoMemory};
use tk_coord::Coordinator;
use tk_frames::Frame;
use tk_journal::Noted;
use tk_monitor::Monitor;
use tk_trail::Entry;

/// One of the two links of a monitor.
#[derive(Clone, Copy)]
struct Way {
    mon: Mon,
    direction: Direction,
}

fn is_sent(sent: Option<&Frame>, received: &Frame) -> bool
    ensures { IsTrue result ↔ (option_copied sent.entry ≡ Some received.now) }
{
    match sent {
        Some(sent) => is_same_frame(sent, received),
        None => false,
    }
}

fn is_odd_sent(sent: Option<&Frame>, odd: &Received) -> bool
    ensures { IsTrue result ↔ (option_map r.Frame (option_copied sent.entry) ≡ Some odd.now) }
{
    match odd {
        Received::Frame(frame) => is_sent(sent, frame),
        Received::Bytes(_) => false,
    }
}

fn clone_of(sent: Option<&Frame>) -> Result<Option<Frame>, NoMemory>
    ensures { IfOk result (λ frame. frame ≡ option_copied sent.entry) }
{
    match sent {
        Some(frame) => Ok(Some(frame.try_clone()?)),
        None => Ok(None),
    }
}

/// At this place of a link something else was received than what was sent.
fn differ(way: Way, place: usize, sent: Option<&Frame>, received: Received) -> Result<(), JoinFault>
    ensures never { IsErr result }
    ensures fault { IfErr result (IsDifference way.mon way.direction place (option_copied sent.entry) received) }
{
    let sent = clone_of(sent)?;
    let Way { mon, direction } = way;
    let place = place as u64;
    Err(JoinFault::Differs(Difference {
        mon,
        direction,
        place,
        sent,
        received,
    }))
}

/// What is odd is the last that was received.
fn check_odd(
    way: Way,
    place: usize,
    sent: Option<&Frame>,
    odd: Option<&Received>,
) -> Result<(), JoinFault>
    ensures { FindsBehind way.mon way.direction (option_copied odd.entry) place (option_copied sent.entry) result }
{
    match odd {
        None => Ok(()),
        Some(odd) => {
            if is_odd_sent(sent, odd) {
                Ok(())
            } else {
                differ(way, place, sent, odd.try_clone()?)
            }
        }
    }
}

/// The frame of a monitor that an entry of the journal takes.
fn got_from(noted: &Noted, mon: Mon) -> Option<&Frame>
    ensures { option_copied result ≡ got_from_entry mon.0 noted.now }
{
    match noted {
        Noted::Got(from, frame) => {
            if *from == mon {
                Some(frame.get())
            } else {
                None
            }
        }
        Noted::Sent(_, _) => None,
        Noted::Published(_) => None,
        Noted::Tuned(_, _) => None,
    }
}

/// The frame that an entry of a trail takes.
fn taken_in(entry: &Entry) -> Option<&Frame>
    ensures { option_copied result ≡ taken_in_entry entry.now }
{
    match entry {
        Entry::Raised(_) => None,
        Entry::Took(frame) => Some(frame.get()),
        Entry::Sent(_) => None,
    }
}

fn sent_up(monitor: &Monitor, place: usize) -> Option<&Frame>
    ensures { option_copied result ≡ slice_get (sent_by monitor.now.trail) place }
{
    if place < monitor.sent() {
        Some(monitor.sent_at(place))
    } else {
        None
    }
}

fn sent_down(coordinator: &Coordinator, mon: Mon, place: usize) -> Option<&Frame>
    requires { IsMonitor coordinator.now.settings mon.0 }
    ensures { option_copied result ≡ slice_get (frames_to mon.0 coordinator.now.journal) place }
{
    if place < coordinator.sent(mon) {
        Some(coordinator.sent_at(mon, place))
    } else {
        None
    }
}

fn odd_from(end: &CoordEnd, mon: Mon) -> Option<&Received>
    ensures { option_copied result ≡ odd_of mon.0 end.now.odd }
{
    match &end.odd {
        Some((from, received)) => { if *from == mon { Some(received) } else { None } }
        None => None,
    }
}

/// Looks at the link up from a monitor: at each entry of the journal once.
pub fn check_up(end: &CoordEnd, mon: Mon, monitor: &Monitor) -> Result<(), JoinFault>
    ensures { Finds mon UpLink (up_link mon.0 end.now.coordinator.journal end.now.odd monitor.now.trail) result }
{
    let way = Way {
        mon,
        direction: Direction::UpLink,
    };
    let mut place = 0;
    for noted in end.coordinator.journal() {
        if let Some(frame) = got_from(noted, mon) {
            let sent = sent_up(monitor, place);
            if !is_sent(sent, frame) {
                let received = Received::Frame(frame.try_clone()?);
                return differ(way, place, sent, received);
            }
            place += 1;
        }
    }
    check_odd(way, place, sent_up(monitor, place), odd_from(end, mon))
}

/// Looks at the link down to a monitor: at each entry of its trail once.
pub fn check_down(coordinator: &Coordinator, mon: Mon, end: &MonEnd) -> Result<(), JoinFault>
    requires { IsMonitor coordinator.now.settings mon.0 }
    ensures found { Finds mon DownLink (down_link mon.0 coordinator.now.journal end.now.monitor.trail end.now.odd) result }
    ensures legal { IsLegal end.now.monitor.setup end.now.monitor.trail }
{
    let way = Way {
        mon,
        direction: Direction::DownLink,
    };
    let mut place = 0;
    for entry in end.monitor.trail() {
        if let Some(frame) = taken_in(entry) {
            let sent = sent_down(coordinator, mon, place);
            if !is_sent(sent, frame) {
                let received = Received::Frame(frame.try_clone()?);
                return differ(way, place, sent, received);
            }
            place += 1;
        }
    }
    check_odd(
        way,
        place,
        sent_down(coordinator, mon, place),
        end.odd.as_ref(),
    )
}

/// Looks at all links: by monitor, and up before down. Costs the trails, and the journal once for each monitor.
pub fn check(ends: &Ends) -> Result<(), JoinFault>
    requires { length ends.now.monitors.items ≡ ends.now.coordinator.coordinator.settings.monitors }
    ensures ordered { OnOk result (AreOrdered (kept_by ends.now.coordinator ends.now.monitors.items)) }
    ensures legal { OnOk result (AreTrailsLegal ends.now.monitors.items) }
    ensures err { IfErr result (TellsDifference (kept_by ends.now.coordinator ends.now.monitors.items)) }
{
    let coordinator = &ends.coordinator.coordinator;
    for j in 0..coordinator.settings().monitors() {
        let mon = Mon(j + 1);
        let end = &ends.monitors[j as usize];
        check_up(&ends.coordinator, mon, &end.monitor)?;
        check_down(coordinator, mon, end)?;
    }
    Ok(())
}
