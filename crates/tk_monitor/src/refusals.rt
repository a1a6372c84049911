// Which refusal a frame meets, as a function of what a monitor shows.
ghost use Rattle.std.specs.Prelude.{◌≡◌, ℕ, ℤ, List, find, option_map};
ghost use Rattle.tk_trail.specs.Refusal.{are_some_of as are_some, is_bad_change, is_collect, refusal_of_assign, refusal_over};
ghost use Rattle.tk_monitor.specs.Refusals.{shown_in, refused};

use tk_base::{Obj, ObjSet, Pairs};
use tk_border::holds;
use tk_frames::Frame;
use tk_trail::MonitorRefusal;

const MAX_MEMBERS: usize = 1_024;

const MAX_FACTOR: u128 = 5_192_296_858_534_827_628_530_496_329_220_096;

/// What the tests of a frame look at.
#[derive(Clone, Copy)]
pub(crate) struct Shown<'a> {
    pub objects: u32,
    pub seq: u64,
    pub members: &'a ObjSet,
    pub told: bool,
    pub stopped: bool,
}

pub(crate) fn refusal_of(shown: Shown, frame: &Frame) -> Option<MonitorRefusal>
    ensures { result ≡ refusal_over (shown_in shown.entry) frame.now }
{
    if shown.stopped {
        return Some(MonitorRefusal::AfterStop);
    }
    match frame {
        Frame::Assign {
            seq,
            members,
            changes,
        } => of_assign(shown, *seq, members, changes),
        Frame::Collect { round: _, objects } => of_collect(shown, objects),
        Frame::Stop => of_stop(shown.told),
        _ => Some(MonitorRefusal::NotForMonitor(frame.kind())),
    }
}

fn of_assign(shown: Shown, seq: u64, members: &ObjSet, changes: &Pairs) -> Option<MonitorRefusal>
    ensures { result ≡ refusal_of_assign (shown_in shown.entry) seq members.now changes.now }
{
    if seq == 0 || seq - 1 != shown.seq {
        return Some(MonitorRefusal::WrongSequence {
            has: shown.seq,
            got: seq,
        });
    }
    if !are_some_of(shown.objects, members) || members.len() > MAX_MEMBERS {
        return Some(MonitorRefusal::BadMembers);
    }
    match first_bad(shown.objects, changes) {
        None => None,
        Some(o) => Some(MonitorRefusal::BadChange(o)),
    }
}

fn of_collect(shown: Shown, asked: &ObjSet) -> Option<MonitorRefusal>
    ensures { result ≡ refused (is_collect (shown_in shown.entry) asked.now) MonitorRefusal.BadCollect }
{
    if shown.seq > 0 && are_some_of(shown.objects, asked) && holds(asked, shown.members) {
        return None;
    }
    Some(MonitorRefusal::BadCollect)
}

fn of_stop(told: bool) -> Option<MonitorRefusal>
    ensures { result ≡ refused told MonitorRefusal.EarlyStop }
{
    if told {
        return None;
    }
    Some(MonitorRefusal::EarlyStop)
}

/// Some objects, none of them past the catalogue: the last one tells, since they ascend.
fn are_some_of(objects: u32, list: &ObjSet) -> bool
    ensures { result ≡ are_some objects list.now }
{
    list.len() > 0 && list.at(list.len() - 1).0 <= objects
}

/// The first change whose object is past the catalogue or whose factor is past its limit.
fn first_bad(objects: u32, changes: &Pairs) -> Option<Obj>
    ensures { result ≡ option_map (λ c. record { 0 = c.0 }) (find (is_bad_change objects) changes.now) }
{
    for i in 0..changes.len() {
        let (o, factor) = changes.at(i);
        if is_bad(objects, o, factor) {
            return Some(o);
        }
    }
    None
}

fn is_bad(objects: u32, o: Obj, factor: i128) -> bool
    ensures { result ≡ is_bad_change objects (o.0, factor) }
{
    o.0 > objects || factor.unsigned_abs() > MAX_FACTOR
}
