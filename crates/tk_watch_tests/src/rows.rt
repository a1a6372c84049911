//! A watch step by step: what comes of each, and where its stream stands then.

ghost use Rattle.std.specs.Prelude.{◌≡◌, ◌≤◌, IfSome, true};
ghost use Rattle.tk_monitor.specs.Monitored.{IsFeederOf};

use crate::far::Far;
use crate::watches::{Sample, names, new_watch};
use std::alloc::Global;
use std::test::Fail;
use tk_base::{Feeder, Obj};
use tk_input::Change;
use tk_stream::{MapSource, Records};
use tk_watch::{Ended, Given, Told, Turned, read_next};

/// The greatest value.
const GREATEST: i128 = 1_267_650_600_228_229_401_496_703_205_376;

/// Half of that.
const HALF: i128 = 633_825_300_114_114_700_748_351_602_688;

/// A record counts, and nothing is broken.
const DONE: Told = Told::Done {
    broken: false,
    fresh: false,
};

/// It counts behind a fresh base.
const FRESH: Told = Told::Done {
    broken: false,
    fresh: true,
};

/// It counts, and something is broken.
const BROKEN: Told = Told::Done {
    broken: true,
    fresh: false,
};

/// Report 1 with the border 0, the failed object b, and the values a 0 and b 3.
const REPORT: [u8; 81] = [
    0, 0, 0, 77, 2, 0, 0, 0, 0, 0, 0, 0, 1, 0, 0, 0, 0, 0, 0, 0, 0, 0, 0, 0, 0, 0, 0, 0, 0, 0, 0,
    0, 1, 0, 0, 0, 2, 0, 0, 0, 2, 0, 0, 0, 1, 0, 0, 0, 0, 0, 0, 0, 0, 0, 0, 0, 0, 0, 0, 0, 0, 0, 0,
    0, 2, 0, 0, 0, 0, 0, 0, 0, 0, 0, 0, 0, 0, 0, 0, 0, 3,
];

/// Settled under Assign 1, not the last, at place 0.
const SETTLED: [u8; 22] = [
    0, 0, 0, 18, 6, 0, 0, 0, 0, 0, 0, 0, 1, 0, 0, 0, 0, 1, 0, 0, 0, 0,
];

/// The last under Assign 1, at place 1.
const SETTLED_LAST: [u8; 22] = [
    0, 0, 0, 18, 6, 0, 0, 0, 0, 0, 0, 0, 1, 1, 0, 0, 0, 1, 0, 0, 0, 1,
];

/// Settled under Assign 1, not the last, with the places 2 and 0.
const SETTLED_AT_2_AND_0: [u8; 26] = [
    0, 0, 0, 22, 6, 0, 0, 0, 0, 0, 0, 0, 1, 0, 0, 0, 0, 2, 0, 0, 0, 2, 0, 0, 0, 0,
];

/// What is done with a watch.
#[derive(Clone, Copy)]
enum Step<'a> {
    /// The stream gives a record, and this comes of it.
    Tell(u32, i128, Told),
    /// It gives so many records a,1, and each counts.
    Many(u32),
    /// It ends.
    Close,
    /// A connection begins, and its greeting has these counts and starts.
    Begin(&'a [(u64, u32)]),
    /// Assign 1 of this member comes, and the monitor says that.
    Assign(u8, &'a [u8]),
    /// It is looked at, and says that.
    Turn(&'a [u8]),
    /// Stop comes, and is taken.
    Stop,
}

use Step::{Assign, Begin, Close, Many, Stop, Tell, Turn};

/// Count, place and length of a stream, and the values of a and b.
type At = (u64, u32, usize, i128, i128);

/// A step, its stream, and where that stands then.
type Line<'a> = (Step<'a>, u32, At);

/// Whether it has such a stream.
fn has_stream(watch: &Sample, stream: u32) -> bool
    ensures { result ≡ true → IsFeederOf watch.now.monitor.setup stream }
{
    1 <= stream && stream as usize <= watch.counts().len()
}

/// Whether it knows such an object.
fn has_object(watch: &Sample, obj: u32) -> bool
    ensures from_one { result ≡ true → 1 ≤ obj }
    ensures within { result ≡ true → obj ≤ watch.now.monitor.setup.objects }
{
    1 <= obj && obj <= watch.monitor().settings().objects()
}

/// Whether this comes of a record of a stream.
fn tells(watch: &mut Sample, stream: u32, obj: u32, by: i128, told: Told) -> bool {
    if !has_stream(watch, stream) || !has_object(watch, obj) {
        return false;
    }
    watch.tell(Feeder(stream), Change { obj: Obj(obj), by }) == told
}

/// Whether it counts so many records a,1 of a stream, none behind a fresh base.
fn counts_many(watch: &mut Sample, stream: u32, count: u32) -> bool {
    for _ in 0..count {
        if !tells(watch, stream, 1, 1, DONE) {
            return false;
        }
    }
    true
}

/// That a stream has ended.
fn ended(alloc: Global, stream: u32) -> Option<Ended>
    ensures { IfSome result (λ ended. ended.stream.0 ≡ stream) }
{
    let names = names(alloc)?;
    let empty = MapSource::new(Vec::new(alloc), 1, Vec::new(alloc));
    let Ok(mut records) = Records::new(alloc, empty, false) else {
        drop(names);
        return None;
    };
    let read = read_next(&mut records, Feeder(stream), &names, false);
    drop(names);
    drop(records);
    match read {
        Ok(Given::Nothing(ended)) => Some(ended),
        _ => None,
    }
}

/// Whether a stream that it has is closed.
fn closes(alloc: Global, watch: &mut Sample, stream: u32) -> bool {
    let Some(ended) = ended(alloc, stream) else {
        return false;
    };
    if !has_stream(watch, stream) {
        return false;
    }
    watch.close(ended);
    true
}

/// Where a stream stands, if it is one of the watch.
fn standing(watch: &Sample, stream: u32) -> Option<At> {
    if !has_stream(watch, stream) || !has_object(watch, 2) {
        return None;
    }
    let count = watch.counts().get((stream - 1) as usize)?;
    let monitor = watch.monitor();
    let (place, length) = (
        monitor.place(Feeder(stream)),
        monitor.length(Feeder(stream)),
    );
    Some((
        *count,
        place,
        length,
        monitor.value(Obj(1)),
        monitor.value(Obj(2)),
    ))
}

/// Whether Assign 1 of a member is answered so.
fn assigns(watch: &mut Sample, far: &mut Far, member: u8, said: &[u8]) -> bool {
    far.gives(&[
        0, 0, 0, 21, 5, 0, 0, 0, 0, 0, 0, 0, 1, 0, 0, 0, 1, 0, 0, 0, member, 0, 0, 0, 0,
    ]);
    watch.turn();
    far.hears(said)
}

/// Whether Stop is taken.
fn stops(watch: &mut Sample, far: &mut Far) -> bool {
    far.gives(&[0, 0, 0, 1, 7]);
    watch.turn() == Turned::Stopped
}

/// Whether it says this at a look.
fn turns(watch: &mut Sample, far: &mut Far, said: &[u8]) -> bool {
    watch.turn();
    far.hears(said)
}

/// Whether a step comes to what it says.
fn does(alloc: Global, watch: &mut Sample, far: &mut Far, step: Step<'_>, stream: u32) -> bool {
    match step {
        Tell(obj, by, told) => tells(watch, stream, obj, by, told),
        Many(count) => counts_many(watch, stream, count),
        Close => closes(alloc, watch, stream),
        Begin(beginnings) => far.begins(alloc, watch, beginnings),
        Assign(member, said) => assigns(watch, far, member, said),
        Turn(said) => turns(watch, far, said),
        Stop => stops(watch, far),
    }
}

/// How many lines come out as they say, in front of the first that does not.
fn front(alloc: Global, watch: &mut Sample, far: &mut Far, lines: &[Line<'_>]) -> usize {
    for i in 0..lines.len() {
        let (step, stream, at) = lines[i];
        if !does(alloc, watch, far, step, stream) {
            return i;
        }
        if standing(watch, stream) != Some(at) {
            return i;
        }
    }
    lines.len()
}

/// The same, by a new watch of one stream or of two.
fn right_lines(alloc: Global, streams: u32, lines: &[Line<'_>]) -> Option<usize>
    requires { (1 ≤ streams) × (streams ≤ 8) }
{
    let mut far = Far::new(alloc)?;
    let Some(mut watch) = new_watch(alloc, streams) else {
        drop(far);
        return None;
    };
    let count = front(alloc, &mut watch, &mut far, lines);
    drop(watch);
    drop(far);
    Some(count)
}

#[test]
fn a_record_that_breaks_is_reported(rt: HostRuntime) -> Result<(), Fail> {
    let lines = [
        (Begin(&[(0, 0)]), 1, (0, 0, 1, 0, 0)),
        (Assign(1, &SETTLED), 1, (0, 0, 1, 0, 0)),
        (Tell(2, 3, BROKEN), 1, (1, 1, 2, 0, 3)),
        (Turn(&REPORT), 1, (1, 1, 2, 0, 3)),
    ];
    assert_eq!(rt; right_lines(rt.alloc(), 1, &lines), Some(4));
    Ok(())
}

#[test]
fn a_closed_stream_settles_for_the_last_time(rt: HostRuntime) -> Result<(), Fail> {
    let lines = [
        (Begin(&[(0, 0)]), 1, (0, 0, 1, 0, 0)),
        (Assign(1, &SETTLED), 1, (0, 0, 1, 0, 0)),
        (Close, 1, (1, 1, 1, 0, 0)),
        (Turn(&SETTLED_LAST), 1, (1, 1, 1, 0, 0)),
        (Tell(2, 3, Told::Closed), 1, (1, 1, 1, 0, 0)),
        (Stop, 1, (1, 1, 1, 0, 0)),
    ];
    assert_eq!(rt; right_lines(rt.alloc(), 1, &lines), Some(6));
    Ok(())
}

#[test]
fn a_connection_begins_behind_the_values(rt: HostRuntime) -> Result<(), Fail> {
    let lines = [
        (Tell(1, 5, DONE), 1, (1, 1, 2, 5, 0)),
        (Tell(2, 3, DONE), 1, (2, 2, 3, 5, 3)),
        (Tell(1, -5, DONE), 1, (3, 3, 4, 0, 3)),
        (Begin(&[(3, 1)]), 1, (3, 1, 2, 0, 3)),
        (Tell(2, 1, DONE), 1, (4, 2, 3, 0, 4)),
        (Close, 1, (5, 3, 3, 0, 4)),
        (Begin(&[(5, 1)]), 1, (5, 1, 1, 0, 4)),
        (Assign(2, &SETTLED_LAST), 1, (5, 1, 1, 0, 4)),
    ];
    assert_eq!(rt; right_lines(rt.alloc(), 1, &lines), Some(8));
    Ok(())
}

#[test]
fn what_two_streams_gave_stands_in_front_of_the_first(rt: HostRuntime) -> Result<(), Fail> {
    let lines = [
        (Tell(1, 1, DONE), 2, (1, 1, 2, 1, 0)),
        (Tell(2, 1, DONE), 2, (2, 2, 3, 1, 1)),
        (Begin(&[(0, 2), (2, 0)]), 1, (0, 2, 3, 1, 1)),
        (Assign(1, &SETTLED_AT_2_AND_0), 2, (2, 0, 1, 1, 1)),
    ];
    assert_eq!(rt; right_lines(rt.alloc(), 2, &lines), Some(4));
    Ok(())
}

#[test]
fn a_full_part_begins_anew(rt: HostRuntime) -> Result<(), Fail> {
    let lines = [
        (Begin(&[(0, 0)]), 1, (0, 0, 1, 0, 0)),
        (Many(999_999), 1, (999_999, 999_999, 1_000_000, 999_999, 0)),
        (Tell(1, 1, FRESH), 1, (1_000_000, 2, 3, 1_000_000, 0)),
    ];
    assert_eq!(rt; right_lines(rt.alloc(), 1, &lines), Some(3));
    Ok(())
}

#[test]
fn values_at_the_limit_take_no_more(rt: HostRuntime) -> Result<(), Fail> {
    let lines = [
        (Tell(1, GREATEST, DONE), 1, (1, 1, 2, GREATEST, 0)),
        (Tell(1, -1, Told::TooGreat), 1, (1, 1, 2, GREATEST, 0)),
        (Tell(2, 1, Told::TooGreat), 1, (1, 1, 2, GREATEST, 0)),
    ];
    assert_eq!(rt; right_lines(rt.alloc(), 1, &lines), Some(3));
    Ok(())
}

#[test]
fn changes_that_cancel_make_room(rt: HostRuntime) -> Result<(), Fail> {
    let lines = [
        (Tell(1, HALF, DONE), 1, (1, 1, 2, HALF, 0)),
        (Tell(1, -HALF, DONE), 1, (2, 2, 3, 0, 0)),
        (Tell(1, 1, FRESH), 1, (3, 1, 2, 1, 0)),
    ];
    assert_eq!(rt; right_lines(rt.alloc(), 1, &lines), Some(3));
    Ok(())
}
