//! Windows over two streams of the objects a and b, step by step: what the values are behind each.

ghost use Rattle.std.specs.Prelude.{◌≡◌, ◌≤◌};
ghost use Rattle.tk_watch.specs.Fresh.{IsUncounted};
ghost use Rattle.tk_watch.specs.Watch.{named_of};

use crate::watches::{Sample, new_watch};
use std::alloc::Global;
use std::marker::Brand;
use std::test::Fail;
use std::time::Instant;
use tk_base::{Feeder, NoMemory, Obj};
use tk_input::Change;
use tk_net::{DialedLink, MemBell, MemLink};
use tk_watch::{Told, WatchName, Watched, Window};

/// The window: two ticks, which no clock ends.
const WINDOW: Window = Window {
    width: 2,
    tick: None,
};

/// What a stream does.
#[derive(Clone, Copy)]
enum Step {
    /// It gives a record.
    Tell(u32, i128),
    /// Its tick ends.
    Tick,
}

use Step::{Tell, Tick};

/// The counts of both streams, and the values of a and b.
type At = (u64, u64, i128, i128);

/// The stream, what it does, and then the counts of both streams and the values of a and b.
const LINES: [(u32, Step, At); 14] = [
    (1, Tell(1, 5), (1, 0, 5, 0)),
    (1, Tell(2, 3), (2, 0, 5, 3)),
    (2, Tell(2, 4), (2, 1, 5, 7)),
    (1, Tick, (2, 1, 5, 7)),
    (1, Tell(1, 1), (3, 1, 6, 7)),
    (1, Tick, (3, 1, 6, 7)),
    // Its first tick is taken back, a 5 and b 3; the other stream's runs on.
    (1, Tick, (5, 1, 1, 4)),
    (2, Tick, (5, 1, 1, 4)),
    // Then its second, a 1; then one that had nothing.
    (1, Tick, (6, 1, 0, 4)),
    (1, Tick, (6, 1, 0, 4)),
    (2, Tell(1, -2), (6, 2, -2, 4)),
    (2, Tick, (6, 2, -2, 4)),
    // The other stream's b 4, and at last its a -2.
    (2, Tick, (6, 3, -2, 0)),
    (2, Tick, (6, 4, 0, 0)),
];

/// A watch of two streams, with windows.
type Windowed<N> = Watched<DialedLink<MemLink>, MemBell, N>;

/// Whether a record of the stream counts.
fn tells<N: WatchName>(watched: &mut Windowed<N>, f: Feeder, obj: u32, by: i128) -> bool
    requires objects { N.named.objects ≡ 2 }
    requires from_one { 1 ≤ f.0 }
    requires stream { f.0 ≤ N.named.streams }
{
    if obj < 1 || 2 < obj {
        return false;
    }
    let change = Change { obj: Obj(obj), by };
    let done = Told::Done {
        broken: false,
        fresh: false,
    };
    watched.tell(f, change) == done
}

/// Whether the stream can do it, and it counts.
fn does<N: WatchName>(watched: &mut Windowed<N>, stream: u32, step: Step) -> bool
    requires objects { N.named.objects ≡ 2 }
    requires streams { N.named.streams ≡ 2 }
{
    if stream < 1 || 2 < stream {
        return false;
    }
    match step {
        Tell(obj, by) => tells(watched, Feeder(stream), obj, by),
        Tick => watched.end_tick(Feeder(stream)).is_ok(),
    }
}

/// Where it stands.
fn standing<N: WatchName>(watched: &Windowed<N>) -> Option<At>
    requires { N.named.objects ≡ 2 }
{
    let &[one, two] = watched.watch.counts() else {
        return None;
    };
    let monitor = watched.watch.monitor();
    Some((one, two, monitor.value(Obj(1)), monitor.value(Obj(2))))
}

/// How many lines come out as they say, in front of the first that does not.
fn front<N: WatchName>(watched: &mut Windowed<N>) -> usize
    requires objects { N.named.objects ≡ 2 }
    requires streams { N.named.streams ≡ 2 }
{
    for i in 0..LINES.len() {
        let (stream, step, at) = LINES[i];
        if !does(watched, stream, step) {
            return i;
        }
        if standing(watched) != Some(at) {
            return i;
        }
    }
    LINES.len()
}

/// The same, by a watch of this name that was told nothing.
fn front_as<N: WatchName>(alloc: Global, watch: Sample, now: Instant) -> Option<usize>
    requires named { named_of watch ≡ N.named }
    requires uncounted { IsUncounted watch }
    requires objects { N.named.objects ≡ 2 }
    requires streams { N.named.streams ≡ 2 }
{
    let made: Result<Windowed<N>, NoMemory> = Watched::new(alloc, watch, Some(WINDOW), now);
    let Ok(mut watched) = made else {
        return None;
    };
    let count = front(&mut watched);
    drop(watched);
    Some(count)
}

/// The same, by a watch of two streams.
fn right_lines(alloc: Global, now: Instant) -> Option<usize> {
    let watch = new_watch(alloc, 2)?;
    front_as::<Brand>(alloc, watch, now)
}

#[test]
fn values_are_the_sums_of_the_last_ticks(rt: HostRuntime) -> Result<(), Fail> {
    let now = Instant::now(&rt);
    let lines = match now {
        Ok(now) => right_lines(rt.alloc(), now),
        Err(_) => None,
    };
    assert_eq!(rt; lines, Some(LINES.len()));
    Ok(())
}
