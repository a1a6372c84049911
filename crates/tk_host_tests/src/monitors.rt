//! Monitors of which each byte is written out, over links in memory.

ghost use Rattle.std.specs.Prelude.{◌<◌, ◌≤◌, length};

use std::alloc::Global;
use std::thread;
use tk_base::Mon;
use tk_net::{DialedLink, MemDialer, MemLink};
use tk_wire::{Beginning, Dialed, Dialer, Gave, Greeting, Took, Wire};

/// The link of a monitor.
pub type Line = DialedLink<MemLink>;

/// How often a monitor looks for what comes.
const LOOKS: u32 = 1_000_000;

/// The Hello of monitor 1 of run 5 with the objects a, b, in version 1.
const HELLO_1: [u8; 18] = [
    0, 0, 0, 14, 1, 0xa9, 0xb3, 0x07, 0x9e, 0x17, 0xe9, 0xd8, 0x0d, 1, 0, 0, 0, 1,
];

/// That of monitor 2.
const HELLO_2: [u8; 18] = [
    0, 0, 0, 14, 1, 0xa9, 0xb3, 0x07, 0x9e, 0x17, 0xe9, 0xd8, 0x0d, 1, 0, 0, 0, 2,
];

/// Settled under Assign 1, at the end of the log, which is place 2.
const SETTLED_1: [u8; 22] = [
    0, 0, 0, 18, 6, 0, 0, 0, 0, 0, 0, 0, 1, 1, 0, 0, 0, 1, 0, 0, 0, 2,
];

/// The same under Assign 2.
const SETTLED_2: [u8; 22] = [
    0, 0, 0, 18, 6, 0, 0, 0, 0, 0, 0, 0, 2, 1, 0, 0, 0, 1, 0, 0, 0, 2,
];

/// Report under Assign 1, with border 0: b has failed; a is at 0, and b at 3.
const REPORT: [u8; 81] = [
    0, 0, 0, 77, 2, 0, 0, 0, 0, 0, 0, 0, 1, //
    0, 0, 0, 0, 0, 0, 0, 0, 0, 0, 0, 0, 0, 0, 0, 0, //
    0, 0, 0, 1, 0, 0, 0, 2, 0, 0, 0, 2, //
    0, 0, 0, 1, 0, 0, 0, 0, 0, 0, 0, 0, 0, 0, 0, 0, 0, 0, 0, 0, //
    0, 0, 0, 2, 0, 0, 0, 0, 0, 0, 0, 0, 0, 0, 0, 0, 0, 0, 0, 3,
];

/// Values of round 1 under Assign 1, with border 0: a is at 5, and b at 0.
const VALUES: [u8; 81] = [
    0, 0, 0, 77, 4, 0, 0, 0, 0, 0, 0, 0, 1, 0, 0, 0, 0, 0, 0, 0, 1, //
    0, 0, 0, 0, 0, 0, 0, 0, 0, 0, 0, 0, 0, 0, 0, 0, 0, 0, 0, 2, //
    0, 0, 0, 1, 0, 0, 0, 0, 0, 0, 0, 0, 0, 0, 0, 0, 0, 0, 0, 5, //
    0, 0, 0, 2, 0, 0, 0, 0, 0, 0, 0, 0, 0, 0, 0, 0, 0, 0, 0, 0,
];

/// Collect of round 1, from its kind on.
const COLLECT: [u8; 9] = [3, 0, 0, 0, 0, 0, 0, 0, 1];

/// Assign 2, from its kind on.
const ASSIGN_2: [u8; 9] = [5, 0, 0, 0, 0, 0, 0, 0, 2];

/// Stop.
const STOP: [u8; 5] = [0, 0, 0, 1, 7];

/// The run of both.
pub const RUN: u64 = 0xa9b3_079e_17e9_d80d;

/// A monitor dials and greets, with one stream that has given so many records and starts at this place.
fn greet(
    alloc: Global,
    dialer: &mut MemDialer,
    run: u64,
    mon: u32,
    beginning: Beginning,
) -> Option<Line>
    requires { (0 < mon) × (mon ≤ 64) }
{
    let mut beginnings = Vec::with_capacity(alloc, 1).ok()?;
    beginnings.push_reserved(beginning);
    let greeting = Greeting {
        run,
        mon: Mon(mon),
        beginnings,
    };
    let Ok(Some((mut link, rest, bell))) = dialer.dial() else {
        drop(greeting);
        return None;
    };
    drop(rest);
    drop(bell);
    let greeted = link.greet(&greeting);
    drop(greeting);
    if greeted.is_err() {
        drop(link);
        return None;
    }
    Some(link)
}

/// Says some bytes whole.
fn say(link: &mut Line, bytes: &[u8]) -> Option<()>
    requires { 0 < length bytes.now }
{
    match link.give(bytes) {
        Gave::Bytes(count) if count == bytes.len() => Some(()),
        _ => None,
    }
}

/// Whether some bytes stand in a text.
fn has(text: &[u8], bytes: &[u8]) -> bool {
    for i in 0..text.len() {
        if text[i..].starts_with(bytes) {
            return true;
        }
    }
    false
}

/// Takes what comes until it has these bytes.
fn hear(link: &mut Line, wanted: &[u8]) -> Option<()> {
    let mut heard = [0; 512];
    let mut count = 0;
    for _ in 0..LOOKS {
        if count >= heard.len() {
            return None;
        }
        match link.take(&mut heard[count..]) {
            Took::Bytes(more) => count += more,
            Took::NotYet => thread::yield_now(),
            Took::End => return None,
            Took::Failed => return None,
        }
        if has(&heard[..count], wanted) {
            return Some(());
        }
    }
    None
}

/// One who greets so, says a byte, and is not heard of any more.
pub fn knock(alloc: Global, dialer: &mut MemDialer, run: u64, mon: u32, beginning: Beginning)
    requires { (0 < mon) × (mon ≤ 64) }
{
    if let Some(mut link) = greet(alloc, dialer, run, mon, beginning) {
        say(&mut link, &HELLO_1);
        drop(link);
    }
}

/// Monitor 1, which is at the end of its log, a,5, and says no more.
pub fn settled(alloc: Global, dialer: &mut MemDialer) -> Option<Line> {
    let new = Beginning { count: 0, start: 0 };
    let mut one = greet(alloc, dialer, RUN, 1, new)?;
    say(&mut one, &HELLO_1);
    say(&mut one, &SETTLED_1);
    Some(one)
}

/// What the two monitors say and hear, until each has heard Stop.
fn talk(one: &mut Line, two: &mut Line) -> Option<()> {
    say(one, &HELLO_1)?;
    say(two, &HELLO_2)?;
    say(one, &SETTLED_1)?;
    say(two, &REPORT)?;
    hear(one, &COLLECT)?;
    say(one, &VALUES)?;
    hear(one, &ASSIGN_2)?;
    hear(two, &ASSIGN_2)?;
    say(one, &SETTLED_2)?;
    say(two, &SETTLED_2)?;
    hear(one, &STOP)?;
    hear(two, &STOP)
}

/// Whether two monitors, whose logs are a,5 and b,3, come to the end of a run.
pub fn play(alloc: Global, dialer: &mut MemDialer) -> bool {
    let new = Beginning { count: 0, start: 0 };
    let Some(mut one) = greet(alloc, dialer, RUN, 1, new) else {
        return false;
    };
    let Some(mut two) = greet(alloc, dialer, RUN, 2, new) else {
        drop(one);
        return false;
    };
    let is_done = talk(&mut one, &mut two).is_some();
    drop(one);
    drop(two);
    is_done
}
