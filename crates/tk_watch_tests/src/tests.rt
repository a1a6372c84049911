//! A monitor's process over a host in memory, which does with each connection what a list says.

ghost use Rattle.std.specs.Prelude.{◌≡◌, IfSome, false, length, true, []};

use crate::far::{accepted, listening};
use crate::watches::{names, new_watch};
use std::alloc::Global;
use std::marker::Send;
use std::sync::atomic::{AtomicBool, Ordering};
use std::sync::{Arc, Wait};
use std::test::Fail;
use std::thread;
use std::thread::Threads;
use std::time::Clock;
use tk_input::VecSink;
use tk_net::{MemDialer, MemHost, MemLink};
use tk_stream::{MapSource, ReadFailed, Records, Source};
use tk_watch::{Plan, Verdict, monitor};
use tk_wire::{Host, Took, Wire};

/// How often a host looks for what comes.
const LOOKS: u32 = 100_000;

/// Assign 1 of member a.
const ASSIGN: [u8; 25] = [
    0, 0, 0, 21, 5, 0, 0, 0, 0, 0, 0, 0, 1, 0, 0, 0, 1, 0, 0, 0, 1, 0, 0, 0, 0,
];

/// Settled under Assign 1 with all parts at their ends, from its kind on.
const SETTLED: [u8; 10] = [6, 0, 0, 0, 0, 0, 0, 0, 1, 1];

/// Stop.
const STOP: [u8; 5] = [0, 0, 0, 1, 7];

/// A payload of no kind.
const NO_KIND: [u8; 5] = [0, 0, 0, 1, 9];

/// What a host does with a connection.
#[derive(Clone, Copy)]
enum Deed {
    /// Gives these bytes, and waits until the monitor is gone.
    Give([u8; 5]),
    /// Ends it.
    End,
    /// Gives an Assign, and Stop once the monitor has settled at the ends.
    Serve,
}

/// A stream in memory that gives nothing before its gate is open.
#[derive(Drop)]
struct Gated {
    gate: Arc<AtomicBool, Global>,
    stream: MapSource,
}

impl Source for Gated {
    ghost tells = { false };

    ghost content = { λ s. [] };

    ghost fault_count = { λ s. s.stream.faults };

    fn faults(&self) -> u64 {
        self.stream.faults()
    }

    fn read(&mut self, room: &mut [u8]) -> Result<usize, ReadFailed> {
        for _ in 0..u64::MAX {
            if self.gate.load(Ordering::SeqCst) {
                break;
            }
            thread::yield_now();
        }
        self.stream.read(room)
    }
}

/// Whether some bytes stand in a text.
fn has(text: &[u8], bytes: &[u8]) -> bool {
    for i in 0..text.len() {
        if text[i..].starts_with(bytes) {
            return true;
        }
    }
    false
}

/// Takes what comes until it has these bytes. None where it ends before.
fn hear(link: &mut MemLink, wanted: &[u8]) -> Option<()> {
    let mut heard = [0; 256];
    let mut count = 0;
    for _ in 0..LOOKS {
        if count >= heard.len() {
            return None;
        }
        match link.take(&mut heard[count..]) {
            Took::Bytes(more) => count += more,
            Took::NotYet => thread::yield_now(),
            Took::End => return None,
            Took::Failed => return None,
        }
        if has(&heard[..count], wanted) {
            return Some(());
        }
    }
    None
}

/// Takes what comes until it ends.
fn hear_out(link: &mut MemLink) {
    let mut piece = [0; 64];
    for _ in 0..LOOKS {
        match link.take(&mut piece) {
            Took::Bytes(_) => {}
            Took::NotYet => thread::yield_now(),
            Took::End => return,
            Took::Failed => return,
        }
    }
}

/// What the host says and hears on a connection.
fn talk(link: &mut MemLink, gate: &AtomicBool, deed: Deed) {
    match deed {
        Deed::End => {}
        Deed::Give(bytes) => {
            link.give(&bytes);
            hear_out(link);
        }
        Deed::Serve => {
            link.give(&ASSIGN);
            gate.store(true, Ordering::SeqCst);
            hear(link, &SETTLED);
            link.give(&STOP);
            hear_out(link);
        }
    }
}

/// Does so with the next connection.
fn do_next(host: &mut MemHost, gate: &AtomicBool, deed: Deed)
    requires { host.old.state.listens ≡ true }
    ensures { host.new.state.listens ≡ true }
{
    let Some((mut link, greeting)) = accepted(host) else {
        return;
    };
    drop(greeting);
    talk(&mut link, gate, deed);
    host.back(link);
}

/// Does so with one connection after the other, and opens the gate at the end.
fn play(host: MemHost, gate: Arc<AtomicBool, Global>, deeds: &[Deed])
    requires { host.state.listens ≡ true }
{
    let mut host = host;
    for deed in deeds {
        do_next(&mut host, &gate, *deed);
    }
    gate.store(true, Ordering::SeqCst);
    drop(host);
}

/// A stream in memory that gives a,5 once its gate is open.
fn held_back(alloc: Global, gate: &Arc<AtomicBool, Global>) -> Option<Records<Gated>> {
    let bytes = Vec::from_slice(alloc, b"a,5\n").ok()?;
    let stream = MapSource::new(bytes, 64, Vec::new(alloc));
    let Ok(gate) = Arc::try_clone(gate) else {
        drop(stream);
        return None;
    };
    Records::new(alloc, Gated { gate, stream }, false).ok()
}

/// That stream alone.
fn streams(alloc: Global, gate: &Arc<AtomicBool, Global>) -> Option<Vec<Records<Gated>>>
    ensures { IfSome result (λ streams. length streams.items ≡ 1) }
{
    let records = held_back(alloc, gate)?;
    let mut list = Vec::new(alloc);
    match list.push(records) {
        Ok(()) => Some(list),
        Err(_) => None,
    }
}

/// How a monitor over such a stream ended.
fn run<R: Threads + Wait + Clock + Copy + Send + 'static>(
    rt: R,
    alloc: Global,
    gate: &Arc<AtomicBool, Global>,
    dialer: &mut MemDialer,
    out: &mut VecSink,
) -> Option<Verdict> {
    let names = names(alloc)?;
    let Some(streams) = streams(alloc, gate) else {
        drop(names);
        return None;
    };
    let Some(watch) = new_watch(alloc, 1) else {
        drop(names);
        drop(streams);
        return None;
    };
    let plan = Plan {
        pause: 1,
        tries: Some(3),
        window: None,
    };
    Some(monitor(rt, alloc, watch, names, streams, &plan, dialer, out))
}

/// Has a thread play the host.
fn start<R: Threads>(
    rt: &R,
    alloc: Global,
    host: MemHost,
    gate: &Arc<AtomicBool, Global>,
    deeds: &'static [Deed],
) -> bool
    requires { host.state.listens ≡ true }
{
    let Ok(gate) = Arc::try_clone(gate) else {
        drop(host);
        return false;
    };
    let run = move ||
        requires { host.state.listens ≡ true }
    { play(host, gate, deeds) };
    thread::spawn(rt, run).is_ok()
}

/// How the monitor ended where the host does this with one connection after the other, and whether it wrote what is expected.
fn told<R: Threads + Wait + Clock + Copy + Send + 'static>(
    rt: R,
    alloc: Global,
    deeds: &'static [Deed],
    expected: &[u8],
) -> Option<(Verdict, bool)> {
    let gate = Arc::new(alloc, AtomicBool::new(false)).ok()?;
    let mut out = VecSink::new(alloc, 1024, Vec::new(alloc)).ok()?;
    let (host, mut dialer) = listening(alloc)?;
    if !start(&rt, alloc, host, &gate, deeds) {
        drop(dialer);
        return None;
    }
    let verdict = run(rt, alloc, &gate, &mut dialer, &mut out);
    drop(dialer);
    let is_as_expected = out.written() == expected;
    Some((verdict?, is_as_expected))
}

/// A host that gives what is refused, what is no frame, and an end, and serves then.
const FOUR: [Deed; 4] = [
    Deed::Give(STOP),
    Deed::Give(NO_KIND),
    Deed::End,
    Deed::Serve,
];

/// One that ends the first connection.
const ONE: [Deed; 1] = [Deed::End];

/// What is written then.
const LINES: &[u8] = b"joined 1 at 0\n\
left 1 refused\n\
joined 2 at 0\n\
left 2 bad\n\
joined 3 at 0\n\
left 3 link\n\
joined 4 at 0\n\
ended at 2 skipped 0\n";

#[test]
fn each_connection_has_its_lines(rt: HostRuntime) -> Result<(), Fail> {
    let told = told(rt, rt.alloc(), &FOUR, LINES);
    assert_eq!(rt; told, Some((Verdict::Done, true)));
    Ok(())
}

#[test]
fn nobody_answers_any_more(rt: HostRuntime) -> Result<(), Fail> {
    let told = told(rt, rt.alloc(), &ONE, b"joined 1 at 0\nleft 1 link\n");
    assert_eq!(rt; told, Some((Verdict::LinkFault, true)));
    Ok(())
}
