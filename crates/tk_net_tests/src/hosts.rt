ghost use Rattle.std.specs.Prelude.{◌≡◌, ◌+◌, ◌≤◌, true, IfSome, length};
ghost use Rattle.tk_wire.specs.Greeting.{NamesMonitor, TellsStreams};

use std::alloc::Global;
use std::io::Write;
use std::net::{Net, TcpStream};
use std::test::Fail;
use std::time::Clock;
use tk_base::Mon;
use tk_net::{MemHost, SocketDialer, SocketHost};
use tk_wire::{Beginning, Bell, Dialed, Dialer, Greeting, Host, Rest, Took, Wire};

/// How often a test looks whether something has come: a second at the most over sockets.
const LOOKS: u32 = 20;

/// Run 5 with the objects a, b.
pub(crate) const RUN: u64 = 0xa9b3_079e_17e9_d80d;

/// The mark of a greeting.
pub(crate) const MARK: [u8; 4] = [0x54, 0x4b, 0x43, 0x31];

/// Writes bytes over those from a place on.
fn write(bytes: &mut [u8; 113], at: usize, part: &[u8])
    requires { at + length part.now ≤ 113 }
{
    bytes[at..at + part.len()].copy_from_slice(part);
}

/// The bytes of a greeting whose first stream has given 1,000 records and starts at place 37.
pub(crate) fn bytes_of(mark: [u8; 4], run: u64, mon: u32, streams: u8) -> [u8; 113] {
    let mut bytes = [0; 113];
    write(&mut bytes, 0, &mark);
    write(&mut bytes, 4, &run.to_be_bytes());
    write(&mut bytes, 12, &mon.to_be_bytes());
    write(&mut bytes, 16, &[streams]);
    write(
        &mut bytes,
        17,
        &[0, 0, 0, 0, 0, 0, 0x03, 0xe8, 0, 0, 0, 0x25],
    );
    bytes
}

/// Whom a host met: a monitor with the count and the place of its first stream, a stranger, or nobody.
#[derive(Clone, Copy, Debug, PartialEq, Eq)]
pub(crate) enum Met {
    Monitor(u32, u64, u32),
    Stranger,
    Nobody,
}

/// What a greeting tells.
fn told(greeting: &Greeting) -> Met {
    match greeting.beginnings.as_slice() {
        [first, ..] => Met::Monitor(greeting.mon.0, first.count, first.start),
        [] => Met::Nobody,
    }
}

/// Whom a host meets next, where this many were strangers before.
fn next<H: Host>(host: &mut H, before: u64) -> Met
    requires { (H.state host.old).listens ≡ true }
    ensures { (H.state host.new).listens ≡ true }
{
    for _ in 0..LOOKS {
        if let Ok(Some((link, greeting))) = host.accept() {
            let met = told(&greeting);
            drop(greeting);
            host.back(link);
            return met;
        }
        if host.strangers() > before {
            return Met::Stranger;
        }
        if host.wait().is_err() {
            return Met::Nobody;
        }
    }
    Met::Nobody
}

/// Says these bytes to a host, and ends the connection.
fn say<R: Net>(rt: &R, at: &str, bytes: &[u8]) -> Option<()> {
    let mut stream = TcpStream::connect(rt, at).ok()?;
    let said = stream.write_all(bytes);
    drop(stream);
    said.ok()
}

/// Whom a host of run 5 with two monitors meets behind these bytes.
fn whom_it_meets<R: Net + Clock + Copy + Send>(
    rt: &R,
    alloc: Global,
    silence: u64,
    bytes: &[u8],
) -> Option<Met> {
    let mut host = SocketHost::new(alloc, rt, RUN, 2, silence).ok()?;
    let Ok(()) = host.listen("127.0.0.1:0") else {
        drop(host);
        return None;
    };
    let met = match say(rt, host.address(), bytes) {
        Some(()) => next(&mut host, 0),
        None => Met::Nobody,
    };
    drop(host);
    Some(met)
}

/// Marks, runs, monitors and numbers of streams, with how many of the bytes are said, and whom the host meets.
const ROWS: [([u8; 4], u64, u32, u8, usize, Met); 10] = [
    (MARK, RUN, 2, 1, 113, Met::Monitor(2, 1000, 37)),
    (MARK, RUN, 1, 8, 113, Met::Monitor(1, 1000, 37)),
    ([0x54, 0x4b, 0x43, 0x32], RUN, 2, 1, 113, Met::Stranger),
    (MARK, RUN + 1, 2, 1, 113, Met::Stranger),
    (MARK, RUN, 0, 1, 113, Met::Stranger),
    (MARK, RUN, 3, 1, 113, Met::Stranger),
    (MARK, RUN, 2, 0, 113, Met::Stranger),
    (MARK, RUN, 2, 9, 113, Met::Stranger),
    (MARK, RUN, 2, 1, 112, Met::Stranger),
    (MARK, RUN, 2, 1, 0, Met::Stranger),
];

#[test]
fn only_greetings_of_ours_are_let_in(rt: HostRuntime) {
    for (mark, run, mon, streams, size, whom) in ROWS {
        let bytes = bytes_of(mark, run, mon, streams);
        let size = size.min(113);
        let met = whom_it_meets(&rt, rt.alloc(), 20, &bytes[..size]);
        assert!(rt; met == Some(whom), "{run} {mon} {streams} {size}");
    }
}

/// Takes who comes in, until there were this many strangers or too long passed. How many there were.
fn strangers_of<H: Host>(host: &mut H, many: u64) -> u64
    requires { (H.state host.old).listens ≡ true }
    ensures { (H.state host.new).listens ≡ true }
{
    for _ in 0..LOOKS {
        if host.accept().is_err() || host.strangers() >= many || host.wait().is_err() {
            break;
        }
    }
    host.strangers()
}

/// So many connections, over which nothing is said.
fn crowd<R: Net>(rt: &R, alloc: Global, at: &str, many: u32) -> Option<Vec<R::Stream>> {
    let mut crowd = Vec::new(alloc);
    for _ in 0..many {
        crowd.push(TcpStream::connect(rt, at).ok()?).ok()?;
    }
    Some(crowd)
}

/// How many strangers there are while 100 connections wait that say nothing, how many once they ended, and whom the host
/// meets then.
fn crowded<R: Net, H: Host>(rt: &R, alloc: Global, host: &mut H) -> Option<(u64, u64, Met)>
    requires { (H.state host.old).listens ≡ true }
{
    let crowd = crowd(rt, alloc, host.address(), 100)?;
    let first = strangers_of(host, 36);
    drop(crowd);
    let all = strangers_of(host, 100);
    say(rt, host.address(), &bytes_of(MARK, RUN, 2, 1))?;
    let met = next(host, all);
    Some((first, all, met))
}

/// The same over a host of its own.
fn crowded_host<R: Net + Clock + Copy + Send>(rt: &R, alloc: Global) -> Option<(u64, u64, Met)> {
    let mut host = SocketHost::new(alloc, rt, RUN, 2, 20).ok()?;
    let Ok(()) = host.listen("127.0.0.1:0") else {
        drop(host);
        return None;
    };
    let crowded = crowded(rt, alloc, &mut host);
    drop(host);
    crowded
}

#[test]
fn a_hundred_strangers_keep_nobody_out_for_long(rt: HostRuntime) {
    let crowded = crowded_host(&rt, rt.alloc());
    assert_eq!(rt; crowded, Some((36, 100, Met::Monitor(2, 1000, 37))));
}

/// How many strangers there are where a greeting may take no time.
fn silent<R: Net + Clock + Copy + Send>(rt: &R, alloc: Global) -> Option<u64> {
    let mut host = SocketHost::new(alloc, rt, RUN, 2, 0).ok()?;
    let Ok(()) = host.listen("127.0.0.1:0") else {
        drop(host);
        return None;
    };
    let one = TcpStream::connect(rt, host.address());
    let strangers = strangers_of(&mut host, 1);
    drop(one);
    drop(host);
    Some(strangers)
}

#[test]
fn who_says_nothing_is_a_stranger_in_the_end(rt: HostRuntime) {
    assert_eq!(rt; silent(&rt, rt.alloc()), Some(1));
}

/// The greeting of monitor 2 whose stream has given 1,000 records and starts at place 37.
pub(crate) fn greeting(alloc: Global) -> Option<Greeting>
    ensures monitor { IfSome result NamesMonitor }
    ensures streams { IfSome result TellsStreams }
{
    let first = Beginning {
        count: 1000,
        start: 37,
    };
    let beginnings = Vec::from_slice(alloc, &[first]).ok()?;
    Some(Greeting {
        run: RUN,
        mon: Mon(2),
        beginnings,
    })
}

/// The bytes of that greeting.
fn spelled(alloc: Global) -> Option<Vec<u8>> {
    let greeting = greeting(alloc)?;
    let mut bytes = Vec::new(alloc);
    greeting.put(&mut bytes).ok()?;
    Some(bytes)
}

#[test]
fn a_greeting_has_its_bytes(rt: HostRuntime) {
    let is_same = match spelled(rt.alloc()) {
        Some(bytes) => bytes.as_slice() == bytes_of(MARK, RUN, 2, 1).as_slice(),
        None => false,
    };
    assert!(rt; is_same);
}

/// Whose the next link is and the link, once a greeting is whole.
pub(crate) fn accepted<H: Host>(host: &mut H) -> Option<(Met, H::Link)>
    requires { (H.state host.old).listens ≡ true }
    ensures { (H.state host.new).listens ≡ true }
{
    for _ in 0..LOOKS {
        if let Some((link, greeting)) = host.accept().ok()? {
            let met = told(&greeting);
            drop(greeting);
            return Some((met, link));
        }
        host.wait().ok()?;
    }
    None
}

/// What the first take answers that is not NotYet, and the bytes that it brings.
fn heard<L: Wire, Q: Rest>(link: &mut L, rest: &mut Q) -> (Took, [u8; 4]) {
    let mut bytes = [0; 4];
    for _ in 0..LOOKS {
        let took = link.take(&mut bytes);
        if took != Took::NotYet || rest.rest().is_err() {
            return (took, bytes);
        }
    }
    (Took::NotYet, bytes)
}

/// Whom the host meets where a dialer greets, what came up behind the greeting, and what came down.
fn exchanged<H: Host, D: Dialer>(
    host: &mut H,
    dialer: &mut D,
    greeting: &Greeting,
) -> Option<(Met, [u8; 4], [u8; 4])>
    requires listens { (H.state host.old).listens ≡ true }
    requires monitor { NamesMonitor greeting.now }
    requires streams { TellsStreams greeting.now }
{
    let (mut below, mut rest, bell) = dialer.dial().ok()??;
    below.greet(greeting).ok()?;
    below.give(b"up");
    let (met, mut above) = accepted(host)?;
    above.give(b"down");
    bell.ring();
    let (_, up) = heard(&mut above, &mut rest);
    let (_, down) = heard(&mut below, &mut rest);
    host.back(above);
    Some((met, up, down))
}

/// The exchange as it must be.
fn whole() -> (Met, [u8; 4], [u8; 4]) {
    (Met::Monitor(2, 1000, 37), *b"up\0\0", *b"down")
}

/// The exchange over sockets.
fn over_sockets<R: Net<Stream = TcpStream> + Clock + Copy + Send>(
    rt: &R,
    alloc: Global,
) -> Option<(Met, [u8; 4], [u8; 4])> {
    let greeting = greeting(alloc)?;
    let mut host = SocketHost::new(alloc, rt, RUN, 2, 20).ok()?;
    let Ok(()) = host.listen("localhost:0") else {
        drop(host);
        return None;
    };
    let dialer = SocketDialer::new(alloc, rt, host.address(), 20);
    let exchanged = match dialer {
        Ok(mut dialer) => exchanged(&mut host, &mut dialer, &greeting),
        Err(_) => None,
    };
    drop(host);
    exchanged
}

#[test]
fn a_greeting_goes_ahead_over_sockets(rt: HostRuntime) {
    assert_eq!(rt; over_sockets(&rt, rt.alloc()), Some(whole()));
}

/// The exchange in memory, with these calls failing, and the host's faults.
fn in_memory(alloc: Global, fails: &[u64]) -> Option<(Option<(Met, [u8; 4], [u8; 4])>, u64)> {
    let greeting = greeting(alloc)?;
    let fails = Vec::from_slice(alloc, fails).ok()?;
    let (mut host, mut dialers) = MemHost::new(alloc, RUN, 2, 1, fails).ok()?;
    let exchanged = match host.listen("memory") {
        Ok(()) => match dialers.pop() {
            Some(mut dialer) => exchanged(&mut host, &mut dialer, &greeting),
            None => None,
        },
        Err(_) => None,
    };
    let faults = host.faults();
    drop(host);
    Some((exchanged, faults))
}

#[test]
fn a_greeting_goes_ahead_in_memory(rt: HostRuntime) {
    assert_eq!(rt; in_memory(rt.alloc(), &[]), Some((Some(whole()), 0)));
}

/// Calls that fail, and the faults of the host then: listen, the dial, the accept, and the read of the greeting.
const FAILS: [(u64, u64); 4] = [(1, 1), (2, 0), (5, 1), (6, 0)];

#[test]
fn a_listed_call_ends_the_exchange(rt: HostRuntime) {
    for (call, faults) in FAILS {
        let ended = in_memory(rt.alloc(), &[call]);
        assert!(rt; ended == Some((None, faults)), "{call}");
    }
}
