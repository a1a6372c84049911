//! What nets do over sockets and in memory: bytes both ways, doors, ends, and calls and bytes that go wrong.

ghost use Rattle.std.specs.Prelude.{◌≡◌, ◌+◌, ◌<◌, false, true, IfSome, length};

use std::alloc::Global;
use std::marker::Sync;
use std::net::{IpAddr, Ipv4Addr};
use std::test::Fail;
use std::thread;
use std::thread::Threads;
use tk_net::{LoopNet, MemLink, MemNet, MemRest};
use tk_wire::{Bell, Gave, Net, Rest, Took, Wire};

/// How often a test looks whether something has come: a second at the most over sockets.
const LOOKS: u32 = 20;

/// The end of the next connection that comes to the door.
fn accepted<N: Net>(net: &mut N) -> Option<N::Link>
    requires { (N.state net.old).listens ≡ true }
    ensures { (N.state net.new).listens ≡ true }
{
    for _ in 0..LOOKS {
        match net.accept().ok()? {
            Some(link) => return Some(link),
            None => net.wait().ok()?,
        }
    }
    None
}

/// What the first take answers that is not NotYet, and the bytes that it brings.
fn next<N: Net>(net: &mut N, link: &mut N::Link) -> (Took, [u8; 4])
    requires { (N.state net.old).listens ≡ true }
    ensures { (N.state net.new).listens ≡ true }
{
    let mut bytes = [0; 4];
    for _ in 0..LOOKS {
        let took = link.take(&mut bytes);
        if took != Took::NotYet || net.wait().is_err() {
            return (took, bytes);
        }
    }
    (Took::NotYet, bytes)
}

/// What came up, what came down, and what the lower end is told once the upper was shut.
#[derive(Clone, Copy, Debug, PartialEq, Eq)]
struct Exchange {
    up: (Took, [u8; 4]),
    down: (Took, [u8; 4]),
    last: Took,
}

/// Two ends give each other some bytes, and the upper one closes the connection. All goes back to the net.
fn exchanged<N: Net>(net: &mut N) -> Option<Exchange>
    requires listens { (N.state net.old).listens ≡ true }
    requires links { (N.state net.old).links < 64 }
{
    let (mut below, mut rest, bell) = net.connect().ok()?;
    let mut above = accepted(net)?;
    below.give(b"up");
    above.give(b"down");
    bell.ring();
    rest.rest().ok()?;
    let up = next(net, &mut above);
    let down = next(net, &mut below);
    above.shut();
    let (last, _) = next(net, &mut below);
    net.back(below);
    net.back(above);
    net.back_rest(rest);
    Some(Exchange { up, down, last })
}

/// The exchange as it must be.
fn whole() -> Exchange {
    Exchange {
        up: (Took::Bytes(2), *b"up\0\0"),
        down: (Took::Bytes(4), *b"down"),
        last: Took::End,
    }
}

#[test]
fn bytes_go_both_ways_in_memory(rt: HostRuntime) -> Result<(), Fail> {
    let mut net = MemNet::new(rt.alloc(), Vec::new(rt.alloc()), None)?;
    net.listen()?;
    let exchanged = exchanged(&mut net);
    let counts = (net.given(), net.taken(), net.faults());
    drop(net);
    assert_eq!(rt; (exchanged, counts), (Some(whole()), (6, 6, 1)));
    Ok(())
}

#[test]
fn bytes_go_both_ways_over_sockets(rt: HostRuntime) -> Result<(), Fail> {
    let mut net = LoopNet::new(rt.alloc(), &rt)?;
    net.listen()?;
    let exchanged = exchanged(&mut net);
    let counts = (net.taken(), net.faults());
    drop(net);
    assert_eq!(rt; (exchanged, counts), (Some(whole()), (6, 1)));
    Ok(())
}

#[test]
fn the_door_is_this_machine_s_alone(rt: HostRuntime) -> Result<(), Fail> {
    let mut net = LoopNet::new(rt.alloc(), &rt)?;
    net.listen()?;
    let address = net.address();
    drop(net);
    let is_own = match address {
        Some(address) => address.ip() == IpAddr::V4(Ipv4Addr::LOCALHOST),
        None => false,
    };
    assert!(rt; is_own);
    Ok(())
}

/// What the first take of a link answers that is not NotYet, while its owner rests.
fn told<L: Wire, Q: Rest>(link: &mut L, rest: &mut Q) -> Took {
    for _ in 0..LOOKS {
        let took = link.take(&mut [0; 4]);
        if took != Took::NotYet || rest.rest().is_err() {
            return took;
        }
    }
    Took::NotYet
}

/// What a link is told whose other end goes without having taken what came: over sockets that resets the connection.
fn reset<N: Net>(net: &mut N) -> Option<Took>
    requires listens { (N.state net.old).listens ≡ true }
    requires links { (N.state net.old).links < 64 }
{
    let (mut below, mut rest, _) = net.connect().ok()?;
    let above = accepted(net)?;
    below.give(b"left");
    drop(above);
    let took = told(&mut below, &mut rest);
    net.back(below);
    Some(took)
}

#[test]
fn a_reset_connection_fails_its_link(rt: HostRuntime) -> Result<(), Fail> {
    let mut net = LoopNet::new(rt.alloc(), &rt)?;
    net.listen()?;
    let took = reset(&mut net);
    let faults = net.faults();
    drop(net);
    assert_eq!(rt; (took, faults), (Some(Took::Failed), 1));
    Ok(())
}

/// What a link is told that waited at the door when that was taken down.
fn left_outside<N: Net>(net: &mut N) -> Option<Took>
    requires listens { (N.state net.old).listens ≡ true }
    requires links { (N.state net.old).links < 64 }
{
    let (mut below, mut rest, _) = net.connect().ok()?;
    net.close();
    let took = told(&mut below, &mut rest);
    net.back(below);
    Some(took)
}

#[test]
fn who_waits_is_told_that_the_door_is_gone(rt: HostRuntime) -> Result<(), Fail> {
    let mut net = MemNet::new(rt.alloc(), Vec::new(rt.alloc()), None)?;
    net.listen()?;
    let in_memory = left_outside(&mut net);
    drop(net);
    let mut net = LoopNet::new(rt.alloc(), &rt)?;
    net.listen()?;
    let over_sockets = left_outside(&mut net);
    drop(net);
    assert_eq!(rt; in_memory, Some(Took::End));
    assert_eq!(rt; over_sockets, Some(Took::Failed));
    Ok(())
}

/// Which of the last three of seven calls failed, 8 if none.
fn failed_there(link: &mut MemLink, rest: &mut MemRest) -> u64 {
    if link.give(b"a") == Gave::Failed {
        5
    } else if link.take(&mut [0]) == Took::Failed {
        6
    } else if rest.rest().is_err() {
        7
    } else {
        8
    }
}

/// Which of seven calls failed, 8 if none.
fn failed_call(net: &mut MemNet) -> u64
    requires listens { net.old.state.listens ≡ false }
    requires links { net.old.state.links < 64 }
{
    if net.listen().is_err() {
        return 1;
    }
    let Ok((mut link, mut rest, _)) = net.connect() else {
        return 2;
    };
    let Ok(Some(above)) = net.accept() else {
        drop(link);
        drop(rest);
        return 3;
    };
    let number = if net.wait().is_err() {
        4
    } else {
        failed_there(&mut link, &mut rest)
    };
    net.back(link);
    net.back(above);
    net.back_rest(rest);
    number
}

/// Which call failed where this one is listed, and the faults of the net in the end.
fn failed(alloc: Global, call: u64) -> Option<(u64, u64)> {
    let fails = Vec::from_slice(alloc, &[call]).ok()?;
    let mut net = MemNet::new(alloc, fails, None).ok()?;
    let number = failed_call(&mut net);
    let faults = net.faults();
    drop(net);
    Some((number, faults))
}

#[test]
fn a_listed_call_fails_and_is_counted(rt: HostRuntime) -> Result<(), Fail> {
    for call in 1..8 {
        assert_eq!(rt; failed(rt.alloc(), call), Some((call, 1)), "{call}");
    }
    assert_eq!(rt; failed(rt.alloc(), 8), Some((8, 0)));
    Ok(())
}

/// A connection over a net: the end that connected, and the one that was accepted.
fn connected(net: &mut MemNet) -> Option<(MemLink, MemLink)>
    requires listens { net.old.state.listens ≡ true }
    requires links { net.old.state.links < 64 }
    ensures { IfSome result (λ ends. net.new.state ≡ record net.old.state { links = net.old.state.links + 1 }) }
{
    let Ok((below, _, _)) = net.connect() else {
        return None;
    };
    let Ok(Some(above)) = net.accept() else {
        return None;
    };
    Some((below, above))
}

/// A net in memory that listens, and turns this byte. Here and below nets and links are lent or dropped by name: a place that
/// drops one by itself is dear to prove.
fn listening(alloc: Global, flip: Option<u64>) -> Option<MemNet>
    ensures listens { IfSome result (λ net. net.state.listens ≡ true) }
    ensures links { IfSome result (λ net. net.state.links ≡ 0) }
{
    let mut net = MemNet::new(alloc, Vec::new(alloc), flip).ok()?;
    let Ok(()) = net.listen() else {
        drop(net);
        return None;
    };
    Some(net)
}

/// What comes of 1, 2 up a link and then of 3, 4 down it.
fn carried(net: &mut MemNet) -> Option<[u8; 4]>
    requires listens { net.old.state.listens ≡ true }
    requires links { net.old.state.links < 64 }
{
    let (mut below, mut above) = connected(net)?;
    below.give(&[1, 2]);
    above.give(&[3, 4]);
    let mut bytes = [0; 4];
    above.take(&mut bytes[..2]);
    below.take(&mut bytes[2..]);
    drop(below);
    drop(above);
    Some(bytes)
}

/// The same where this byte is turned.
fn turned(alloc: Global, byte: u64) -> Option<[u8; 4]> {
    let mut net = listening(alloc, Some(byte))?;
    let bytes = carried(&mut net);
    drop(net);
    bytes
}

/// The bytes that are turned, and what comes then.
const TURNED: [(u64, [u8; 4]); 3] = [(1, [1, 253, 3, 4]), (2, [1, 2, 252, 4]), (4, [1, 2, 3, 4])];

#[test]
fn one_byte_is_turned(rt: HostRuntime) {
    for (byte, bytes) in TURNED {
        assert!(rt; turned(rt.alloc(), byte) == Some(bytes), "{byte}");
    }
}

/// What four gives of these bytes, 1, 1 and 2 bytes answer, where the other end takes one byte before the third.
fn crowded(net: &mut MemNet, many: &[u8]) -> Option<[Gave; 4]>
    requires many { 0 < length many.now }
    requires listens { net.old.state.listens ≡ true }
    requires links { net.old.state.links < 64 }
{
    let (mut below, mut above) = connected(net)?;
    let first = below.give(many);
    let second = below.give(&[8]);
    above.take(&mut [0]);
    let third = below.give(&[8, 9]);
    let last = above.give(&[1, 2]);
    drop(below);
    drop(above);
    Some([first, second, third, last])
}

/// The same in a net of its own, of 70,000 bytes.
fn crowded_by_many(alloc: Global) -> Option<[Gave; 4]> {
    let many = Vec::from_elem(alloc, 7, 70_000).ok()?;
    let mut net = listening(alloc, None)?;
    let gave = crowded(&mut net, many.as_slice());
    drop(net);
    gave
}

#[test]
fn a_full_ring_takes_no_more(rt: HostRuntime) -> Result<(), Fail> {
    let answers = [
        Gave::Bytes(65_536),
        Gave::NotYet,
        Gave::Bytes(1),
        Gave::Bytes(2),
    ];
    assert_eq!(rt; crowded_by_many(rt.alloc()), Some(answers));
    Ok(())
}

/// What two takes answer once the other end gave a byte and went away.
fn taken(net: &mut MemNet) -> Option<(Took, Took)>
    requires listens { net.old.state.listens ≡ true }
    requires links { net.old.state.links < 64 }
{
    let (mut below, mut above) = connected(net)?;
    above.give(&[1]);
    drop(above);
    let first = below.take(&mut [0]);
    let second = below.take(&mut [0]);
    net.back(below);
    Some((first, second))
}

/// The same in a net of its own, and its faults in the end.
fn left(alloc: Global) -> Option<(Took, Took, u64)> {
    let mut net = listening(alloc, None)?;
    let taken = taken(&mut net);
    let faults = net.faults();
    drop(net);
    let (first, second) = taken?;
    Some((first, second, faults))
}

#[test]
fn the_end_comes_behind_the_last_byte(rt: HostRuntime) -> Result<(), Fail> {
    let answers = (Took::Bytes(1), Took::End, 1);
    assert_eq!(rt; left(rt.alloc()), Some(answers));
    Ok(())
}

/// What a give in another thread answers, and a take at the other end.
fn threaded<R: Threads + Sync>(rt: &R, net: &mut MemNet) -> Option<(Gave, Took)>
    requires listens { net.old.state.listens ≡ true }
    requires links { net.old.state.links < 64 }
{
    let (mut below, mut above) = connected(net)?;
    let (gave, _) = thread::join(rt, move || below.give(&[1, 2]), || ());
    let took = above.take(&mut [0; 4]);
    drop(above);
    Some((gave, took))
}

/// The same in a net of its own, and how many bytes were given in the end.
fn given_there<R: Threads + Sync>(rt: &R, alloc: Global) -> Option<(Gave, Took, u64)> {
    let mut net = listening(alloc, None)?;
    let answers = threaded(rt, &mut net);
    let given = net.given();
    drop(net);
    let (gave, took) = answers?;
    Some((gave, took, given))
}

#[test]
fn a_link_goes_to_another_thread(rt: HostRuntime) -> Result<(), Fail> {
    let answers = (Gave::Bytes(2), Took::Bytes(2), 2);
    assert_eq!(rt; given_there(&rt, rt.alloc()), Some(answers));
    Ok(())
}
