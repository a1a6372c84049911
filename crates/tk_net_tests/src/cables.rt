//! What goes over cables, byte by byte: chunks with their check sums, pulses, and ends.

ghost use Rattle.std.specs.Prelude.{◌≡◌, true};

use crate::hosts::{MARK, RUN, accepted, bytes_of, greeting};
use std::alloc::Global;
use std::io::{Read, Write};
use std::net::{Net, OpenListener, TcpListener, TcpStream};
use std::test::Fail;
use std::time::Clock;
use tk_net::{SocketDialer, SocketHost};
use tk_wire::{Dialed, Dialer, Host, Rest, Took, Wire};

/// How often a test looks whether something has come: three seconds at the most.
const LOOKS: u32 = 60;

/// The bytes of Stop, alone in a chunk.
const STOP: [u8; 11] = [0, 5, 0xef, 0x0e, 0x5a, 0x5f, 0, 0, 0, 1, 7];

/// The same with another check sum.
const OTHER: [u8; 11] = [0, 5, 0, 0, 0, 0, 0, 0, 0, 1, 7];

/// Pulses, one behind the other.
const PULSES: [u8; 11] = [0; 11];

/// What a take answers first that is not NotYet, the bytes that it brings, and how many calls failed by then.
type Heard = (Took, [u8; 5], u64);

/// What a link takes first.
fn heard<H: Host>(host: &mut H, link: &mut H::Link, looks: u32) -> Heard
    requires { (H.state host.old).listens ≡ true }
    ensures { (H.state host.new).listens ≡ true }
{
    let mut bytes = [0; 5];
    for _ in 0..looks {
        let took = link.take(&mut bytes);
        if took != Took::NotYet || host.wait().is_err() {
            return (took, bytes, link.faults());
        }
    }
    (Took::NotYet, bytes, link.faults())
}

/// A peer that greets and says these bytes.
fn peer_of<R: Net>(rt: &R, at: &str, said: &[u8]) -> Option<R::Stream> {
    let mut stream = TcpStream::connect(rt, at).ok()?;
    stream.write_all(&bytes_of(MARK, RUN, 2, 1)).ok()?;
    stream.write_all(said).ok()?;
    Some(stream)
}

/// What the link of a peer takes that greets, says these bytes, and then ends or says nothing more.
fn taken<R: Net, H: Host>(rt: &R, host: &mut H, said: &[u8], ends: bool) -> Option<Heard>
    requires { (H.state host.old).listens ≡ true }
{
    let peer = peer_of(rt, host.address(), said)?;
    let peer = if ends {
        drop(peer);
        None
    } else {
        Some(peer)
    };
    let (_, mut link) = accepted(host)?;
    let heard = heard(host, &mut link, 10);
    host.back(link);
    drop(peer);
    Some(heard)
}

/// The same over a host of its own.
fn taken_alone<R: Net + Clock + Copy + Send>(
    rt: &R,
    alloc: Global,
    said: &[u8],
    ends: bool,
) -> Option<Heard> {
    let mut host = SocketHost::new(alloc, rt, RUN, 2, 20).ok()?;
    let Ok(()) = host.listen("127.0.0.1:0") else {
        drop(host);
        return None;
    };
    let taken = taken(rt, &mut host, said, ends);
    drop(host);
    taken
}

/// What is said behind a greeting, how many bytes of it, whether that is all, and what the link takes.
const ROWS: [([u8; 11], usize, bool, Heard); 6] = [
    (STOP, 11, false, (Took::Bytes(5), [0, 0, 0, 1, 7], 0)),
    (OTHER, 11, false, (Took::Failed, [0; 5], 1)),
    (PULSES, 6, false, (Took::NotYet, [0; 5], 0)),
    (PULSES, 6, true, (Took::End, [0; 5], 0)),
    (STOP, 10, true, (Took::Failed, [0; 5], 1)),
    (STOP, 1, true, (Took::Failed, [0; 5], 1)),
];

#[test]
fn chunks_are_opened_and_pulses_are_dropped(rt: HostRuntime) {
    for (said, size, ends, heard) in ROWS {
        let size = size.min(11);
        let taken = taken_alone(&rt, rt.alloc(), &said[..size], ends);
        assert!(rt; taken == Some(heard), "{size} {ends}");
    }
}

/// What the link of a peer takes that greets and says nothing more, and how many bytes the peer is given until the link is
/// closed: pulses, if they are 0.
fn unheard<R: Net, H: Host>(rt: &R, host: &mut H) -> Option<(Heard, usize, [u8; 16])>
    requires { (H.state host.old).listens ≡ true }
{
    let mut peer = peer_of(rt, host.address(), &[])?;
    let (_, mut link) = accepted(host)?;
    let heard = heard(host, &mut link, LOOKS);
    host.back(link);
    let mut given = [0xff; 16];
    let count = peer.read(&mut given).ok()?;
    Some((heard, count, given))
}

/// The same where a silence of one second is too long.
fn unheard_for_a_second<R: Net + Clock + Copy + Send>(
    rt: &R,
    alloc: Global,
) -> Option<(Heard, usize, [u8; 16])> {
    let mut host = SocketHost::new(alloc, rt, RUN, 2, 1).ok()?;
    let Ok(()) = host.listen("127.0.0.1:0") else {
        drop(host);
        return None;
    };
    let unheard = unheard(rt, &mut host);
    drop(host);
    unheard
}

/// Whether a peer was lost, and was given pulses before.
fn is_lost(unheard: &(Heard, usize, [u8; 16])) -> bool {
    let (heard, count, given) = unheard;
    heard.0 == Took::Failed && heard.2 == 1 && *count >= 2 && given[..2] == PULSES[..2]
}

#[test]
fn a_silent_peer_is_lost_and_was_given_pulses(rt: HostRuntime) {
    let right = match unheard_for_a_second(&rt, rt.alloc()) {
        Some(unheard) => is_lost(&unheard),
        None => false,
    };
    assert!(rt; right);
}

/// Takes from a link for half a second, in which nothing comes.
fn rest_over<L: Wire, Q: Rest>(link: &mut L, rest: &mut Q) {
    for _ in 0..10 {
        if link.take(&mut [0; 4]) != Took::NotYet || rest.rest().is_err() {
            return;
        }
    }
}

/// What a dialer's link gives that greets, gives Stop, and then nothing for half a second of a silence of one.
fn dialed<R: Net<Stream = TcpStream> + Clock + Copy + Send>(
    rt: &R,
    alloc: Global,
) -> Result<Option<[u8; 126]>, Fail> {
    let listener = TcpListener::bind(rt, "127.0.0.1:0")?;
    let at = format!(in alloc; "{}", listener.local_addr()?)?;
    let mut dialer = SocketDialer::new(alloc, rt, at.as_str(), 1)?;
    let Some((mut link, mut rest, _)) = dialer.dial()? else {
        return Ok(None);
    };
    let (mut peer, _) = listener.accept()?;
    let Some(greeting) = greeting(alloc) else {
        return Ok(None);
    };
    link.greet(&greeting)?;
    link.give(&STOP[6..]);
    rest_over(&mut link, &mut rest);
    let mut bytes = [0; 126];
    peer.read_exact(&mut bytes)?;
    Ok(Some(bytes))
}

/// Whether the bytes are the greeting, Stop in a chunk, and a pulse.
fn is_greeting_and_stop(bytes: &[u8; 126]) -> bool {
    bytes[..113] == bytes_of(MARK, RUN, 2, 1)[..]
        && bytes[113..124] == STOP[..]
        && bytes[124..] == [0, 0][..]
}

#[test]
fn a_greeting_goes_raw_and_a_chunk_behind_it(rt: HostRuntime) -> Result<(), Fail> {
    let bytes = dialed(&rt, rt.alloc())?;
    let right = match bytes {
        Some(bytes) => is_greeting_and_stop(&bytes),
        None => false,
    };
    assert!(rt; right);
    Ok(())
}
