ghost use Rattle.std.specs.Prelude.{◌≡◌, IfOk};

use crate::door::{EVENTS, TOKEN, watch};
use crate::socket::Socket;
use crate::socket_bell::SocketBell;
use crate::socket_rest::SocketRest;
use mio::net::TcpStream;
use mio::{Events, Poll, Waker};
use std::alloc::Global;
use std::io;

/// The socket of a stream that never waits, with the rest and the bell of its owner.
pub(crate) fn attach<H: std::net::Net>(
    handle: &H,
    alloc: Global,
    stream: TcpStream,
) -> io::Result<(Socket, SocketRest, SocketBell)>
    ensures { IfOk result (λ made. made.1 ≡ 0) }
{
    let events = Events::with_capacity(alloc, EVENTS)?;
    let poll = Poll::new(handle)?;
    let mut stream = stream;
    watch(&poll, &mut stream)?;
    let waker = Waker::new(poll.registry(), TOKEN)?;
    let socket = Socket::new(stream);
    Ok((socket, SocketRest::new(poll, events), SocketBell { waker }))
}
