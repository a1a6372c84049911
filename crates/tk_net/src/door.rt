use crate::socket::Socket;
use mio::net::{TcpListener, TcpStream};
use mio::{Events, Interest, Poll, Token};
use std::alloc::Global;
use std::io;
use std::io::ErrorKind;
use std::net::SocketAddr;
use std::time::Duration;
use tk_wire::NetFault;

/// The longest time that a wait or a rest takes. What comes ends it, so it is only how late a lost edge is made up for.
pub(crate) fn most_wait() -> Duration {
    Duration::from_millis(50)
}

/// How many waits in a row pass without a descriptor for the next connection, before that is a fault.
const PAUSES: u32 = 100;

/// How many connections that failed one accept drops at most.
const DROPS: u32 = 64;

/// What the system answers where it has no descriptor, no room or no memory for one more: ENOMEM, ENFILE, EMFILE, ENOBUFS.
const SHORT: [i32; 4] = [12, 23, 24, 105];

/// How many events one wait is told. Nobody looks at them.
pub(crate) const EVENTS: usize = 64;

/// Under which every source is registered.
pub(crate) const TOKEN: Token = Token(0);

/// What listens, and what waits for it and for the connections that came in by it.
#[derive(Drop)]
pub(crate) struct Door {
    listener: TcpListener,
    address: SocketAddr,
    poll: Poll,
    events: Events,
    // Told of nothing, so a wait on it lasts its time.
    pause: Poll,
    // How many times in a row there was no descriptor for the next connection.
    pauses: u32,
}

// What an accept of the system came to.
#[derive(Drop)]
enum Knock {
    Stream(TcpStream),
    // Nobody waits.
    Nobody,
    // A connection failed while it waited.
    Gone,
    // There is no descriptor for it now.
    Short(io::Error),
    Failed(io::Error),
}

/// What an error of the system is to a net.
pub(crate) fn fault_of(error: io::Error) -> NetFault {
    match error.kind() {
        ErrorKind::OutOfMemory => NetFault::NoMemory,
        _ => NetFault::Failed,
    }
}

/// Has a poll tell when the stream is ready. Frames are small, and go out at once.
pub(crate) fn watch(poll: &Poll, stream: &mut TcpStream) -> io::Result<()> {
    stream.set_nodelay(true)?;
    let both = Interest::READABLE | Interest::WRITABLE;
    poll.registry().register(stream, TOKEN, both)
}

// What an error of an accept is. Those of a connection that waited say nothing of the door.
fn knock_of(error: io::Error) -> Knock {
    if let Some(code) = error.raw_os_error() {
        if SHORT.contains(&code) {
            return Knock::Short(error);
        }
    }
    match error.kind() {
        ErrorKind::WouldBlock => Knock::Nobody,
        ErrorKind::ConnectionAborted
        | ErrorKind::ConnectionReset
        | ErrorKind::NetworkDown
        | ErrorKind::NetworkUnreachable
        | ErrorKind::HostUnreachable
        | ErrorKind::Interrupted => Knock::Gone,
        _ => Knock::Failed(error),
    }
}

impl Door {
    /// A listener at an address, where port 0 is for the system to choose.
    pub(crate) fn open<H: std::net::Net>(
        handle: &H,
        alloc: Global,
        at: SocketAddr,
    ) -> io::Result<Door> {
        let events = Events::with_capacity(alloc, EVENTS)?;
        let mut listener = TcpListener::bind(handle, at)?;
        let address = listener.local_addr()?;
        let poll = Poll::new(handle)?;
        poll.registry()
            .register(&mut listener, TOKEN, Interest::READABLE)?;
        Ok(Door {
            listener,
            address,
            poll,
            events,
            pause: Poll::new(handle)?,
            pauses: 0,
        })
    }

    /// Where it listens, with the port that the system chose.
    pub(crate) fn address(&self) -> SocketAddr {
        self.address
    }

    // What stands at the front of the queue.
    fn knock(&self) -> Knock {
        match self.listener.accept() {
            Ok((stream, _)) => Knock::Stream(stream),
            Err(error) => knock_of(error),
        }
    }

    /// A connection that waits, if one does. One that fails is dropped, as a stranger's may at any time. Where
    /// there is no descriptor for it none is answered, and the next wait is a pause, until that was so too often.
    pub(crate) fn accept(&mut self) -> io::Result<Option<Socket>> {
        for _ in 0..DROPS {
            match self.knock() {
                Knock::Stream(mut stream) => {
                    self.pauses = 0;
                    if watch(&self.poll, &mut stream).is_ok() {
                        return Ok(Some(Socket::new(stream)));
                    }
                }
                Knock::Gone => {}
                Knock::Nobody => {
                    self.pauses = 0;
                    return Ok(None);
                }
                Knock::Short(_) if self.pauses < PAUSES => {
                    self.pauses += 1;
                    return Ok(None);
                }
                Knock::Short(error) | Knock::Failed(error) => return Err(error),
            }
        }
        Ok(None)
    }

    /// Waits for what may come, or lets a pause pass where descriptors are short.
    pub(crate) fn wait(&mut self) -> io::Result<()> {
        if self.pauses > 0 {
            return self.pause.poll(&mut self.events, Some(most_wait()));
        }
        self.poll.poll(&mut self.events, Some(most_wait()))
    }
}
