ghost use Rattle.std.specs.Prelude.{IfOk};

use crate::attach::attach;
use crate::cable::Cable;
use crate::door::fault_of;
use crate::socket_bell::SocketBell;
use crate::socket_rest::SocketRest;
use std::alloc::Global;
use std::io;
use std::marker::Send;
use std::net::{SocketAddr, TcpStream, ToSocketAddrs};
use std::time::{Clock, Duration};
use tk_base::NoMemory;
use tk_wire::{Dialer, NetFault};

/// A dialer over sockets. At each dial it looks its host's name up anew, and tries each address in turn.
#[derive(Drop)]
pub struct SocketDialer<'a, H: std::net::Net<Stream = TcpStream> + Clock + Copy> {
    handle: &'a H,
    alloc: Global,
    at: String,
    silence: u64,
}

/// How long one address may take to answer.
fn most_connecting() -> Duration {
    Duration::from_secs(5)
}

// A stream to this address that never waits.
fn connected<H: std::net::Net<Stream = TcpStream>>(
    handle: &H,
    to: SocketAddr,
) -> io::Result<mio::net::TcpStream> {
    let stream = TcpStream::connect_timeout(handle, &to, most_connecting())?;
    stream.set_nonblocking(true)?;
    Ok(mio::net::TcpStream::from_std(stream))
}

// A stream to the first address of a name that answers.
fn reached<H: std::net::Net<Stream = TcpStream>>(
    handle: &H,
    at: &str,
) -> Option<mio::net::TcpStream> {
    for address in at.to_socket_addrs(handle).ok()? {
        if let Ok(stream) = connected(handle, address) {
            return Some(stream);
        }
    }
    None
}

impl<'a, H: std::net::Net<Stream = TcpStream> + Clock + Copy> SocketDialer<'a, H> {
    /// A dialer of HOST:PORT. A link over which nothing comes for `silence` seconds has failed.
    pub fn new(
        alloc: Global,
        handle: &'a H,
        at: &str,
        silence: u64,
    ) -> Result<SocketDialer<'a, H>, NoMemory> {
        let at = String::from_str(alloc, at)?;
        Ok(SocketDialer {
            handle,
            alloc,
            at,
            silence,
        })
    }
}

impl<'a, H: std::net::Net<Stream = TcpStream> + Clock + Copy + Send> Dialer
    for SocketDialer<'a, H> {
    type Link = Cable<H>;

    type Rest = SocketRest;

    type Bell = SocketBell;

    fn dial(&mut self) -> Result<Option<(Cable<H>, SocketRest, SocketBell)>, NoMemory> {
        let Some(stream) = reached(self.handle, self.at.as_str()) else {
            return Ok(None);
        };
        match attach(self.handle, self.alloc, stream) {
            Ok((socket, rest, bell)) => {
                let link = Cable::new(self.alloc, socket, *self.handle, self.silence, false)?;
                Ok(Some((link, rest, bell)))
            }
            Err(error) => match fault_of(error) {
                NetFault::NoMemory => Err(NoMemory),
                NetFault::Failed => Ok(None),
            },
        }
    }
}
