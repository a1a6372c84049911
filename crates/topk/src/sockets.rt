//! Hosts and dialers over sockets, for coordinators and monitors that run as processes of their own.

use std::alloc::Global;
use std::marker::Send;
use std::net::TcpStream;
use std::rt::Net;
use std::time::Clock;
use tk_base::NoMemory;
use tk_net::{SocketDialer, SocketHost};
use tk_process::{Dialers, Hosts};
use tk_wire::NetFault;

/// Makes hosts that listen on sockets.
#[derive(Drop)]
pub struct SocketHosts<'a, R> {
    handle: &'a R,
    alloc: Global,
}

impl<'a, R> SocketHosts<'a, R> {
    pub fn new(alloc: Global, handle: &'a R) -> SocketHosts<'a, R> {
        SocketHosts { handle, alloc }
    }
}

impl<'a, R: Net + Clock + Copy + Send> Hosts for SocketHosts<'a, R> {
    type Host = SocketHost<'a, R>;

    fn host(
        &mut self,
        run: u64,
        monitors: u32,
        silence: u64,
    ) -> Result<SocketHost<'a, R>, NetFault> {
        SocketHost::new(self.alloc, self.handle, run, monitors, silence)
    }
}

/// Makes dialers of sockets.
#[derive(Drop)]
pub struct SocketDialers<'a, R> {
    handle: &'a R,
    alloc: Global,
}

impl<'a, R> SocketDialers<'a, R> {
    pub fn new(alloc: Global, handle: &'a R) -> SocketDialers<'a, R> {
        SocketDialers { handle, alloc }
    }
}

impl<'a, R: Net<Stream = TcpStream> + Clock + Copy + Send> Dialers for SocketDialers<'a, R> {
    type Dialer = SocketDialer<'a, R>;

    fn dialer(&mut self, at: &str, silence: u64) -> Result<SocketDialer<'a, R>, NoMemory> {
        SocketDialer::new(self.alloc, self.handle, at, silence)
    }
}
