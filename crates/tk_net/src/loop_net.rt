ghost use Rattle.std.specs.Prelude.{◌≡◌, false, IfOk};
ghost use Rattle.tk_net.specs.Counting.{new_socket_link, new_net};

use crate::attach::attach;
use crate::door::{Door, fault_of};
use crate::net_counts::NetCounts;
use crate::socket_bell::SocketBell;
use crate::socket_link::SocketLink;
use crate::socket_rest::SocketRest;
use mio::net::TcpStream;
use std::alloc::Global;
use std::io;
use std::marker::Model;
use std::net::{Ipv4Addr, SocketAddr};
use tk_base::NoMemory;
use tk_wire::{Net, NetFault, Rest};

/// A net over sockets of this machine, at a port that the system picks.
#[derive(Drop)]
pub struct LoopNet<'a, H: std::net::Net> {
    handle: &'a H,
    alloc: Global,
    // None until it listens.
    door: Option<Door>,
    counts: NetCounts,
}

impl<'a, H: std::net::Net> Model for LoopNet<'a, H> {
    ghost use Rattle.std.specs.Prelude.{◌≡◌, is_some};
    ghost use Rattle.tk_wire.specs.Net.{NetState};

    ghost Value = { NetState };

    ghost view = { λ n. n.counts };

    ghost invariant = { λ n. n.counts.listens ≡ is_some n.door };
}

// A link to an address, with the rest and the bell of its owner.
fn connect<H: std::net::Net>(
    handle: &H,
    alloc: Global,
    to: SocketAddr,
) -> io::Result<(SocketLink, SocketRest, SocketBell)>
    ensures link { IfOk result (λ made. made.0 ≡ new_socket_link) }
    ensures rest { IfOk result (λ made. made.1 ≡ 0) }
{
    let stream = TcpStream::connect(handle, to)?;
    let (socket, rest, bell) = attach(handle, alloc, stream)?;
    Ok((SocketLink::new(socket), rest, bell))
}

impl<'a, H: std::net::Net> LoopNet<'a, H> {
    /// Where it listens, for tests: an address of this machine's loopback alone.
    pub fn address(&self) -> Option<SocketAddr> {
        Some(self.door.as_ref()?.address())
    }

    /// A net that has opened nothing yet.
    pub fn new(alloc: Global, handle: &'a H) -> Result<LoopNet<'a, H>, NoMemory>
        ensures { IfOk result (λ net. net ≡ new_net) }
    {
        Ok(LoopNet {
            handle,
            alloc,
            door: None,
            counts: NetCounts::new(),
        })
    }
}

impl<'a, H: std::net::Net> Net for LoopNet<'a, H> {
    type Link = SocketLink;

    type Rest = SocketRest;

    type Bell = SocketBell;

    ghost state = { λ state. state };

    ghost tells_knocking = { false };

    ghost knocking = { λ _. 0 };

    fn faults(&self) -> u64 {
        self.counts.faults()
    }

    fn taken(&self) -> u64 {
        self.counts.taken()
    }

    fn listen(&mut self) -> Result<(), NetFault> {
        let any = SocketAddr::from((Ipv4Addr::LOCALHOST, 0));
        match Door::open(self.handle, self.alloc, any) {
            Ok(door) => {
                self.door = Some(door);
                self.counts.note_door();
                Ok(())
            }
            Err(error) => Err(self.counts.fault(fault_of(error))),
        }
    }

    fn connect(&mut self) -> Result<(SocketLink, SocketRest, SocketBell), NetFault> {
        let Some(door) = &self.door else {
            unreachable!();
        };
        match connect(self.handle, self.alloc, door.address()) {
            Ok(made) => {
                self.counts.note_link();
                Ok(made)
            }
            Err(error) => Err(self.counts.fault(fault_of(error))),
        }
    }

    fn accept(&mut self) -> Result<Option<SocketLink>, NetFault> {
        let Some(door) = &mut self.door else {
            unreachable!();
        };
        match door.accept() {
            Ok(None) => Ok(None),
            Ok(Some(socket)) => Ok(Some(SocketLink::new(socket))),
            Err(error) => Err(self.counts.fault(fault_of(error))),
        }
    }

    fn wait(&mut self) -> Result<(), NetFault> {
        let Some(door) = &mut self.door else {
            unreachable!();
        };
        match door.wait() {
            Ok(()) => Ok(()),
            Err(error) => Err(self.counts.fault(fault_of(error))),
        }
    }

    fn close(&mut self) {
        // The system resets what waits in the queue of a listener that goes.
        self.door = None;
        self.counts.note_closed();
    }

    fn back(&mut self, link: SocketLink) {
        self.counts.note_back(link.counts());
    }

    fn back_rest(&mut self, rest: SocketRest) {
        self.counts.note_rest(rest.faults());
    }
}
