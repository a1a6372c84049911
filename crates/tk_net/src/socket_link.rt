ghost use Rattle.std.specs.Prelude.{◌≡◌, ◌<◌, false, length, IfOk};
ghost use Rattle.tk_wire.specs.Meanings.{FitsSlice, FitsBytes};
ghost use Rattle.tk_net.specs.Counting.{new_socket_link, untold};

use crate::link_counts::LinkCounts;
use crate::socket::Socket;
use crate::source::Source;
use std::marker::Model;
use tk_wire::{Gave, Took, Wire};

/// One end of a connection over a socket.
#[derive(Drop)]
pub struct SocketLink {
    socket: Socket,
    counts: LinkCounts,
    shut: bool,
}

impl Model for SocketLink {
    ghost use Rattle.tk_net.specs.Counting.{SocketView};

    ghost Value = { SocketView };

    ghost view = { λ l. record { counts = l.counts; shut = l.shut } };
}

impl SocketLink {
    /// The link over a socket.
    pub(crate) fn new(socket: Socket) -> SocketLink
        ensures { result ≡ new_socket_link }
    {
        SocketLink {
            socket,
            counts: LinkCounts::new(),
            shut: false,
        }
    }

    pub(crate) fn counts(&self) -> &LinkCounts
        ensures { result.now ≡ self.now.counts }
    {
        &self.counts
    }
}

impl Wire for SocketLink {
    ghost tells = { false };

    ghost traffic = { λ _. untold };

    ghost counts = { λ l. l.counts };

    ghost is_shut = { λ l. l.shut };

    fn faults(&self) -> u64 {
        self.counts.faults()
    }

    fn ends(&self) -> u64 {
        self.counts.ends()
    }

    fn taken(&self) -> u64 {
        self.counts.taken()
    }

    fn take(&mut self, into: &mut [u8]) -> Took {
        let took = self.socket.read(into);
        self.counts.note_take(took);
        took
    }

    fn give(&mut self, bytes: &[u8]) -> Gave {
        let gave = self.socket.write(bytes);
        self.counts.note_give(gave);
        gave
    }

    fn shut(&mut self) {
        self.socket.shut();
        self.shut = true;
    }
}
