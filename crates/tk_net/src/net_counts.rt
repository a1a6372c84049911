ghost use Rattle.std.specs.Prelude.{◌≡◌, ◌+◌, ◌<◌, true, false};
ghost use Rattle.tk_wire.specs.Net.{closed, given_back, rest_given_back};
ghost use Rattle.tk_net.specs.Counting.{new_net, with_fault};

use crate::link_counts::LinkCounts;
use std::marker::Model;
use tk_wire::NetFault;

/// What every net counts.
#[derive(Drop)]
pub(crate) struct NetCounts {
    listens: bool,
    links: u64,
    faults: u64,
    taken: u64,
}

impl Model for NetCounts {
    ghost use Rattle.tk_wire.specs.Net.{NetState};

    ghost Value = { NetState };

    ghost view = { λ c. record { listens = c.listens; links = c.links; faults = c.faults; taken = c.taken } };
}

impl NetCounts {
    pub(crate) fn new() -> NetCounts
        ensures { result ≡ new_net }
    {
        NetCounts {
            listens: false,
            links: 0,
            faults: 0,
            taken: 0,
        }
    }

    pub(crate) fn faults(&self) -> u64
        ensures { result ≡ self.now.faults }
    {
        self.faults
    }

    pub(crate) fn taken(&self) -> u64
        ensures { result ≡ self.now.taken }
    {
        self.taken
    }

    /// Notes that the door was opened.
    pub(crate) fn note_door(&mut self)
        ensures { self.new ≡ record self.old { listens = true } }
    {
        self.listens = true;
    }

    /// Notes that the door was taken down.
    pub(crate) fn note_closed(&mut self)
        ensures { self.new ≡ closed self.old }
    {
        self.listens = false;
    }

    /// Counts a link that was connected.
    pub(crate) fn note_link(&mut self)
        requires { self.old.links < 64 }
        ensures { self.new ≡ record self.old { links = self.old.links + 1 } }
    {
        self.links += 1;
    }

    /// Counts a fault where it is one, and hands it on.
    pub(crate) fn fault(&mut self, fault: NetFault) -> NetFault
        ensures value { result ≡ fault }
        ensures counted { self.new ≡ record self.old { faults = with_fault fault self.old.faults } }
    {
        match fault {
            NetFault::Failed => self.faults = self.faults.saturating_add(1),
            NetFault::NoMemory => {}
        }
        fault
    }

    /// Counts a link that came back.
    pub(crate) fn note_back(&mut self, link: &LinkCounts)
        ensures { self.new ≡ given_back link.now self.old }
    {
        if link.is_broken() {
            self.faults = self.faults.saturating_add(1);
        }
        self.taken = self.taken.saturating_add(link.taken());
    }

    /// Counts a rest that came back with so many faults.
    pub(crate) fn note_rest(&mut self, faults: u64)
        ensures { self.new ≡ rest_given_back faults self.old }
    {
        if faults > 0 {
            self.faults = self.faults.saturating_add(1);
        }
    }
}
