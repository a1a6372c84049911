ghost use Rattle.std.specs.Prelude.{◌≡◌, false, IfOk};
ghost use Rattle.tk_net.specs.Counting.{no_counts, untold};

use crate::carrier::Carrier;
use crate::link_counts::LinkCounts;
use crate::socket::Socket;
use std::alloc::Global;
use std::marker::Model;
use std::time::Clock;
use tk_base::NoMemory;
use tk_wire::{Dialed, Gave, Greeting, Took, Wire};

/// One end of a connection between hosts: chunks with check sums over a socket, and pulses where nothing else goes.
///
/// Takes alone give pulses and judge how long the peer is silent. So a take is due at least each twentieth of a second, the
/// longest time that a host's wait or a rest lasts: a hub takes of each of its links in every turn, and a port of its own one.
#[derive(Drop)]
pub struct Cable<H: Clock + Copy> {
    carrier: Carrier<H>,
    counts: LinkCounts,
    // Whether the greeting lies ahead or behind. Until then it gives no pulse.
    greeted: bool,
    shut: bool,
}

impl<H: Clock + Copy> Model for Cable<H> {
    ghost use Rattle.tk_net.specs.Hosting.{DialedView};

    ghost Value = { DialedView };

    ghost view = { λ c. record { counts = c.counts; shut = c.shut; greeted = c.greeted } };
}

impl<H: Clock + Copy> Cable<H> {
    /// A cable over a socket by which nothing goes any more but chunks, once it was greeted. A peer of which nothing comes for
    /// so many seconds is lost.
    pub(crate) fn new(
        alloc: Global,
        socket: Socket,
        clock: H,
        silence: u64,
        greeted: bool,
    ) -> Result<Cable<H>, NoMemory>
        ensures { IfOk result (λ cable. cable ≡ record { counts = no_counts; shut = false; greeted = greeted }) }
    {
        Ok(Cable {
            carrier: Carrier::new(alloc, socket, clock, silence)?,
            counts: LinkCounts::new(),
            greeted,
            shut: false,
        })
    }
}

impl<H: Clock + Copy> Wire for Cable<H> {
    ghost tells = { false };

    ghost traffic = { λ _. untold };

    ghost counts = { λ c. c.counts };

    ghost is_shut = { λ c. c.shut };

    fn faults(&self) -> u64 {
        self.counts.faults()
    }

    fn ends(&self) -> u64 {
        self.counts.ends()
    }

    fn taken(&self) -> u64 {
        self.counts.taken()
    }

    fn take(&mut self, into: &mut [u8]) -> Took {
        let took = self.carrier.take(into, self.greeted);
        self.counts.note_take(took);
        took
    }

    fn give(&mut self, bytes: &[u8]) -> Gave {
        let gave = self.carrier.give(bytes);
        self.counts.note_give(gave);
        gave
    }

    fn shut(&mut self) {
        self.carrier.shut();
        self.shut = true;
    }
}

impl<H: Clock + Copy> Dialed for Cable<H> {
    ghost greeted = { λ c. c.greeted };

    fn greet(&mut self, greeting: &Greeting) -> Result<(), NoMemory> {
        self.carrier.greet(greeting)?;
        self.greeted = true;
        Ok(())
    }
}
