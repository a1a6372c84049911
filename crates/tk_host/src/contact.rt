ghost use Rattle.std.specs.Prelude.{false};

use crate::reach::Reach;
use crate::stand_in::StandIn;
use tk_wire::{Gave, Took, Wire};

/// A connection to a monitor that is far, or to a stand-in. It tells nothing of its bytes.
#[derive(Drop)]
pub enum Contact<W: Wire> {
    Far(W),
    Near(StandIn),
}

impl<W: Wire> Wire for Contact<W> {
    ghost use Rattle.tk_host.specs.Near.{counts_of, is_shut_of, traffic_of};

    ghost tells = { false };

    ghost traffic = { traffic_of W.traffic };

    ghost counts = { counts_of W.counts };

    ghost is_shut = { is_shut_of W.is_shut };

    fn faults(&self) -> u64 {
        match self {
            Contact::Far(link) => link.faults(),
            Contact::Near(stand_in) => stand_in.faults(),
        }
    }

    fn ends(&self) -> u64 {
        match self {
            Contact::Far(link) => link.ends(),
            Contact::Near(stand_in) => stand_in.ends(),
        }
    }

    fn taken(&self) -> u64 {
        match self {
            Contact::Far(link) => link.taken(),
            Contact::Near(stand_in) => stand_in.taken(),
        }
    }

    fn take(&mut self, into: &mut [u8]) -> Took {
        match self {
            Contact::Far(link) => link.take(into),
            Contact::Near(stand_in) => stand_in.take(into),
        }
    }

    fn give(&mut self, bytes: &[u8]) -> Gave {
        match self {
            Contact::Far(link) => link.give(bytes),
            Contact::Near(stand_in) => stand_in.give(bytes),
        }
    }

    fn shut(&mut self) {
        match self {
            Contact::Far(link) => link.shut(),
            Contact::Near(stand_in) => stand_in.shut(),
        }
    }
}

impl<W: Wire> Reach for Contact<W> {
    type Link = W;

    fn far(link: W) -> Contact<W> {
        Contact::Far(link)
    }

    fn near(stand_in: StandIn) -> Contact<W> {
        Contact::Near(stand_in)
    }
}
