ghost use Rattle.std.specs.Prelude.{◌≡◌};

use crate::door::most_wait;
use mio::{Events, Poll};
use std::marker::Model;
use tk_wire::{NetFault, Rest};

/// How one who reads a link over a socket waits.
#[derive(Drop)]
pub struct SocketRest {
    poll: Poll,
    events: Events,
    faults: u64,
}

impl Model for SocketRest {
    ghost use Rattle.std.specs.Prelude.{ℕ};

    ghost Value = { ℕ };

    ghost view = { λ r. r.faults };
}

impl SocketRest {
    /// A rest that ends at what is registered with the poll.
    pub(crate) fn new(poll: Poll, events: Events) -> SocketRest
        ensures { result ≡ 0 }
    {
        SocketRest {
            poll,
            events,
            faults: 0,
        }
    }
}

impl Rest for SocketRest {
    ghost fault_count = { λ faults. faults };

    fn faults(&self) -> u64 {
        self.faults
    }

    fn rest(&mut self) -> Result<(), NetFault> {
        if self.poll.poll(&mut self.events, Some(most_wait())).is_ok() {
            return Ok(());
        }
        self.faults = self.faults.saturating_add(1);
        Err(NetFault::Failed)
    }
}
