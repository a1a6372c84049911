ghost use Rattle.std.specs.Prelude.{◌≡◌, ◌<◌, [], None, false, IfSome};

use std::marker::Model;
use std::sync::atomic::{AtomicU64, Ordering};

/// What the ends of a net in memory share: which of its calls fail, which byte is turned, and how far both counts are.
#[derive(Drop)]
pub(crate) struct Plan {
    fails: Vec<u64>,
    flip: Option<u64>,
    calls: AtomicU64,
    given: AtomicU64,
}

impl Model for Plan {
    ghost use Rattle.tk_net.specs.Memory.{PlanView};

    ghost Value = { PlanView };

    ghost view = { λ p. record { fails = p.fails.items; flip = p.flip } };
}

impl Plan {
    /// A plan before the first call and the first byte.
    pub(crate) fn new(fails: Vec<u64>, flip: Option<u64>) -> Plan
        ensures { result ≡ record { fails = fails.items; flip = flip } }
    {
        Plan {
            fails,
            flip,
            calls: AtomicU64::new(0),
            given: AtomicU64::new(0),
        }
    }

    /// Counts a call, and says whether it fails. Calls are numbered from 1.
    pub(crate) fn refuses(&self) -> bool
        ensures listed { self.now.fails ≡ [] → result ≡ false }
    {
        let number = self.calls.fetch_add(1, Ordering::SeqCst).wrapping_add(1);
        self.fails.contains(&number)
    }

    /// Counts so many more bytes as given, and says which of them is turned, if one is. Bytes have places from 0.
    pub(crate) fn give(&self, count: usize) -> Option<usize>
        ensures place { IfSome result (λ place. place < count) }
        ensures planned { self.now.flip ≡ None → result ≡ None }
    {
        let place = self.given.fetch_add(count as u64, Ordering::SeqCst);
        let index = self.flip?.checked_sub(place)?;
        if index < count as u64 {
            Some(index as usize)
        } else {
            None
        }
    }

    /// How many bytes were given so far.
    pub(crate) fn given(&self) -> u64 {
        self.given.load(Ordering::SeqCst)
    }
}
