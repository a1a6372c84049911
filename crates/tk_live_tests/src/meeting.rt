//! A gate that shows whether two feeders of a monitor run at once.

use std::sync::atomic::{AtomicBool, AtomicU64, Ordering};
use tk_base::{Feeder, Mon};
use tk_serve::Gate;

/// How long a feeder is held, in turns.
const LIMIT: u32 = 1_000_000_000;

/// A gate at which two feeders of one monitor meet: each is held at its second raise until the other has come to its own.
#[derive(Drop)]
pub struct Meeting {
    is_open: bool,
    first: AtomicU64,
    second: AtomicU64,
    missed: AtomicBool,
}

impl Meeting {
    /// Nobody has come yet.
    pub fn new() -> Meeting {
        Meeting::of(false)
    }

    /// One that holds nobody.
    pub fn open() -> Meeting {
        Meeting::of(true)
    }

    fn of(is_open: bool) -> Meeting {
        Meeting {
            is_open,
            first: AtomicU64::new(0),
            second: AtomicU64::new(0),
            missed: AtomicBool::new(false),
        }
    }

    /// Whether a feeder was held to the limit.
    pub fn missed(&self) -> bool {
        self.missed.load(Ordering::SeqCst)
    }

    fn meet(&self, mine: &AtomicU64, other: &AtomicU64) {
        if self.is_open || mine.fetch_add(1, Ordering::SeqCst) != 1 {
            return;
        }
        for _ in 0..LIMIT {
            if other.load(Ordering::SeqCst) > 1 {
                return;
            }
        }
        self.missed.store(true, Ordering::SeqCst);
    }
}

impl Gate for Meeting {
    fn before(&self, _mon: Mon, f: Feeder) {
        if f.0 == 1 {
            self.meet(&self.first, &self.second);
        } else {
            self.meet(&self.second, &self.first);
        }
    }
}
