//! A flag between the threads of a live run, which stays raised once it is.

use std::sync::atomic::{AtomicBool, Ordering};

/// A flag that says that some serving ended before Stop. No clause speaks of its value.
#[derive(Drop)]
pub struct Alarm {
    raised: AtomicBool,
}

impl Alarm {
    /// No alarm is raised.
    pub fn new() -> Alarm {
        Alarm {
            raised: AtomicBool::new(false),
        }
    }

    /// Raises it, for good.
    pub fn raise(&self) {
        self.raised.store(true, Ordering::SeqCst);
    }

    /// Whether it is raised.
    pub fn raised(&self) -> bool {
        self.raised.load(Ordering::SeqCst)
    }
}
