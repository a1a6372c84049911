//! A flag by which the one who serves the link is let to the lock.

use std::sync::atomic::{AtomicBool, Ordering};

/// A flag that one thread raises while it wants the lock, and that others look at before they take it. No clause speaks of
/// its value.
#[derive(Drop)]
pub struct Wish {
    raised: AtomicBool,
}

impl Wish {
    /// Nobody wants the lock.
    pub fn new() -> Wish {
        Wish {
            raised: AtomicBool::new(false),
        }
    }

    /// Somebody wants the lock, or no longer.
    pub fn set(&self, wanted: bool) {
        self.raised.store(wanted, Ordering::SeqCst);
    }

    /// Whether somebody wants it.
    pub fn is_set(&self) -> bool {
        self.raised.load(Ordering::SeqCst)
    }
}
