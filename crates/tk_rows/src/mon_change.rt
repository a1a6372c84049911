//! What a reallocation changes at one monitor.

use tk_base::{Mon, Pairs};

/// The new factors of some objects at one monitor.
#[derive(Debug, Drop)]
pub struct MonChange {
    pub mon: Mon,
    pub changes: Pairs,
}
