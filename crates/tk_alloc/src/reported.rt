//! What a round knows of each monitor that takes part in it.

use tk_base::{Mon, Pairs};

/// What a monitor reports to a round: its values of the round's objects, and its border over them.
#[derive(Debug, Drop)]
pub struct Reported {
    pub mon: Mon,
    pub values: Pairs,
    pub border: i128,
}
