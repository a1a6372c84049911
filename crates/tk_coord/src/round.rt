//! What the coordinator keeps of a round that asks: its number, whether it is open and wide, and its objects.

ghost use Rattle.std.specs.Prelude.{◌≡◌, [], false};

use crate::entries::no_objects;
use std::alloc::Global;
use tk_base::ObjSet;

/// The last round that has a Collect.
#[derive(Debug, Drop)]
pub struct Round {
    /// Counts the rounds, from 1.
    pub number: u64,
    /// Whether it waits for a monitor.
    pub waiting: bool,
    /// Whether it asks every monitor for all objects.
    pub wide: bool,
    /// The objects that it asks for.
    pub asked: ObjSet,
}

impl Round {
    /// Before the first round.
    pub fn none(alloc: Global) -> Round
        ensures { result ≡ record { number = 0; waiting = false; wide = false; asked = [] } }
    {
        Round {
            number: 0,
            waiting: false,
            wide: false,
            asked: no_objects(alloc),
        }
    }
}
