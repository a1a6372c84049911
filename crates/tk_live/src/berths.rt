//! The ports of a live run before they are served, with the room that their workers will need.

ghost use Rattle.std.specs.Prelude.{◌≡◌, ◌≤◌, [], length, vec_capacity};

use crate::crew::Slot;
use crate::worked::{Berth, Worked};
use tk_wire::{Rest, Wire};

/// The ports that are served, and the room for what their workers leave.
#[derive(Drop)]
pub struct Crew<W: Wire, Q: Rest, B> {
    pub berths: Vec<Berth<W, Q, B>>,
    pub slots: Vec<Slot<W, Q>>,
    pub workers: Vec<Worked<W, Q>>,
    pub ghost no_slots: { slots.items ≡ [] },
    pub ghost no_workers: { workers.items ≡ [] },
    pub ghost slots_room: { length berths.items ≤ vec_capacity slots },
    pub ghost workers_room: { length berths.items ≤ vec_capacity workers },
}
