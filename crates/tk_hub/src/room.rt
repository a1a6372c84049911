//! Room for wires, so that the end of a hub takes no memory.

use std::alloc::Global;
use std::marker::Model;
use tk_base::NoMemory;
use tk_wire::Wire;

/// The greatest number of monitors.
const MONITORS: usize = 64;

/// Room for the wires of all monitors, which is taken at the beginning.
#[derive(Drop)]
pub struct Room<W: Wire> {
    wires: Vec<W>,
}

impl<W: Wire> Model for Room<W> {
    ghost use Rattle.std.specs.Prelude.{◌≡◌, ◌≤◌, List, [], vec_capacity};

    ghost Value = { List W };

    ghost view = { λ r. r.wires.items };

    ghost invariant = { λ r. (r.wires.items ≡ []) × (64 ≤ vec_capacity r.wires) };
}

impl<W: Wire + Drop> Room<W> {
    ghost use Rattle.std.specs.Prelude.{◌≡◌, ◌≤◌, [], vec_capacity};

    /// Takes the room.
    pub fn new(alloc: Global) -> Result<Room<W>, NoMemory> {
        let wires = Vec::with_capacity(alloc, MONITORS)?;
        Ok(Room { wires })
    }

    /// No wire yet, and the room. It takes no memory.
    pub fn into_wires(self) -> Vec<W>
        ensures empty { result.items ≡ [] }
        ensures room { 64 ≤ vec_capacity result }
    {
        self.wires
    }
}
