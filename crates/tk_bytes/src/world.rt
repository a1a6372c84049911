//! The world over nodes at the ends of wires in memory, and how it begins.

ghost use Rattle.std.specs.Prelude.{◌≡◌, ◌<◌, ◌≤◌, [], IfOk};
ghost use Rattle.tk_frames.specs.Spelling.{IsVersion};
ghost use Rattle.tk_world.specs.Events.{begin};
ghost use Rattle.tk_world.specs.World.{CanRun};

use crate::wired::Wired;
use std::alloc::Global;
use tk_base::{Cut, NoMemory, Settings};
use tk_input::Logs;
use tk_world::World;

/// A world whose frames go as bytes.
pub type ByteWorld = World<Wired>;

/// A world in which nothing has happened, whose frames go in a version, 1 or 2. No wire moves more than `piece` bytes at
/// once, 1 to 65,536. Costs what a world costs, and the pipes, of `piece` bytes each way and monitor.
pub fn byte_world(
    alloc: Global,
    settings: Settings,
    logs: Logs,
    from: Cut,
    piece: usize,
    version: u8,
) -> Result<ByteWorld, NoMemory>
    requires run { CanRun settings logs from }
    requires piece { (0 < piece) × (piece ≤ 65536) }
    requires version { IsVersion version }
    ensures { IfOk result (λ w. w ≡ record { story = begin settings logs from; events = [] }) }
{
    let nodes = Wired::new(alloc, settings, &logs, &from, piece, version)?;
    World::over(alloc, nodes, logs, from)
}
