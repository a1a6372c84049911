//! The run of an order whose frames go as bytes, to its story.

ghost use Rattle.std.specs.Prelude.{◌≡◌, ◌<◌, ◌≤◌, [], IfOk, OnOk, length};
ghost use Rattle.tk_drain.specs.Drive.{Drives, events_in};
ghost use Rattle.tk_frames.specs.Spelling.{IsVersion};
ghost use Rattle.tk_input.specs.Logs.{beginnings};
ghost use Rattle.tk_story.specs.Moments.{IsOver};
ghost use Rattle.tk_story.specs.Story.{IsStory};
ghost use Rattle.tk_world.specs.Events.{begin};

use crate::world::{ByteWorld, byte_world};
use std::alloc::Global;
use tk_base::{NoMemory, Settings};
use tk_drain::{drive, finish};
use tk_input::{Logs, Order};
use tk_story::Story;

/// Lets the events of an order happen, if there is one, and then finishes.
fn drive_by(alloc: Global, world: &mut ByteWorld, order: &Option<Order>) -> Result<(), NoMemory>
    ensures over { OnOk result (IsOver world.new.story) }
    ensures legal { OnOk result (IsStory world.new.story) }
    ensures driven { OnOk result (Drives (events_in order.now) world.old world.new) }
{
    match order {
        Some(order) => drive(alloc, world, order),
        None => finish(alloc, world),
    }
}

/// The story of a world that has begun, once it is driven. Where there is no memory the world is dropped here by name: a place
/// that drops one by itself is dear to prove.
fn tell(alloc: Global, begun: ByteWorld, order: &Option<Order>) -> Result<Story, NoMemory>
    ensures over { IfOk result (λ told. IsOver told.story) }
    ensures legal { IfOk result (λ told. IsStory told.story) }
    ensures driven { IfOk result (λ told. Drives (events_in order.now) begun told) }
{
    let mut world = begun;
    match drive_by(alloc, &mut world, order) {
        Ok(()) => world.into_story(),
        Err(NoMemory) => {
            drop(world);
            Err(NoMemory)
        }
    }
}

/// The story of a run from before all changes, whose frames go in a version, 1 or 2, over wires that move at most `piece`
/// bytes at once: the events of its order, if there is one, and then the drive to the ends of the logs.
pub fn byte_story(
    alloc: Global,
    settings: Settings,
    logs: Logs,
    order: &Option<Order>,
    piece: usize,
    version: u8,
) -> Result<Story, NoMemory>
    requires objects { logs.objects ≡ settings.objects }
    requires monitors { length logs.logs ≡ settings.monitors }
    requires piece { (0 < piece) × (piece ≤ 65536) }
    requires version { IsVersion version }
    ensures over { IfOk result (λ told. IsOver told.story) }
    ensures legal { IfOk result (λ told. IsStory told.story) }
    ensures driven { IfOk result (λ told. Drives (events_in order.now)
        (record { story = begin settings logs (beginnings logs); events = [] }) told) }
{
    let from = logs.start(alloc)?;
    let begun = byte_world(alloc, settings, logs, from, piece, version)?;
    tell(alloc, begun, order)
}
