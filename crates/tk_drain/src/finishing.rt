//! The drive of an order: its events, then the raises that are left, with a settling behind each.

ghost use Rattle.std.specs.Prelude.{◌≡◌, [], ◌∷◌, IfOk, OnErr, OnOk};
ghost use Rattle.tk_story.specs.Moments.{IsOver};
ghost use Rattle.tk_story.specs.Story.{IsStory};
ghost use Rattle.tk_world.specs.Events.{raise_at};
ghost use Rattle.tk_drain.specs.Drive.{BeginsDrive, BeginsFinishes, BeginsFinishing, Drives, IsFinishing};
ghost use Rattle.tk_drain.specs.Passing.{MayRaise, Passes, raises};

use crate::parts::{longest_of, parts_of};
use crate::sweeps::settle;
use std::alloc::Global;
use tk_base::{Feeder, Mon, NoMemory};
use tk_input::Order;
use tk_world::{Moved, Nodes, World};

/// Raises the next change of a part and settles, unless the part is at its end.
fn raise_one<N: Nodes>(world: &mut World<N>, mon: Mon, f: Feeder) -> Result<Moved, NoMemory>
    ensures ok { IfOk result (λ moved. MayRaise (raise_at mon.0 f.0) moved world.old world.new) }
    ensures err { OnErr result (BeginsFinishes (raise_at mon.0 f.0 ∷ []) world.old world.new) }
    ensures legal { IsStory world.new.story }
{
    match world.raise(mon, f) {
        Moved::Yes => {
            settle(world)?;
            Ok(Moved::Yes)
        }
        Moved::Idle => Ok(Moved::Idle),
    }
}

/// Raises one change of each of the parts, each followed by settling, and leaves the parts that had one.
fn raise_each<N: Nodes>(
    world: &mut World<N>,
    parts: &mut Vec<(Mon, Feeder)>,
) -> Result<(), NoMemory>
    requires { IsStory world.old.story }
    ensures ok { OnOk result (Passes (raises parts.old.items) (raises parts.new.items) world.old world.new) }
    ensures err { OnErr result (BeginsFinishes (raises parts.old.items) world.old world.new) }
    ensures legal { IsStory world.new.story }
{
    world.touch(parts.as_slice());
    let mut kept = 0;
    for i in 0..parts.len() {
        let part = parts[i];
        match raise_one(world, part.0, part.1)? {
            Moved::Yes => {
                parts[kept] = part;
                kept += 1;
            }
            Moved::Idle => {}
        }
    }
    parts.truncate(kept);
    Ok(())
}

/// Settles, then in passes raises one change of each part that has changes left, monitors and feeders ascending, and
/// settles after each. A part that is at its end costs nothing in later passes.
pub fn finish<N: Nodes>(alloc: Global, world: &mut World<N>) -> Result<(), NoMemory>
    ensures finished { OnOk result (IsFinishing world.old world.new) }
    ensures over { OnOk result (IsOver world.new.story) }
    ensures err { OnErr result (BeginsFinishing world.old world.new) }
    ensures legal { IsStory world.new.story }
{
    settle(world)?;
    let mut parts = parts_of(alloc, world.logs())?;
    for pass in 0..longest_of(world.logs()) {
        raise_each(world, &mut parts)?;
    }
    Ok(())
}

/// Lets the events of an order happen, passing over those that are not enabled where they stand, and then finishes.
pub fn drive<N: Nodes>(alloc: Global, world: &mut World<N>, order: &Order) -> Result<(), NoMemory>
    ensures driven { OnOk result (Drives order.now.events world.old world.new) }
    ensures over { OnOk result (IsOver world.new.story) }
    ensures err { OnErr result (BeginsDrive order.now.events world.old world.new) }
    ensures legal { IsStory world.new.story }
{
    // The settings are read for their clause, that the world's story is one.
    let _ = world.settings();
    for i in 0..order.len() {
        world.step(order.at(i).try_clone()?)?;
    }
    finish(alloc, world)
}
