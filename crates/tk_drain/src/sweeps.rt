//! Sweeps, and the settling that repeats them.

ghost use Rattle.std.specs.Prelude.{◌≡◌, ◌↔◌, ◌+◌, ◌*◌, ◌≤◌, IfOk, OnErr, OnOk};
ghost use Rattle.tk_story.specs.Story.{IsStory};
ghost use Rattle.tk_world.specs.Events.{CanOnlyChange};
ghost use Rattle.tk_world.specs.declared.moved.Moved.TheVariants.{Idle};
ghost use Rattle.tk_drain.specs.Drive.{BeginsSettling, KeepsFront, Settles, sweep_events, swept};
ghost use Rattle.tk_drain.specs.Resting.{ComesToRest};

use crate::leg::{Leg, either, run};
use tk_base::NoMemory;
use tk_world::{Moved, Nodes, World};

/// How many sweeps a settling made, the last one included, which moved nothing.
#[derive(Clone, Copy, Debug, PartialEq, Eq)]
pub struct Sweeps {
    pub count: u64,
}

/// Checks each monitor, then takes one frame of each up, then gives one frame to each, monitors ascending. It looks
/// only at monitors that may have something to do, and one that it finds at rest costs nothing in the next sweep; so
/// a settled world answers in a constant.
pub fn sweep<N: Nodes>(world: &mut World<N>) -> Result<Moved, NoMemory>
    ensures ok { IfOk result (λ _. world.new ≡ swept world.old) }
    ensures idle { IfOk result (λ moved. (moved ≡ Idle) ↔ CanOnlyChange world.old.story) }
    // Want of memory comes only where something is enabled.
    ensures enabled { OnErr result (CanOnlyChange world.old.story → ⊥) }
    ensures err { OnErr result (KeepsFront (sweep_events world.old.story.settings) world.old world.new) }
    ensures legal { IsStory world.new.story }
{
    // The settings are read for their clause, that the world's story is one.
    let _ = world.settings();
    let checks = run(world, Leg::Check)?;
    let ups = run(world, Leg::Up)?;
    let downs = run(world, Leg::Down)?;
    Ok(either(either(checks, ups), downs))
}

/// Sweeps until one moves nothing. A world in which nothing is to do answers in a constant.
pub fn settle<N: Nodes>(world: &mut World<N>) -> Result<Sweeps, NoMemory>
    ensures settles { IfOk result (λ sweeps. Settles world.old world.new sweeps.count) }
    ensures most { IfOk result (λ sweeps. sweeps.count ≤ 87 * world.old.story.settings.monitors + 1) }
    ensures rests { OnOk result (ComesToRest world.old.story world.new.story) }
    // Want of memory comes only where something is enabled.
    ensures enabled { OnErr result (CanOnlyChange world.old.story → ⊥) }
    ensures err { OnErr result (BeginsSettling world.old world.new) }
    ensures legal { IsStory world.new.story }
{
    if world.is_settled() {
        return Ok(Sweeps { count: 1 });
    }
    let most = 87 * u64::from(world.settings().monitors()) + 1;
    for moved in 0..most {
        match sweep(world)? {
            Moved::Yes => {}
            Moved::Idle => return Ok(Sweeps { count: moved + 1 }),
        }
    }
    unreachable!()
}
