//! The legs of a sweep: one event at each monitor that may have something to do.

ghost use Rattle.std.specs.Prelude.{◌≡◌, IfOk, OnErr};
ghost use Rattle.tk_story.specs.Kept.{KeptStory};
ghost use Rattle.tk_story.specs.Story.{IsStory};
ghost use Rattle.tk_world.specs.Events.{CanOnlyChange};
ghost use Rattle.tk_drain.specs.Drive.{KeepsFront, keep_all};
ghost use Rattle.tk_drain.specs.Legs.{Grows, leg_at, leg_events};

use tk_base::{Mon, NoMemory};
use tk_input::Event;
use tk_world::{Moved, Nodes, World};

/// What a sweep does with each monitor before it goes on to the next thing.
#[derive(Clone, Copy, Debug)]
pub enum Leg {
    Check,
    Up,
    Down,
}

impl Leg {
    fn event(self, mon: Mon) -> Event
        ensures { result ≡ leg_at self mon.0 }
    {
        match self {
            Leg::Check => Event::Check(mon),
            Leg::Up => Event::Up(mon),
            Leg::Down => Event::Down(mon),
        }
    }
}

/// One leg over the monitors that may have something to do; at the others it would change nothing.
pub fn run<N: Nodes>(world: &mut World<N>, leg: Leg) -> Result<Moved, NoMemory>
    requires { IsStory world.old.story }
    ensures ok { IfOk result (λ _. world.new ≡ keep_all world.old (leg_events leg world.old.story.settings)) }
    ensures moved { IfOk result (λ moved. Grows moved world.old world.new) }
    ensures enabled { OnErr result (CanOnlyChange world.old.story → ⊥) }
    ensures err { OnErr result (KeepsFront (leg_events leg world.old.story.settings) world.old world.new) }
    ensures legal { IsStory world.new.story }
{
    let mut moved = Moved::Idle;
    let mut next = Mon(1);
    while let Some(mon) = world.next_busy(next) {
        match world.step(leg.event(mon))? {
            Moved::Yes => moved = Moved::Yes,
            Moved::Idle => {}
        }
        next = Mon(mon.0 + 1);
    }
    Ok(moved)
}

/// Whether one or both of two parts of a sweep moved something.
pub fn either(first: Moved, then: Moved) -> Moved
    ensures { (old between new : KeptStory) → Grows first old between → Grows then between new → Grows result old new }
{
    match first {
        Moved::Yes => Moved::Yes,
        Moved::Idle => then,
    }
}
