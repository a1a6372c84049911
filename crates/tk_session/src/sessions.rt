//! The sessions of a run: how events move the present one, a restart begins the next, and all become stories.

ghost use Rattle.std.specs.Prelude.{◌≡◌, ◌+◌, ◌-◌, ◌^◌, [], ◌∷◌, ◌++◌, true, IfOk, OnErr, OnOk, is_ok, is_some, length, min};
ghost use Rattle.tk_story.specs.Moments.{cut_of};
ghost use Rattle.tk_story.specs.Story.{IsStory};
ghost use Rattle.tk_world.specs.Events.{next_of};
ghost use Rattle.tk_world.specs.World.{Moves, is_raise};
ghost use Rattle.tk_input.specs.Logs.{beginnings};
ghost use Rattle.tk_session.specs.Chain.{IsChain, begun};
ghost use Rattle.tk_session.specs.Order.{lines_of};
ghost use Rattle.tk_session.specs.Sessions.{AreFinished, PlaysFront, all_of, played, restarted, with_line};

use crate::laws::{a_beginning_is_a_session, a_session_goes_on, a_story_ends_at_a_cut};
use crate::session_line::SessionLine;
use crate::session_order::SessionOrder;
use std::alloc::Global;
use std::marker::Model;
use std::mem;
use tk_base::{NoMemory, Settings};
use tk_drain::finish;
use tk_input::{Event, Logs};
use tk_story::Story;
use tk_world::{Moved, World};

/// The worlds of a coordinator that restarts: those that a restart ended, as they stood, and the one that goes on.
/// Contracts see the story of each. They are a chain of sessions.
#[derive(Drop)]
pub struct Sessions {
    past: Vec<World>,
    present: World,
}

impl Model for Sessions {
    ghost use Rattle.std.specs.Prelude.{[], ◌∷◌, ◌++◌};
    ghost use Rattle.tk_session.specs.Chain.{IsChain};
    ghost use Rattle.tk_session.specs.Sessions.{SessionsView};

    ghost Value = { SessionsView };

    ghost view = { λ s. record { past = s.past.items; present = s.present } };

    ghost invariant = { λ s. IsChain s.present.story.settings s.present.story.logs (s.past.items ++ s.present ∷ []) };
}

/// A world over a copy of the same logs that begins at the cut where another one stands.
fn next_world(alloc: Global, world: &World) -> Result<World, NoMemory>
    ensures value { IfOk result (λ w. w ≡ begun world.now.story.settings world.now.story.logs (cut_of world.now.story)) }
    ensures legal { IfOk result (λ w. IsStory w.story) }
{
    let settings = *world.settings();
    a_story_ends_at_a_cut();
    let from = world.cut()?;
    let logs = world.logs().try_clone(alloc)?;
    let next = World::new(alloc, settings, logs, from)?;
    // The settings are read for their clause, that the world's story is one.
    let _ = next.settings();
    Ok(next)
}

/// Appends the story of a world. Here and below what is large is dropped by name: a place that drops it by itself is dear to prove.
fn add_story(stories: &mut Vec<Story>, world: World) -> Result<(), NoMemory>
    ensures { OnOk result (stories.new.items ≡ stories.old.items ++ world ∷ []) }
{
    let Ok(()) = stories.reserve(1) else {
        drop(world);
        return Err(NoMemory);
    };
    let story = world.into_story()?;
    stories.push_reserved(story);
    Ok(())
}

/// Appends the stories of some worlds, in order.
fn add_stories(stories: &mut Vec<Story>, worlds: Vec<World>) -> Result<(), NoMemory>
    ensures { OnOk result (stories.new.items ≡ stories.old.items ++ worlds.items) }
{
    for world in worlds {
        add_story(stories, world)?;
    }
    Ok(())
}

/// Finishes the present session, and puts the stories of all into an empty list.
fn finish_all(alloc: Global, stories: &mut Vec<Story>, sessions: Sessions) -> Result<(), NoMemory>
    requires { stories.old.items ≡ [] }
    ensures { OnOk result (AreFinished sessions stories.new.items) }
{
    let (past, mut last) = sessions.into_parts();
    let Ok(()) = finish(alloc, &mut last) else {
        drop(past);
        drop(last);
        return Err(NoMemory);
    };
    let Ok(()) = add_stories(stories, past) else {
        drop(last);
        return Err(NoMemory);
    };
    add_story(stories, last)
}

impl Sessions {
    /// The first session begins before all changes.
    pub fn new(alloc: Global, settings: Settings, logs: Logs) -> Result<Sessions, NoMemory>
        requires objects { logs.objects ≡ settings.objects }
        requires monitors { length logs.logs ≡ settings.monitors }
        ensures value { IfOk result (λ s. s ≡ record { past = []; present = begun settings logs (beginnings logs) }) }
        ensures legal { IfOk result (λ s. IsStory s.present.story) }
    {
        let from = logs.start(alloc)?;
        let present = World::new(alloc, settings, logs, from)?;
        a_beginning_is_a_session();
        let _ = present.settings();
        Ok(Sessions {
            past: Vec::new(alloc),
            present,
        })
    }

    /// Makes an event happen in the present session, or tells that it is not enabled there.
    pub fn step(&mut self, event: Event) -> Result<Moved, NoMemory>
        ensures ok { IfOk result (λ moved. Moves self.old.present event moved self.new.present) }
        ensures past { self.new.past ≡ self.old.past }
        // Want of memory comes only of an event that is enabled.
        ensures enabled { OnErr result (is_some (next_of self.old.present.story event) ≡ true) }
        ensures err { OnErr result (self.new ≡ self.old) }
        ensures raise { is_raise event ≡ true → is_ok result ≡ true }
    {
        a_session_goes_on();
        self.present.step(event)
    }

    /// Keeps the present session as it stands and begins the next one at its cut. The coordinator and all frames on links
    /// are lost; the monitors keep their places. Costs what a new world does.
    pub fn restart(&mut self) -> Result<(), NoMemory>
        ensures ok { OnOk result (self.new ≡ restarted self.old) }
        ensures err { OnErr result (self.new ≡ self.old) }
    {
        let alloc = *self.past.allocator();
        self.past.reserve(1)?;
        a_beginning_is_a_session();
        let next = next_world(alloc, &self.present)?;
        let ended = mem::replace(&mut self.present, next);
        self.past.push_reserved(ended);
        Ok(())
    }

    /// How many sessions there are. The count stands still at its type's end.
    pub fn count(&self) -> u32
        ensures { result ≡ min (length self.now.past + 1) (2 ^ 32 - 1) }
    {
        self.past.len().min(u32::MAX as usize - 1) as u32 + 1
    }

    /// The world of the present session.
    pub fn present(&self) -> &World
        ensures { result.now ≡ self.now.present }
    {
        &self.present
    }

    /// The past sessions, and the present one.
    pub fn into_parts(self) -> (Vec<World>, World)
        ensures past { result.0.items ≡ self.past }
        ensures present { result.1 ≡ self.present }
        ensures chain { IsChain self.present.story.settings self.present.story.logs (all_of self) }
    {
        (self.past, self.present)
    }

    fn take(&mut self, line: &SessionLine) -> Result<(), NoMemory>
        ensures ok { OnOk result (self.new ≡ with_line self.old line.now) }
        ensures err { OnErr result (self.new ≡ self.old) }
    {
        match line {
            SessionLine::Step(event) => {
                self.step(event.try_clone()?)?;
                Ok(())
            }
            SessionLine::Restart => self.restart(),
        }
    }

    /// Lets the lines of an order happen, passing over events that are not enabled where they stand.
    pub fn play(&mut self, order: &SessionOrder) -> Result<(), NoMemory>
        ensures ok { OnOk result (self.new ≡ played self.old (lines_of order.now)) }
        ensures err { OnErr result (PlaysFront (lines_of order.now) self.old self.new) }
    {
        for i in 0..order.len() {
            self.take(order.at(i))?;
        }
        Ok(())
    }

    /// Finishes the present session, and answers the stories of all.
    pub fn into_stories(self, alloc: Global) -> Result<Vec<Story>, NoMemory>
        ensures { IfOk result (λ stories. AreFinished self stories.items) }
    {
        let mut stories = Vec::new(alloc);
        let Ok(()) = finish_all(alloc, &mut stories, self) else {
            drop(stories);
            return Err(NoMemory);
        };
        Ok(stories)
    }
}
