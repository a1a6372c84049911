//! The story of a run, with what it shows: its logs, settings, events, journal and trails.

ghost use Rattle.std.specs.Prelude.{◌≡◌, ◌-◌, ◌<◌, ◌≤◌, Some, slice_get};
ghost use Rattle.tk_journal.specs.Kinds.{turns_of};
ghost use Rattle.tk_story.specs.Story.{IsStory, story_over};

mod join;

use std::marker::Model;
use tk_base::{Cut, Mon, Settings};
use tk_coord::Coordinator;
use tk_input::{Event, Logs};
use tk_journal::{Noted, Turn};
use tk_monitor::Monitor;
use tk_trail::Entry;

/// What happened in one run: what it was over, which events took place, and what each node kept of them. Contracts
/// see the legal story, and the events beside it.
#[derive(Drop)]
pub struct Story {
    logs: Logs,
    settings: Settings,
    from: Cut,
    events: Vec<Event>,
    coordinator: Coordinator,
    monitors: Vec<Monitor>,
}

impl Model for Story {
    ghost use Rattle.std.specs.Prelude.{◌≡◌};
    ghost use Rattle.tk_story.specs.Kept.{KeptStory};
    ghost use Rattle.tk_story.specs.Story.{IsStory, story_over};

    ghost Value = { KeptStory };

    ghost view = { λ s. record {
      story = story_over s.settings s.logs s.from s.coordinator.journal s.monitors.items;
      events = s.events.items;
    } };

    ghost invariant = { λ s. IsStory (story_over s.settings s.logs s.from s.coordinator.journal s.monitors.items)
        × (s.coordinator.settings ≡ s.settings) };
}

impl Story {
    /// Keeps nodes whose histories make a legal story over these logs and settings, from these starting places.
    pub fn of(
        coordinator: Coordinator,
        monitors: Vec<Monitor>,
        logs: Logs,
        settings: Settings,
        from: Cut,
        events: Vec<Event>,
    ) -> Story
        requires settings { coordinator.settings ≡ settings }
        requires story { IsStory (story_over settings logs from coordinator.journal monitors.items) }
        ensures story { result.story ≡ story_over settings logs from coordinator.journal monitors.items }
        ensures events { result.events ≡ events.items }
    {
        Story {
            logs,
            settings,
            from,
            events,
            coordinator,
            monitors,
        }
    }

    /// The same story with another list of events.
    pub fn with_events(self, events: Vec<Event>) -> Story
        ensures story { result.story ≡ self.story }
        ensures events { result.events ≡ events.items }
    {
        let Story {
            logs,
            settings,
            from,
            coordinator,
            monitors,
            ..
        } = self;
        Story {
            logs,
            settings,
            from,
            events,
            coordinator,
            monitors,
        }
    }

    /// The logs that it is over.
    pub fn logs(&self) -> &Logs
        ensures { result.now ≡ self.now.story.logs }
    {
        &self.logs
    }

    /// What its coordinator was made with.
    pub fn settings(&self) -> &Settings
        ensures { result.now ≡ self.now.story.settings }
    {
        &self.settings
    }

    /// The places at which the monitors started.
    pub fn from(&self) -> &Cut
        ensures { result.now ≡ self.now.story.from }
    {
        &self.from
    }

    /// The events kept with it, in order.
    pub fn events(&self) -> &[Event]
        ensures { result.now ≡ self.now.events }
    {
        self.events.as_slice()
    }

    /// What its coordinator did.
    pub fn journal(&self) -> &[Noted]
        ensures value { result.now ≡ self.now.story.journal }
        ensures legal { IsStory self.now.story }
    {
        self.coordinator.journal()
    }

    /// The turns of the journal, in order: one for each frame taken and each retune.
    pub fn turns(&self) -> &[Turn]
        ensures { result.now ≡ turns_of self.now.story.settings self.now.story.journal }
    {
        self.coordinator.turns()
    }

    /// What a monitor did.
    pub fn trail(&self, mon: Mon) -> &[Entry]
        requires some { 0 < mon.0 }
        requires monitor { mon.0 ≤ self.now.story.settings.monitors }
        ensures { slice_get self.now.story.trails (mon.0 - 1) ≡ Some result.now }
    {
        self.monitors[mon.0 as usize - 1].trail()
    }
}
