//! How far a story is told, and its next event.

ghost use Rattle.std.specs.Prelude.{◌≡◌, ◌-◌, ◌++◌, IfOk, OnOk, option_map, slice_get, true};
ghost use Rattle.tk_journal.specs.Laws.{IsMonitor};
ghost use Rattle.tk_story.specs.Story.{IsStory};
ghost use Rattle.tk_world.specs.Events.{is_of};
ghost use Rattle.tk_show.specs.Text.{begun, line_of, mon_of as mon_of_event, monitor_text, monitors_after, next_telling, next_text};

use crate::told::Told;
use crate::turned::{Turned, push_turn};
use std::alloc::{AllocError, Global};
use std::marker::Model;
use tk_base::{Cut, Mon, NoMemory};
use tk_input::{Catalog, Event};
use tk_story::Story;

/// How far each monitor and the coordinator are told.
#[derive(Drop)]
pub struct Telling {
    monitors: Vec<Told>,
    coordinator: Turned,
}

impl Model for Telling {
    ghost use Rattle.tk_show.specs.Text.{Telling as TellingOf};

    ghost Value = { TellingOf };

    ghost view = { λ t. record { monitors = t.monitors.items; coordinator = t.coordinator } };
}

/// The monitor whose trail goes on by an event; none where the journal does.
fn mon_of(event: &Event) -> Option<Mon>
    ensures { option_map (λ mon. mon.0) result ≡ mon_of_event event.now }
{
    match event {
        Event::Raise(mon, _) => Some(*mon),
        Event::Check(mon) => Some(*mon),
        Event::Down(mon) => Some(*mon),
        Event::Up(_) => None,
        Event::Retune(_) => None,
    }
}

/// What a monitor does next.
fn push_monitor(
    line: &mut Vec<u8>,
    monitors: &mut Vec<Told>,
    story: &Story,
    mon: Mon,
    names: &Catalog,
) -> Result<(), AllocError>
    requires story { IsStory story.now.story }
    requires monitor { IsMonitor story.now.story.settings mon.0 }
    ensures text { OnOk result (line.new.items ≡ line.old.items
        ++ monitor_text names.now story.now.story mon.0 (slice_get monitors.old.items (mon.0 - 1))) }
    ensures further { OnOk result (monitors.new.items
        ≡ monitors_after story.now.story monitors.old.items mon.0 (slice_get monitors.old.items (mon.0 - 1))) }
{
    let i = mon.0 as usize - 1;
    if i >= monitors.len() {
        return Ok(());
    }
    monitors[i].push_next(line, story.logs(), mon, story.trail(mon), names)?;
    monitors[i].advance(story.logs(), mon, story.trail(mon));
    Ok(())
}

impl Telling {
    /// Nothing of the trails is told, and so many entries of the journal.
    pub fn from(alloc: Global, from: &Cut, entries: usize) -> Result<Telling, NoMemory>
        ensures { IfOk result (λ t. t ≡ begun from.now entries) }
    {
        let mut monitors = Vec::with_capacity(alloc, from.len())?;
        for i in 0..from.len() {
            monitors.push_reserved(Told::from(alloc, from.at(i))?);
        }
        Ok(Telling {
            monitors,
            coordinator: Turned { entries, turns: 0 },
        })
    }

    /// What happens next by an event, put behind a line.
    fn push_next(
        &mut self,
        line: &mut Vec<u8>,
        story: &Story,
        event: &Event,
        names: &Catalog,
    ) -> Result<(), AllocError>
        requires story { IsStory story.now.story }
        requires event { is_of story.now.story event.now ≡ true }
        ensures text { OnOk result (line.new.items ≡ line.old.items
            ++ next_text names.now story.now.story self.old (mon_of_event event.now)) }
        ensures further { OnOk result (self.new ≡ next_telling story.now.story self.old (mon_of_event event.now)) }
    {
        match mon_of(event) {
            Some(mon) => push_monitor(line, &mut self.monitors, story, mon, names),
            None => push_turn(
                line,
                &mut self.coordinator,
                story.journal(),
                story.turns(),
                names,
            ),
        }
    }

    /// The line of an event. The story is told so far then.
    pub fn line(
        &mut self,
        alloc: Global,
        story: &Story,
        event: &Event,
        names: &Catalog,
    ) -> Result<Vec<u8>, NoMemory>
        requires story { IsStory story.now.story }
        requires event { is_of story.now.story event.now ≡ true }
        ensures line { IfOk result (λ line. line.items ≡ line_of names.now story.now.story self.old event.now) }
        ensures further { OnOk result (self.new ≡ next_telling story.now.story self.old (mon_of_event event.now)) }
    {
        let mut line = Vec::new(alloc);
        self.push_next(&mut line, story, event, names)?;
        line.push(b'\n')?;
        Ok(line)
    }
}
