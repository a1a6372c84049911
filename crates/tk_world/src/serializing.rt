//! How events are found that a story runs: its journal is walked, and each trail as far as that asks.

ghost use Rattle.std.specs.Prelude.{◌≡◌, ◌<◌, [], length, replicate, IfOk, IfErr, OnOk};
ghost use Rattle.tk_journal.specs.Laws.{IsMonitor};
ghost use Rattle.tk_story.specs.Story.{trail_of};
ghost use Rattle.tk_world.specs.Runs.{RunsBy, wants_answer};
ghost use Rattle.tk_world.specs.Serializing.{AreOthersKept, CanStep, GetsFrame, IsAt, IsEntryNext, IsFrameNext, Steps, UsesEntry, place_of};

use std::alloc::Global;
use tk_base::{Mon, NoMemory};
use tk_frames::Frame;
use tk_input::Event;
use tk_journal::Noted;
use tk_story::Story;
use tk_trail::Entry;

/// How far each trail is walked, and the events on the way.
#[derive(Drop)]
struct Walk {
    places: Vec<usize>,
    events: Vec<Event>,
}

/// The same story with a list of events that it runs, in place of its own: each trail is walked only as
/// far as the next turn of the journal asks, and at the journal's end to its own. Costs the journal and
/// the trails.
pub fn serialize(alloc: Global, story: Story) -> Result<Story, (NoMemory, Story)>
    ensures story { IfOk result (λ s. s.story ≡ story.story) }
    ensures runs { IfOk result (λ s. RunsBy s.story s.events) }
    ensures err { IfErr result (λ e. e.1 ≡ story) }
{
    match events_of(alloc, &story) {
        Ok(events) => Ok(story.with_events(events)),
        Err(NoMemory) => Err((NoMemory, story)),
    }
}

/// A list of events that the story runs.
fn events_of(alloc: Global, story: &Story) -> Result<Vec<Event>, NoMemory>
    ensures { IfOk result (λ events. RunsBy story.now.story events.items) }
{
    let mut walk = Walk {
        places: vec![in alloc; 0; story.settings().monitors() as usize]?,
        events: Vec::new(alloc),
    };
    walk_journal(&mut walk, alloc, story)?;
    walk_trails(&mut walk, story)?;
    Ok(walk.events)
}

/// Walks the journal from its beginning, and each trail as far as it asks.
fn walk_journal(walk: &mut Walk, alloc: Global, story: &Story) -> Result<(), NoMemory>
    requires places { walk.old.places.items ≡ replicate story.now.story.settings.monitors 0 }
    requires events { walk.old.events.items ≡ [] }
    ensures { OnOk result (IsAt story.now.story walk.new [] 0) }
{
    let journal = story.journal();
    for noted in journal {
        walk_noted(walk, alloc, story, noted)?;
    }
    Ok(())
}

/// Walks one entry of the journal, with what its turn asks of a trail.
fn walk_noted(walk: &mut Walk, alloc: Global, story: &Story, noted: &Noted) -> Result<(), NoMemory>
    requires { IsEntryNext story.now.story walk.old noted.now }
    ensures { OnOk result (UsesEntry story.now.story walk.old noted.now walk.new) }
{
    match noted {
        Noted::Got(from, _) => go_to_frame(walk, story, *from),
        Noted::Tuned(k, epsilon) => {
            let epsilon = epsilon.get().unsigned_abs();
            walk.events.push(Event::retune(alloc, *k as u64, epsilon)?)?;
            Ok(())
        }
        Noted::Sent(_, _) => Ok(()),
        Noted::Published(_) => Ok(()),
    }
}

/// Walks each trail to its end, where the journal is walked.
fn walk_trails(walk: &mut Walk, story: &Story) -> Result<(), NoMemory>
    requires { IsAt story.now.story walk.old [] 0 }
    ensures { OnOk result (RunsBy story.now.story walk.new.events.items) }
{
    for j in 0..story.settings().monitors() {
        go_to_end(walk, story, Mon(j + 1))?;
    }
    Ok(())
}

/// Walks a trail until its monitor sends a frame, which the coordinator takes.
fn go_to_frame(walk: &mut Walk, story: &Story, mon: Mon) -> Result<(), NoMemory>
    requires { IsFrameNext story.now.story walk.old mon }
    ensures { OnOk result (GetsFrame story.now.story walk.old mon walk.new) }
{
    while !step(walk, story, mon)? {}
    walk.events.push(Event::Up(mon))?;
    Ok(())
}

/// Walks a trail to its end.
fn go_to_end(walk: &mut Walk, story: &Story, mon: Mon) -> Result<(), NoMemory>
    requires walking { IsAt story.now.story walk.old [] 0 }
    requires monitor { IsMonitor story.now.story.settings mon.0 }
    ensures walking { OnOk result (IsAt story.now.story walk.new [] 0) }
    ensures end { OnOk result (place_of walk.new mon.0 ≡ length (trail_of story.now.story mon.0)) }
    ensures others { OnOk result (AreOthersKept walk.old mon.0 walk.new) }
{
    while walk.places[mon.0 as usize - 1] < story.trail(mon).len() {
        step(walk, story, mon)?;
    }
    Ok(())
}

/// Walks one event of a monitor: the next entry of its trail, with the direct answer where it takes a frame
/// that has one. Answers whether a frame is sent.
fn step(walk: &mut Walk, story: &Story, mon: Mon) -> Result<bool, NoMemory>
    requires can { CanStep story.now.story walk.old mon.0 }
    requires monitor { IsMonitor story.now.story.settings mon.0 }
    ensures walking { IfOk result (λ sent. Steps story.now.story walk.old mon.0 sent walk.new) }
    ensures further { OnOk result (place_of walk.old mon.0 < place_of walk.new mon.0) }
    ensures others { OnOk result (AreOthersKept walk.old mon.0 walk.new) }
{
    let place = walk.places[mon.0 as usize - 1];
    let (event, length, sends) = match &story.trail(mon)[place] {
        Entry::Raised(f) => (Event::Raise(mon, *f), 1, false),
        Entry::Took(frame) if is_answered(frame.get()) => (Event::Down(mon), 2, true),
        Entry::Took(_) => (Event::Down(mon), 1, false),
        Entry::Sent(_) => (Event::Check(mon), 1, true),
    };
    walk.events.push(event)?;
    walk.places[mon.0 as usize - 1] = place + length;
    Ok(sends)
}

/// Whether a monitor that takes the frame answers it directly.
fn is_answered(frame: &Frame) -> bool
    ensures { result ≡ wants_answer frame.now }
{
    matches!(frame, Frame::Collect { .. } | Frame::Assign { .. })
}
