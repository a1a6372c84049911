//! The trails of the monitors.

ghost use Rattle.std.specs.Prelude.{◌≡◌, ◌++◌, ◌<◌, ◌≤◌, ◌^◌, length, All, OnOk};
ghost use Rattle.std.specs.List.{flat_map, AllZip};
ghost use Rattle.tk_story.specs.Story.{IsStory};
ghost use Rattle.tk_trace.specs.Spelling.{IsEntry, IsTrail, entry as entry_of, trail as trail_of};
ghost use Rattle.tk_trace.specs.Writing.{CanBeEntered};

use super::fields::{frame, number_u8, number_u64};
use tk_base::{Mon, NoMemory};
use tk_story::Story;
use tk_trail::Entry;

fn entry(out: &mut Vec<u8>, feeders: u32, entry: &Entry) -> Result<(), NoMemory>
    requires few { feeders ≤ 8 }
    requires entry { CanBeEntered feeders entry.now }
    ensures bytes { OnOk result (out.new.items ≡ out.old.items ++ entry_of entry.now) }
    ensures within { OnOk result (IsEntry feeders entry.now) }
{
    match entry {
        Entry::Raised(feeder) => {
            out.push(1)?;
            number_u8(out, feeder.0 as u8)
        }
        Entry::Took(kept) => {
            out.push(2)?;
            frame(out, kept.get())
        }
        Entry::Sent(kept) => {
            out.push(3)?;
            frame(out, kept.get())
        }
    }
}

fn entries(out: &mut Vec<u8>, feeders: u32, entries: &[Entry]) -> Result<(), NoMemory>
    requires few { feeders ≤ 8 }
    requires entries { All (CanBeEntered feeders) entries.now }
    ensures bytes { OnOk result (out.new.items ≡ out.old.items ++ flat_map entry_of entries.now) }
    ensures within { OnOk result (All (IsEntry feeders) entries.now) }
{
    for item in entries {
        entry(out, feeders, item)?;
    }
    Ok(())
}

fn put_trail(out: &mut Vec<u8>, feeders: u32, trail: &[Entry]) -> Result<(), NoMemory>
    requires few { feeders ≤ 8 }
    requires entries { All (CanBeEntered feeders) trail.now }
    ensures bytes { OnOk result (out.new.items ≡ out.old.items ++ trail_of trail.now) }
    ensures few { length trail.now < 2 ^ 64 }
    ensures within { OnOk result (All (IsEntry feeders) trail.now) }
{
    number_u64(out, trail.len() as u64)?;
    entries(out, feeders, trail)
}

/// The trail of each monitor of a story.
pub fn put_trails(out: &mut Vec<u8>, story: &Story) -> Result<(), NoMemory>
    requires { IsStory story.now.story }
    ensures bytes { OnOk result (out.new.items ≡ out.old.items ++ flat_map trail_of story.now.story.trails) }
    ensures within { OnOk result (AllZip IsTrail story.now.story.logs.logs story.now.story.trails) }
{
    for i in 0..story.settings().monitors() {
        let mon = Mon(i + 1);
        put_trail(out, story.logs().feeders(mon), story.trail(mon))?;
    }
    Ok(())
}
