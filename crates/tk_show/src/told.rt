//! How far a monitor is told, and what it does next.

ghost use Rattle.std.specs.Prelude.{◌≡◌, ◌<◌, ◌++◌, IfOk, IfSome, OnOk, Some, length, option_map, slice_get};
ghost use Rattle.std.specs.Option.{option_copied};
ghost use Rattle.tk_input.specs.Logs.{IsMonitor};
ghost use Rattle.tk_world.specs.Runs.{wants_answer as is_answered_of};
ghost use Rattle.tk_show.specs.Told.{HasRoom, answer_at as answer_at_of, answer_text, change_at, change_text, checked_text, entry_text, places_after, raise_text, taken_text, told_after, untold};

use crate::frames::push_frame;
use crate::words::{push_name, push_named};
use std::alloc::{AllocError, Global};
use std::marker::Model;
use tk_base::{Feeder, Mon, NoMemory, Places};
use tk_frames::Frame;
use tk_input::{Catalog, Change, Logs};
use tk_trail::Entry;

/// How many entries of a trail are told, and how many changes of each feeder.
#[derive(Drop)]
pub struct Told {
    entries: usize,
    places: Vec<u32>,
}

impl Model for Told {
    ghost use Rattle.tk_show.specs.Told.{Told as ToldOf};

    ghost Value = { ToldOf };

    ghost view = { λ t. record { entries = t.entries; places = t.places.items } };
}

/// The next change of a feeder from these places on.
fn next_change(logs: &Logs, mon: Mon, f: Feeder, places: &[u32]) -> Option<Change>
    requires { IsMonitor logs.now mon.0 }
    ensures change { option_map (λ c. (c.obj.0, c.by)) result ≡ change_at logs.now mon.0 f.0 places.now }
    ensures room { IfSome result (λ _. HasRoom f.0 places.now) }
{
    if f.0 == 0 || f.0 as usize > places.len() || f.0 > logs.feeders(mon) {
        return None;
    }
    let place = places[f.0 as usize - 1];
    if place >= logs.length(mon, f) {
        return None;
    }
    Some(logs.change(mon, f, place))
}

fn push_change(line: &mut Vec<u8>, change: Change, names: &Catalog) -> Result<(), AllocError>
    ensures { OnOk result (line.new.items ≡ line.old.items ++ change_text names.now (Some (change.obj.0, change.by))) }
{
    push_name(line, change.obj, names)?;
    push_named(line, b" by ", change.by)
}

fn push_raise(
    line: &mut Vec<u8>,
    mon: Mon,
    f: Feeder,
    change: Option<Change>,
    names: &Catalog,
) -> Result<(), AllocError>
    ensures { OnOk result (line.new.items ≡ line.old.items
        ++ raise_text names.now mon.0 f.0 (option_map (λ c. (c.obj.0, c.by)) change)) }
{
    push_named(line, b"raise ", mon.0)?;
    push_named(line, b".", f.0)?;
    match change {
        Some(change) => push_change(line, change, names),
        None => Ok(()),
    }
}

/// Whether a monitor that takes the frame answers it directly.
fn is_answered(frame: &Frame) -> bool
    ensures { result ≡ is_answered_of frame.now }
{
    matches!(frame, Frame::Collect { .. } | Frame::Assign { .. })
}

/// The entry behind a taken frame that is answered directly.
fn answer_at<'a>(trail: &'a [Entry], i: usize, frame: &Frame) -> Option<&'a Entry>
    requires { i < length trail.now }
    ensures { option_copied result ≡ answer_at_of trail.now i frame.now }
{
    if is_answered(frame) {
        trail.get(i + 1)
    } else {
        None
    }
}

fn push_answer(
    line: &mut Vec<u8>,
    answer: Option<&Entry>,
    names: &Catalog,
) -> Result<(), AllocError>
    ensures { OnOk result (line.new.items ≡ line.old.items ++ answer_text names.now (option_copied answer.entry)) }
{
    match answer {
        Some(Entry::Sent(frame)) => {
            line.extend_from_slice(b"; ")?;
            push_frame(line, frame.get(), names)
        }
        Some(Entry::Raised(_)) | Some(Entry::Took(_)) | None => Ok(()),
    }
}

fn push_taken(
    line: &mut Vec<u8>,
    mon: Mon,
    frame: &Frame,
    answer: Option<&Entry>,
    names: &Catalog,
) -> Result<(), AllocError>
    ensures { OnOk result (line.new.items ≡ line.old.items ++ taken_text names.now mon.0 frame.now (option_copied answer.entry)) }
{
    push_named(line, b"down ", mon.0)?;
    line.extend_from_slice(b": ")?;
    push_frame(line, frame, names)?;
    push_answer(line, answer, names)
}

fn push_checked(
    line: &mut Vec<u8>,
    mon: Mon,
    frame: &Frame,
    names: &Catalog,
) -> Result<(), AllocError>
    ensures { OnOk result (line.new.items ≡ line.old.items ++ checked_text names.now mon.0 frame.now) }
{
    push_named(line, b"check ", mon.0)?;
    line.extend_from_slice(b": ")?;
    push_frame(line, frame, names)
}

/// One change more of a feeder is told.
fn raise(places: &mut Vec<u32>, f: Feeder, change: Option<Change>)
    requires { IfSome change (λ _. HasRoom f.0 places.old.items) }
    ensures { places.new.items ≡ places_after places.old.items f.0 (option_map (λ c. (c.obj.0, c.by)) change) }
{
    if change.is_some() {
        places[f.0 as usize - 1] += 1;
    }
}

impl Told {
    /// Nothing of a trail is told that begins at these places.
    pub fn from(alloc: Global, places: &Places) -> Result<Told, NoMemory>
        ensures { IfOk result (λ t. t ≡ untold places.now) }
    {
        let mut list = Vec::with_capacity(alloc, places.len())?;
        for i in 0..places.len() {
            list.push_reserved(places.at(i));
        }
        Ok(Told {
            entries: 0,
            places: list,
        })
    }

    /// What the monitor does next, if its trail goes on: its entry, a direct answer with what it answers.
    pub fn push_next(
        &self,
        line: &mut Vec<u8>,
        logs: &Logs,
        mon: Mon,
        trail: &[Entry],
        names: &Catalog,
    ) -> Result<(), AllocError>
        requires { IsMonitor logs.now mon.0 }
        ensures { OnOk result (line.new.items ≡ line.old.items
            ++ entry_text names.now logs.now mon.0 trail.now self.now (slice_get trail.now self.now.entries)) }
    {
        match trail.get(self.entries) {
            Some(Entry::Raised(f)) => push_raise(
                line,
                mon,
                *f,
                next_change(logs, mon, *f, self.places.as_slice()),
                names,
            ),
            Some(Entry::Took(frame)) => push_taken(
                line,
                mon,
                frame.get(),
                answer_at(trail, self.entries, frame.get()),
                names,
            ),
            Some(Entry::Sent(frame)) => push_checked(line, mon, frame.get(), names),
            None => Ok(()),
        }
    }

    /// That is told.
    pub fn advance(&mut self, logs: &Logs, mon: Mon, trail: &[Entry])
        requires { IsMonitor logs.now mon.0 }
        ensures { self.new ≡ told_after logs.now mon.0 self.old (slice_get trail.now self.old.entries) }
    {
        match trail.get(self.entries) {
            Some(Entry::Raised(f)) => {
                let change = next_change(logs, mon, *f, self.places.as_slice());
                raise(&mut self.places, *f, change);
                self.entries += 1;
            }
            Some(Entry::Took(frame)) => {
                self.entries += if is_answered(frame.get()) { 2 } else { 1 };
            }
            Some(Entry::Sent(_)) => self.entries += 1,
            None => {}
        }
    }
}
