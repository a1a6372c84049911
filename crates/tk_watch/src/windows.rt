//! The windows of a monitor's streams.

ghost use Rattle.std.specs.Prelude.{◌≡◌, ◌≤◌, ◌-◌, ◌<◌, [], true, false, IfOk, OnErr, OnOk, IsNone, IfNone, IfSome, Some, length, option_map, slice_get};
ghost use Rattle.tk_input.specs.Changes.{pair_of};
ghost use Rattle.tk_input.specs.Logs.{IsObject};
ghost use Rattle.tk_watch.specs.Windows.{FitsIn, IsKnownIn, IsTickTooGreat, Notes, Takes, fresh_windows, noted_in, taken_in, ticked_in, window_of};

use crate::told::Told;
use std::alloc::Global;
use std::marker::Model;
use tk_base::{Feeder, NoMemory};
use tk_input::Change;
use tk_recent::Recent;

/// The window of each stream, or none at all.
#[derive(Drop)]
pub struct Windows {
    streams: Vec<Recent>,
}

impl Model for Windows {
    ghost use Rattle.std.specs.Prelude.{List};
    ghost use Rattle.tk_recent.specs.Kept.{Kept};

    ghost Value = { List Kept };

    ghost view = { λ w. w.streams.items };
}

impl Windows {
    /// None at all.
    pub fn none(alloc: Global) -> Windows
        ensures { result ≡ [] }
    {
        Windows {
            streams: Vec::new(alloc),
        }
    }

    /// Of so many streams over so many objects, each of so many ticks. Nothing was noted.
    pub fn new(alloc: Global, streams: u32, objects: u32, width: u64) -> Result<Windows, NoMemory>
        requires { objects ≤ 65536 }
        ensures { IfOk result (λ w. w ≡ fresh_windows streams objects width) }
    {
        let mut list = Vec::with_capacity(alloc, streams as usize)?;
        for _ in 0..streams {
            list.push(Recent::new(alloc, objects, width)?)?;
        }
        Ok(Windows { streams: list })
    }

    /// Whether a record of a stream can be noted.
    pub(crate) fn fits(&self, f: Feeder, change: Change) -> bool
        requires from_one { 1 ≤ f.0 }
        requires known { IsKnownIn self.now f.0 change.obj.0 }
        ensures fits { result ≡ true → FitsIn self.now f.0 (pair_of change) }
        ensures refused { result ≡ false → IsTickTooGreat self.now f.0 (pair_of change) }
    {
        let i = (f.0 - 1) as usize;
        if i < self.streams.len() {
            self.streams[i].fits(change)
        } else {
            true
        }
    }

    /// A record of a stream more.
    fn note(&mut self, f: Feeder, change: Change)
        requires from_one { 1 ≤ f.0 }
        requires known { IsKnownIn self.old f.0 change.obj.0 }
        requires fits { FitsIn self.old f.0 (pair_of change) }
        ensures { self.new ≡ noted_in self.old f.0 (pair_of change) }
    {
        let i = (f.0 - 1) as usize;
        if i < self.streams.len() && self.streams[i].note(change).is_err() {
            unreachable!();
        }
    }

    /// Notes a record of a stream that was told so, where it counts.
    pub(crate) fn note_told(&mut self, f: Feeder, change: Change, told: Told)
        requires from_one { 1 ≤ f.0 }
        requires known { IsKnownIn self.old f.0 change.obj.0 }
        requires fits { FitsIn self.old f.0 (pair_of change) }
        ensures { Notes self.old f.0 (pair_of change) told self.new }
    {
        match told {
            Told::Done { .. } => self.note(f, change),
            Told::Closed => {}
            Told::TooGreat => {}
            Told::NoMemory => {}
        }
    }

    /// The tick of a stream ends. Want of memory leaves all as it was.
    pub(crate) fn tick(&mut self, f: Feeder) -> Result<(), NoMemory>
        requires from_one { 1 ≤ f.0 }
        requires settled { (window_of self.old f.0).back ≡ [] }
        ensures ok { OnOk result (self.new ≡ ticked_in self.old f.0) }
        ensures err { OnErr result (self.new ≡ self.old) }
    {
        let i = (f.0 - 1) as usize;
        if i < self.streams.len() {
            self.streams[i].tick()
        } else {
            Ok(())
        }
    }

    /// The next change of a stream to be taken back.
    pub(crate) fn next_back(&self, f: Feeder) -> Option<Change>
        requires from_one { 1 ≤ f.0 }
        ensures value { option_map pair_of result ≡ slice_get (window_of self.now f.0).back 0 }
        ensures object { IfSome result (λ c. IsObject (length (window_of self.now f.0).sums) c.obj.0) }
        ensures window { IfSome result (λ c. f.0 - 1 < length self.now) }
    {
        let i = (f.0 - 1) as usize;
        if i < self.streams.len() {
            self.streams[i].next_back()
        } else {
            None
        }
    }

    /// The next change of a stream to be taken back was told so, and is taken back where it counts.
    pub(crate) fn take_told(&mut self, f: Feeder, told: Told)
        requires from_one { 1 ≤ f.0 }
        ensures { Takes self.old f.0 told self.new }
    {
        match told {
            Told::Done { .. } => self.take_back(f),
            Told::Closed => {}
            Told::TooGreat => {}
            Told::NoMemory => {}
        }
    }

    /// The next change of a stream to be taken back was.
    fn take_back(&mut self, f: Feeder)
        requires from_one { 1 ≤ f.0 }
        ensures { self.new ≡ taken_in self.old f.0 }
    {
        let i = (f.0 - 1) as usize;
        if i < self.streams.len() {
            self.streams[i].take_back();
        }
    }
}
