//! How ticks end: what they move out of a window is taken back, by records that are told as any others.

ghost use Rattle.std.specs.Prelude.{◌≡◌, ◌≤◌, ◌-◌, ◌<◌, [], Some, IfErr, OnOk, length, slice_get, slice_index_or};
ghost use Rattle.tk_input.specs.Changes.{pair_of};
ghost use Rattle.tk_input.specs.Logs.{IsObject};
ghost use Rattle.tk_watch.specs.Each.{Stops, TellsEach};
ghost use Rattle.tk_watch.specs.Ends.{IsAtEnd, counted_in, noted_at};
ghost use Rattle.tk_watch.specs.Told.{Tells};
ghost use Rattle.tk_watch.specs.Watch.{IsWatch};
ghost use Rattle.tk_watch.specs.Windows.{Takes, ended_in, settled_in, ticked_in, told_at_tick, window_of};

use crate::cell::{WatchName, Watched};
use crate::fault::{FeedFault, FeedKind};
use crate::told::Told;
use crate::untold::{Untold, untold_of};
use std::time::{Clock, Instant};
use tk_base::{Feeder, NoMemory};
use tk_input::Change;
use tk_wire::{Bell, Wire};

impl<W: Wire + Drop, B: Bell + Drop, N: WatchName> Watched<W, B, N> {
    /// Tells the next change of a stream to be taken back, and rings as for any record.
    fn take_back(&mut self, f: Feeder, change: Change) -> Told
        requires from_one { 1 ≤ f.0 }
        requires stream { f.0 ≤ N.named.streams }
        requires object { IsObject N.named.objects change.obj.0 }
        requires next { slice_get (window_of self.old.windows f.0).back 0 ≡ Some (pair_of change) }
        ensures tells { Tells self.old.watch f (change.obj.0, change.by) result self.new.watch }
        ensures takes { Takes self.old.windows f.0 result self.new.windows }
        ensures ends { self.new.ends ≡ self.old.ends }
        ensures kept { IsWatch self.new.watch }
    {
        let was_broken = self.watch.monitor().broken();
        let told = self.watch.tell(f, change);
        // It is read for its clause, that it is kept.
        let _ = self.watch.monitor();
        self.windows.take_told(f, told);
        self.ring_for(told, was_broken);
        told
    }

    /// Tells all that is to be taken back of a stream, one by one, up to the first change that does not count.
    fn settle(&mut self, f: Feeder) -> Result<(), Untold>
        requires from_one { 1 ≤ f.0 }
        requires stream { f.0 ≤ N.named.streams }
        ensures told { OnOk result (TellsEach self.old.watch f (window_of self.old.windows f.0).back self.new.watch) }
        ensures settled { OnOk result (self.new.windows ≡ settled_in self.old.windows f.0) }
        ensures ends { self.new.ends ≡ self.old.ends }
        ensures stops { IfErr result (λ untold.
            Stops self.old.watch f (window_of self.old.windows f.0).back untold self.new.windows self.new.watch) }
        ensures kept { IsWatch self.new.watch }
    {
        // It is read for its clause, that it is kept.
        let _ = self.watch.monitor();
        while let Some(change) = self.windows.next_back(f) {
            let told = self.take_back(f, change);
            if let Some(untold) = untold_of(told, change.obj) {
                return Err(untold);
            }
        }
        Ok(())
    }

    /// Ends the tick of a stream of which nothing is left to be taken back.
    fn move_on(&mut self, f: Feeder) -> Result<(), Untold>
        requires from_one { 1 ≤ f.0 }
        requires stream { f.0 ≤ N.named.streams }
        requires settled { (window_of self.old.windows f.0).back ≡ [] }
        ensures told { OnOk result (TellsEach self.old.watch f (window_of (ticked_in self.old.windows f.0) f.0).back self.new.watch) }
        ensures ended { OnOk result (self.new.windows ≡ settled_in (ticked_in self.old.windows f.0) f.0) }
        ensures counted { OnOk result (self.new.ends ≡ counted_in self.old.ends f.0) }
        ensures stops { IfErr result (λ untold.
            Stops self.old.watch f (window_of (ticked_in self.old.windows f.0) f.0).back untold self.new.windows self.new.watch) }
        ensures kept { IsWatch self.new.watch }
    {
        // It is read for its clause, that it is kept.
        let _ = self.watch.monitor();
        match self.windows.tick(f) {
            Ok(()) => {
                self.ends.count(f);
                self.settle(f)
            }
            Err(NoMemory) => Err(Untold::NoMemory),
        }
    }

    /// Ends the tick of a stream, once all is told that is still to be taken back.
    fn tick_over(&mut self, f: Feeder) -> Result<(), Untold>
        requires from_one { 1 ≤ f.0 }
        requires stream { f.0 ≤ N.named.streams }
        ensures told { OnOk result (TellsEach self.old.watch f (told_at_tick (window_of self.old.windows f.0)) self.new.watch) }
        ensures ended { OnOk result (self.new.windows ≡ ended_in self.old.windows f.0) }
        ensures counted { OnOk result (self.new.ends ≡ counted_in self.old.ends f.0) }
        ensures stops { IfErr result (λ untold.
            Stops self.old.watch f (told_at_tick (window_of self.old.windows f.0)) untold self.new.windows self.new.watch) }
        ensures kept { IsWatch self.new.watch }
    {
        match self.settle(f) {
            Ok(()) => self.move_on(f),
            Err(untold) => Err(untold),
        }
    }

    /// Notes where a tick of a stream has ended.
    fn note_end(&mut self, f: Feeder)
        requires from_one { 1 ≤ f.0 }
        requires stream { f.0 ≤ N.named.streams }
        requires at_end { f.0 ≤ length self.old.windows
            → ∥ IsAtEnd N.named.objects (window_of self.old.windows f.0) (slice_index_or self.old.ends.ended (f.0 - 1) 0) ∥₁ }
        ensures ends { self.new.ends ≡ noted_at self.old.ends f.0 (slice_index_or self.old.watch.counts (f.0 - 1) 0) }
        ensures watch { self.new.watch ≡ self.old.watch }
        ensures windows { self.new.windows ≡ self.old.windows }
    {
        let place = self.watch.counts()[(f.0 - 1) as usize];
        self.ends.note(f, place);
    }

    /// Ends the tick of a stream that is open, and takes back at once what it moves out of the window, one change an object, in
    /// order, up to the first that does not count; the next call would go on behind it. Where there is no window nothing is told.
    pub fn end_tick(&mut self, f: Feeder) -> Result<(), Untold>
        requires from_one { 1 ≤ f.0 }
        requires stream { f.0 ≤ N.named.streams }
        // What is told is this, each change counts once, and then nothing is left to be taken back.
        ensures told { OnOk result (TellsEach self.old.watch f (told_at_tick (window_of self.old.windows f.0)) self.new.watch) }
        ensures ended { OnOk result (self.new.windows ≡ ended_in self.old.windows f.0) }
        // It is counted, and noted at the place where the stream stands then.
        ensures noted { OnOk result (self.new.ends
            ≡ noted_at (counted_in self.old.ends f.0) f.0 (slice_index_or self.new.watch.counts (f.0 - 1) 0)) }
        ensures stops { IfErr result (λ untold.
            Stops self.old.watch f (told_at_tick (window_of self.old.windows f.0)) untold self.new.windows self.new.watch) }
        ensures kept { IsWatch self.new.watch }
    {
        if self.watch.is_closed(f) {
            return Err(Untold::Closed);
        }
        match self.tick_over(f) {
            Ok(()) => {
                self.note_end(f);
                Ok(())
            }
            Err(untold) => Err(untold),
        }
    }

    /// Whether a tick is due by the clock, which counts as ended then.
    fn takes_beat(&mut self, now: Instant) -> bool
        ensures watch { self.new.watch ≡ self.old.watch }
        ensures windows { self.new.windows ≡ self.old.windows }
    {
        let Some(clock) = &mut self.clock else {
            return false;
        };
        if clock.due(now) == 0 {
            return false;
        }
        clock.end_tick();
        true
    }

    /// Ends the tick of a stream by the clock, unless the process is over. A stream that is closed keeps its last window.
    fn end_by_clock(&mut self, f: Feeder)
        requires from_one { 1 ≤ f.0 }
        requires stream { f.0 ≤ N.named.streams }
    {
        if self.is_over() {
            return;
        }
        if let Err(untold) = self.end_tick(f) {
            self.note_untold(f, untold);
        }
    }

    /// Ends one tick of each stream that is open, where one is due by the clock. Those that were missed end one by one, call by
    /// call.
    pub(crate) fn keep_time<K: Clock>(&mut self, time: &K) {
        if self.clock.is_none() {
            return;
        }
        let Ok(now) = Instant::now(time) else {
            return;
        };
        if self.takes_beat(now) {
            for i in 0..self.watch.counts().len() {
                self.end_by_clock(Feeder(i as u32 + 1));
            }
        }
    }

    /// Notes why the process ends where something does not count. No stream is told after its feeder closed it.
    pub(crate) fn note_untold(&mut self, stream: Feeder, untold: Untold)
        ensures watch { self.new.watch ≡ self.old.watch }
        ensures windows { self.new.windows ≡ self.old.windows }
    {
        let kind = match untold {
            Untold::TooGreat(obj) => FeedKind::TooGreat(obj),
            Untold::NoMemory => FeedKind::NoMemory,
            Untold::Closed => return,
        };
        self.note_fault(FeedFault { stream, kind });
    }
}
