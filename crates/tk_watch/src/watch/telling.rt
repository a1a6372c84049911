//! What a watch makes of a record, and of the end of a stream.

ghost use Rattle.std.specs.Prelude.{◌≡◌, ◌<◌, ◌+◌, ◌^◌, false, true, length, nat_lt, unsigned_abs, OnErr, OnOk};
ghost use Rattle.tk_input.specs.Logs.{IsObject};
ghost use Rattle.tk_monitor.specs.Monitored.{IsFeederOf};
ghost use Rattle.tk_trail.specs.Legal.{HasNext};
ghost use Rattle.tk_compact.specs.Anew.{size_of_values as values_size};
ghost use Rattle.tk_compact.specs.Room.{HasRoomFor, IsClosedAt};
ghost use Rattle.tk_watch.specs.Told.{Closes, CountsUnlessMemory, Tells, counted, fits_in};
ghost use Rattle.tk_watch.specs.Watch.{IsWatch, refilled};

use crate::ended::Ended;
use crate::room::{has_room_for, is_heavy};
use crate::standing::Standing;
use crate::told::Told;
use crate::watch::Watch;
use tk_base::{Feeder, NoMemory};
use tk_compact::{begin_anew, size_of_values};
use tk_input::Change;
use tk_monitor::Raised;
use tk_wire::Wire;

/// The size of the amount of a change.
fn size_of(change: Change) -> u128
    ensures { result ≡ unsigned_abs change.by }
{
    change.by.unsigned_abs()
}

/// How many records a stream gave, with one more.
fn count_one(counts: &mut Vec<u64>, i: usize)
    requires { i < length counts.old.items }
    ensures { counts.new.items ≡ counted counts.old.items (i + 1) }
{
    let count = counts[i].saturating_add(1);
    counts[i] = count;
}

impl<W: Wire + Drop> Watch<W> {
    /// Whether the closing record of a stream was raised.
    pub(crate) fn is_closed(&self, f: Feeder) -> bool
        requires { IsFeederOf self.now.monitor.setup f.0 }
        ensures closed { result ≡ true → IsClosedAt self.now.monitor.setup self.now.monitor.trail f.0 }
        ensures opened { result ≡ false → HasNext self.now.monitor.setup self.now.monitor.trail f.0 }
        ensures kept { IsWatch self.now }
    {
        let monitor = self.standing.monitor();
        monitor.place(f) as usize == monitor.length(f)
    }

    /// Whether there is room for a record in the session.
    fn fits(&self, f: Feeder, change: Change) -> bool
        requires { IsFeederOf self.now.monitor.setup f.0 }
        ensures { result ≡ fits_in self.now f (change.obj.0, change.by) }
    {
        let length = self.standing.monitor().length(f);
        has_room_for(length, self.weight, size_of(change))
    }

    /// Whether there would be none behind a fresh base. Costs a look at each object.
    fn is_too_great(&self, change: Change) -> bool
        ensures { result ≡ nat_lt (2 ^ 100) (values_size self.now.monitor.setup self.now.monitor.trail + unsigned_abs change.by) }
    {
        is_heavy(size_of_values(self.standing.monitor()), size_of(change))
    }

    /// Counts a record of a stream: it stands in front of the closing record, and is raised.
    pub fn tell(&mut self, f: Feeder, change: Change) -> Told
        requires feeder { IsFeederOf self.old.monitor.setup f.0 }
        requires object { IsObject self.old.monitor.setup.objects change.obj.0 }
        ensures { Tells self.old f (change.obj.0, change.by) result self.new }
    {
        if self.is_closed(f) {
            return Told::Closed;
        }
        if self.fits(f, change) {
            return self.count(f, change, false);
        }
        if self.is_too_great(change) {
            return Told::TooGreat;
        }
        match self.refill() {
            Ok(()) => self.count(f, change, true),
            Err(NoMemory) => Told::NoMemory,
        }
    }

    /// Has the monitor begin anew, without a connection.
    fn refill(&mut self) -> Result<(), NoMemory>
        ensures ok { OnOk result (self.new ≡ refilled self.old) }
        ensures err { OnErr result (self.new ≡ self.old) }
    {
        let weight = size_of_values(self.standing.monitor());
        let monitor = begin_anew(*self.counts.allocator(), self.standing.monitor())?;
        self.standing = Standing::idle(monitor);
        self.weight = weight;
        Ok(())
    }

    /// Counts a record that there is room for.
    fn count(&mut self, f: Feeder, change: Change, fresh: bool) -> Told
        requires next { HasNext self.old.monitor.setup self.old.monitor.trail f.0 }
        requires object { IsObject self.old.monitor.setup.objects change.obj.0 }
        requires room { HasRoomFor self.old.monitor.setup self.old.weight f.0 (change.obj.0, change.by) }
        ensures { CountsUnlessMemory self.old f (change.obj.0, change.by) fresh result self.new }
    {
        let Ok(()) = self.standing.grow(f, change) else {
            return Told::NoMemory;
        };
        self.weight += size_of(change);
        match self.standing.raise(f) {
            Raised::Done { broken } => {
                count_one(&mut self.counts, (f.0 - 1) as usize);
                Told::Done { broken, fresh }
            }
            Raised::Ended => unreachable!(),
        }
    }

    /// Raises the closing record of a stream that has ended, without memory.
    pub fn close(&mut self, ended: Ended) -> Raised
        requires { IsFeederOf self.old.monitor.setup ended.stream.0 }
        ensures { Closes self.old ended.stream result self.new }
    {
        let f = ended.stream;
        if self.is_closed(f) {
            return Raised::Ended;
        }
        match self.standing.raise(f) {
            Raised::Done { broken } => {
                count_one(&mut self.counts, (f.0 - 1) as usize);
                Raised::Done { broken }
            }
            Raised::Ended => unreachable!(),
        }
    }
}
