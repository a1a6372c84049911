//! The logs of all monitors, tested where they are made, with values and totals up to a cut.

ghost use Rattle.std.specs.Prelude.{◌≡◌, ◌<◌, ◌≤◌, ◌^◌, ◌*◌, IfOk, IfErr, Ok, All, length, slice_get, Some, unsigned_abs};
ghost use Rattle.tk_input.specs.declared.logs.LogsFault.TheVariants.{NoMemory as OutOfMemory};
ghost use Rattle.tk_input.specs.Judged.{Refuses, last_monitor, logs_by_monitor};
ghost use Rattle.tk_input.specs.Rows.{logs_in};
ghost use Rattle.tk_input.specs.Logs.{AreGathered, AreLogs, AreParts, IsCut, IsFeeder, IsMonitor, IsObject, beginnings, parts_of, part_of, value as value_at, total as total_at};

mod beginning;
mod judging;
mod rows;
mod sums;
mod weights;

use crate::change::Change;
use crate::part::Part;
use beginning::cut_of;
use judging::judge;
use rows::{rows_of, shared_parts};
use std::alloc::{AllocError, AllocFailed, Global};
use std::error::Error;
use std::fmt;
use std::marker::Model;
use sums::{total_in, value_in};
use tk_base::{Cut, Feeder, Mon, NoMemory, Obj};

/// Why some parts are no logs.
#[derive(Clone, Copy, Debug, PartialEq, Eq)]
pub enum LogsFault {
    MonitorGap(Mon),
    TooManyFeeders(Mon),
    TooManyUpdates,
    TooGreat { mon: Mon, obj: Obj },
    NoMemory,
}

impl fmt::Display for LogsFault {
    fn fmt<W: fmt::Write>(&self, f: &mut fmt::Formatter<W>) -> fmt::Result {
        match self {
            LogsFault::MonitorGap(mon) => write!(f, "no log for {mon}"),
            LogsFault::TooManyFeeders(mon) => write!(f, "too many logs for {mon}"),
            LogsFault::TooManyUpdates => f.write_str("too many changes"),
            LogsFault::TooGreat { mon, obj } => write!(
                f,
                "{mon}: {obj}: the changes pass the limit"
            ),
            LogsFault::NoMemory => f.write_str("out of memory"),
        }
    }
}

impl Error for LogsFault {}

impl From<AllocError> for LogsFault {
    ghost from_gives = { λ _ e. e ≡ OutOfMemory };

    fn from(_error: AllocError) -> LogsFault {
        LogsFault::NoMemory
    }
}

impl<T: Drop> From<AllocFailed<T>> for LogsFault {
    ghost from_gives = { λ _ e. e ≡ OutOfMemory };

    fn from(_error: AllocFailed<T>) -> LogsFault {
        LogsFault::NoMemory
    }
}

impl From<NoMemory> for LogsFault {
    ghost from_gives = { λ _ e. e ≡ OutOfMemory };

    fn from(_error: NoMemory) -> LogsFault {
        LogsFault::NoMemory
    }
}

/// The parts of each monitor, within the limits of this system. Parts are shared, so that a monitor
/// gets its parts at the cost of a few words.
#[derive(Drop)]
pub struct Logs {
    rows: Vec<Vec<Part>>,
    objects: u32,
}

impl Model for Logs {
    ghost use Rattle.tk_input.specs.Logs.{LogSet, AreGathered};

    ghost Value = { LogSet };

    ghost use Rattle.tk_input.specs.Rows.{logs_in};

    ghost view = { λ l. record { logs = logs_in l.rows.items; objects = l.objects } };

    ghost invariant = { λ l. AreGathered (record { logs = logs_in l.rows.items; objects = l.objects }) };
}

fn clones_of(alloc: Global, row: &[Part]) -> Result<Vec<Part>, NoMemory>
    ensures { IfOk result (λ parts. parts.items ≡ row.now) }
{
    let mut parts = Vec::with_capacity(alloc, row.len())?;
    for part in row {
        parts.push_reserved(part.try_clone()?);
    }
    Ok(parts)
}

fn rows_cloned(alloc: Global, rows: &[Vec<Part>]) -> Result<Vec<Vec<Part>>, NoMemory>
    ensures { IfOk result (λ clones. logs_in clones.items ≡ logs_in rows.now) }
{
    let mut clones = Vec::with_capacity(alloc, rows.len())?;
    for row in rows {
        clones.push_reserved(clones_of(alloc, row.as_slice())?);
    }
    Ok(clones)
}

impl Logs {
    ghost use Rattle.tk_input.specs.Judged.{logs_of};

    /// Parts of one monitor become its feeders 1, 2, .. in the order of the list. Refuses by the first of
    /// its tests that fails. The rows of parts are made first, so want of memory may come before any of
    /// them. Where a change takes 32 bytes, goes over the changes of its monitor, and takes room for one
    /// number per object.
    pub fn new(alloc: Global, parts: Vec<(Mon, Part)>, objects: u32) -> Result<Logs, LogsFault>
        requires monitors { All (λ p. (1 ≤ p.0.0) × (p.0.0 ≤ 64)) parts.items }
        requires objects { All (λ p. All (λ c. IsObject objects c.0) p.1) parts.items }
        requires lengths { All (λ p. length p.1 ≤ 1000000) parts.items }
        ensures ok { IfOk result (λ s. logs_of parts.items objects ≡ Ok s) }
        ensures err { IfErr result (λ e. Refuses e (logs_of parts.items objects)) }
        ensures gathered { IfOk result AreGathered }
        // What the logs are, and of what size.
        ensures made { IfOk result (λ s. s ≡ record { logs = logs_by_monitor parts.items; objects = objects }) }
        ensures last { IfOk result (λ s. length s.logs ≡ last_monitor parts.items) }
    {
        let shared = shared_parts(alloc, parts)?;
        let rows = rows_of(alloc, shared.as_slice())?;
        judge(alloc, rows.as_slice(), objects)?;
        Ok(Logs { rows, objects })
    }

    /// The same logs once more. They share the lists of changes, so this costs a few words a part.
    pub fn try_clone(&self, alloc: Global) -> Result<Logs, NoMemory>
        ensures { IfOk result (λ logs. logs ≡ self.now) }
    {
        Ok(Logs {
            rows: rows_cloned(alloc, self.rows.as_slice())?,
            objects: self.objects,
        })
    }

    /// How many objects the catalogue has.
    pub fn objects(&self) -> u32
        ensures value { result ≡ self.now.objects }
        ensures limits { AreLogs self.now }
    {
        self.objects
    }

    /// How many monitors there are.
    pub fn monitors(&self) -> u32
        ensures value { result ≡ length self.now.logs }
        ensures limits { AreLogs self.now }
        ensures gathered { AreGathered self.now }
    {
        self.rows.len() as u32
    }

    /// How many feeders a monitor has.
    pub fn feeders(&self, mon: Mon) -> u32
        requires { IsMonitor self.now mon.0 }
        ensures value { result ≡ length (parts_of self.now.logs mon.0) }
        ensures limits { AreLogs self.now }
    {
        self.rows[mon.0 as usize - 1].len() as u32
    }

    /// How many changes the part of a feeder has, in constant time.
    pub fn length(&self, mon: Mon, f: Feeder) -> u32
        requires mon { IsMonitor self.now mon.0 }
        requires feeder { IsFeeder self.now mon.0 f.0 }
        ensures { result ≡ length (part_of self.now mon.0 f.0) }
    {
        self.rows[mon.0 as usize - 1][f.0 as usize - 1].len() as u32
    }

    /// The change at a place from 0, in constant time.
    pub fn change(&self, mon: Mon, f: Feeder, i: u32) -> Change
        requires mon { IsMonitor self.now mon.0 }
        requires feeder { IsFeeder self.now mon.0 f.0 }
        requires place { i < length (part_of self.now mon.0 f.0) }
        ensures { slice_get (part_of self.now mon.0 f.0) i ≡ Some (result.obj.0, result.by) }
    {
        self.rows[mon.0 as usize - 1][f.0 as usize - 1].at(i as usize)
    }

    /// The parts of a monitor, each with the list that it shares with these logs.
    pub fn parts(&self, alloc: Global, mon: Mon) -> Result<Vec<Part>, NoMemory>
        requires { IsMonitor self.now mon.0 }
        ensures parts { IfOk result (λ parts. parts.items ≡ parts_of self.now.logs mon.0) }
        ensures limits { AreParts self.now.objects (parts_of self.now.logs mon.0) }
    {
        clones_of(alloc, self.rows[mon.0 as usize - 1].as_slice())
    }

    /// The places before the first change of each part.
    pub fn start(&self, alloc: Global) -> Result<Cut, NoMemory>
        ensures value { IfOk result (λ cut. cut ≡ beginnings self.now) }
        ensures cut { IfOk result (λ cut. IsCut self.now.logs cut) }
    {
        cut_of(alloc, self.rows.as_slice())
    }

    /// Goes over all changes that the cut reaches at the monitor.
    pub fn value(&self, mon: Mon, obj: Obj, cut: &Cut) -> i128
        requires mon { IsMonitor self.now mon.0 }
        requires cut { IsCut self.now.logs cut.now }
        ensures value { result ≡ value_at self.now.logs mon.0 obj.0 cut.now }
        ensures size { unsigned_abs result ≤ 2 ^ 100 }
    {
        let place = mon.0 as usize - 1;
        value_in(self.rows[place].as_slice(), cut.at(place), obj)
    }

    /// Goes over all changes that the cut reaches.
    pub fn total(&self, obj: Obj, cut: &Cut) -> i128
        requires { IsCut self.now.logs cut.now }
        ensures value { result ≡ total_at self.now.logs obj.0 cut.now }
        ensures size { unsigned_abs result ≤ 64 * 2 ^ 100 }
    {
        total_in(self.rows.as_slice(), cut, obj)
    }
}
