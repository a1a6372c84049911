//! Logs in ticks: how a file with marks gives one, and the changes of each tick.

ghost use Rattle.std.specs.Prelude.{◌≡◌, ◌<◌, ◌≤◌, ◌+◌, ◌^◌, ◌++◌, [], ◌∷◌, IfOk, IfErr, IfSome, OnOk, IsTrue, Ok, Err, All, length, slice_get, Some, unsigned_abs};
ghost use Rattle.csv.specs.Records.{fields_of};
ghost use Rattle.tk_input.specs.Log.{IsFault};
ghost use Rattle.tk_input.specs.Logs.{IsObject};
ghost use Rattle.tk_window.specs.Reading.{IsChange, entry_of, grown, read_so_far};
ghost use Rattle.tk_window.specs.Ticks.{AreOver, AreTicks, IsTick, is_mark as is_mark_of, next_entry as next_entry_of};
ghost use Rattle.tk_window.specs.Window.{changes_at};

use csv::ByteRecord;
use std::alloc::Global;
use std::marker::Model;
use std::mem;
use tk_base::NoMemory;
use tk_input::{Catalog, Change, Changes, Part, PartFault, Records, next_change};

const MAX_RECORDS: usize = 1_000_000;

/// The ticks of a log, in order, each with its changes. There is always one more than marks, so at least one.
#[derive(Drop)]
pub struct Ticked {
    ticks: Vec<Part>,
}

impl Model for Ticked {
    ghost use Rattle.std.specs.Prelude.{ℕ, ℤ, List};
    ghost use Rattle.tk_window.specs.Ticks.{AreTicks};

    ghost Value = { List (List (ℕ × ℤ)) };

    ghost view = { λ t. t.ticks.items };

    ghost invariant = { λ t. AreTicks t.ticks.items };
}

/// Whether a record is the mark that ends a tick.
pub fn is_mark(row: &ByteRecord) -> bool
    ensures { result ≡ is_mark_of (fields_of row.now) }
{
    if row.len() != 1 {
        return false;
    }
    match row.get(0) {
        Some(field) => field == b"tick".as_slice(),
        None => false,
    }
}

/// The change of a record, or None where it is a mark.
fn next_entry(names: &Catalog, row: &ByteRecord, before: usize) -> Result<Option<Change>, PartFault>
    ensures ok { IfOk result (λ e. next_entry_of names.now before (fields_of row.now) ≡ Ok (entry_of e)) }
    ensures err { IfErr result (λ e. next_entry_of names.now before (fields_of row.now) ≡ Err e) }
    ensures change { IfOk result (λ e. IfSome e (λ c. IsChange (length names.now) (c.obj.0, c.by))) }
    ensures few { OnOk result (before < 1000000) }
{
    if before >= MAX_RECORDS {
        return Err(PartFault::TooMany);
    }
    if is_mark(row) {
        return Ok(None);
    }
    match next_change(names, row, before) {
        Ok(change) => Ok(Some(change)),
        Err(fault) => Err(fault),
    }
}

/// Takes an entry: a change joins the last tick, a mark ends that.
fn take_entry(
    alloc: Global,
    closed: &mut Vec<Part>,
    last: &mut Changes,
    entry: Option<Change>,
) -> Result<(), NoMemory>
    ensures { OnOk result (read_so_far closed.new.items last.new
        ≡ grown (read_so_far closed.old.items last.old) (entry_of entry)) }
{
    match entry {
        Some(change) => {
            last.push(change)?;
            Ok(())
        }
        None => {
            let tick = mem::replace(last, Changes::new(alloc));
            closed.push(Part::new(tick))?;
            Ok(())
        }
    }
}

impl Ticked {
    ghost use Rattle.tk_window.specs.Ticks.{ticked_of};

    /// Reads one mark or one change a record, in one pass over the bytes.
    pub fn read(alloc: Global, bytes: &[u8], names: &Catalog) -> Result<Ticked, PartFault>
        ensures ok { IfOk result (λ ticks. ticked_of names.now bytes.now ≡ Ok ticks) }
        ensures err { IfErr result (λ e. IsFault e (ticked_of names.now bytes.now)) }
        // What a log that was read is within.
        ensures objects { IfOk result (All (AreOver (length names.now))) }
    {
        let mut rows = Records::new(alloc, bytes);
        let mut row = ByteRecord::new(alloc);
        let mut closed = Vec::new(alloc);
        let mut last = Changes::new(alloc);
        let mut records = 0;
        while rows.next(&mut row)? {
            let entry = next_entry(names, &row, records)?;
            take_entry(alloc, &mut closed, &mut last, entry)?;
            records += 1;
        }
        closed.push(Part::new(last))?;
        Ok(Ticked { ticks: closed })
    }

    /// How many ticks there are.
    pub fn ticks(&self) -> u32
        ensures value { result ≡ length self.now }
        ensures limits { AreTicks self.now }
    {
        self.ticks.len() as u32
    }

    /// The changes of a tick, from 1.
    pub fn changes(&self, t: u32) -> &Changes
        requires { IsTick self.now t }
        ensures value { result.now ≡ changes_at self.now t }
        ensures most { length result.now ≤ 1000000 }
        ensures sizes { All (λ c. unsigned_abs c.1 < 2 ^ 127) result.now }
    {
        self.ticks[t as usize - 1].changes()
    }

    /// How many changes a tick has.
    pub fn length(&self, t: u32) -> u32
        requires { IsTick self.now t }
        ensures value { result ≡ length (changes_at self.now t) }
        ensures most { result ≤ 1000000 }
    {
        self.changes(t).len() as u32
    }

    /// The change of a tick at a place from 0.
    pub fn change(&self, t: u32, i: u32) -> Change
        requires tick { IsTick self.now t }
        requires place { i < length (changes_at self.now t) }
        ensures { slice_get (changes_at self.now t) i ≡ Some (result.obj.0, result.by) }
    {
        self.changes(t).at(i as usize)
    }
}
