//! The log of a feeder: how a file gives it, and how several hold the same list.

ghost use Rattle.std.specs.Prelude.{◌≡◌, ◌<◌, ◌≤◌, ◌^◌, IfOk, IfErr, OnErr, OnOk, Ok, Err, All, [], length, option_map, slice_get, Some, unsigned_abs};
ghost use Rattle.csv.specs.Records.{fields_of};
ghost use Rattle.tk_input.specs.Changes.{grown_by, pair_of};
ghost use Rattle.tk_input.specs.Log.{IsFault, both_fields as both_fields_of, change_added, change_behind, lent_fields, log_of, next_change as next_change_of};
ghost use Rattle.tk_input.specs.Logs.{IsObject};
ghost use Rattle.tk_input.specs.Plain.{cut_records, with_line};
ghost use Rattle.tk_input.specs.Records.{through};
ghost use Rattle.tk_input.specs.declared.part.PartFault.TheVariants.{NoMemory as OutOfMemory};

use crate::catalog::Catalog;
use crate::change::Change;
use crate::changes::Changes;
use crate::number::whole_number_of;
use crate::plain::{both_in, is_plain, split_line};
use crate::records::Records;
use csv::ByteRecord;
use std::alloc::{AllocError, AllocFailed, Global};
use std::error::Error;
use std::fmt;
use std::marker::Model;
use std::sync::Arc;
use tk_base::NoMemory;

const MAX_CHANGES: usize = 1_000_000;

/// Why a file is no log. A number is that of the record, from 1.
#[derive(Clone, Copy, Debug, PartialEq, Eq)]
pub enum PartFault {
    TooMany,
    BadRow(u32),
    UnknownName(u32),
    BadNumber(u32),
    NoMemory,
}

impl fmt::Display for PartFault {
    fn fmt<W: fmt::Write>(&self, f: &mut fmt::Formatter<W>) -> fmt::Result {
        match self {
            PartFault::TooMany => f.write_str("too many records"),
            PartFault::BadRow(n) => write!(f, "record {n}: wrong number of fields"),
            PartFault::UnknownName(n) => write!(f, "record {n}: unknown object"),
            PartFault::BadNumber(n) => write!(f, "record {n}: bad number"),
            PartFault::NoMemory => f.write_str("out of memory"),
        }
    }
}

impl Error for PartFault {}

impl From<AllocError> for PartFault {
    ghost from_gives = { λ _ e. e ≡ OutOfMemory };

    fn from(_error: AllocError) -> PartFault {
        PartFault::NoMemory
    }
}

impl<T: Drop> From<AllocFailed<T>> for PartFault {
    ghost from_gives = { λ _ e. e ≡ OutOfMemory };

    fn from(_error: AllocFailed<T>) -> PartFault {
        PartFault::NoMemory
    }
}

impl From<NoMemory> for PartFault {
    ghost from_gives = { λ _ e. e ≡ OutOfMemory };

    fn from(_error: NoMemory) -> PartFault {
        PartFault::NoMemory
    }
}

/// A list of changes of its own, or one that several parts hold.
#[derive(Drop)]
enum Held {
    Own(Changes),
    Shared(Arc<Changes>),
}

/// The changes of one feeder, in order. A part of `Logs` is shared: a clone of it holds the same list.
#[derive(Drop)]
pub struct Part {
    held: Held,
}

impl Model for Part {
    ghost use Rattle.std.specs.Prelude.{ℕ, ℤ, List};

    ghost Value = { List (ℕ × ℤ) };

    ghost use Rattle.tk_input.specs.Part.{held_by};

    ghost view = { λ p. held_by p.held };
}

fn both_fields(row: &ByteRecord) -> Option<(&[u8], &[u8])>
    ensures { option_map (λ p. (p.0.now, p.1.now)) result ≡ both_fields_of (fields_of row.now) }
{
    if row.len() != 2 {
        return None;
    }
    Some((row.get(0)?, row.get(1)?))
}

/// The change of a record's fields, if it has two, with so many records before it.
fn change_after(
    names: &Catalog,
    fields: Option<(&[u8], &[u8])>,
    before: usize,
) -> Result<Change, PartFault>
    ensures ok { IfOk result (λ c. change_behind names.now before (lent_fields fields.entry) ≡ Ok (c.obj.0, c.by)) }
    ensures err { IfErr result (λ e. change_behind names.now before (lent_fields fields.entry) ≡ Err e) }
    ensures object { IfOk result (λ c. IsObject (length names.now) c.obj.0) }
    ensures size { IfOk result (λ c. unsigned_abs c.by < 2 ^ 127) }
    ensures few { OnOk result (before < 1000000) }
{
    if before >= MAX_CHANGES {
        return Err(PartFault::TooMany);
    }
    let number = before as u32 + 1;
    let Some((name, text)) = fields else {
        return Err(PartFault::BadRow(number));
    };
    let Some(obj) = names.find(name) else {
        return Err(PartFault::UnknownName(number));
    };
    match whole_number_of(text) {
        Some(by) => Ok(Change { obj, by }),
        None => Err(PartFault::BadNumber(number)),
    }
}

/// The change of a record, with so many before it.
pub fn next_change(names: &Catalog, row: &ByteRecord, before: usize) -> Result<Change, PartFault>
    ensures ok { IfOk result (λ c. next_change_of names.now before (fields_of row.now) ≡ Ok (c.obj.0, c.by)) }
    ensures err { IfErr result (λ e. next_change_of names.now before (fields_of row.now) ≡ Err e) }
    ensures object { IfOk result (λ c. IsObject (length names.now) c.obj.0) }
    ensures size { IfOk result (λ c. unsigned_abs c.by < 2 ^ 127) }
    ensures few { OnOk result (before < 1000000) }
{
    change_after(names, both_fields(row), before)
}

/// Adds the changes of the records that are left behind the others. Here and below what grows is lent: a place that drops it
/// by itself is dear to prove.
fn take_rows(
    rows: &mut Records<'_>,
    row: &mut ByteRecord,
    names: &Catalog,
    changes: &mut Changes,
) -> Result<(), PartFault>
    requires most { length changes.old ≤ 1000000 }
    requires objects { All (λ c. IsObject (length names.now) c.0) changes.old }
    ensures ok { OnOk result (through (change_added names.now) changes.old rows.old ≡ Ok changes.new) }
    ensures err { IfErr result (λ e. IsFault e (through (change_added names.now) changes.old rows.old)) }
    ensures objects { OnOk result (All (λ c. IsObject (length names.now) c.0) changes.new) }
    ensures most { OnOk result (length changes.new ≤ 1000000) }
{
    while rows.next(row)? {
        let change = next_change(names, row, changes.len())?;
        changes.push(change)?;
    }
    Ok(())
}

/// Adds the changes of a log to none.
fn take_records(
    alloc: Global,
    bytes: &[u8],
    names: &Catalog,
    changes: &mut Changes,
) -> Result<(), PartFault>
    requires { changes.old ≡ [] }
    ensures ok { OnOk result (log_of names.now bytes.now ≡ Ok changes.new) }
    ensures err { IfErr result (λ e. IsFault e (log_of names.now bytes.now)) }
    ensures objects { OnOk result (All (λ c. IsObject (length names.now) c.0) changes.new) }
    ensures most { OnOk result (length changes.new ≤ 1000000) }
{
    let mut rows = Records::new(alloc, bytes);
    let mut row = ByteRecord::new(alloc);
    take_rows(&mut rows, &mut row, names, changes)
}

/// Adds the change of a line behind the others, unless the line is empty.
fn take_line(line: &[u8], names: &Catalog, changes: &mut Changes) -> Result<(), PartFault>
    requires most { length changes.old ≤ 1000000 }
    requires objects { All (λ c. IsObject (length names.now) c.0) changes.old }
    ensures ok { OnOk result (through (change_added names.now) changes.old (with_line line.now []) ≡ Ok changes.new) }
    ensures err { IfErr result (λ e. IsFault e (through (change_added names.now) changes.old (with_line line.now []))) }
    ensures objects { OnOk result (All (λ c. IsObject (length names.now) c.0) changes.new) }
    ensures most { OnOk result (length changes.new ≤ 1000000) }
{
    if line.is_empty() {
        return Ok(());
    }
    let change = change_after(names, both_in(line), changes.len())?;
    changes.push(change)?;
    Ok(())
}

/// Adds the changes of a plain text behind the others.
fn take_plain(text: &[u8], names: &Catalog, changes: &mut Changes) -> Result<(), PartFault>
    requires most { length changes.old ≤ 1000000 }
    requires objects { All (λ c. IsObject (length names.now) c.0) changes.old }
    ensures ok { OnOk result (through (change_added names.now) changes.old (cut_records text.now) ≡ Ok changes.new) }
    ensures err { IfErr result (λ e. IsFault e (through (change_added names.now) changes.old (cut_records text.now))) }
    ensures objects { OnOk result (All (λ c. IsObject (length names.now) c.0) changes.new) }
    ensures most { OnOk result (length changes.new ≤ 1000000) }
{
    let mut rest = text;
    while !rest.is_empty() {
        let (line, behind) = split_line(rest);
        take_line(line, names, changes)?;
        rest = behind;
    }
    Ok(())
}

/// Adds the changes of a log to none: a plain one is cut without csv.
fn take_log(
    alloc: Global,
    bytes: &[u8],
    names: &Catalog,
    changes: &mut Changes,
) -> Result<(), PartFault>
    requires { changes.old ≡ [] }
    ensures ok { OnOk result (log_of names.now bytes.now ≡ Ok changes.new) }
    ensures err { IfErr result (λ e. IsFault e (log_of names.now bytes.now)) }
    ensures objects { OnOk result (All (λ c. IsObject (length names.now) c.0) changes.new) }
    ensures most { OnOk result (length changes.new ≤ 1000000) }
{
    if is_plain(bytes) {
        return take_plain(bytes, names, changes);
    }
    take_records(alloc, bytes, names, changes)
}

impl Part {
    /// Reads one change a record, in one pass over the bytes.
    pub fn read(alloc: Global, bytes: &[u8], names: &Catalog) -> Result<Part, PartFault>
        ensures ok { IfOk result (λ part. log_of names.now bytes.now ≡ Ok part) }
        ensures err { IfErr result (λ e. IsFault e (log_of names.now bytes.now)) }
        // What a log that was read is within.
        ensures objects { IfOk result (λ p. All (λ c. IsObject (length names.now) c.0) p) }
        ensures most { IfOk result (λ p. length p ≤ 1000000) }
    {
        let mut changes = Changes::new(alloc);
        take_log(alloc, bytes, names, &mut changes)?;
        changes.shrink_to_fit();
        Ok(Part::new(changes))
    }

    /// Takes the list as it is.
    pub fn new(changes: Changes) -> Part
        ensures { result ≡ changes }
    {
        Part {
            held: Held::Own(changes),
        }
    }

    /// The list itself.
    pub fn changes(&self) -> &Changes
        ensures { result.now ≡ self.now }
    {
        match &self.held {
            Held::Own(changes) => changes,
            Held::Shared(changes) => changes,
        }
    }

    /// How many changes there are.
    pub fn len(&self) -> usize
        ensures { result ≡ length self.now }
    {
        self.changes().len()
    }

    /// The change at a place from 0.
    pub fn at(&self, i: usize) -> Change
        requires { i < length self.now }
        ensures { slice_get self.now i ≡ Some (result.obj.0, result.by) }
    {
        self.changes().at(i)
    }

    /// Puts a change in front of the last one. Costs what `Changes::grow` costs, and where others hold the list too, a copy of it.
    pub fn grow(&mut self, change: Change) -> Result<(), NoMemory>
        requires { 0 < length self.old }
        ensures ok { OnOk result (self.new ≡ grown_by (pair_of change) self.old) }
        ensures err { OnErr result (self.new ≡ self.old) }
    {
        match &mut self.held {
            Held::Own(changes) => changes.grow(change),
            Held::Shared(shared) => {
                let mut own = Changes::try_clone(shared)?;
                own.grow(change)?;
                self.held = Held::Own(own);
                Ok(())
            }
        }
    }

    /// The same changes, of which clones are cheap from now on.
    pub fn share(self, alloc: Global) -> Result<Part, NoMemory>
        ensures { IfOk result (λ p. p ≡ self) }
    {
        let Part { held } = self;
        match held {
            Held::Own(changes) => Ok(Part {
                held: Held::Shared(Arc::new(alloc, changes)?),
            }),
            Held::Shared(changes) => Ok(Part {
                held: Held::Shared(changes),
            }),
        }
    }

    /// Of a shared part another holder of its list, in constant time; else a copy of the list.
    pub fn try_clone(&self) -> Result<Part, NoMemory>
        ensures { IfOk result (λ p. p ≡ self.now) }
    {
        match &self.held {
            Held::Own(changes) => Ok(Part {
                held: Held::Own(changes.try_clone()?),
            }),
            Held::Shared(changes) => Ok(Part {
                held: Held::Shared(Arc::try_clone(changes)?),
            }),
        }
    }
}
