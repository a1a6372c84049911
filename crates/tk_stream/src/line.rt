//! What one line is: a record, a bad line, or nothing.

ghost use Rattle.std.specs.Prelude.{◌≡◌, Ok, Err, IfOk, IfErr, IfSome, length};
ghost use Rattle.tk_input.specs.Logs.{IsObject};
ghost use Rattle.tk_stream.specs.Line.{IsItemOf, IsJudgedOf, OfFault, entry_as, judged_as, line_change, line_entry, line_of, made_of, record_as, single};

use crate::item::Item;
use crate::line_fault::LineFault;
use crate::plain::{comma_in, plain_record};
use crate::tick::is_tick;
use std::alloc::Global;
use tk_base::NoMemory;
use tk_input::{Catalog, Change, Part, PartFault};

/// The most bytes of a line without its end.
pub const MAX_LINE: usize = 65_536;

/// What a line is.
#[derive(Clone, Copy, Debug, PartialEq, Eq)]
pub enum Judged {
    /// It is passed over.
    Empty,
    Found(Item),
    Bad(LineFault),
}

/// What a fault of a log of one line says of the line, which has no room for a million records.
fn fault_of(fault: PartFault) -> Result<LineFault, NoMemory>
    ensures { OfFault result fault }
{
    match fault {
        PartFault::TooMany => Ok(LineFault::BadRow),
        PartFault::BadRow(_) => Ok(LineFault::BadRow),
        PartFault::UnknownName(_) => Ok(LineFault::UnknownName),
        PartFault::BadNumber(_) => Ok(LineFault::BadNumber),
        PartFault::NoMemory => Err(NoMemory),
    }
}

/// The change of a log that has one.
fn one_of(part: &Part) -> Result<Change, LineFault>
    ensures { record_as result ≡ single part.now }
{
    if part.len() == 1 {
        Ok(part.at(0))
    } else {
        Err(LineFault::BadRow)
    }
}

/// What any line is, read as a log of its own.
fn csv_record(
    alloc: Global,
    line: &[u8],
    names: &Catalog,
) -> Result<Result<Change, LineFault>, NoMemory>
    ensures ok { IfOk result (λ read. record_as read ≡ line_change names.now line.now) }
    ensures object { IfOk result (λ read. IfOk read (λ c. IsObject (length names.now) c.obj.0)) }
{
    match Part::read(alloc, line, names) {
        Ok(part) => Ok(one_of(&part)),
        Err(fault) => Ok(Err(fault_of(fault)?)),
    }
}

/// What a line is, read as a log of its own. The length of the line does not matter here. A plain line, a name and a number
/// with a comma between them and nothing that csv treats apart, takes no memory, and a hundredth of the time.
pub fn record_of(
    alloc: Global,
    line: &[u8],
    names: &Catalog,
) -> Result<Result<Change, LineFault>, NoMemory>
    ensures ok { IfOk result (λ read. record_as read ≡ line_change names.now line.now) }
    ensures object { IfOk result (λ read. IfOk read (λ c. IsObject (length names.now) c.obj.0)) }
{
    match comma_in(line) {
        Some(place) => Ok(plain_record(line, place, names)),
        None => csv_record(alloc, line, names),
    }
}

/// What a record that was read is to a reader of items.
fn item_of(read: Result<Change, LineFault>) -> Result<Item, LineFault>
    ensures { entry_as result ≡ made_of (record_as read) }
{
    match read {
        Ok(change) => Ok(Item::Record(change)),
        Err(fault) => Err(fault),
    }
}

/// What a line is, read as a log of its own, where ticks are known or not.
fn item_in(
    alloc: Global,
    line: &[u8],
    names: &Catalog,
    ticks: bool,
) -> Result<Result<Item, LineFault>, NoMemory>
    ensures ok { IfOk result (λ read. entry_as read ≡ line_entry ticks names.now line.now) }
    ensures object { IfOk result (λ read. IfOk read (IsItemOf ticks (length names.now))) }
{
    if ticks && is_tick(alloc, line)? {
        return Ok(Ok(Item::Tick));
    }
    Ok(item_of(record_of(alloc, line, names)?))
}

/// What a line is, whatever its length.
pub fn judge(alloc: Global, line: &[u8], names: &Catalog, ticks: bool) -> Result<Judged, NoMemory>
    ensures ok { IfOk result (λ judged. judged_as judged ≡ line_of ticks names.now line.now) }
    ensures object { IfOk result (IsJudgedOf ticks (length names.now)) }
{
    if line.is_empty() {
        return Ok(Judged::Empty);
    }
    if line.len() > MAX_LINE {
        return Ok(Judged::Bad(LineFault::TooLong));
    }
    match item_in(alloc, line, names, ticks)? {
        Ok(item) => Ok(Judged::Found(item)),
        Err(fault) => Ok(Judged::Bad(fault)),
    }
}
