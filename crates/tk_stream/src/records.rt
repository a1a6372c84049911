//! The records and ticks of a stream, line by line.

ghost use Rattle.std.specs.Prelude.{◌≡◌, ◌<◌, [], true, false, IfOk, IfErr, IfSome, length};
ghost use Rattle.tk_input.specs.Logs.{IsObject};
ghost use Rattle.tk_stream.specs.First.{next_number};
ghost use Rattle.tk_stream.specs.Line.{IsItemOf};
ghost use Rattle.tk_stream.specs.LineBuffer.{left_in};
ghost use Rattle.tk_stream.specs.Records.{Fails, FailsItem, Finds, FindsItem, MayEnd, faults_after, unread_of};
ghost use Rattle.tk_stream.specs.Turn.{Counts, IsTurnOf, Turns};
ghost use Rattle.tk_stream.specs.declared.records.Turn.TheVariants.{More};

use crate::front::feed_in;
use crate::item::Item;
use crate::line::Judged;
use crate::line_buffer::LineBuffer;
use crate::line_fault::LineFault;
use crate::source::Source;
use crate::taking::{Met, take_front};
use std::alloc::Global;
use std::error::Error;
use std::fmt;
use std::marker::Model;
use tk_base::NoMemory;
use tk_input::{Catalog, Change};

/// Why a stream gave no record.
#[derive(Clone, Copy, Debug, PartialEq, Eq)]
pub enum StreamFault {
    /// A line is bad. Lines count from 1, and the number stays at the greatest u32 once it is there.
    Bad { line: u32, fault: LineFault },
    ReadFailed,
    NoMemory,
}

impl fmt::Display for StreamFault {
    fn fmt<W: fmt::Write>(&self, f: &mut fmt::Formatter<W>) -> fmt::Result {
        match self {
            StreamFault::Bad { line, fault } => write!(f, "line {line}: {fault}"),
            StreamFault::ReadFailed => f.write_str("cannot be read"),
            StreamFault::NoMemory => f.write_str("out of memory"),
        }
    }
}

impl Error for StreamFault {}

/// What one turn came to.
enum Turn {
    /// A line was passed over, or bytes were read.
    More,
    Found(Item),
    End,
}

/// The records of a stream, of whose bytes at most one line and 64 KiB are kept.
#[derive(Drop)]
pub struct Records<S: Source> {
    alloc: Global,
    source: S,
    buffer: LineBuffer,
    ended: bool,
    number: u32,
    skips: bool,
    skipped: u64,
}

impl<S: Source> Model for Records<S> {
    ghost use Rattle.std.specs.Prelude.{◌≡◌, [], true};
    ghost use Rattle.tk_stream.specs.LineBuffer.{left_in};
    ghost use Rattle.tk_stream.specs.Records.{Unread};

    ghost Value = { Unread };

    ghost view = { λ r. record {
      tells = S.tells;
      lines = left_in r.buffer (S.content r.source);
      number = r.number;
      skips = r.skips;
      skipped = r.skipped;
      faults = S.fault_count r.source;
    } };

    ghost invariant = { λ r. r.ended ≡ true → S.tells ≡ true → S.content r.source ≡ [] };
}

/// Counts a line that is so, and tells what comes of it.
fn count(
    judged: Judged,
    skips: bool,
    number: &mut u32,
    skipped: &mut u64,
) -> Result<Turn, StreamFault>
    ensures number { number.new ≡ next_number number.old }
    ensures counts { Counts judged skips result number.new skipped.old skipped.new }
    ensures strict { IfErr result (λ fault. MayEnd fault skips) }
{
    *number = number.saturating_add(1);
    match judged {
        Judged::Empty => Ok(Turn::More),
        Judged::Found(item) => Ok(Turn::Found(item)),
        Judged::Bad(_) if skips => {
            *skipped = skipped.saturating_add(1);
            Ok(Turn::More)
        }
        Judged::Bad(fault) => Err(StreamFault::Bad {
            line: *number,
            fault,
        }),
    }
}

/// Reads once.
fn read_more<S: Source>(
    buffer: &mut LineBuffer,
    source: &mut S,
    ended: &mut bool,
) -> Result<Turn, StreamFault>
    requires room { length buffer.old.bytes < 65538 }
    requires goes_on { ended.old ≡ false }
    ensures ok { IfOk result (λ turn. turn ≡ More) }
    ensures err { IfErr result (λ fault. fault ≡ StreamFault.ReadFailed) }
    ensures left { S.tells ≡ true → left_in buffer.new (S.content source.new) ≡ left_in buffer.old (S.content source.old) }
    ensures ended { ended.new ≡ true → S.tells ≡ true → S.content source.new ≡ [] }
    ensures counted { S.fault_count source.new ≡ faults_after result (S.fault_count source.old) }
{
    let Ok(came) = buffer.fill(source) else {
        return Err(StreamFault::ReadFailed);
    };
    *ended = !came;
    Ok(Turn::More)
}

impl<S: Source + Drop> Records<S> {
    /// All lines of a source are still to be read. Bad lines are skipped and counted, or end in an error.
    pub fn new(alloc: Global, source: S, skip_bad: bool) -> Result<Records<S>, NoMemory>
        ensures { IfOk result (λ r. r ≡ unread_of S.tells (S.content source) (S.fault_count source) skip_bad) }
    {
        Ok(Records {
            alloc,
            source,
            buffer: LineBuffer::new(alloc)?,
            ended: false,
            number: 0,
            skips: skip_bad,
            skipped: 0,
        })
    }

    /// How many bad lines were skipped, up to the greatest u64.
    pub fn skipped(&self) -> u64
        ensures { result ≡ self.now.skipped }
    {
        self.skipped
    }

    /// Whether a whole line was read already, so that it is judged without a read.
    pub fn is_ready(&self) -> bool {
        feed_in(self.buffer.held()).is_some()
    }

    /// The next record, and None at the end, behind which it stays. It may wait for ever. Where memory is wanted or a read
    /// fails, no line is lost: a later call goes on.
    pub fn next(&mut self, names: &Catalog) -> Result<Option<Change>, StreamFault>
        // What comes is the first record or fault of the lines that were left, and leaves those behind it.
        ensures ok { IfOk result (λ came. Finds names.now came self.old self.new) }
        ensures err { IfErr result (λ fault. Fails names.now fault self.old self.new) }
        // Whatever the source: a record is of the catalogue, and a bad line is an error only where none is skipped.
        ensures object { IfOk result (λ came. IfSome came (λ c. IsObject (length names.now) c.obj.0)) }
        ensures strict { IfErr result (λ fault. MayEnd fault self.old.skips) }
        ensures counted { self.new.faults ≡ faults_after result self.old.faults }
        ensures skips { self.new.skips ≡ self.old.skips }
        ensures tells { self.new.tells ≡ self.old.tells }
    {
        match self.go_on(names, false) {
            Ok(Some(Item::Record(change))) => Ok(Some(change)),
            Ok(Some(Item::Tick)) => unreachable!(),
            Ok(None) => Ok(None),
            Err(fault) => Err(fault),
        }
    }

    /// As `next`, but a line that is a tick, the single field `tick`, is one; to `next` it is a bad row. So where an object is
    /// named `tick`, a line of that name and a number is a record.
    pub fn next_item(&mut self, names: &Catalog) -> Result<Option<Item>, StreamFault>
        // What comes is the first record, tick or fault of the lines that were left, and leaves those behind it.
        ensures ok { IfOk result (λ came. FindsItem true names.now came self.old self.new) }
        ensures err { IfErr result (λ fault. FailsItem true names.now fault self.old self.new) }
        // Whatever the source: a record is of the catalogue, and a bad line is an error only where none is skipped.
        ensures object { IfOk result (λ came. IfSome came (IsItemOf true (length names.now))) }
        ensures strict { IfErr result (λ fault. MayEnd fault self.old.skips) }
        ensures counted { self.new.faults ≡ faults_after result self.old.faults }
        ensures skips { self.new.skips ≡ self.old.skips }
        ensures tells { self.new.tells ≡ self.old.tells }
    {
        self.go_on(names, true)
    }

    /// The next item, where ticks are known or not.
    fn go_on(&mut self, names: &Catalog, ticks: bool) -> Result<Option<Item>, StreamFault>
        ensures ok { IfOk result (λ came. FindsItem ticks names.now came self.old self.new) }
        ensures err { IfErr result (λ fault. FailsItem ticks names.now fault self.old self.new) }
        ensures object { IfOk result (λ came. IfSome came (IsItemOf ticks (length names.now))) }
        ensures strict { IfErr result (λ fault. MayEnd fault self.old.skips) }
        ensures counted { self.new.faults ≡ faults_after result self.old.faults }
        ensures skips { self.new.skips ≡ self.old.skips }
        ensures tells { self.new.tells ≡ self.old.tells }
    {
        for _ in 0..u64::MAX {
            match self.turn(names, ticks) {
                Ok(Turn::More) => {}
                Ok(Turn::Found(item)) => return Ok(Some(item)),
                Ok(Turn::End) => return Ok(None),
                Err(fault) => return Err(fault),
            }
        }
        // No run comes here.
        Err(StreamFault::NoMemory)
    }

    /// Takes the line at the front, or reads once.
    fn turn(&mut self, names: &Catalog, ticks: bool) -> Result<Turn, StreamFault>
        ensures ok { IfOk result (λ turn. Turns ticks names.now turn self.old self.new) }
        ensures err { IfErr result (λ fault. FailsItem ticks names.now fault self.old self.new) }
        ensures object { IfOk result (IsTurnOf ticks (length names.now)) }
        ensures strict { IfErr result (λ fault. MayEnd fault self.old.skips) }
        ensures counted { self.new.faults ≡ faults_after result self.old.faults }
        ensures skips { self.new.skips ≡ self.old.skips }
        ensures tells { self.new.tells ≡ self.old.tells }
    {
        match take_front(self.alloc, &mut self.buffer, self.ended, names, ticks) {
            Ok(Met::Line(judged)) => count(judged, self.skips, &mut self.number, &mut self.skipped),
            Ok(Met::Part) => read_more(&mut self.buffer, &mut self.source, &mut self.ended),
            Ok(Met::Nothing) => Ok(Turn::End),
            Err(NoMemory) => Err(StreamFault::NoMemory),
        }
    }
}
