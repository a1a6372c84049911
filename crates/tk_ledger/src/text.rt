//! The lines of a ledger.

ghost use Rattle.std.specs.Prelude.{◌≡◌, ◌++◌, IfOk, OnOk, codes, decimal, length, sum_by};
ghost use Rattle.tk_ledger.specs.Counting.{count_of as number_of};
ghost use Rattle.tk_ledger.specs.Text.{bytes_text, counts_text, frames_text, monitor_text, publications_text, rounds_text, whole};

use crate::counts::Counts;
use crate::ledger::Ledger;
use itoa::{Buffer, Integer};
use std::alloc::{AllocError, Global};
use std::slice;
use tk_frames::Kind;

fn push_named<I: Integer>(line: &mut Vec<u8>, name: &[u8], number: I) -> Result<(), AllocError>
    ensures { OnOk result (line.new.items ≡ line.old.items ++ (name.now ++ I.text number)) }
{
    let mut buffer = Buffer::new();
    line.extend_from_slice(name)?;
    line.extend_from_slice(buffer.format(number).as_bytes())
}

fn count_of(counts: &Counts, kind: Kind) -> u64
    ensures { result ≡ number_of kind counts.now }
{
    match kind {
        Kind::Assign => counts.assign,
        Kind::Report => counts.report,
        Kind::Collect => counts.collect,
        Kind::Values => counts.values,
        Kind::Settled => counts.settled,
        Kind::Stop => counts.stop,
        Kind::Hello => 0,
    }
}

/// The frames of a kind at some monitors, a number that may pass a u64.
fn total(per: &[Counts], kind: Kind) -> u128
    ensures { result ≡ sum_by (number_of kind) per.now }
{
    let mut total: u128 = 0;
    for counts in per {
        total += u128::from(count_of(counts, kind));
    }
    total
}

/// The frames of each kind at some monitors together, to the end of a line.
fn push_counts(line: &mut Vec<u8>, per: &[Counts]) -> Result<(), AllocError>
    ensures { OnOk result (line.new.items ≡ line.old.items ++ counts_text (whole per.now)) }
{
    push_named(line, b" assign ", total(per, Kind::Assign))?;
    push_named(line, b" report ", total(per, Kind::Report))?;
    push_named(line, b" collect ", total(per, Kind::Collect))?;
    push_named(line, b" values ", total(per, Kind::Values))?;
    push_named(line, b" settled ", total(per, Kind::Settled))?;
    push_named(line, b" stop ", total(per, Kind::Stop))?;
    line.extend_from_slice(b"\n")
}

/// How many publications there are.
pub fn publications_line(alloc: Global, count: u64) -> Result<Vec<u8>, AllocError>
    ensures { IfOk result (λ line. line.items ≡ publications_text count) }
{
    let mut line = Vec::new(alloc);
    push_named(&mut line, b"publications ", count)?;
    line.extend_from_slice(b"\n")?;
    Ok(line)
}

/// The frames over all monitors.
pub fn frames_line(alloc: Global, ledger: &Ledger) -> Result<Vec<u8>, AllocError>
    ensures { IfOk result (λ line. line.items ≡ frames_text ledger.now) }
{
    let mut line = Vec::from_slice(alloc, b"frames")?;
    push_counts(&mut line, ledger.per.as_slice())?;
    Ok(line)
}

/// The rounds and the stale frames.
pub fn rounds_line(alloc: Global, ledger: &Ledger) -> Result<Vec<u8>, AllocError>
    ensures { IfOk result (λ line. line.items ≡ rounds_text ledger.now) }
{
    let mut line = Vec::new(alloc);
    push_named(&mut line, b"rounds short ", ledger.short)?;
    push_named(&mut line, b" full ", ledger.full)?;
    push_named(&mut line, b" wide ", ledger.wide)?;
    push_named(&mut line, b" stale ", ledger.stale)?;
    line.extend_from_slice(b"\n")?;
    Ok(line)
}

/// The line with the bytes of all frames.
pub fn bytes_line(alloc: Global, ledger: &Ledger) -> Result<Vec<u8>, AllocError>
    ensures { IfOk result (λ line. line.items ≡ bytes_text ledger.now) }
{
    let mut line = Vec::new(alloc);
    push_named(&mut line, b"bytes ", ledger.bytes)?;
    line.extend_from_slice(b"\n")?;
    Ok(line)
}

/// The frames of one monitor.
pub fn monitor_line(alloc: Global, monitor: u64, counts: &Counts) -> Result<Vec<u8>, AllocError>
    ensures { IfOk result (λ line. line.items ≡ monitor_text monitor counts.now) }
{
    let mut line = Vec::new(alloc);
    push_named(&mut line, b"monitor ", monitor)?;
    push_counts(&mut line, slice::from_ref(counts))?;
    Ok(line)
}
