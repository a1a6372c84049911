//! The lines of a monitor's process.

ghost use Rattle.std.specs.Prelude.{◌≡◌, ◌++◌, [], IfOk, OnOk, codes, decimal, if◌then◌else◌};
ghost use Rattle.tk_journal.specs.Line.{places_text};
ghost use Rattle.tk_watch.specs.Connections.{ended_text, joined_text, left_text, tick_text};

use crate::cause::Cause;
use crate::tick_end::TickEnd;
use itoa::{Buffer, Integer};
use std::alloc::{AllocError, Global};
use tk_base::NoMemory;

fn push_number<I: Integer>(line: &mut Vec<u8>, number: I) -> Result<(), AllocError>
    ensures { OnOk result (line.new.items ≡ line.old.items ++ I.text number) }
{
    let mut buffer = Buffer::new();
    line.extend_from_slice(buffer.format(number).as_bytes())
}

/// A count, which may follow another.
fn push_count(line: &mut Vec<u8>, count: u64, follows: bool) -> Result<(), AllocError>
    ensures { OnOk result (line.new.items ≡ line.old.items ++ ((if follows then codes "," else []) ++ decimal count)) }
{
    if follows {
        line.extend_from_slice(b",")?;
    }
    push_number(line, count)
}

fn push_counts(line: &mut Vec<u8>, counts: &[u64]) -> Result<(), AllocError>
    ensures { OnOk result (line.new.items ≡ line.old.items ++ places_text counts.now) }
{
    for i in 0..counts.len() {
        push_count(line, counts[i], i > 0)?;
    }
    Ok(())
}

/// The line of a connection that was made.
pub(crate) fn joined_line(alloc: Global, number: u64, counts: &[u64]) -> Result<Vec<u8>, NoMemory>
    ensures { IfOk result (λ line. line.items ≡ joined_text number counts.now) }
{
    let mut line = Vec::from_slice(alloc, b"joined ")?;
    push_number(&mut line, number)?;
    line.extend_from_slice(b" at ")?;
    push_counts(&mut line, counts)?;
    line.extend_from_slice(b"\n")?;
    Ok(line)
}

/// The line of the last ends of ticks.
pub(crate) fn tick_line(alloc: Global, end: &TickEnd) -> Result<Vec<u8>, NoMemory>
    ensures { IfOk result (λ line. line.items ≡ tick_text end.now) }
{
    let mut line = Vec::from_slice(alloc, b"tick ")?;
    push_counts(&mut line, end.ticks())?;
    line.extend_from_slice(b" at ")?;
    push_counts(&mut line, end.places())?;
    line.extend_from_slice(b"\n")?;
    Ok(line)
}

/// The line of a connection that was left.
pub(crate) fn left_line(alloc: Global, number: u64, cause: Cause) -> Result<Vec<u8>, NoMemory>
    ensures { IfOk result (λ line. line.items ≡ left_text number cause) }
{
    let mut line = Vec::from_slice(alloc, b"left ")?;
    push_number(&mut line, number)?;
    line.extend_from_slice(b" ")?;
    line.extend_from_slice(cause.word())?;
    line.extend_from_slice(b"\n")?;
    Ok(line)
}

/// The last line, of a monitor that took Stop.
pub(crate) fn ended_line(alloc: Global, counts: &[u64], skipped: u64) -> Result<Vec<u8>, NoMemory>
    ensures { IfOk result (λ line. line.items ≡ ended_text counts.now skipped) }
{
    let mut line = Vec::from_slice(alloc, b"ended at ")?;
    push_counts(&mut line, counts)?;
    line.extend_from_slice(b" skipped ")?;
    push_number(&mut line, skipped)?;
    line.extend_from_slice(b"\n")?;
    Ok(line)
}
