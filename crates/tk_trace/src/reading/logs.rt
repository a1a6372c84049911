//! The logs of the monitors.

ghost use Rattle.std.specs.Prelude.{◌≡◌, ◌≤◌, ◌++◌, length, All, IfOk, OnOk};
ghost use Rattle.tk_input.specs.Judged.{logs_of};
ghost use Rattle.tk_input.specs.Logs.{IsObject};
ghost use Rattle.tk_input.specs.Changes.{pair_of};
ghost use Rattle.tk_input.specs.Rows.{logs_in};
ghost use Rattle.tk_input.specs.Judged.{assigned_from, under};
ghost use Rattle.tk_base.specs.Objects.{IsOneOf};
ghost use Rattle.tk_trace.specs.Reading.{Gives, change_at, if_ok, logs_at, part_at, row_at, times_at};

use super::fields::{byte, i128_at, one_of, u32_at};
use crate::fault::ParseFault;
use std::alloc::Global;
use tk_base::{Mon, NoMemory, Obj};
use tk_input::{Change, Changes, Logs, LogsFault, Part};

const MAX_CHANGES: u32 = 1_000_000;

const MAX_FEEDERS: u8 = 8;

#[tactic(auto, unfolding(crate::specs::Reading::change_at))]
fn change(objects: u32, bytes: &[u8]) -> Result<(Change, &[u8]), ParseFault>
    ensures { Gives (λ x. (pair_of x.0, x.1.now)) result (change_at objects bytes.now) }
{
    let (obj, rest) = one_of(objects, bytes)?;
    let (by, rest) = i128_at(rest)?;
    Ok((Change { obj: Obj(obj), by }, rest))
}

fn changes(
    alloc: Global,
    objects: u32,
    count: u32,
    bytes: &[u8],
) -> Result<(Changes, &[u8]), ParseFault>
    ensures { Gives (λ x. (x.0, x.1.now)) result (times_at (change_at objects) count bytes.now) }
{
    let mut list = Changes::new(alloc);
    let mut rest = bytes;
    for _ in 0..count {
        let (item, after) = change(objects, rest)?;
        list.push(item)?;
        rest = after;
    }
    list.shrink_to_fit();
    Ok((list, rest))
}

#[tactic(auto, unfolding(crate::specs::Reading::part_at))]
fn part(alloc: Global, objects: u32, bytes: &[u8]) -> Result<(Part, &[u8]), ParseFault>
    ensures { Gives (λ x. (x.0, x.1.now)) result (part_at objects bytes.now) }
{
    let (count, rest) = u32_at(bytes)?;
    if count > MAX_CHANGES {
        return Err(ParseFault::NotATrace);
    }
    let (list, rest) = changes(alloc, objects, count, rest)?;
    Ok((Part::new(list), rest))
}

fn parts(
    alloc: Global,
    objects: u32,
    count: u8,
    bytes: &[u8],
) -> Result<(Vec<Part>, &[u8]), ParseFault>
    ensures { Gives (λ x. (x.0.items, x.1.now)) result (times_at (part_at objects) count bytes.now) }
{
    let mut list = Vec::new(alloc);
    let mut rest = bytes;
    for _ in 0..count {
        let (item, after) = part(alloc, objects, rest)?;
        list.push(item)?;
        rest = after;
    }
    Ok((list, rest))
}

/// The parts of one monitor.
#[tactic(auto, unfolding(crate::specs::Reading::row_at))]
fn row(alloc: Global, objects: u32, bytes: &[u8]) -> Result<(Vec<Part>, &[u8]), ParseFault>
    ensures { Gives (λ x. (x.0.items, x.1.now)) result (row_at objects bytes.now) }
{
    let (count, rest) = byte(bytes)?;
    if count == 0 || count > MAX_FEEDERS {
        return Err(ParseFault::NotATrace);
    }
    parts(alloc, objects, count, rest)
}

fn rows(
    alloc: Global,
    objects: u32,
    monitors: u32,
    bytes: &[u8],
) -> Result<(Vec<Vec<Part>>, &[u8]), ParseFault>
    ensures { Gives (λ x. (logs_in x.0.items, x.1.now)) result (times_at (row_at objects) monitors bytes.now) }
{
    let mut list = Vec::new(alloc);
    let mut rest = bytes;
    for _ in 0..monitors {
        let (item, after) = row(alloc, objects, rest)?;
        list.push(item)?;
        rest = after;
    }
    Ok((list, rest))
}

fn append_row(list: &mut Vec<(Mon, Part)>, mon: Mon, row: Vec<Part>) -> Result<(), NoMemory>
    ensures { OnOk result (list.new.items ≡ list.old.items ++ under mon.0 row.items) }
{
    for part in row {
        list.push((mon, part))?;
    }
    Ok(())
}

/// Each part under its monitor, the first row under monitor 1.
fn assigned(alloc: Global, rows: Vec<Vec<Part>>) -> Result<Vec<(Mon, Part)>, NoMemory>
    requires { length rows.items ≤ 64 }
    ensures { IfOk result (λ list. list.items ≡ assigned_from 1 (logs_in rows.items)) }
{
    let mut list = Vec::new(alloc);
    let mut mon = 1;
    for row in rows {
        append_row(&mut list, Mon(mon), row)?;
        mon += 1;
    }
    Ok(list)
}

/// These parts as logs, if they are some.
fn made_of(alloc: Global, parts: Vec<(Mon, Part)>, objects: u32) -> Result<Logs, ParseFault>
    requires monitors { All (λ p. IsOneOf 64 p.0.0) parts.items }
    requires objects { All (λ p. All (λ c. IsObject objects c.0) p.1) parts.items }
    requires lengths { All (λ p. length p.1 ≤ 1000000) parts.items }
    ensures { Gives (λ logs. logs) result (if_ok (logs_of parts.items objects)) }
{
    match Logs::new(alloc, parts, objects) {
        Ok(logs) => Ok(logs),
        Err(LogsFault::MonitorGap(_)) => Err(ParseFault::NotATrace),
        Err(LogsFault::TooManyFeeders(_)) => Err(ParseFault::NotATrace),
        Err(LogsFault::TooManyUpdates) => Err(ParseFault::NotATrace),
        Err(LogsFault::TooGreat { .. }) => Err(ParseFault::NotATrace),
        Err(LogsFault::NoMemory) => Err(ParseFault::NoMemory),
    }
}

/// The logs of so many monitors over so many objects.
pub fn logs(
    alloc: Global,
    objects: u32,
    monitors: u32,
    bytes: &[u8],
) -> Result<(Logs, &[u8]), ParseFault>
    requires objects { objects ≤ 65536 }
    requires monitors { monitors ≤ 64 }
    ensures { Gives (λ x. (x.0, x.1.now)) result (logs_at objects monitors bytes.now) }
{
    let (rows, rest) = rows(alloc, objects, monitors, bytes)?;
    let parts = assigned(alloc, rows)?;
    Ok((made_of(alloc, parts, objects)?, rest))
}
