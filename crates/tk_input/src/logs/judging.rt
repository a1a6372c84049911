//! The tests that rows of parts must pass, in their order.

ghost use Rattle.std.specs.Prelude.{◌≡◌, ◌<◌, ◌≤◌, ◌^◌, IfOk, IfErr, IsErrOf, IsTrue, OnOk, All, Ok, length, nat_lt, option_map, position, sum_by, ◌==◌};
ghost use Rattle.tk_input.specs.Changes.{AreSmall};
ghost use Rattle.tk_input.specs.Judged.{AreCounted, Refuses, first_crowded, first_gap, great_in, great_object, judged, set_of};
ghost use Rattle.tk_input.specs.Logs.{AreGathered, IsObject, updates_of as updates_at};
ghost use Rattle.tk_input.specs.Rows.{logs_in};

use super::LogsFault;
use super::weights::{first_heavy, weights_of};
use crate::part::Part;
use std::alloc::Global;
use tk_base::{Mon, NoMemory, Obj};

const MAX_FEEDERS: usize = 8;

const MAX_UPDATES: usize = 4_000_000;

fn first_bare(rows: &[Vec<Part>]) -> Option<usize>
    ensures { result ≡ position (λ row. length row.items == 0) rows.now }
{
    rows.iter().position(|row| row.as_slice().is_empty())
}

fn gap_of(rows: &[Vec<Part>]) -> Option<Mon>
    requires { length rows.now ≤ 64 }
    ensures { option_map (λ mon. mon.0) result ≡ first_gap (logs_in rows.now) }
{
    if rows.is_empty() {
        return Some(Mon(1));
    }
    let place = first_bare(rows)?;
    Some(Mon(place as u32 + 1))
}

fn first_wide(rows: &[Vec<Part>]) -> Option<usize>
    ensures { result ≡ position (λ row. nat_lt 8 (length row.items)) rows.now }
{
    rows.iter()
        .position(|row| row.as_slice().len() > MAX_FEEDERS)
}

fn crowded_of(rows: &[Vec<Part>]) -> Option<Mon>
    requires { length rows.now ≤ 64 }
    ensures { option_map (λ mon. mon.0) result ≡ first_crowded (logs_in rows.now) }
{
    let place = first_wide(rows)?;
    Some(Mon(place as u32 + 1))
}

fn updates_in(row: &[Part]) -> usize
    requires { updates_at row.now < 2 ^ 64 }
    ensures { result ≡ updates_at row.now }
{
    let mut updates = 0;
    for part in row {
        updates += part.len();
    }
    updates
}

fn updates_of(rows: &[Vec<Part>]) -> usize
    requires { sum_by updates_at (logs_in rows.now) < 2 ^ 64 }
    ensures { result ≡ sum_by updates_at (logs_in rows.now) }
{
    let mut updates = 0;
    for row in rows {
        updates += updates_in(row.as_slice());
    }
    updates
}

fn are_narrow(row: &[Part]) -> bool
    ensures { IsTrue result → All AreSmall row.now }
{
    for part in row {
        if !part.changes().are_narrow() {
            return false;
        }
    }
    true
}

fn first_great(alloc: Global, row: &[Part], objects: u32) -> Result<Option<Obj>, NoMemory>
    requires objects { All (λ part. All (λ c. IsObject objects c.0) part) row.now }
    requires updates { updates_at row.now ≤ 4000000 }
    ensures { IfOk result (λ great. option_map (λ o. o.0) great ≡ great_object objects row.now) }
{
    // So few amounts of 4 bytes each cannot pass the limit.
    if are_narrow(row) {
        return Ok(None);
    }
    let weights = weights_of(alloc, row, objects)?;
    match first_heavy(weights.as_slice()) {
        Some(place) => Ok(Some(Obj(place as u32 + 1))),
        None => Ok(None),
    }
}

fn great_of(alloc: Global, rows: &[Vec<Part>], objects: u32) -> Result<Option<LogsFault>, NoMemory>
    requires monitors { length rows.now ≤ 64 }
    requires objects { All (λ parts. All (λ part. All (λ c. IsObject objects c.0) part) parts) (logs_in rows.now) }
    requires updates { sum_by updates_at (logs_in rows.now) ≤ 4000000 }
    ensures { IfOk result (λ great. great ≡ great_in (set_of (logs_in rows.now) objects)) }
{
    for (place, row) in rows.iter().enumerate() {
        if let Some(obj) = first_great(alloc, row.as_slice(), objects)? {
            return Ok(Some(LogsFault::TooGreat {
                mon: Mon(place as u32 + 1),
                obj,
            }));
        }
    }
    Ok(None)
}

/// Refuses rows by the first test that fails; takes room for one number per object where a change takes 32 bytes.
pub fn judge(alloc: Global, rows: &[Vec<Part>], objects: u32) -> Result<(), LogsFault>
    requires monitors { length rows.now ≤ 64 }
    requires objects { All (λ parts. All (λ part. All (λ c. IsObject objects c.0) part) parts) (logs_in rows.now) }
    requires lengths { All (λ parts. All (λ part. length part ≤ 1000000) parts) (logs_in rows.now) }
    ensures ok { OnOk result (judged (set_of (logs_in rows.now) objects) ≡ Ok (set_of (logs_in rows.now) objects)) }
    ensures err { IfErr result (λ e. Refuses e (judged (set_of (logs_in rows.now) objects))) }
    // Memory is wanted only where the tests of the numbers pass.
    ensures room { IsErrOf result LogsFault.NoMemory → AreCounted (logs_in rows.now) }
    ensures gathered { OnOk result (AreGathered (set_of (logs_in rows.now) objects)) }
{
    if let Some(mon) = gap_of(rows) {
        return Err(LogsFault::MonitorGap(mon));
    }
    if let Some(mon) = crowded_of(rows) {
        return Err(LogsFault::TooManyFeeders(mon));
    }
    if updates_of(rows) > MAX_UPDATES {
        return Err(LogsFault::TooManyUpdates);
    }
    if let Some(great) = great_of(alloc, rows, objects)? {
        return Err(great);
    }
    Ok(())
}
