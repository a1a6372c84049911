//! The logs of the monitors.

ghost use Rattle.std.specs.Prelude.{◌≡◌, ◌++◌, ◌≤◌, length, All, OnOk};
ghost use Rattle.std.specs.List.{flat_map};
ghost use Rattle.tk_input.specs.Changes.{pair_of};
ghost use Rattle.tk_input.specs.Logs.{AreGathered};
ghost use Rattle.tk_trace.specs.Spelling.{change as change_of, part as part_of, row as row_of};

use super::fields::{count, number_u8, number_u32, signed_i128};
use std::alloc::Global;
use tk_base::{Mon, NoMemory};
use tk_input::{Change, Changes, Logs, Part};

fn change(out: &mut Vec<u8>, change: Change) -> Result<(), NoMemory>
    ensures { OnOk result (out.new.items ≡ out.old.items ++ change_of (pair_of change)) }
{
    number_u32(out, change.obj.0)?;
    signed_i128(out, change.by)
}

fn changes(out: &mut Vec<u8>, changes: &Changes) -> Result<(), NoMemory>
    ensures { OnOk result (out.new.items ≡ out.old.items ++ flat_map change_of changes.now) }
{
    for i in 0..changes.len() {
        change(out, changes.at(i))?;
    }
    Ok(())
}

fn part(out: &mut Vec<u8>, part: &Part) -> Result<(), NoMemory>
    requires { length part.now ≤ 1000000 }
    ensures { OnOk result (out.new.items ≡ out.old.items ++ part_of part.now) }
{
    count(out, part.len())?;
    changes(out, part.changes())
}

fn parts(out: &mut Vec<u8>, parts: &[Part]) -> Result<(), NoMemory>
    requires { All (λ part. length part ≤ 1000000) parts.now }
    ensures { OnOk result (out.new.items ≡ out.old.items ++ flat_map part_of parts.now) }
{
    for item in parts {
        part(out, item)?;
    }
    Ok(())
}

/// The parts of one monitor.
fn row(out: &mut Vec<u8>, row: &[Part]) -> Result<(), NoMemory>
    requires few { length row.now ≤ 8 }
    requires lengths { All (λ part. length part ≤ 1000000) row.now }
    ensures { OnOk result (out.new.items ≡ out.old.items ++ row_of row.now) }
{
    number_u8(out, row.len() as u8)?;
    parts(out, row)
}

/// Appends the logs.
pub fn put_logs(alloc: Global, out: &mut Vec<u8>, logs: &Logs) -> Result<(), NoMemory>
    ensures bytes { OnOk result (out.new.items ≡ out.old.items ++ flat_map row_of logs.now.logs) }
    ensures gathered { OnOk result (AreGathered logs.now) }
{
    for i in 0..logs.monitors() {
        row(out, logs.parts(alloc, Mon(i + 1))?.as_slice())?;
    }
    Ok(())
}
