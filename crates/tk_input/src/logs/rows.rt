//! The parts of each monitor as a row, shared.

ghost use Rattle.std.specs.Prelude.{◌≡◌, IfOk};
ghost use Rattle.tk_input.specs.Judged.{feeders_of, last_monitor as last_of, logs_by_monitor};
ghost use Rattle.tk_input.specs.Rows.{logs_in};

use crate::part::Part;
use std::alloc::Global;
use tk_base::{Mon, NoMemory};

fn last_monitor(parts: &[(Mon, Part)]) -> u32
    ensures { result ≡ last_of parts.now }
{
    parts.iter().fold(0, |last, part| last.max(part.0.0))
}

/// The same parts, each with a list that it can share.
pub fn shared_parts(alloc: Global, parts: Vec<(Mon, Part)>) -> Result<Vec<(Mon, Part)>, NoMemory>
    ensures { IfOk result (λ shared. shared.items ≡ parts.items) }
{
    let mut shared = Vec::with_capacity(alloc, parts.len())?;
    for (mon, part) in parts {
        shared.push((mon, part.share(alloc)?))?;
    }
    Ok(shared)
}

fn row_of(alloc: Global, parts: &[(Mon, Part)], mon: Mon) -> Result<Vec<Part>, NoMemory>
    ensures { IfOk result (λ row. row.items ≡ feeders_of parts.now mon.0) }
{
    let mut row = Vec::new(alloc);
    for (at, part) in parts {
        if *at == mon {
            row.push(part.try_clone()?)?;
        }
    }
    Ok(row)
}

/// The parts of each monitor up to the last, in the order of the list.
pub fn rows_of(alloc: Global, parts: &[(Mon, Part)]) -> Result<Vec<Vec<Part>>, NoMemory>
    ensures { IfOk result (λ rows. logs_in rows.items ≡ logs_by_monitor parts.now) }
{
    let last = last_monitor(parts);
    let mut rows = Vec::with_capacity(alloc, last as usize)?;
    for place in 0..last {
        rows.push_reserved(row_of(alloc, parts, Mon(place + 1))?);
    }
    Ok(rows)
}
