//! The cut in front of all changes.

ghost use Rattle.std.specs.Prelude.{◌≡◌, IfOk, map};
ghost use Rattle.tk_input.specs.Rows.{logs_in};

use crate::part::Part;
use std::alloc::Global;
use tk_base::{Cut, NoMemory, Places};

/// No change of any part of a monitor is reached.
fn places_of(alloc: Global, row: &[Part]) -> Result<Places, NoMemory>
    ensures { IfOk result (λ places. places ≡ map (λ part. 0) row.now) }
{
    Ok(Places::new(vec![in alloc; 0u32; row.len()]?))
}

/// No change of any part is reached.
pub fn cut_of(alloc: Global, rows: &[Vec<Part>]) -> Result<Cut, NoMemory>
    ensures { IfOk result (λ cut. cut ≡ map (λ parts. map (λ part. 0) parts) (logs_in rows.now)) }
{
    let mut list = Vec::with_capacity(alloc, rows.len())?;
    for row in rows {
        list.push_reserved(places_of(alloc, row.as_slice())?);
    }
    Ok(Cut::new(list))
}
