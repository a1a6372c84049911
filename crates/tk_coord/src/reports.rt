//! What stands for the reports of all monitors before the first round.

ghost use Rattle.std.specs.Prelude.{◌≡◌, length, IfOk};

use crate::entries::no_pairs;
use std::alloc::Global;
use tk_alloc::Reported;
use tk_base::{Mon, NoMemory};

/// No report yet of each monitor.
pub fn no_reports(alloc: Global, monitors: u32) -> Result<Vec<Reported>, NoMemory>
    ensures { IfOk result (λ reports. length reports.items ≡ monitors) }
{
    let mut reports = Vec::with_capacity(alloc, monitors as usize)?;
    for j in 0..monitors {
        reports.push_reserved(Reported {
            mon: Mon(j + 1),
            values: no_pairs(alloc),
            border: 0,
        });
    }
    Ok(reports)
}
