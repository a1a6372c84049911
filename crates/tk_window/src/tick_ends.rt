//! The ends of the ticks of all logs, by which the places of a cut are told as ticks.

ghost use Rattle.std.specs.Prelude.{◌≡◌, IfOk, map};
ghost use Rattle.tk_window.specs.Expanded.{ends_shown, sources_of};
ghost use Rattle.tk_window.specs.TickEnds.{ends_by_monitor, ends_of, last_source, ticks_at, ticks_in as ticks_in_row};

use crate::expanded::{Expanded, tick_at};
use std::alloc::Global;
use std::marker::Model;
use tk_base::{Cut, Mon, NoMemory, Places};

/// Where the ticks of each log end, by monitors and their feeders.
#[derive(Drop)]
pub struct TickEnds {
    rows: Vec<Vec<Expanded>>,
}

impl Model for TickEnds {
    ghost use Rattle.std.specs.Prelude.{ℕ, List};
    ghost use Rattle.tk_window.specs.Expanded.{rows_shown};

    ghost Value = { List (List (List ℕ)) };

    ghost view = { λ t. rows_shown t.rows.items };
}

fn last_monitor(logs: &[(Mon, Expanded)]) -> u32
    ensures { result ≡ last_source (sources_of logs.now) }
{
    logs.iter().fold(0, |last, log| last.max(log.0.0))
}

/// The logs of a monitor, in the order of the list.
fn row_of(alloc: Global, logs: &[(Mon, Expanded)], mon: Mon) -> Result<Vec<Expanded>, NoMemory>
    ensures { IfOk result (λ row. ends_shown row.items ≡ ends_of (sources_of logs.now) mon.0) }
{
    let mut row = Vec::new(alloc);
    for (at, expanded) in logs {
        if *at == mon {
            row.push(expanded.try_clone()?)?;
        }
    }
    Ok(row)
}

/// The ticks that end at the places of a monitor, where one does at each.
fn ticks_in(alloc: Global, row: &[Expanded], places: &Places) -> Result<Option<Places>, NoMemory>
    ensures { IfOk result (λ ticks. ticks ≡ ticks_in_row (ends_shown row.now) places.now) }
{
    let mut list = Vec::new(alloc);
    for f in 0..row.len().min(places.len()) {
        let Some(tick) = tick_at(&row[f], places.at(f)) else {
            return Ok(None);
        };
        list.push(tick)?;
    }
    Ok(Some(Places::new(list)))
}

impl TickEnds {
    /// The ends of these logs, of which those of one monitor become its feeders in the order of the list.
    pub fn new(alloc: Global, logs: &[(Mon, Expanded)]) -> Result<TickEnds, NoMemory>
        ensures { IfOk result (λ ends. ends ≡ ends_by_monitor (sources_of logs.now)) }
    {
        let mut rows = Vec::new(alloc);
        for place in 0..last_monitor(logs) {
            rows.push(row_of(alloc, logs, Mon(place + 1))?)?;
        }
        Ok(TickEnds { rows })
    }

    /// The ticks that end at the places of a cut, where one does at each; else None.
    pub fn at(&self, alloc: Global, cut: &Cut) -> Result<Option<Cut>, NoMemory>
        ensures { IfOk result (λ ticks. ticks ≡ ticks_at self.now cut.now) }
    {
        let mut list = Vec::new(alloc);
        for j in 0..self.rows.len().min(cut.len()) {
            let Some(ticks) = ticks_in(alloc, self.rows[j].as_slice(), cut.at(j))? else {
                return Ok(None);
            };
            list.push(ticks)?;
        }
        Ok(Some(Cut::new(list)))
    }
}
