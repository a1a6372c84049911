// The first Assigns with the factors of a table.
ghost use Rattle.std.specs.Prelude.{◌≡◌, ℕ, ◌<◌, ◌≤◌, length, map, IfOk};
ghost use Rattle.std.specs.List.{All};
ghost use Rattle.tk_base.specs.Objects.{objects as objects_of};
ghost use Rattle.tk_base.specs.Settings.{IsWithinLimits};
ghost use Rattle.tk_rows.specs.Factors.{factor_at};
ghost use Rattle.tk_alloc.specs.Rounds.{IsOfSize};
ghost use Rattle.tk_journal.specs.Entries.{IsEntryOf};
ghost use Rattle.tk_journal.specs.Legal.{opened};
ghost use Rattle.tk_coord.specs.Coordinator.{with_factors};

use crate::entries::assign;
use std::alloc::Global;
use tk_base::{Mon, NoMemory, Obj, ObjSet, Pairs, Settings};
use tk_journal::Noted;
use tk_rows::Table;

/// A monitor's factors of all objects.
fn factors(alloc: Global, table: &Table, objects: u32, mon: Mon) -> Result<Pairs, NoMemory>
    requires objects { length table.now.rows ≡ objects }
    requires some_monitor { 0 < mon.0 }
    requires monitor { mon.0 ≤ table.now.monitors }
    ensures { IfOk result (λ p. p ≡ map (λ o. (o, factor_at table.now mon.0 o)) (objects_of objects)) }
{
    let mut list = Vec::with_capacity(alloc, objects as usize)?;
    for place in 0..objects {
        let o = Obj(place + 1);
        list.push_reserved((o, table.at(mon, o)));
    }
    match Pairs::new(list) {
        Ok(pairs) => Ok(pairs),
        Err(_) => unreachable!(),
    }
}

/// The first Assign to each monitor: the members, and its factors of all objects.
pub fn table_assigns(
    alloc: Global,
    settings: &Settings,
    members: &ObjSet,
    table: &Table,
) -> Result<Vec<Noted>, NoMemory>
    requires size { IsOfSize settings.now table.now }
    ensures limits { IsWithinLimits settings.now }
    ensures value { IfOk result (λ v. v.items ≡ opened (with_factors settings.now members.now table.now)) }
    ensures entries { (n : ℕ) → IfOk result (λ v. All (IsEntryOf settings.now.monitors n) v.items) }
{
    let monitors = settings.monitors();
    let mut entries = Vec::with_capacity(alloc, monitors as usize)?;
    for j in 0..monitors {
        let mon = Mon(j + 1);
        let changes = factors(alloc, table, settings.objects(), mon)?;
        entries.push_reserved(assign(alloc, mon.0, 1, members, changes)?);
    }
    Ok(entries)
}
