//! The wide round, over all objects with every border 0, and the totals by which members are picked.

ghost use Rattle.std.specs.Prelude.{◌≡◌, ◌^◌, ◌<◌, ◌≤◌, ℤ, unsigned_abs, IfOk, length, slice_index};
ghost use Rattle.std.specs.List.{All};
ghost use Rattle.tk_base.specs.Objects.{objects as objects_in};
ghost use Rattle.tk_base.specs.Pairs.{objects_of};
ghost use Rattle.tk_rows.specs.Replacing.{IsReplacement};
ghost use Rattle.tk_alloc.specs.Parts.{value_of};
ghost use Rattle.tk_alloc.specs.Rounds.{AreReports, AreSlight, AreValues, IsOfSize, IsWideRound, KeepsLevels, KeepsOwn, total as total_of, totals as totals_of};

use crate::picking::pick;
use crate::reallocating::{own_values, reallocated};
use crate::reported::Reported;
use crate::terms::{Borders, Terms};
use std::alloc::Global;
use tk_base::{NoMemory, Obj, ObjSet, Pairs, PairsBuilder, Settings};
use tk_rows::{Reallocation, Table};

fn value_at(objects: &Pairs, report: &Reported, place: usize) -> i128
    requires values { AreValues (objects_of objects.now) report.now.values }
    requires place { place < length objects.now }
    ensures value { result ≡ value_of report.now.values (slice_index (objects_of objects.now) place) }
    ensures size { unsigned_abs result ≤ 2 ^ 100 }
{
    let (_, value) = report.values.at(place);
    value
}

fn total(objects: &Pairs, reports: &[Reported], place: usize) -> i128
    requires values { All (λ r. AreValues (objects_of objects.now) r.values) reports.now }
    requires count { length reports.now ≤ 64 }
    requires place { place < length objects.now }
    ensures { result ≡ total_of reports.now (slice_index (objects_of objects.now) place) }
{
    let mut sum = 0;
    for report in reports {
        sum += value_at(objects, report, place);
    }
    sum
}

/// The totals of some objects.
pub fn totals(alloc: Global, objects: &Pairs, reports: &[Reported]) -> Result<Pairs, NoMemory>
    requires values { All (λ r. AreValues (objects_of objects.now) r.values) reports.now }
    requires count { length reports.now ≤ 64 }
    ensures { IfOk result (λ p. p ≡ totals_of reports.now (objects_of objects.now)) }
{
    let mut list = PairsBuilder::with_capacity(alloc, objects.len())?;
    for place in 0..objects.len() {
        let (o, _) = objects.at(place);
        list.push(o, total(objects, reports, place))?;
    }
    Ok(list.finish().unwrap())
}

/// The round over all objects, with every border taken as 0. The settings hold the k and epsilon with which
/// it ends, and the members are those at present.
pub fn wide(
    alloc: Global,
    settings: &Settings,
    table: &Table,
    members: &ObjSet,
    reports: &[Reported],
) -> Result<Reallocation, NoMemory>
    requires size { IsOfSize settings.now table.now }
    requires reports { AreReports settings.now.monitors (objects_in settings.now.objects) reports.now }
    // which members and factors
    ensures value { IfOk result (λ r. IsWideRound settings.now table.now members.now reports.now r) }
    ensures count { IfOk result (λ r. length r.members ≡ settings.now.k) }
    // a table can take them
    ensures fits { IfOk result (λ r. IsReplacement table.now r) }
    ensures own_slight { IfOk result (λ r. AreSlight r.own) }
    ensures at_slight { IfOk result (λ r. All (λ c. AreSlight c.changes) r.at.items) }
    // all constraints hold
    ensures own { IfOk result (λ r. KeepsOwn table.now settings.now.epsilon r) }
    ensures levels { IfOk result (λ r. All (KeepsLevels table.now r) reports.now) }
{
    table.promise();
    let k = settings.k();
    let totals = totals(alloc, &reports[0].values, reports)?;
    let chosen = pick(alloc, &totals, members, k)?;
    let terms = Terms {
        own_weight: settings.own_weight(),
        own_border: 0,
        own_values: own_values(alloc, settings.epsilon(), &chosen, &totals)?,
        borders: Borders::Zero,
    };
    reallocated(alloc, &terms, table, chosen, reports)
}
