//! The full round: members and factors anew over some objects, with the coordinator's border found or told.

ghost use Rattle.std.specs.Prelude.{◌≡◌, IfOk, IfErr, length};
ghost use Rattle.std.specs.List.{All};
ghost use Rattle.tk_rows.specs.Replacing.{IsReplacement};
ghost use Rattle.tk_alloc.specs.Limit.{AreAllWithin, TellsFault, full_factors};
ghost use Rattle.tk_alloc.specs.Resolving.{CanTakePart, IsFullRound, IsReady, objects_over, round_border};
ghost use Rattle.tk_alloc.specs.Rounds.{AreReports, KeepsLevels, KeepsOwn};

use crate::alloc_fault::AllocFault;
use crate::limit::within_limit;
use crate::own_border::own_border;
use crate::picking::pick;
use crate::reallocating::{own_values, reallocated};
use crate::reported::Reported;
use crate::terms::{Borders, Terms};
use crate::wide_round::totals;
use std::alloc::Global;
use tk_base::{ObjSet, Settings};
use tk_rows::{Reallocation, Table};

/// The round of all nodes over some objects, which chooses the members anew. It scans the table for the
/// coordinator's border: its cost is that of `wide` over these objects, and one look at each object of the
/// table.
pub fn full(
    alloc: Global,
    settings: &Settings,
    table: &Table,
    members: &ObjSet,
    reports: &[Reported],
) -> Result<Reallocation, AllocFault>
    requires ready { IsReady settings.now table.now members.now (objects_over reports.now) }
    requires reports { AreReports settings.now.monitors (objects_over reports.now) reports.now }
    requires borders { All (CanTakePart table.now members.now (objects_over reports.now)) reports.now }
    // which members and factors
    ensures value { IfOk result (IsFullRound settings.now table.now members.now reports.now) }
    ensures count { IfOk result (λ r. length r.members ≡ settings.now.k) }
    // a fault names the first factor past the limit, if there is one
    ensures within { IfOk result (λ _.
        AreAllWithin (full_factors settings.now table.now members.now reports.now)) }
    ensures past { IfErr result (TellsFault (full_factors settings.now table.now members.now reports.now)) }
    // a table can take them
    ensures fits { IfOk result (λ r. IsReplacement table.now r) }
    // the constraints hold
    ensures own { IfOk result (λ r. KeepsOwn table.now settings.now.epsilon r) }
    ensures levels { IfOk result (λ r. All (KeepsLevels table.now r) reports.now) }
{
    // The number is read for its clause, that there is a monitor.
    let _ = settings.monitors();
    let border = own_border(settings, table, members, &reports[0].values);
    full_with_border(alloc, settings, table, members, reports, border)
}

/// The same round, to which the caller brings the coordinator's border. Its cost is that of `wide` over
/// these objects: it does not look at the rest of the table.
pub fn full_with_border(
    alloc: Global,
    settings: &Settings,
    table: &Table,
    members: &ObjSet,
    reports: &[Reported],
    own_border: i128,
) -> Result<Reallocation, AllocFault>
    requires ready { IsReady settings.now table.now members.now (objects_over reports.now) }
    requires reports { AreReports settings.now.monitors (objects_over reports.now) reports.now }
    requires borders { All (CanTakePart table.now members.now (objects_over reports.now)) reports.now }
    requires border { own_border ≡ round_border settings.now table.now members.now (objects_over reports.now) }
    // which members and factors
    ensures value { IfOk result (IsFullRound settings.now table.now members.now reports.now) }
    ensures count { IfOk result (λ r. length r.members ≡ settings.now.k) }
    // a fault names the first factor past the limit, if there is one
    ensures within { IfOk result (λ _.
        AreAllWithin (full_factors settings.now table.now members.now reports.now)) }
    ensures past { IfErr result (TellsFault (full_factors settings.now table.now members.now reports.now)) }
    // a table can take them
    ensures fits { IfOk result (λ r. IsReplacement table.now r) }
    // the constraints hold
    ensures own { IfOk result (λ r. KeepsOwn table.now settings.now.epsilon r) }
    ensures levels { IfOk result (λ r. All (KeepsLevels table.now r) reports.now) }
{
    table.promise();
    // The length is read for its clause, that the members ascend.
    let _ = members.len();
    let k = settings.k();
    let first = &reports[0].values;
    let totals = totals(alloc, first, reports)?;
    let chosen = pick(alloc, &totals, members, k)?;
    let terms = Terms {
        own_weight: settings.own_weight(),
        own_border,
        own_values: own_values(alloc, settings.epsilon(), &chosen, &totals)?,
        borders: Borders::AsReported,
    };
    let change = reallocated(alloc, &terms, table, chosen, reports)?;
    within_limit(change)
}
