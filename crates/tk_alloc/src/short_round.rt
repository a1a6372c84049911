//! The short round: its test, and the factors by which the coordinator and one monitor mend what is broken alone.

ghost use Rattle.std.specs.Prelude.{◌≡◌, ◌<◌, ◌≤◌, ◌↔◌, ◌^◌, IsTrue, IfSome, IfOk, IfErr, unsigned_abs, length, slice_index};
ghost use Rattle.std.specs.List.{All};
ghost use Rattle.tk_base.specs.Pairs.{objects_of};
ghost use Rattle.tk_rows.specs.Replacing.{IsReplacement};
ghost use Rattle.tk_alloc.specs.Limit.{AreAllWithin, TellsFault, short_factors};
ghost use Rattle.tk_alloc.specs.Resolving.{CanTakePart, IsReady, IsShortRound, PassesShortTest, round_border};
ghost use Rattle.tk_alloc.specs.Rounds.{AreValues, KeepsLevels, KeepsOwn};
ghost use Rattle.tk_alloc.specs.Search.{BoundsOthers, IsReachedBelow, joint_of};

use crate::alloc_fault::AllocFault;
use crate::limit::within_limit;
use crate::own_border::own_border;
use crate::picking::is_member;
use crate::reallocating::{own_values, reallocated};
use crate::reported::Reported;
use crate::terms::{Borders, Terms};
use std::alloc::Global;
use std::slice;
use tk_base::{Obj, ObjSet, Settings};
use tk_border::raise;
use tk_rows::{Reallocation, Table};

/// The level of the object at a place, at the coordinator and the monitor together, without epsilon.
fn joint(table: &Table, report: &Reported, place: usize) -> i128
    requires values { AreValues (objects_of report.now.values) report.now.values }
    requires some { 0 < report.now.mon.0 }
    requires monitor { report.now.mon.0 ≤ table.now.monitors }
    requires within { All (λ o. o ≤ length table.now.rows) (objects_of report.now.values) }
    requires place { place < length report.now.values }
    ensures value { result ≡ joint_of table.now report.now (slice_index (objects_of report.now.values) place) }
    ensures size { unsigned_abs result ≤ 2 ^ 114 }
{
    let (o, value) = report.values.at(place);
    table.own(o) + table.at(report.mon, o) + value
}

/// The greatest level of an object that is no member.
fn greatest_other(table: &Table, members: &ObjSet, report: &Reported) -> Option<i128>
    requires report { CanTakePart table.now members.now (objects_of report.now.values) report.now }
    requires within { All (λ o. o ≤ length table.now.rows) (objects_of report.now.values) }
    ensures bound { BoundsOthers table.now members.now report.now result }
    ensures reached { IfSome result (IsReachedBelow table.now members.now report.now (length report.now.values)) }
{
    let mut greatest = None;
    for place in 0..report.values.len() {
        let (o, _) = report.values.at(place);
        if !is_member(members, o) {
            greatest = raise(greatest, joint(table, report, place));
        }
    }
    greatest
}

/// Whether the coordinator and the monitor alone can mend what is broken. It looks at each object twice,
/// and takes no memory.
pub fn short_test(settings: &Settings, table: &Table, members: &ObjSet, report: &Reported) -> bool
    requires ready { IsReady settings.now table.now members.now (objects_of report.now.values) }
    requires report { CanTakePart table.now members.now (objects_of report.now.values) report.now }
    ensures { IsTrue result ↔ PassesShortTest settings.now table.now members.now report.now }
{
    let Some(greatest) = greatest_other(table, members, report) else {
        return true;
    };
    for place in 0..report.values.len() {
        let (o, _) = report.values.at(place);
        if is_member(members, o) && joint(table, report, place) + settings.epsilon() < greatest {
            return false;
        }
    }
    true
}

/// The round of the coordinator and one monitor, over the objects of its report. It keeps the members. It
/// scans the table for the coordinator's border: its cost is the objects of the report, and one look at each
/// object of the table.
pub fn short(
    alloc: Global,
    settings: &Settings,
    table: &Table,
    members: &ObjSet,
    report: &Reported,
) -> Result<Reallocation, AllocFault>
    requires ready { IsReady settings.now table.now members.now (objects_of report.now.values) }
    requires report { CanTakePart table.now members.now (objects_of report.now.values) report.now }
    requires test { PassesShortTest settings.now table.now members.now report.now }
    // which factors
    ensures value { IfOk result (IsShortRound settings.now table.now members.now report.now) }
    // a fault names the first factor past the limit, if there is one
    ensures within { IfOk result (λ _.
        AreAllWithin (short_factors settings.now table.now members.now report.now)) }
    ensures past { IfErr result (TellsFault (short_factors settings.now table.now members.now report.now)) }
    // a table can take them
    ensures fits { IfOk result (λ r. IsReplacement table.now r) }
    // the constraints hold
    ensures own { IfOk result (λ r. KeepsOwn table.now settings.now.epsilon r) }
    ensures levels { IfOk result (λ r. KeepsLevels table.now r report.now) }
{
    let border = own_border(settings, table, members, &report.values);
    short_with_border(alloc, settings, table, members, report, border)
}

/// The same round, to which the caller brings the coordinator's border. Its cost is the objects of the
/// report: it does not look at the rest of the table.
pub fn short_with_border(
    alloc: Global,
    settings: &Settings,
    table: &Table,
    members: &ObjSet,
    report: &Reported,
    own_border: i128,
) -> Result<Reallocation, AllocFault>
    requires ready { IsReady settings.now table.now members.now (objects_of report.now.values) }
    requires report { CanTakePart table.now members.now (objects_of report.now.values) report.now }
    requires test { PassesShortTest settings.now table.now members.now report.now }
    requires border { own_border ≡ round_border settings.now table.now members.now (objects_of report.now.values) }
    // which factors
    ensures value { IfOk result (IsShortRound settings.now table.now members.now report.now) }
    // a fault names the first factor past the limit, if there is one
    ensures within { IfOk result (λ _.
        AreAllWithin (short_factors settings.now table.now members.now report.now)) }
    ensures past { IfErr result (TellsFault (short_factors settings.now table.now members.now report.now)) }
    // a table can take them
    ensures fits { IfOk result (λ r. IsReplacement table.now r) }
    // the constraints hold
    ensures own { IfOk result (λ r. KeepsOwn table.now settings.now.epsilon r) }
    ensures levels { IfOk result (λ r. KeepsLevels table.now r report.now) }
{
    table.promise();
    let terms = Terms {
        own_weight: settings.own_weight(),
        own_border,
        own_values: own_values(alloc, settings.epsilon(), members, &report.values)?,
        borders: Borders::AsReported,
    };
    let members = members.try_clone()?;
    let change = reallocated(alloc, &terms, table, members, slice::from_ref(report))?;
    within_limit(change)
}
