//! What short, full and wide rounds give of two objects at two monitors, also where a factor is past its limit.

ghost use Rattle.std.specs.Prelude.{◌≡◌, ◌≤ℤ◌, pos, negsuc, [], ◌∷◌, IfOk, length};
ghost use Rattle.std.specs.List.{All};
ghost use Rattle.tk_base.specs.Objects.{objects as objects_in};
ghost use Rattle.tk_base.specs.Pairs.{objects_of};
ghost use Rattle.tk_rows.specs.Factors.{factor_at};
ghost use Rattle.tk_alloc.specs.Resolving.{CanTakePart, IsReady, objects_over, round_border};
ghost use Rattle.tk_alloc.specs.Rounds.{AreReports, IsOfSize};
ghost use Rattle.tk_alloc_tests.specs.Pairing.{at_both, of_both};

use std::alloc::Global;
use std::test::Fail;
use tk_alloc::{
    AllocFault, Reported, full, full_with_border, short, short_test, short_with_border, wide,
};
use tk_base::{Mon, Obj, ObjSet, Pairs, Settings};
use tk_rows::{MonChange, Reallocation, Table};

const LIMIT: i128 = 5_192_296_858_534_827_628_530_496_329_220_096;

fn set_of(alloc: Global, o: u32) -> Result<ObjSet, Fail>
    ensures { IfOk result (λ s. s ≡ o ∷ []) }
{
    let set = ObjSet::new([Obj(o)].to_vec(alloc)?)?;
    Ok(set)
}

fn pairs(alloc: Global, a: i128, b: i128) -> Result<Pairs, Fail>
    ensures { IfOk result (λ p. p ≡ (1, a) ∷ (2, b) ∷ []) }
{
    let list = [(Obj(1), a), (Obj(2), b)].to_vec(alloc)?;
    let pairs = Pairs::new(list)?;
    Ok(pairs)
}

fn reported(alloc: Global, mon: u32, border: i128, a: i128, b: i128) -> Result<Reported, Fail>
    ensures mon { IfOk result (λ r. r.mon.0 ≡ mon) }
    ensures values { IfOk result (λ r. r.values ≡ (1, a) ∷ (2, b) ∷ []) }
    ensures border { IfOk result (λ r. r.border ≡ border) }
{
    let values = pairs(alloc, a, b)?;
    Ok(Reported {
        mon: Mon(mon),
        values,
        border,
    })
}

/// These factors of both objects at monitors 1 and 2.
fn changes_at_both(alloc: Global, one: i128, two: i128) -> Result<Vec<MonChange>, Fail>
    ensures { IfOk result (λ v. v.items ≡ at_both one two) }
{
    let one = MonChange {
        mon: Mon(1),
        changes: pairs(alloc, one, one)?,
    };
    let two = MonChange {
        mon: Mon(2),
        changes: pairs(alloc, two, two)?,
    };
    let at = vec![in alloc; one, two]?;
    Ok(at)
}

/// The same beside a member and its own factors, which are 0.
fn reallocation(alloc: Global, one: i128, two: i128) -> Result<Reallocation, Fail>
    ensures own { IfOk result (λ r. r.own ≡ of_both (pos 0)) }
    ensures at { IfOk result (λ r. r.at.items ≡ at_both one two) }
{
    let members = set_of(alloc, 1)?;
    let own = pairs(alloc, 0, 0)?;
    let at = changes_at_both(alloc, one, two)?;
    Ok(Reallocation { members, own, at })
}

fn settings_of(k: u64, epsilon: u128) -> Result<Settings, Fail>
    ensures objects { IfOk result (λ s. s.objects ≡ 2) }
    ensures monitors { IfOk result (λ s. s.monitors ≡ 2) }
    ensures k { IfOk result (λ s. s.k ≡ k) }
    ensures no_debt { IfOk result (λ s. pos 0 ≤ℤ s.epsilon) }
{
    let settings = Settings::new(k, epsilon, 1, 2, 2)?;
    if settings.objects() == 2 && settings.monitors() == 2 && u64::from(settings.k()) == k {
        Ok(settings)
    } else {
        Err("other settings")?
    }
}

fn two(alloc: Global, first: Reported, second: Reported) -> Result<Vec<Reported>, Fail>
    ensures { IfOk result (λ v. v.items ≡ first ∷ second ∷ []) }
{
    let list = vec![in alloc; first, second]?;
    Ok(list)
}

/// A table with a factor at its limit, and the same below 0, for both objects at the two monitors.
fn limit_table(alloc: Global) -> Result<Table, Fail>
    ensures monitors { IfOk result (λ t. t.monitors ≡ 2) }
    ensures objects { IfOk result (λ t. length t.rows ≡ 2) }
    ensures own_one { IfOk result (λ t. factor_at t 0 1 ≡ pos 0) }
    ensures own_two { IfOk result (λ t. factor_at t 0 2 ≡ pos 0) }
    ensures great { IfOk result (λ t. factor_at t 1 1 ≡ pos 5192296858534827628530496329220096) }
    ensures small { IfOk result (λ t. factor_at t 2 1 ≡ negsuc 5192296858534827628530496329220095) }
{
    let change = reallocation(alloc, LIMIT, -LIMIT)?;
    let mut table = Table::new(alloc, 2, 2)?;
    table.replace(&change);
    Ok(table)
}

/// A reallocation in numbers: its only member, and the factors of both objects, the monitors' behind their own.
#[derive(Clone, Copy)]
struct Wanted<'a> {
    member: u32,
    own: [i128; 2],
    at: &'a [(u32, [i128; 2])],
}

fn are_pairs(pairs: &Pairs, numbers: [i128; 2]) -> bool {
    pairs.len() == 2 && pairs.at(0) == (Obj(1), numbers[0]) && pairs.at(1) == (Obj(2), numbers[1])
}

fn is_wanted(change: &Reallocation, wanted: &Wanted<'_>) -> bool {
    let mut same = change.members.len() == 1
        && change.members.has(Obj(wanted.member))
        && are_pairs(&change.own, wanted.own)
        && change.at.len() == wanted.at.len();
    for (one, (mon, numbers)) in change.at.iter().zip(wanted.at.iter()) {
        same = same && one.mon == Mon(*mon) && are_pairs(&one.changes, *numbers);
    }
    same
}

fn is_found(found: Result<Reallocation, AllocFault>, wanted: &Wanted<'_>) -> bool {
    match found {
        Ok(change) => is_wanted(&change, wanted),
        Err(_) => false,
    }
}

fn is_wide(
    alloc: Global,
    settings: &Settings,
    table: &Table,
    members: &ObjSet,
    reports: &[Reported],
    wanted: &Wanted<'_>,
) -> bool
    requires size { IsOfSize settings.now table.now }
    requires reports { AreReports settings.now.monitors (objects_in settings.now.objects) reports.now }
{
    match wide(alloc, settings, table, members, reports) {
        Ok(change) => is_wanted(&change, wanted),
        Err(_) => false,
    }
}

/// Whether a full round finds this, and does so again where it is told the border.
fn is_full(
    alloc: Global,
    settings: &Settings,
    table: &Table,
    members: &ObjSet,
    reports: &[Reported],
    border: i128,
    wanted: &Wanted<'_>,
) -> bool
    requires ready { IsReady settings.now table.now members.now (objects_over reports.now) }
    requires reports { AreReports settings.now.monitors (objects_over reports.now) reports.now }
    requires borders { All (CanTakePart table.now members.now (objects_over reports.now)) reports.now }
    requires border { border ≡ round_border settings.now table.now members.now (objects_over reports.now) }
{
    let found = full(alloc, settings, table, members, reports);
    let is_first = is_found(found, wanted);
    let again = full_with_border(alloc, settings, table, members, reports, border);
    let is_second = is_found(again, wanted);
    is_first && is_second
}

#[test]
fn wide_and_full_rounds(rt: HostRuntime) -> Result<(), Fail> {
    static WIDE: Wanted<'static> = Wanted {
        member: 1,
        own: [2, 1],
        at: &[(1, [-3, 1]), (2, [1, -2])],
    };
    static FULL: Wanted<'static> = Wanted {
        member: 1,
        own: [0, 0],
        at: &[(1, [0, 4]), (2, [0, -4])],
    };
    let alloc = rt.alloc();
    let settings = settings_of(1, 0)?;
    let first = reported(alloc, 1, 5, 5, 0)?;
    let second = reported(alloc, 2, 0, 0, 3)?;
    let reports = two(alloc, first, second)?;
    let table = Table::new(alloc, 2, 2)?;
    let members = set_of(alloc, 1)?;
    let list = reports.as_slice();
    let wide = is_wide(alloc, &settings, &table, &members, list, &WIDE);
    let border = settings.epsilon();
    let full = is_full(alloc, &settings, &table, &members, list, border, &FULL);
    assert!(rt; wide && full);
    Ok(())
}

/// Why a full round is refused.
fn full_fault(
    alloc: Global,
    settings: &Settings,
    table: &Table,
    members: &ObjSet,
    reports: &[Reported],
) -> Option<AllocFault>
    requires ready { IsReady settings.now table.now members.now (objects_over reports.now) }
    requires reports { AreReports settings.now.monitors (objects_over reports.now) reports.now }
    requires borders { All (CanTakePart table.now members.now (objects_over reports.now)) reports.now }
{
    full(alloc, settings, table, members, reports).err()
}

#[test]
fn only_a_full_round_goes_past_the_limit(rt: HostRuntime) -> Result<(), Fail> {
    static WIDE: Wanted<'static> = Wanted {
        member: 2,
        own: [0, 11],
        at: &[(1, [0, 9]), (2, [0, -20])],
    };
    const PAST_LIMIT: AllocFault = AllocFault::PastLimit {
        obj: Obj(2),
        node: 1,
        factor: LIMIT + 9,
    };
    let alloc = rt.alloc();
    let settings = settings_of(1, 0)?;
    let first = reported(alloc, 1, LIMIT, 0, 1)?;
    let second = reported(alloc, 2, -LIMIT, 0, 30)?;
    let reports = two(alloc, first, second)?;
    let table = limit_table(alloc)?;
    let members = set_of(alloc, 1)?;
    let list = reports.as_slice();
    let wide = is_wide(alloc, &settings, &table, &members, list, &WIDE);
    let fault = full_fault(alloc, &settings, &table, &members, list);
    assert!(rt; wide && fault == Some(PAST_LIMIT));
    Ok(())
}

/// Whether a short round can be made and finds this, and does so again where it is told the border.
fn is_short(
    alloc: Global,
    settings: &Settings,
    table: &Table,
    members: &ObjSet,
    report: &Reported,
    border: i128,
    wanted: &Wanted<'_>,
) -> bool
    requires ready { IsReady settings.now table.now members.now (objects_of report.now.values) }
    requires report { CanTakePart table.now members.now (objects_of report.now.values) report.now }
    requires border { border ≡ round_border settings.now table.now members.now (objects_of report.now.values) }
{
    if !short_test(settings, table, members, report) {
        return false;
    }
    let found = short(alloc, settings, table, members, report);
    let is_first = is_found(found, wanted);
    let again = short_with_border(alloc, settings, table, members, report, border);
    let is_second = is_found(again, wanted);
    is_first && is_second
}

#[test]
fn short_round(rt: HostRuntime) -> Result<(), Fail> {
    static SHORT: Wanted<'static> = Wanted {
        member: 1,
        own: [0, 4],
        at: &[(2, [0, -4])],
    };
    let alloc = rt.alloc();
    let near = settings_of(1, 4)?;
    let far = settings_of(1, 2)?;
    let report = reported(alloc, 2, 0, 0, 3)?;
    let table = Table::new(alloc, 2, 2)?;
    let members = set_of(alloc, 1)?;
    let passes = short_test(&far, &table, &members, &report);
    // No object is left out, so the border is the member's own factor, which is 0, and epsilon.
    let border = near.epsilon();
    let is_found = is_short(alloc, &near, &table, &members, &report, border, &SHORT);
    assert!(rt; !passes && is_found);
    Ok(())
}
