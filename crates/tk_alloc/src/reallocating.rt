//! How a round deals: the leeways above the borders, and the factors that their shares give.

ghost use Rattle.std.specs.Prelude.{◌≡◌, ◌+◌, ◌^◌, ◌<◌, ◌≤◌, ℕ, ℤ, pos, ◌+ℤ◌, ◌-ℤ◌, ◌∷◌, unsigned_abs, IfOk, length, map, replicate, slice_index, slice_get, Some, if◌then◌else◌};
ghost use Rattle.std.specs.List.{All, sum};
ghost use Rattle.tk_base.specs.Ascending.{IsAscending};
ghost use Rattle.tk_base.specs.Objects.{is_in};
ghost use Rattle.tk_base.specs.Pairs.{objects_of};
ghost use Rattle.tk_rows.specs.Factors.{IsFactor};
ghost use Rattle.tk_alloc.specs.Parts.{IsReallocation, above, by_monitor, leeway as leeway_of, monitor};
ghost use Rattle.tk_alloc.specs.Rounds.{AreValues};
ghost use Rattle.tk_alloc.specs.Terms.{AreTerms, TakesPart, border_by, coordinator_in, dealt_by, dealt_in, dealt_to, leeways_in, object_at, parts_of};

use crate::picking::is_member;
use crate::reported::Reported;
use crate::terms::Terms;
use std::alloc::Global;
use tk_base::{NoMemory, Obj, ObjSet, Pairs, PairsBuilder};
use tk_rows::{MonChange, Reallocation, Table};
use tk_share::Participant;

/// The coordinator's value of an object: epsilon for a member.
fn own_value(epsilon: i128, members: &ObjSet, o: Obj) -> i128
    ensures { result ≡ (if is_in members.now o.0 then epsilon else pos 0) }
{
    if is_member(members, o) { epsilon } else { 0 }
}

/// The coordinator's values of these objects.
pub fn own_values(
    alloc: Global,
    epsilon: i128,
    members: &ObjSet,
    objects: &Pairs,
) -> Result<Pairs, NoMemory>
    ensures { IfOk result (λ p. p ≡ map (λ o. (o, if is_in members.now o then epsilon else pos 0)) (objects_of objects.now)) }
{
    let mut list = PairsBuilder::with_capacity(alloc, objects.len())?;
    for place in 0..objects.len() {
        let (o, _) = objects.at(place);
        list.push(o, own_value(epsilon, members, o))?;
    }
    Ok(list.finish().unwrap())
}

fn gap(value: i128, factor: i128, border: i128) -> i128
    requires value { unsigned_abs value ≤ 2 ^ 100 }
    requires factor { IsFactor factor }
    requires border { unsigned_abs border ≤ 2 ^ 113 }
    ensures value { result ≡ value +ℤ factor -ℤ border }
    ensures size { unsigned_abs result ≤ 2 ^ 114 }
{
    value + factor - border
}

fn own_gap(terms: &Terms, table: &Table, reports: &[Reported], place: usize) -> i128
    requires terms { AreTerms table.now terms.now reports.now }
    requires place { place < length terms.now.own_values }
    ensures value { result ≡ above table.now (object_at terms.now place) (coordinator_in terms.now) }
    ensures size { unsigned_abs result ≤ 2 ^ 114 }
{
    let (o, value) = terms.own_values.at(place);
    gap(value, table.own(o), terms.own_border)
}

fn gap_at(terms: &Terms, table: &Table, report: &Reported, place: usize) -> i128
    requires part { TakesPart table.now terms.now report.now }
    requires objects { All (λ o. o ≤ length table.now.rows) (objects_of terms.now.own_values) }
    requires place { place < length terms.now.own_values }
    ensures value { result
        ≡ above table.now (object_at terms.now place) (monitor (border_by terms.now.borders report.now) report.now) }
    ensures size { unsigned_abs result ≤ 2 ^ 114 }
{
    let (o, value) = report.values.at(place);
    gap(value, table.at(report.mon, o), terms.borders.at(report))
}

/// What the participants have together above their borders, for the object at a place.
pub fn leeway(terms: &Terms, table: &Table, reports: &[Reported], place: usize) -> i128
    requires terms { AreTerms table.now terms.now reports.now }
    requires place { place < length terms.now.own_values }
    ensures value { result ≡ leeway_of table.now (parts_of terms.now reports.now) (object_at terms.now place) }
    ensures size { unsigned_abs result < 2 ^ 122 }
{
    let mut sum = own_gap(terms, table, reports, place);
    for report in reports {
        sum += gap_at(terms, table, report, place);
    }
    sum
}

/// The leeway of each of some objects: what the nodes asked can give away together.
pub fn leeways(
    alloc: Global,
    terms: &Terms,
    table: &Table,
    reports: &[Reported],
) -> Result<Vec<i128>, NoMemory>
    requires { AreTerms table.now terms.now reports.now }
    ensures value { IfOk result (λ v. v.items ≡ leeways_in table.now terms.now reports.now) }
    ensures size { IfOk result (λ v. All (λ z. unsigned_abs z < 2 ^ 122) v.items) }
{
    let mut list = Vec::with_capacity(alloc, terms.own_values.len())?;
    for place in 0..terms.own_values.len() {
        list.push(leeway(terms, table, reports, place))?;
    }
    Ok(list)
}

/// The coordinator's weight, then 1 for each monitor.
pub fn weights(alloc: Global, own_weight: u32, monitors: usize) -> Result<Vec<u32>, NoMemory>
    requires own { own_weight ≤ 1000 }
    requires some { 0 < monitors }
    requires count { monitors ≤ 64 }
    ensures value { IfOk result (λ v. v.items ≡ own_weight ∷ replicate monitors 1) }
    ensures sum { IfOk result (λ v. sum v.items ≡ own_weight + monitors) }
{
    let mut list = Vec::with_capacity(alloc, monitors + 1)?;
    list.push(own_weight)?;
    for mon in 0..monitors {
        list.push(1)?;
    }
    Ok(list)
}

/// The new factor of a participant whose level is to have this share above its border.
pub fn new_factor(border: i128, value: i128, share: i128) -> i128
    requires border { unsigned_abs border ≤ 2 ^ 113 }
    requires value { unsigned_abs value ≤ 2 ^ 100 }
    requires share { unsigned_abs share < 2 ^ 122 }
    ensures value { result ≡ border -ℤ value +ℤ share }
{
    border - value + share
}

/// The new factors of a participant.
pub fn factors(
    alloc: Global,
    values: &Pairs,
    border: i128,
    leeways: &[i128],
    weights: &[u32],
    p: usize,
) -> Result<Pairs, NoMemory>
    requires values { All (λ q. unsigned_abs q.1 ≤ 2 ^ 100) values.now }
    requires border { unsigned_abs border ≤ 2 ^ 113 }
    requires count { length leeways.now ≡ length values.now }
    requires leeways { All (λ z. unsigned_abs z < 2 ^ 122) leeways.now }
    requires participant { p < length weights.now }
    requires participants { length weights.now ≤ 65 }
    requires some_weight { 0 < sum weights.now }
    requires weight { sum weights.now ≤ 1064 }
    ensures { IfOk result (λ c. c ≡ dealt_by values.now border weights.now p (objects_of values.now) leeways.now) }
{
    let mut list = PairsBuilder::with_capacity(alloc, values.len())?;
    let participant = Participant::new(weights, p);
    for place in 0..values.len() {
        let (o, value) = values.at(place);
        let share = participant.deal(leeways[place]);
        list.push(o, new_factor(border, value, share))?;
    }
    Ok(list.finish().unwrap())
}

fn changes_at(
    alloc: Global,
    terms: &Terms,
    report: &Reported,
    leeways: &[i128],
    weights: &[u32],
    p: usize,
) -> Result<MonChange, NoMemory>
    requires same { objects_of report.now.values ≡ objects_of terms.now.own_values }
    requires small { All (λ q. unsigned_abs q.1 ≤ 2 ^ 100) report.now.values }
    requires border { unsigned_abs (border_by terms.now.borders report.now) ≤ 2 ^ 113 }
    requires count { length leeways.now ≡ length terms.now.own_values }
    requires leeways { All (λ z. unsigned_abs z < 2 ^ 122) leeways.now }
    requires participant { p < length weights.now }
    requires participants { length weights.now ≤ 65 }
    requires some_weight { 0 < sum weights.now }
    requires weight { sum weights.now ≤ 1064 }
    ensures mon { IfOk result (λ c. c.mon ≡ report.now.mon) }
    ensures changes { IfOk result (λ c. c.changes ≡ dealt_to terms.now report.now weights.now p leeways.now) }
{
    let changes = factors(
        alloc,
        &report.values,
        terms.borders.at(report),
        leeways,
        weights,
        p,
    )?;
    Ok(MonChange {
        mon: report.mon,
        changes,
    })
}

fn all_changes(
    alloc: Global,
    terms: &Terms,
    table: &Table,
    reports: &[Reported],
    leeways: &[i128],
    weights: &[u32],
) -> Result<Vec<MonChange>, NoMemory>
    requires terms { AreTerms table.now terms.now reports.now }
    requires leeways { leeways.now ≡ leeways_in table.now terms.now reports.now }
    requires small { All (λ z. unsigned_abs z < 2 ^ 122) leeways.now }
    requires weights { weights.now ≡ terms.now.own_weight ∷ replicate (length reports.now) 1 }
    requires sum { sum weights.now ≡ terms.now.own_weight + length reports.now }
    ensures { IfOk result (λ v. by_monitor v.items ≡ dealt_in table.now terms.now reports.now) }
{
    let _ = table;
    let mut at = Vec::with_capacity(alloc, reports.len())?;
    for (place, report) in reports.iter().enumerate() {
        at.push(changes_at(alloc, terms, report, leeways, weights, place + 1)?)?;
    }
    Ok(at)
}

/// The reallocation of a round. Its cost is the objects times the participants, and the square of these.
pub fn reallocated(
    alloc: Global,
    terms: &Terms,
    table: &Table,
    members: ObjSet,
    reports: &[Reported],
) -> Result<Reallocation, NoMemory>
    requires { AreTerms table.now terms.now reports.now }
    ensures { IfOk result (IsReallocation table.now (parts_of terms.now reports.now) (objects_of terms.now.own_values) members) }
{
    let leeways = leeways(alloc, terms, table, reports)?;
    let weights = weights(alloc, terms.own_weight, reports.len())?;
    let own = factors(
        alloc,
        &terms.own_values,
        terms.own_border,
        leeways.as_slice(),
        weights.as_slice(),
        0,
    )?;
    let at = all_changes(
        alloc,
        terms,
        table,
        reports,
        leeways.as_slice(),
        weights.as_slice(),
    )?;
    Ok(Reallocation { members, own, at })
}
