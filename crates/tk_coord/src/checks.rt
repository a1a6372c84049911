//! The tests that the content of a fresh frame must pass: its objects, values, border and places.

ghost use Rattle.std.specs.Prelude.{◌≡◌, ◌<◌, ◌≤◌, ◌^◌, ◌&&◌, ◌||◌, ◌==◌, nat_le, not, length, unsigned_abs};
ghost use Rattle.std.specs.List.{list_all, zip};
ghost use Rattle.tk_alloc.specs.Parts.{value_of as value_in};
ghost use Rattle.tk_base.specs.Ascending.{IsAscending};
ghost use Rattle.tk_base.specs.Objects.{is_in};
ghost use Rattle.tk_base.specs.Pairs.{objects_of};
ghost use Rattle.tk_border.specs.Levels.{holds, is_above as is_above_of, resolution};
ghost use Rattle.tk_journal.specs.Refusal.{are_outsiders as are_outsiders_of, are_places as are_places_of, are_same, bad_border, go_on as go_on_of, least_in, level_in, not_broken as not_broken_of, refusal_of_report, refusal_of_values, too_great as too_great_of};
ghost use Rattle.tk_coord.specs.Checks.{AreSmall, AreWithin, IsKnown, is_too_great, known_in};

use crate::answer::Progress;
use tk_base::{Mon, Obj, ObjSet, Pairs, Places};
use tk_border::lower;
use tk_journal::CoordRefusal;
use tk_rows::Table;

const MAX_VALUE: u128 = 1_267_650_600_228_229_401_496_703_205_376;

/// The least border that a monitor may report, -2^113.
const MIN_BORDER: i128 = -10_384_593_717_069_655_257_060_992_658_440_192;

const MAX_FEEDERS: usize = 8;

const MAX_PLACE: u32 = 1_000_000;

/// What the content of a frame is tested over: its monitor, the catalogue, the members and the factors.
#[derive(Clone, Copy)]
pub struct Known<'a> {
    pub mon: Mon,
    pub objects: u32,
    pub members: &'a ObjSet,
    pub table: &'a Table,
}

/// Whether the values are over exactly these objects.
fn are_over(values: &Pairs, asked: &ObjSet) -> bool
    ensures { result ≡ are_same (objects_of values.now) asked.now }
{
    if values.len() != asked.len() {
        return false;
    }
    for i in 0..values.len() {
        let (o, _) = values.at(i);
        if o != asked.at(i) {
            return false;
        }
    }
    true
}

fn is_in_set(set: &ObjSet, o: Obj) -> bool
    ensures { result ≡ is_in set.now o.0 }
{
    set.has(o)
}

/// Whether the object is one of all, and no member.
fn is_outsider(known: Known, o: Obj) -> bool
    ensures { result ≡ (nat_le o.0 (known_in known.entry).objects && not (is_in (known_in known.entry).members o.0)) }
{
    o.0 <= known.objects && !is_in_set(known.members, o)
}

/// Whether failed is some objects of the catalogue that are no members.
fn are_outsiders(known: Known, failed: &ObjSet) -> bool
    ensures { result ≡ are_outsiders_of (known_in known.entry) failed.now }
{
    if failed.len() == 0 {
        return false;
    }
    for i in 0..failed.len() {
        if !is_outsider(known, failed.at(i)) {
            return false;
        }
    }
    true
}

fn is_of_either(first: &ObjSet, second: &ObjSet, o: Obj) -> bool
    ensures { result ≡ (is_in first.now o.0 || is_in second.now o.0) }
{
    is_in_set(first, o) || is_in_set(second, o)
}

/// Whether each object that has a value is one of two sets.
fn are_of_either(values: &Pairs, first: &ObjSet, second: &ObjSet) -> bool
    ensures value { result ≡ list_all (λ o. is_in first.now o || is_in second.now o) (objects_of values.now) }
    ensures ascends { IsAscending (objects_of values.now) }
{
    for i in 0..values.len() {
        let (o, _) = values.at(i);
        if !is_of_either(first, second, o) {
            return false;
        }
    }
    true
}

fn is_named(values: &Pairs, o: Obj) -> bool
    ensures { result ≡ is_in (objects_of values.now) o.0 }
{
    values.get(o).is_some()
}

/// Whether each object of a set has a value.
fn are_named(values: &Pairs, set: &ObjSet) -> bool
    ensures value { result ≡ holds (objects_of values.now) set.now }
    ensures ascends { IsAscending set.now }
{
    for i in 0..set.len() {
        if !is_named(values, set.at(i)) {
            return false;
        }
    }
    true
}

fn are_all(first: bool, second: bool, third: bool) -> bool
    ensures { result ≡ (first && (second && third)) }
{
    first && second && third
}

/// Whether the values are over exactly the members and the failed objects.
fn are_over_both(known: Known, failed: &ObjSet, values: &Pairs) -> bool
    requires members { AreWithin (known_in known).objects (known_in known).members }
    requires failed { AreWithin (known_in known).objects failed.now }
    ensures { result ≡ are_same (objects_of values.now) (resolution known.entry.objects known.entry.members.now failed.now) }
{
    let either = are_of_either(values, known.members, failed);
    let members = are_named(values, known.members);
    let broken = are_named(values, failed);
    are_all(either, members, broken)
}

/// Whether the value is past the greatest size of a value.
fn is_great(value: i128) -> bool
    ensures { result ≡ is_too_great value }
{
    value.unsigned_abs() > MAX_VALUE
}

/// The first value that is over 2^100 in size.
fn too_great(values: &Pairs) -> Option<CoordRefusal>
    ensures { result ≡ too_great_of values.now }
{
    for i in 0..values.len() {
        let (o, value) = values.at(i);
        if is_great(value) {
            return Some(CoordRefusal::TooGreatValue(o));
        }
    }
    None
}

/// The value of the object, zero where it has none.
fn value_of(values: &Pairs, o: Obj) -> i128
    requires { AreSmall values.now }
    ensures value { result ≡ value_in values.now o.0 }
    ensures small { unsigned_abs result ≤ 2 ^ 100 }
{
    values.get(o).unwrap_or(0)
}

/// The level of an object at the monitor, by its reported value and the table.
fn level(known: Known, values: &Pairs, o: Obj) -> i128
    requires known { IsKnown (known_in known) }
    requires small { AreSmall values.now }
    requires some { 0 < o.0 }
    requires within { o.0 ≤ known.objects }
    ensures { result ≡ level_in (known_in known.entry) values.now o.0 }
{
    value_of(values, o) + known.table.at(known.mon, o)
}

/// The least level of a member at the monitor.
fn least_member(known: Known, values: &Pairs) -> Option<i128>
    requires known { IsKnown (known_in known) }
    requires small { AreSmall values.now }
    ensures { result ≡ least_in (known_in known.entry) values.now }
{
    let mut least = None;
    for i in 0..known.members.len() {
        least = lower(least, level(known, values, known.members.at(i)));
    }
    least
}

/// Whether the number is above the least of what was seen before.
fn is_above(least: Option<i128>, number: i128) -> bool
    ensures { result ≡ is_above_of least number }
{
    match least {
        None => false,
        Some(least) => least < number,
    }
}

/// The first failed object whose level is not above the least member level.
fn not_broken(
    known: Known,
    values: &Pairs,
    failed: &ObjSet,
    least: Option<i128>,
) -> Option<CoordRefusal>
    requires known { IsKnown (known_in known) }
    requires small { AreSmall values.now }
    requires failed { AreWithin (known_in known).objects failed.now }
    requires least { least ≡ least_in (known_in known) values.now }
    ensures { result ≡ not_broken_of (known_in known.entry) values.now failed.now }
{
    for i in 0..failed.len() {
        let o = failed.at(i);
        if !is_above(least, level(known, values, o)) {
            return Some(CoordRefusal::NotBroken(o));
        }
    }
    None
}

/// A border is at most the least value, and no less than the least border.
fn border_refusal(border: i128, least: i128) -> Option<CoordRefusal>
    ensures { result ≡ bad_border border least }
{
    if border > least || border < MIN_BORDER {
        return Some(CoordRefusal::BadBorder { border, least });
    }
    None
}

/// Why the content of a fresh Report is refused, if it is.
pub fn report_refusal(
    known: Known,
    border: i128,
    failed: &ObjSet,
    values: &Pairs,
) -> Option<CoordRefusal>
    requires { IsKnown (known_in known) }
    ensures { result ≡ refusal_of_report (known_in known.entry) border failed.now values.now }
{
    if !are_outsiders(known, failed) || !are_over_both(known, failed, values) {
        return Some(CoordRefusal::WrongObjects);
    }
    if let Some(refusal) = too_great(values) {
        return Some(refusal);
    }
    let least = least_member(known, values);
    if let Some(refusal) = not_broken(known, values, failed, least) {
        return Some(refusal);
    }
    border_refusal(border, least.unwrap_or(0))
}

/// Why the content of Values over the asked objects is refused, if it is.
pub fn values_refusal(
    known: Known,
    asked: &ObjSet,
    border: i128,
    values: &Pairs,
) -> Option<CoordRefusal>
    requires { IsKnown (known_in known) }
    ensures { result ≡ refusal_of_values (known_in known.entry) asked.now border values.now }
{
    if !are_over(values, asked) {
        return Some(CoordRefusal::WrongObjects);
    }
    if let Some(refusal) = too_great(values) {
        return Some(refusal);
    }
    let least = least_member(known, values);
    border_refusal(border, least.unwrap_or(0))
}

/// Whether the places are those of a monitor of 1 to 8 feeders.
fn are_places(places: &Places) -> bool
    ensures { result ≡ are_places_of places.now }
{
    if places.len() == 0 || places.len() > MAX_FEEDERS {
        return false;
    }
    for f in 0..places.len() {
        if places.at(f) > MAX_PLACE {
            return false;
        }
    }
    true
}

/// Whether the places go on from earlier ones: for each feeder, and not back.
fn are_further(earlier: &Places, places: &Places) -> bool
    ensures { result ≡ (length places.now == length earlier.now && list_all (λ p. nat_le p.0 p.1) (zip earlier.now places.now)) }
{
    if places.len() != earlier.len() {
        return false;
    }
    for f in 0..places.len() {
        if places.at(f) < earlier.at(f) {
            return false;
        }
    }
    true
}

/// Whether places go on from the last that a monitor told, if it told any.
fn go_on(before: &Option<Progress>, last: bool, places: &Places) -> bool
    ensures { result ≡ go_on_of before.now last places.now }
{
    match before {
        None => true,
        Some(earlier) if earlier.last => last && *places == earlier.places,
        Some(earlier) => are_further(&earlier.places, places),
    }
}

/// Whether the places of a fresh Settled are right after those of the one before it.
pub fn is_cut(before: &Option<Progress>, last: bool, places: &Places) -> bool
    ensures { result ≡ (are_places_of places.now && go_on_of before.now last places.now) }
{
    are_places(places) && go_on(before, last, places)
}
