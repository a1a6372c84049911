// The least level of a member and the greatest level outside a set, by one pass each.
ghost use Rattle.std.specs.Prelude.{◌≡◌, ℕ, ◌+◌, ◌^◌, ◌<◌, ◌≤◌, ℤ, pos, Bool, true, false, if◌then◌else◌, not, List, length, Some};
ghost use Rattle.tk_base.specs.Objects.{is_in};
ghost use Rattle.tk_border.specs.Levels.{level_at, least_member as least_member_of, greatest_outside as greatest_outside_of, lowered, raised, AreMembers, AreObjects, IsPassed};

use tk_base::{Obj, ObjSet};

/// The level of an object.
pub(crate) fn level(levels: &[i128], o: Obj) -> i128
    requires from_one { 0 < o.0 }
    requires within { o.0 ≤ length levels.now }
    ensures { result ≡ level_at levels.now o.0 }
{
    levels[(o.0 - 1) as usize]
}

/// The lesser of a number and the least so far.
pub fn lower(least: Option<i128>, number: i128) -> Option<i128>
    ensures { result ≡ lowered least number }
{
    Some(match least {
        None => number,
        Some(least) => least.min(number),
    })
}

/// The greater of a number and the greatest so far.
pub fn raise(greatest: Option<i128>, number: i128) -> Option<i128>
    ensures { result ≡ raised greatest number }
{
    Some(match greatest {
        None => number,
        Some(greatest) => greatest.max(number),
    })
}

/// A walk along a set begins before its first object.
pub(crate) fn start(set: &ObjSet) -> usize
    ensures { IsPassed set.now result 1 }
{
    // The length is read for its clause, that the set ascends.
    let _ = set.len();
    0
}

/// Whether the set has the object at the place that a walk along both has reached.
pub(crate) fn is_met(set: &ObjSet, place: usize, o: Obj) -> bool
    requires { IsPassed set.now place o.0 }
    ensures value { result ≡ is_in set.now o.0 }
    ensures room { result ≡ true → place + 1 < 2 ^ 64 }
    ensures met { result ≡ true → IsPassed set.now (place + 1) (o.0 + 1) }
    ensures missed { result ≡ false → IsPassed set.now place (o.0 + 1) }
{
    place < set.len() && set.at(place) == o
}

/// The place that the walk has reached behind the object.
pub(crate) fn past(set: &ObjSet, place: usize, o: Obj) -> usize
    requires { IsPassed set.now place o.0 }
    ensures passed { IsPassed set.now result (o.0 + 1) }
    ensures value { result ≡ place + (if is_in set.now o.0 then 1 else 0) }
{
    if is_met(set, place, o) {
        place + 1
    } else {
        place
    }
}

pub(crate) fn least_member(levels: &[i128], members: &ObjSet) -> i128
    requires { AreMembers (length levels.now) members.now }
    ensures { least_member_of levels.now members.now ≡ Some result }
{
    let mut least = None;
    for i in 0..members.len() {
        least = lower(least, level(levels, members.at(i)));
    }
    least.unwrap()
}

pub(crate) fn greatest_outside(levels: &[i128], set: &ObjSet) -> Option<i128>
    requires { AreObjects levels.now }
    ensures { result ≡ greatest_outside_of levels.now set.now }
{
    let mut greatest = None;
    let mut place = start(set);
    for i in 0..levels.len() {
        let o = Obj(i as u32 + 1);
        if is_met(set, place, o) {
            place += 1;
        } else {
            greatest = raise(greatest, level(levels, o));
        }
    }
    greatest
}
