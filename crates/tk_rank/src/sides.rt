// The members on one side and the outsiders on another.
ghost use Rattle.std.specs.Prelude.{◌≡◌, ◌-◌, ◌^◌, ◌<◌, ◌≤◌, ℤ, true, false, unsigned_abs, IfNone, IfSome, [], length, All, Some, None, slice_index, slice_index_or, vec_capacity};
ghost use Rattle.tk_base.specs.Ascending.{IsAscending, numbers_of};
ghost use Rattle.tk_base.specs.Objects.{is_in};
ghost use Rattle.tk_border.specs.Levels.{holds, AreObjects, AreSmall};
ghost use Rattle.tk_rank.specs.Sides.{AreOutsiderLeaves, AreSmallLeaves, IsMemberLevel, Releases, Relevels, Takes};
ghost use Rattle.tk_rank.specs.Tree.{HasRoom};

use crate::side::Side;
use tk_base::{Obj, ObjSet};

/// The place of an object on the side of the outsiders.
pub(crate) fn seat_of(o: Obj) -> usize
    requires { 0 < o.0 }
    ensures { result ≡ o.0 - 1 }
{
    o.0 as usize - 1
}

/// Makes every object an outsider.
pub(crate) fn seat(levels: &[i128], outsiders: &mut Side)
    requires objects { AreObjects levels.now }
    requires sizes { AreSmall levels.now }
    requires room { HasRoom (length levels.now) outsiders.old.room }
    ensures { AreOutsiderLeaves levels.now (is_in []) outsiders.new.leaves }
{
    outsiders.clear(levels.len());
    for i in 0..levels.len() {
        outsiders.set(i, levels[i]);
    }
}

/// The number at a place where there is one.
pub(crate) fn number_in(side: &Side, place: usize) -> i128
    requires within { place < length side.now.leaves }
    requires small { AreSmallLeaves side.now.leaves }
    ensures value { (x : ℤ) → slice_index_or side.now.leaves place None ≡ Some x → result ≡ x }
    ensures size { unsigned_abs result < 2 ^ 114 }
{
    match side.leaf(place) {
        Some(number) => number,
        None => 0,
    }
}

/// The place of a member, in logarithmic time.
pub(crate) fn place_of(list: &[Obj], o: Obj) -> Option<usize>
    requires { IsAscending (numbers_of list.now) }
    ensures within { IfSome result (λ i. i < length list.now) }
    ensures found { IfSome result (λ i. slice_index (numbers_of list.now) i ≡ o.0) }
    ensures none { IfNone result (is_in (numbers_of list.now) o.0 ≡ false) }
{
    let place = list.partition_point(|member| member.0 < o.0);
    if place < list.len() && list[place].0 == o.0 {
        return Some(place);
    }
    None
}

/// The level of a member, whose leaf has it with the sign turned.
pub(crate) fn read_member(o: Obj, list: &[Obj], members: &Side) -> i128
    requires ascends { IsAscending (numbers_of list.now) }
    requires room { length list.now ≤ length members.now.leaves }
    requires small { AreSmallLeaves members.now.leaves }
    ensures value { IsMemberLevel (numbers_of list.now) members.now.leaves o.0 result }
    ensures size { unsigned_abs result < 2 ^ 114 }
{
    match place_of(list, o) {
        Some(place) => -number_in(members, place),
        None => 0,
    }
}

/// Gives an object another level on its side.
pub(crate) fn relevel(o: Obj, level: i128, list: &[Obj], members: &mut Side, outsiders: &mut Side)
    requires from_one { 0 < o.0 }
    requires within { o.0 ≤ length outsiders.old.leaves }
    requires ascends { IsAscending (numbers_of list.now) }
    requires room { length list.now ≤ length members.old.leaves }
    requires size { unsigned_abs level < 2 ^ 114 }
    ensures sides { Relevels o.0 level (numbers_of list.now)
        (members.old.leaves, outsiders.old.leaves) (members.new.leaves, outsiders.new.leaves) }
    ensures room { members.new.room ≡ members.old.room }
{
    // Most objects are outsiders: their side alone is read then.
    if outsiders.leaf(seat_of(o)).is_some() {
        outsiders.set(seat_of(o), level);
    } else if let Some(place) = place_of(list, o) {
        members.set(place, -level);
    }
}

/// Makes the members outsiders.
pub(crate) fn release(list: &[Obj], members: &Side, outsiders: &mut Side)
    requires ascends { IsAscending (numbers_of list.now) }
    requires within { All (λ o. o ≤ length outsiders.old.leaves) (numbers_of list.now) }
    requires room { length list.now ≤ length members.now.leaves }
    requires small { AreSmallLeaves members.now.leaves }
    ensures { Releases (numbers_of list.now) members.now.leaves outsiders.old.leaves outsiders.new.leaves }
{
    for place in 0..list.len() {
        let level = -number_in(members, place);
        outsiders.set(seat_of(list[place]), level);
    }
}

/// Makes some outsiders the members, where there are none.
pub(crate) fn take(new: &ObjSet, members: &mut Side, outsiders: &mut Side)
    requires few { length new.now ≤ 65536 }
    requires room { HasRoom (length new.now) members.old.room }
    requires within { All (λ o. o ≤ length outsiders.old.leaves) new.now }
    requires small { AreSmallLeaves outsiders.old.leaves }
    ensures sides { Takes new.now outsiders.old.leaves (members.new.leaves, outsiders.new.leaves) }
    ensures ascends { IsAscending new.now }
    ensures room { members.new.room ≡ members.old.room }
{
    members.clear(new.len());
    for place in 0..new.len() {
        let seat = seat_of(new.at(place));
        members.set(place, -number_in(outsiders, seat));
        outsiders.remove(seat);
    }
}

/// Lists the members in place of what was listed.
pub(crate) fn list_members(list: &mut Vec<Obj>, members: &ObjSet)
    requires { length members.now ≤ vec_capacity list.old }
    ensures items { numbers_of list.new.items ≡ members.now }
    ensures room { vec_capacity list.new ≡ vec_capacity list.old }
{
    list.clear();
    for i in 0..members.len() {
        list.push_reserved(members.at(i));
    }
}

/// Whether these members are listed.
pub(crate) fn are_listed(list: &[Obj], members: &ObjSet) -> bool
    ensures { result ≡ true → numbers_of list.now ≡ members.now }
{
    if list.len() != members.len() {
        return false;
    }
    for index in 0..list.len() {
        if list[index].0 != members.at(index).0 {
            return false;
        }
    }
    true
}

/// Whether a set holds all of some members.
pub(crate) fn holds_all(members: &[Obj], set: &ObjSet) -> bool
    ensures { result ≡ holds set.now (numbers_of members.now) }
{
    for o in members {
        if !set.has(*o) {
            return false;
        }
    }
    true
}
