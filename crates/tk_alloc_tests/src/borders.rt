//! Broken outsiders, resolution sets and borders over a few levels.

ghost use Rattle.std.specs.Prelude.{length};
ghost use Rattle.tk_border.specs.Levels.{AreMembers, AreObjects};

use std::alloc::Global;
use tk_base::{Obj, ObjSet};
use tk_border::{are_members, border, failed, holds, own_border, resolution};

fn set(alloc: Global, numbers: &[u32]) -> Option<ObjSet> {
    let mut list = Vec::new(alloc);
    for number in numbers {
        list.push(Obj(*number)).ok()?;
    }
    ObjSet::new(list).ok()
}

/// How many objects a set has, and which of the first three.
type Shown = (usize, [bool; 3]);

fn shown(set: &ObjSet) -> Shown {
    (
        set.len(),
        [set.has(Obj(1)), set.has(Obj(2)), set.has(Obj(3))],
    )
}

/// The objects that fail and those to resolve, and the borders over the latter and over the members.
type Found = (Shown, Shown, i128, i128);

fn found(alloc: Global, levels: &[i128], members: &ObjSet) -> Option<Found>
    requires objects { AreObjects levels.now }
    requires members { AreMembers (length levels.now) members.now }
{
    let broken = failed(alloc, levels, members).ok()?;
    let all = resolution(alloc, members, &broken).ok()?;
    let over_all = border(levels, members, &all);
    let over_members = border(levels, members, members);
    Some((shown(&broken), shown(&all), over_all, over_members))
}

/// What is found where these are members, if they are objects.
fn found_at(alloc: Global, levels: &[i128], members: &[u32]) -> Option<Found>
    requires { AreObjects levels.now }
{
    let members = set(alloc, members)?;
    if !are_members(levels.len(), &members) {
        return None;
    }
    found(alloc, levels, &members)
}

#[test]
fn levels(rt: HostRuntime) {
    let third = (1, [false, false, true]);
    let all = (3, [true, true, true]);
    let found = found_at(rt.alloc(), &[5, 4, 9, 1], &[1, 2]);
    assert!(rt; found == Some((third, all, 1, 4)));
}

/// The coordinator's border over these objects, where the only member is at 0 and b at 4.
fn own_over(alloc: Global, epsilon: u32, objects: &[u32]) -> Option<i128> {
    let objects = set(alloc, objects)?;
    let members = set(alloc, &[1])?;
    if !are_members(2, &members) {
        return None;
    }
    let epsilon = i128::from(epsilon);
    Some(own_border(&[0, 4], &members, epsilon, &objects))
}

#[test]
fn everything_is_in_the_set(rt: HostRuntime) {
    assert!(rt; own_over(rt.alloc(), 4, &[1, 2]) == Some(4));
    assert!(rt; own_over(rt.alloc(), 9, &[1]) == Some(4));
    let second = (1, [false, true, false]);
    let both = (2, [true, true, false]);
    let found = found_at(rt.alloc(), &[3, 4], &[1]);
    assert!(rt; found == Some((second, both, 3, 3)));
}

#[test]
fn equal_levels(rt: HostRuntime) {
    let none = (0, [false, false, false]);
    let second = (1, [false, true, false]);
    let found = found_at(rt.alloc(), &[7, 7], &[2]);
    assert!(rt; found == Some((none, second, 7, 7)));
}

/// Whether these are members of so many objects.
fn are(alloc: Global, objects: usize, members: &[u32]) -> Option<bool> {
    match set(alloc, members) {
        Some(members) => Some(are_members(objects, &members)),
        None => None,
    }
}

/// Whether the objects 1 and 3 hold this one.
fn is_held(alloc: Global, object: u32) -> Option<bool> {
    let both = set(alloc, &[1, 3])?;
    let one = set(alloc, &[object])?;
    Some(holds(&both, &one))
}

#[test]
fn members_are_objects(rt: HostRuntime) {
    assert!(rt; are(rt.alloc(), 3, &[1, 3]) == Some(true));
    assert!(rt; are(rt.alloc(), 2, &[1, 3]) == Some(false));
    assert!(rt; are(rt.alloc(), 2, &[]) == Some(false));
    assert!(rt; is_held(rt.alloc(), 3) == Some(true));
    assert!(rt; is_held(rt.alloc(), 2) == Some(false));
}
