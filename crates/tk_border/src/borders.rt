//! The border of a monitor over its levels, and that of the coordinator over its own factors.

ghost use Rattle.std.specs.Prelude.{◌≡◌, ◌^◌, ◌≤ℤ◌, pos, length};
ghost use Rattle.tk_border.specs.Levels.{border as border_of, own_border as own_border_of, AreMembers, AreObjects, AreSmall};

use crate::extremes::{greatest_outside, least_member};
use tk_base::ObjSet;

/// The border of a monitor over a set of objects that holds the members.
pub fn border(levels: &[i128], members: &ObjSet, r: &ObjSet) -> i128
    requires objects { AreObjects levels.now }
    requires members { AreMembers (length levels.now) members.now }
    ensures { result ≡ border_of levels.now members.now r.now }
{
    let least = least_member(levels, members);
    match greatest_outside(levels, r) {
        None => least,
        Some(greatest) => least.min(greatest),
    }
}

/// The border of the coordinator over a set of objects that holds the members.
pub fn own_border(own: &[i128], members: &ObjSet, epsilon: i128, r: &ObjSet) -> i128
    requires objects { AreObjects own.now }
    requires members { AreMembers (length own.now) members.now }
    requires sizes { AreSmall own.now }
    requires no_debt { pos 0 ≤ℤ epsilon }
    requires epsilon { epsilon ≤ℤ pos (2 ^ 100) }
    ensures { result ≡ own_border_of own.now members.now epsilon r.now }
{
    match greatest_outside(own, r) {
        None => least_member(own, members) + epsilon,
        Some(greatest) => greatest,
    }
}
