//! What a set of objects is tested for: whether it can be the members, and whether it holds them.

ghost use Rattle.std.specs.Prelude.{◌≡◌, ◌↔◌, IsTrue};
ghost use Rattle.tk_border.specs.Levels.{holds as holds_of, AreMembers};

use tk_base::ObjSet;

/// Whether a set can be the members of so many objects: it is not empty, and each is one of the objects.
pub fn are_members(objects: usize, members: &ObjSet) -> bool
    ensures { IsTrue result ↔ AreMembers objects members.now }
{
    let count = members.len();
    count > 0 && members.at(count - 1).0 as usize <= objects
}

/// Whether a set holds all of the members, in the time of their number times a logarithm.
pub fn holds(set: &ObjSet, members: &ObjSet) -> bool
    ensures { result ≡ holds_of set.now members.now }
{
    for i in 0..members.len() {
        if !set.has(members.at(i)) {
            return false;
        }
    }
    true
}
