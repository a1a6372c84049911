//! The search for broken outsiders among the levels of a node.

ghost use Rattle.std.specs.Prelude.{◌≡◌, ◌<◌, ◌≤◌, length, IfOk, Some};
ghost use Rattle.tk_border.specs.Levels.{broken, is_above, level_at, AreMembers, AreObjects};

use crate::extremes::{is_met, least_member, level, start};
use std::alloc::Global;
use tk_base::{NoMemory, Obj, ObjSet};

/// The broken outsiders, in one pass over the levels.
pub fn failed(alloc: Global, levels: &[i128], members: &ObjSet) -> Result<ObjSet, NoMemory>
    requires objects { AreObjects levels.now }
    requires members { AreMembers (length levels.now) members.now }
    ensures { IfOk result (λ s. s ≡ broken levels.now members.now) }
{
    let least = least_member(levels, members);
    let mut list = Vec::new(alloc);
    let mut place = start(members);
    for i in 0..levels.len() {
        let o = Obj(i as u32 + 1);
        if is_met(members, place, o) {
            place += 1;
        } else if is_broken(levels, least, o) {
            list.push(o)?;
        }
    }
    Ok(ObjSet::new(list).unwrap())
}

fn is_broken(levels: &[i128], least: i128, o: Obj) -> bool
    requires from_one { 0 < o.0 }
    requires within { o.0 ≤ length levels.now }
    ensures { result ≡ is_above (Some least) (level_at levels.now o.0) }
{
    level(levels, o) > least
}
