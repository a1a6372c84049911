//! The resolution set, merged from the members and the broken outsiders.

ghost use Rattle.std.specs.Prelude.{◌≡◌, ℕ, ◌+◌, ◌<◌, ◌≤◌, true, ◌||◌, length, IfOk};
ghost use Rattle.tk_base.specs.Objects.{is_in};
ghost use Rattle.tk_border.specs.Levels.{IsPassed, IsResolution};

use crate::extremes::{past, start};
use std::alloc::Global;
use tk_base::{NoMemory, Obj, ObjSet};

/// The members and the failed objects, in one pass over both.
pub fn resolution(alloc: Global, members: &ObjSet, failed: &ObjSet) -> Result<ObjSet, NoMemory>
    ensures holds { IfOk result (λ s. (o : ℕ) → is_in s o ≡ (is_in members.now o || is_in failed.now o)) }
    ensures value { IfOk result (λ s. IsResolution members.now failed.now s) }
{
    let mut list = Vec::new(alloc);
    let mut i = start(members);
    let mut j = start(failed);
    while i < members.len() || j < failed.len() {
        let o = next(members, i, failed, j);
        list.push(o)?;
        i = past(members, i, o);
        j = past(failed, j, o);
    }
    Ok(ObjSet::new(list).unwrap())
}

/// The least object of two sets from two places on.
fn next(members: &ObjSet, i: usize, failed: &ObjSet, j: usize) -> Obj
    requires i_within { i ≤ length members.now }
    requires j_within { j ≤ length failed.now }
    requires more { i + j < length members.now + length failed.now }
    ensures one { (is_in members.now result.0 || is_in failed.now result.0) ≡ true }
    ensures above { (b : ℕ) → IsPassed members.now i b → IsPassed failed.now j b → b ≤ result.0 }
    ensures of_members { (b : ℕ) → IsPassed members.now i b → b ≤ result.0 → IsPassed members.now i result.0 }
    ensures of_failed { (b : ℕ) → IsPassed failed.now j b → b ≤ result.0 → IsPassed failed.now j result.0 }
{
    if i == members.len() {
        return failed.at(j);
    }
    if j == failed.len() {
        return members.at(i);
    }
    let (member, broken) = (members.at(i), failed.at(j));
    if member.0 < broken.0 { member } else { broken }
}
