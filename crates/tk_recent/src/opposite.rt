//! What takes some sums back.

ghost use Rattle.std.specs.Prelude.{◌≡◌, ◌<◌, ◌≤◌, ◌^◌, ◌++◌, All, IfOk, OnOk, length, unsigned_abs};
ghost use Rattle.tk_recent.specs.Fields.{undone};
ghost use Rattle.tk_recent.specs.Kept.{opposite as opposite_of};

use std::alloc::Global;
use tk_base::{NoMemory, Obj};
use tk_input::{Change, Changes};

/// Adds what takes the sum of an object back, where it is not zero.
fn undo(changes: &mut Changes, obj: Obj, sum: i128) -> Result<(), NoMemory>
    requires { unsigned_abs sum < 2 ^ 127 }
    ensures { OnOk result (changes.new ≡ changes.old ++ undone obj.0 sum) }
{
    let by = -sum;
    match by.unsigned_abs() {
        0 => Ok(()),
        _ => changes.push(Change { obj, by }),
    }
}

/// What takes back the sums of all objects. Costs a look at each object, and memory for those whose sum is not zero.
pub(crate) fn opposite(alloc: Global, sums: &[i128]) -> Result<Changes, NoMemory>
    requires few { length sums.now ≤ 65536 }
    requires sizes { All (λ v. unsigned_abs v < 2 ^ 127) sums.now }
    ensures { IfOk result (λ changes. changes ≡ opposite_of sums.now) }
{
    let mut changes = Changes::new(alloc);
    for i in 0..sums.len() {
        undo(&mut changes, Obj(i as u32 + 1), sums[i])?;
    }
    changes.shrink_to_fit();
    Ok(changes)
}
