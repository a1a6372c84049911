//! How much each object weighs at a monitor: the sizes of its changes, summed. A weight stands still at the
//! greatest u128.

ghost use Rattle.std.specs.Prelude.{◌≡◌, ◌+◌, ◌^◌, IfOk, All, EachIndex, length, nat_lt, position, slice_index};
ghost use Rattle.tk_input.specs.Changes.{pair_of};
ghost use Rattle.tk_input.specs.Logs.{IsObject, weight_for, weight_of};
ghost use Rattle.tk_input.specs.Rows.{capped, size_at};

use crate::change::Change;
use crate::changes::Changes;
use crate::part::Part;
use std::alloc::Global;
use tk_base::NoMemory;

const MAX_WEIGHT: u128 = 1_267_650_600_228_229_401_496_703_205_376;

fn add_weight(weights: &mut [u128], change: Change)
    requires { IsObject (length weights.old) change.obj.0 }
    ensures { EachIndex weights.new (λ i. slice_index weights.new i
        ≡ capped (slice_index weights.old i + size_at (i + 1) (pair_of change))) }
{
    let place = change.obj.0 as usize - 1;
    weights[place] = weights[place].saturating_add(change.by.unsigned_abs());
}

fn weigh(weights: &mut [u128], changes: &Changes)
    requires { All (λ c. IsObject (length weights.old) c.0) changes.now }
    ensures { EachIndex weights.new (λ i. slice_index weights.new i
        ≡ capped (slice_index weights.old i + weight_for (i + 1) changes.now)) }
{
    for i in 0..changes.len() {
        add_weight(weights, changes.at(i));
    }
}

fn weigh_all(weights: &mut [u128], row: &[Part])
    requires { All (λ part. All (λ c. IsObject (length weights.old) c.0) part) row.now }
    ensures { EachIndex weights.new (λ i. slice_index weights.new i
        ≡ capped (slice_index weights.old i + weight_of row.now (i + 1))) }
{
    for part in row {
        weigh(weights, part.changes());
    }
}

/// How much each object weighs at a monitor: the sizes of its changes, summed.
pub fn weights_of(alloc: Global, row: &[Part], objects: u32) -> Result<Vec<u128>, NoMemory>
    requires { All (λ part. All (λ c. IsObject objects c.0) part) row.now }
    ensures size { IfOk result (λ v. length v.items ≡ objects) }
    ensures weights { IfOk result (λ v. EachIndex v.items (λ i. slice_index v.items i ≡ capped (weight_of row.now (i + 1)))) }
{
    let mut weights = vec![in alloc; 0u128; objects as usize]?;
    weigh_all(weights.as_mut_slice(), row);
    Ok(weights)
}

/// The place of the first weight past the limit.
pub fn first_heavy(weights: &[u128]) -> Option<usize>
    ensures { result ≡ position (λ w. nat_lt (2 ^ 100) w) weights.now }
{
    weights.iter().position(|weight| *weight > MAX_WEIGHT)
}
