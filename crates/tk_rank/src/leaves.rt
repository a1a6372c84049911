// Walks over the leaves of a block.
ghost use Rattle.std.specs.Prelude.{◌≡◌, ◌+◌, ◌-◌, ◌^◌, ◌<◌, ◌≤◌, ◌++◌, true, false, length, map, IfOk, IfSome};
ghost use Rattle.std.specs.List.{range_with_len, AllWithin};
ghost use Rattle.tk_base.specs.Ascending.{numbers_of};
ghost use Rattle.tk_base.specs.Objects.{is_in};
ghost use Rattle.tk_border.specs.Levels.{greatest_of, IsPassed};
ghost use Rattle.tk_rank.specs.Tree.{others_in, standing, those_over, IsOther};

use crate::node::Node;
use tk_base::{NoMemory, Obj, ObjSet};

/// The greatest number of the leaves from one place on and before another.
pub(crate) fn greatest<N: Node>(leaves: &[N], from: usize, to: usize) -> N
    requires order { from ≤ to }
    requires within { to ≤ length leaves.now }
    ensures { N.number result ≡ greatest_of (standing (map N.number leaves.now) (range_with_len (from + 1) (to - from))) }
{
    let mut most = N::none();
    for place in from..to {
        most = most.greater(leaves[place]);
    }
    most
}

/// Adds the objects of these leaves whose number is above a level.
pub(crate) fn add_above<N: Node>(
    leaves: &[N],
    from: usize,
    to: usize,
    level: i128,
    found: &mut Vec<Obj>,
) -> Result<(), NoMemory>
    requires order { from ≤ to }
    requires within { to ≤ length leaves.now }
    requires few { length leaves.now ≤ 65536 }
    ensures { IfOk result (λ _. numbers_of found.new.items
        ≡ numbers_of found.old.items ++ those_over level (map N.number leaves.now) (range_with_len (from + 1) (to - from))) }
{
    for place in from..to {
        if leaves[place].is_over(level) {
            found.push(Obj(place as u32 + 1))?;
        }
    }
    Ok(())
}

/// Whether the next object of a set is below an end.
fn is_reached(set: &ObjSet, place: usize, first: usize, end: usize) -> bool
    requires passed { IsPassed set.now place first }
    requires order { first ≤ end }
    ensures missed { result ≡ false → IsPassed set.now place end }
    ensures met { result ≡ true → end ≡ first + 1 → IsPassed set.now (place + 1) end }
    ensures value { result ≡ true → end ≡ first + 1 → is_in set.now first ≡ true }
    ensures room { result ≡ true → place + 1 < 2 ^ 64 }
{
    place < set.len() && (set.at(place).0 as usize) < end
}

/// The place that a walk along a set has reached behind some leaves, unless an object of the set has this number there.
fn passed_without<N: Node>(
    leaves: &[N],
    to: usize,
    top: N,
    set: &ObjSet,
    place: usize,
) -> Option<usize>
    requires within { to ≤ length leaves.now }
    requires place { place ≤ length set.now }
    requires passed { AllWithin (λ o. o < to + 1) set.now 0 place }
    ensures other { IfSome result (λ next. AllWithin (IsOther (map N.number leaves.now) (N.number top)) set.now place next) }
    ensures passed { IfSome result (λ next. IsPassed set.now next (to + 1)) }
{
    for next in place..set.len() {
        let o = set.at(next).0 as usize;
        if to < o {
            return Some(next);
        }
        if leaves[o - 1].is_same(top) {
            return None;
        }
    }
    Some(set.len())
}

/// The greatest number of these leaves whose objects are outside a set, and the place that a walk along the set has
/// reached behind them. The leaves are read only where an object of the set has the greatest number of all.
pub(crate) fn greatest_outside<N: Node>(
    leaves: &[N],
    from: usize,
    to: usize,
    top: N,
    set: &ObjSet,
    place: usize,
) -> (N, usize)
    requires order { from ≤ to }
    requires within { to ≤ length leaves.now }
    requires few { length leaves.now ≤ 65536 }
    requires top { N.number top ≡ greatest_of (standing (map N.number leaves.now) (range_with_len (from + 1) (to - from))) }
    requires passed { IsPassed set.now place (from + 1) }
    ensures number { N.number result.0
        ≡ greatest_of (standing (map N.number leaves.now) (others_in set.now (range_with_len (from + 1) (to - from)))) }
    ensures passed { IsPassed set.now result.1 (to + 1) }
{
    match passed_without(leaves, to, top, set, place) {
        Some(next) => (top, next),
        None => greatest_left(leaves, from, to, set, place),
    }
}

/// The greatest number of these leaves whose objects are outside a set, and the place that a walk along the set has
/// reached behind them, by a look at each.
fn greatest_left<N: Node>(
    leaves: &[N],
    from: usize,
    to: usize,
    set: &ObjSet,
    place: usize,
) -> (N, usize)
    requires order { from ≤ to }
    requires within { to ≤ length leaves.now }
    requires few { length leaves.now ≤ 65536 }
    requires passed { IsPassed set.now place (from + 1) }
    ensures number { N.number result.0
        ≡ greatest_of (standing (map N.number leaves.now) (others_in set.now (range_with_len (from + 1) (to - from)))) }
    ensures passed { IsPassed set.now result.1 (to + 1) }
{
    let mut most = N::none();
    let mut place = place;
    for i in from..to {
        if is_reached(set, place, i + 1, i + 2) {
            place += 1;
        } else {
            most = most.greater(leaves[i]);
        }
    }
    (most, place)
}
