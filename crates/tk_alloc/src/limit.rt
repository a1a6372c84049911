//! The limit of a factor, 2^112, and the search of a reallocation for the first one past it.

ghost use Rattle.std.specs.Prelude.{◌≡◌, ◌^◌, ◌<◌, ℕ, nat_lt, unsigned_abs, length, IfSome, IfNone, IfOk, IfErr};
ghost use Rattle.std.specs.List.{All};
ghost use Rattle.tk_alloc.specs.Limit.{IsPastLimit};
ghost use Rattle.tk_alloc.specs.Search.{AreWithin, IsEven, IsFirstNode, by_node};

use crate::alloc_fault::AllocFault;
use tk_rows::Reallocation;

/// The greatest size of a factor, 2^112.
const LIMIT: u128 = 5_192_296_858_534_827_628_530_496_329_220_096;

fn is_past(factor: i128) -> bool
    ensures { result ≡ nat_lt (2 ^ 112) (unsigned_abs factor) }
{
    LIMIT < factor.unsigned_abs()
}

/// A factor past the limit, and its node.
#[derive(Clone, Copy, Debug)]
struct Past {
    node: u32,
    factor: i128,
}

/// The first factor past the limit of the object at a place.
fn past_at(change: &Reallocation, place: usize) -> Option<Past>
    requires even { IsEven change.now }
    requires place { place < length change.now.own }
    ensures some { IfSome result (λ p. IsFirstNode (by_node change.now) place p.node p.factor) }
    ensures none { IfNone result (AreWithin (by_node change.now) place) }
{
    let (_, factor) = change.own.at(place);
    if is_past(factor) {
        return Some(Past { node: 0, factor });
    }
    for named in change.at.iter() {
        let (_, factor) = named.changes.at(place);
        if is_past(factor) {
            let node = named.mon.0;
            return Some(Past { node, factor });
        }
    }
    None
}

/// The same reallocation, or the first of its factors that is past the limit.
pub fn within_limit(change: Reallocation) -> Result<Reallocation, AllocFault>
    requires { IsEven change }
    ensures same { IfOk result (λ r. r ≡ change) }
    ensures within { IfOk result (λ r. (i : ℕ) → i < length r.own → AreWithin (by_node r) i) }
    ensures past { IfErr result (IsPastLimit (by_node change)) }
{
    for place in 0..change.own.len() {
        if let Some(past) = past_at(&change, place) {
            let (obj, _) = change.own.at(place);
            let Past { node, factor } = past;
            return Err(AllocFault::PastLimit { obj, node, factor });
        }
    }
    Ok(change)
}
