// The parts of a monitor, and how far each of them is reached.
ghost use Rattle.std.specs.Prelude.{◌≡◌, ℕ, ◌+◌, ◌<◌, ◌≤◌, OnErr, OnOk, length, option_map, slice_index_or, []};
ghost use Rattle.tk_trail.specs.Growing.{grown_parts};
ghost use Rattle.tk_input.specs.Logs.{AreParts, ArePlaces};
ghost use Rattle.tk_monitor.specs.Kept.{next_in, left_in};

use tk_base::NoMemory;
use tk_input::{Change, Part};

/// The next change of part i, unless that is at its end.
pub(crate) fn next_change(parts: &[Part], next: &[u32], i: usize) -> Option<Change>
    requires part { i < length parts.now }
    requires places { ArePlaces parts.now next.now }
    ensures { option_map (λ c. (c.obj.0, c.by)) result ≡ next_in parts.now next.now i }
{
    let place = next[i] as usize;
    if place == parts[i].len() {
        return None;
    }
    Some(parts[i].at(place))
}

/// How many changes of all parts are not reached.
pub(crate) fn left_of(parts: &[Part], next: &[u32]) -> usize
    requires places { ArePlaces parts.now next.now }
    requires lengths { (i : ℕ) → length (slice_index_or parts.now i []) ≤ 1000000 }
    requires few { length parts.now ≤ 8 }
    ensures value { result ≡ left_in parts.now next.now }
    ensures size { result ≤ 8000000 }
{
    let mut left = 0;
    for (i, part) in parts.iter().enumerate() {
        left += part.len() - next[i] as usize;
    }
    left
}

/// Puts a change in front of the last one of part i.
pub(crate) fn grow_part(parts: &mut Vec<Part>, i: usize, change: Change) -> Result<(), NoMemory>
    requires part { i < length parts.old.items }
    requires some { 0 < length (slice_index_or parts.old.items i []) }
    ensures ok { OnOk result (parts.new.items ≡ grown_parts parts.old.items (i + 1) (change.obj.0, change.by)) }
    ensures err { OnErr result (parts.new.items ≡ parts.old.items) }
{
    parts[i].grow(change)?;
    Ok(())
}
