// The board and the places from which a monitor starts.
ghost use Rattle.std.specs.Prelude.{◌≡◌, ◌<◌, ◌≤◌, length, IfOk, OnOk, slice_index, slice_index_or, slice_set, []};
ghost use Rattle.tk_input.specs.Logs.{AreParts, ArePlaces};
ghost use Rattle.tk_monitor.specs.Start.{StandsAt, AreZero};

use crate::board::Board;
use std::alloc::Global;
use tk_base::{NoMemory, Places};
use tk_input::Part;

/// Counts the changes in front of the starting places, and answers those places.
pub(crate) fn start(
    alloc: Global,
    board: &mut Board,
    parts: &[Part],
    from: &Places,
) -> Result<Vec<u32>, NoMemory>
    requires parts { AreParts (length board.old.levels) parts.now }
    requires places { ArePlaces parts.now from.now }
    requires zeros { AreZero board.old }
    ensures next { IfOk result (λ next. next.items ≡ from.now) }
    ensures board { OnOk result (StandsAt (length board.old.levels) parts.now from.now board.new) }
{
    let mut next = vec![in alloc; 0; parts.len()]?;
    for i in 0..parts.len() {
        advance(board, parts, &mut next, i, from.at(i));
    }
    Ok(next)
}

/// Counts the first changes of part i, of which none counts yet.
fn advance(board: &mut Board, parts: &[Part], next: &mut Vec<u32>, i: usize, place: u32)
    requires parts { AreParts (length board.old.levels) parts.now }
    requires shape { length next.old.items ≡ length parts.now }
    requires part { i < length parts.now }
    requires place { place ≤ length (slice_index_or parts.now i []) }
    requires none { slice_index next.old.items i ≡ 0 }
    requires stands { StandsAt (length board.old.levels) parts.now next.old.items board.old }
    ensures next { next.new.items ≡ slice_set next.old.items i place }
    ensures stands { StandsAt (length board.old.levels) parts.now next.new.items board.new }
{
    for k in 0..place {
        let change = parts[i].at(k as usize);
        board.shift(change.obj, change.by);
        next[i] = k + 1;
    }
}
