//! The findings of a record's check: an illegal part, a link that differs, no final set, or want of memory.

use tk_base::Mon;
use tk_story::Direction;

/// What is wrong with a record, the first of these that is.
#[derive(Clone, Copy, Debug, PartialEq, Eq)]
pub enum Finding {
    /// Parts 1 to m are the trails, and part m + 1 is the journal: the first that is not legal. Up to this place, from 0,
    /// it is a front of a legal one, and no further; at its length an entry is missing.
    NotLegal {
        part: u32,
        place: u64,
    },
    /// At this place, from 0, of a link something else was received than what was sent.
    Links {
        mon: Mon,
        direction: Direction,
        place: u64,
    },
    /// There is no publication, or the last one is not the final one.
    NotFinal,
    NoMemory,
}
