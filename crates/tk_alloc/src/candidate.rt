//! What objects are ordered by where a round picks its members.

use std::cmp::Reverse;

/// An object in the order of the pick: the greater total first, then a present member, then the lesser
/// number.
#[derive(Clone, Copy, Debug, PartialEq, Eq, PartialOrd, Ord)]
pub struct Candidate {
    pub total: Reverse<i128>,
    pub newcomer: bool,
    pub obj: u32,
}
