//! Least members and greatest outsiders of the levels of one node, by the greatest of each block of 64 and a tree over these.
//!
//! It promises the answers of tk_border's scans: a rank is seen as its levels and its members. Setting or shifting a level
//! looks at its leaf and at the greatest of its block; at the other leaves of the block only where that falls, and at the
//! tree over the blocks, in the logarithm of their number, where it changes. The two extremes are read at a root. What is
//! asked of all levels looks at each block, and into those that it must. It stands on tk_base and tk_border. Only `new` and
//! `above` take memory.
//!
//! The outsiders have a leaf for each object, the members one for each place among them; a leaf has 8 bytes as long as every
//! number beside it fits in so many. The first that does not turns all leaves of its side wide, in the time of them all, to
//! 16 bytes more a leaf, until that side is emptied: the members' with each other set of members, the outsiders' never.
//!
//! Setting a level and taking members may not fail, and any objects may be the members. So `new` reserves the room of the
//! greatest members' side and list, and that of both sides in their wide form, but only what is in use is ever written. Where
//! memory that was never touched is not resident, a rank so has 8 bytes an object and for every 64 of them 16 to 32 in its
//! tree, and beside these only as much for each member, and 4.
#![tactic(auto)]

mod blocks;
mod leaves;
mod narrow;
mod node;
mod nodes;
mod rank;
mod side;
mod sides;
mod wide;

pub use rank::Rank;
