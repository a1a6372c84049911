//! The table of factors: of each object, at each node.
//!
//! It promises that the factors of each object of a table, the coordinator's own included, sum to zero,
//! that no factor is past 2^112 in size, and that a reallocation changes exactly what it names. It stands
//! on tk_base. Only `Table::new` takes memory.
#![tactic(auto)]

mod factors;
mod mon_change;
mod reallocation;
mod table;

pub use mon_change::MonChange;
pub use reallocation::Reallocation;
pub use table::Table;
