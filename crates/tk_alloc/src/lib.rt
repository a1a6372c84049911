//! Reallocation: how a round chooses the members and moves the factors.
//!
//! It promises the leeways, the dealing and the choice of members exactly, that each object's factors keep
//! their sum, and that afterwards the coordinator's constraint holds, and at the reported values the
//! monitors' too. It stands on tk_share, tk_rows and the levels of tk_border.
#![tactic(auto)]

mod alloc_fault;
mod candidate;
mod full_round;
mod laws;
mod limit;
mod mending;
mod own_border;
mod picking;
mod reallocating;
mod reported;
mod short_round;
mod terms;
mod wide_round;

pub use alloc_fault::AllocFault;
pub use full_round::{full, full_with_border};
pub use laws::rounds_stay_small;
pub use mending::{a_short_round_mends, a_wide_round_mends, order_is_calm};
pub use picking::pick;
pub use reported::Reported;
pub use short_round::{short, short_test, short_with_border};
pub use wide_round::wide;
