//! Dealing: a leeway is split into whole shares, by weights.
//!
//! It promises that the shares sum to the leeway, that no share falls as the leeway grows, and that no
//! share of a leeway of at least 0 is negative. It stands on the sums of tk_base, and takes no memory.
#![tactic(auto)]

mod dealing;
mod laws;

pub use dealing::Participant;
pub use laws::{
    shares_grow_with_the_leeway, shares_of_no_debt_are_no_debts, shares_sum_to_the_leeway,
};
