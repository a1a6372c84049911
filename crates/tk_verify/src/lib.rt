//! The record of a run checked: fresh nodes are driven over it, and what they do is compared with what it says.
//!
//! It promises that a record is answered with its story exactly where that is legal and came to its end, and else with the
//! first thing that is wrong with it and the place of that. Nothing in a record is trusted: frames and retunes alone are
//! handed to the nodes, and all else they say themselves. It stands on the monitor, the coordinator and the story.
#![tactic(auto)]

mod finding;
mod halt;
mod journals;
mod laws;
mod trace_fault;
mod trails;
mod verifying;

pub use finding::Finding;
pub use laws::{nothing_is_found_of_a_finished_story, one_finding};
pub use trace_fault::TraceFault;
pub use verifying::verify;
