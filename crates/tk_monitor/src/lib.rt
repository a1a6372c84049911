//! One monitor: it counts the changes of its feeders, checks its constraints, and answers the coordinator.
//!
//! It promises that its trail is legal after every call, that a raise takes no memory, and that a
//! refusal leaves it as it was. It stands on tk_base, tk_frames, tk_input, tk_border,
//! tk_rank and tk_trail.
//! It keeps the level of each object, and the factors that were assigned; a value is a level without its factor. So
//! a raise writes one level, and an object that no Assign named takes no memory but its level's.
//! No call sends anything: what is to be sent stands in the trail, and `sent_at` lends it.
#![tactic(auto)]

mod board;
mod factors;
mod messages;
mod monitor;
mod outcome;
mod parts;
mod phase;
mod refusals;
mod start;
mod trail;

pub use monitor::Monitor;
pub use outcome::{Checked, Raised};
