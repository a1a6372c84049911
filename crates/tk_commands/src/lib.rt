//! What single commands read, beside the input of every run: several queries, sessions, a trace, a coordinator and a
//! monitor as processes of their own; and the logs that `gen` makes.
//!
//! It promises, as tk_load does, that each is exactly what the definition gives to the words and to what each read of a file
//! gave, in the order of work, and that any other answer but want of memory is the first rule that fails there; and that a
//! trace is answered exactly where a file holds one, and else what is wrong with it. It stands on tk_load and on what these
//! commands run.
#![tactic(auto)]

mod coordinator;
mod generate;
mod laws;
mod making;
mod monitor;
mod multi;
mod run_mark;
mod sessions;
mod traced;

pub use coordinator::{CoordinatorInput, load_coordinator};
pub use generate::make;
pub use laws::{a_right_trace_is_read, what_single_commands_are_told_is_meant};
pub use monitor::{MonitorInput, load_monitor};
pub use multi::{MultiInput, load_multi};
pub use sessions::{SessionInput, load_sessions};
pub use traced::load_trace;
