//! Traces: a recorded run as bytes.
//!
//! It promises that `write` writes the one spelling of a story's record, or a front of it, and that `parse` gives what
//! some bytes are a trace of, and refuses them exactly where they are a trace of nothing. What is read is within the rules
//! of names, settings and logs. `read` answers the story that it tells exactly where that is legal and came to its end, and
//! else the first thing that is wrong with the bytes. `laws` has what follows.
//! It stands on the story, on its checker and on the sinks.
#![tactic(auto)]

mod checking;
mod fault;
mod laws;
mod reading;
mod recording;
mod trace;
mod writing;

pub use checking::read;
pub use fault::ParseFault;
pub use laws::{a_trace_is_of_one_run, nothing_is_wrong_with_a_finished_run, one_fault};
pub use reading::parse;
pub use recording::Recording;
pub use trace::Trace;
pub use writing::write;
