//! The commands `coordinate` and `monitor`: from their words to a status, over files, streams, hosts and dialers of any kind.
//!
//! It promises that a process runs over exactly the input of its words, with the names, the settings and the run that these
//! give; that nothing is written before the input stands; and that each status has its cause. The program makes the true files,
//! streams and sockets, and calls it.
#![tactic(auto)]

mod coordinate;
mod makers;
mod monitor;
mod serving;

pub use makers::{Dialers, Hosts};
pub use serving::process;
