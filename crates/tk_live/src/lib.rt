//! The live run: a worker for each monitor with its feeders, and the coordinator beside them, over the links of a net.
//!
//! It promises of a run that is done that its story is sound, is over the input's settings and logs and runs its events,
//! that what was written is its text, and that no fewer bytes came over the net's links than such a story needs. Any other
//! status but want of memory has its cause: a failed write, told just where there is one; the net's faults, where no end has
//! anything that it did not take; or a difference that the ends show. It promises nothing of time, of which of the possible
//! sets are published, or that it returns.
#![tactic(auto)]

mod berths;
mod crew;
mod ending;
mod faults;
mod headline;
mod hosting;
mod joining;
mod left;
mod living;
mod number;
mod outcome;
mod parting;
mod plan;
mod playing;
mod returning;
mod serving;
mod signals;
mod stage;
mod worked;

pub use headline::an_input_is_lived;
pub use living::live_over;
pub use number::run_number;
pub use outcome::LiveOutcome;
pub use serving::live;
