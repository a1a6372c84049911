//! A run as text: its settings, what opened it, and what happened in the order of its events, a line an event.
//!
//! It promises that what is written is that text, or where a put fails or memory ends a front of it. Each line tells what
//! stands next in the trail of its monitor or in the journal, with the names of the catalogue. Which order of events is told
//! is the caller's choice; a story that keeps one has it from `serialize`. It stands on the world, the ledger and the sinks.
#![tactic(auto)]

mod frames;
mod noted;
mod printing;
mod telling;
mod told;
mod turned;
mod words;

pub use printing::show;
