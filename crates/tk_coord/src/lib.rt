//! The coordinator: it takes the monitors' frames, keeps the members and the factors, and publishes.
//!
//! It promises that its journal is legal after every call: a taken frame, or a retune, makes it grow by exactly
//! its turn, and what is not taken changes nothing and comes back with the first reason against it. It stands on
//! the definitions of tk_journal, the table of factors and the reallocation of rounds.
#![tactic(auto)]

mod answer;
mod board;
mod checks;
mod coordinator;
mod dealing;
mod entries;
mod journal;
mod opening;
mod outcomes;
mod peer;
mod phase;
mod publishing;
mod refusals;
mod reports;
mod round;
mod state;
mod step;
mod turns;

pub use coordinator::Coordinator;
pub use tk_journal::{CoordRefusal, RetuneRefusal, Turn, TurnKind};
