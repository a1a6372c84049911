//! A port under a lock: its feeders raise changes in threads of their own, while one thread serves its link.
//!
//! It promises that whenever the lock is got the port is the one that was put in, with its type's facts: a legal trail, and
//! links that say what it says. What `serve` answers is the end of the port that it was given, and why it ended is read off
//! that end. Nothing is promised of time, of turns between threads, or that a call returns.
//! It stands on tk_port, whose calls it makes under the lock; only this crate and those above it name a thread.
#![tactic(auto)]

mod alarm;
mod cell;
mod feeding;
mod gate;
mod served;
mod serving;

pub use alarm::Alarm;
pub use cell::{PortCell, PortName, Shared};
pub use feeding::feed;
pub use gate::{Gate, OpenGate};
pub use served::{Served, Why, retire};
pub use serving::serve;
