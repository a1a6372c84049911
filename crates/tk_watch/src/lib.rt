//! A monitor in a process of its own: it is fed by streams, and begins anew behind what it counted where a connection is lost.
//!
//! It promises that each record that is told counts once, that whenever its lock is got its trail is legal and each stream has
//! its closing record alone left to raise, or nothing; and that what is written is the line of each connection that was made and
//! of each that was left, in order, each with the cause that it shows. A run that is done took Stop with all its streams ended.
//! Where its streams have windows, each value is, whenever the lock is got, what the windows hold of the object together: the ticks in
//! them, the ones that run, and what is still to be taken back, of which nothing is left behind the end of a tick. Where a line says
//! that so many ticks of a stream had ended at a place, they had there, and nothing of the next was told.
//! Nothing is promised of time, of turns between threads, or that it returns.
//! It stands on tk_port, on tk_compact, behind whose bases it begins anew, on tk_stream, whose records it counts, and on tk_recent,
//! which keeps the ticks of a stream.
#![tactic(auto)]

mod attended;
mod attending;
mod cause;
mod cell;
mod delivered;
mod ended;
mod fault;
mod feeding;
mod gathered;
mod laws;
mod lines;
mod look;
mod monitoring;
mod passing;
mod pausing;
mod plan;
mod reaching;
mod room;
mod saying;
mod standing;
mod tally;
mod tick_end;
mod tick_ends;
mod timing;
mod told;
mod turned;
mod untold;
mod verdict;
mod watch;
mod windows;
mod wish;

pub use attended::Attended;
pub use cause::Cause;
pub use cell::{WatchCell, WatchName, Watched};
pub use ended::{Ended, Given, read_next};
pub use fault::{FeedFault, FeedKind};
pub use laws::windows_hold_the_last_ticks;
pub use monitoring::monitor;
pub use plan::{Plan, Window};
pub use tick_ends::TickEnds;
pub use told::Told;
pub use turned::Turned;
pub use untold::Untold;
pub use verdict::Verdict;
pub use watch::Watch;
pub use windows::Windows;
