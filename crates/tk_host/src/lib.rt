//! The coordinator as a process of its own: sessions one behind the other over a door that listens, and what is told of them.
//!
//! It promises that what was written is the text of sessions, each with a legal journal from the start of the settings, that
//! each set is told with its cut moved by the origins of those that had joined, and that each end has its cause. It stands
//! on the hub and on the hosts of tk_wire; what holds across processes are the laws of tk_apart.
#![tactic(auto)]

mod cause;
mod contact;
mod coordinated;
mod coordinating;
mod holding;
mod hosting;
mod knock;
mod lines;
mod lingering;
mod no_sink;
mod over;
mod putting;
mod reach;
mod roster;
mod seat;
mod session;
mod stand_in;
mod tally;
mod waiting;

pub use coordinated::Coordinated;
pub use coordinating::coordinate;
pub use no_sink::NoSink;
