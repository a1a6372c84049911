//! Windows over streams that grow without end: what a tick counted is taken back once the tick leaves the window.
//!
//! It promises that where a stream's records are told as they come, and at each end of a tick what is taken back there, what
//! was told sums to the window of tk_window at the end of each tick, for every object. One change an object is kept of each tick
//! in the window, whatever its records, and one number an object of the tick that runs. It stands on tk_window, which says what a
//! window sums, and on tk_compact, which makes changes of sums. It reads no stream and tells nothing itself.
#![tactic(auto)]

mod laws;
mod metronome;
mod opposite;
mod recent;
mod sum;

pub use laws::{
    sums_are_those_of_the_expanded_log, ticks_are_told_in_order, values_are_those_of_the_window,
};
pub use metronome::Metronome;
pub use recent::Recent;
pub use sum::TooGreat;
