//! Logs in ticks, and sliding windows over them.
//!
//! A record of the single field `tick` ends a tick. A window of some width sums the last so many ticks. It promises that
//! the ticks are what the bytes mean, and that the expanded log, which takes back what leaves the window, sums to the
//! window at the end of each tick, for every object. Whoever runs the expanded logs so watches the window: nothing above
//! knows of ticks but for the line that is printed of them. It stands on tk_input.
#![tactic(auto)]

mod expanded;
mod expanding;
mod fault;
mod laws;
mod tick_ends;
mod ticked;

pub use expanded::{Expanded, tick_at};
pub use expanding::expand;
pub use fault::ExpandFault;
pub use laws::{a_valid_set_is_valid_for_the_windows, totals_are_those_of_the_windows};
pub use tick_ends::TickEnds;
pub use ticked::{Ticked, is_mark};
