//! The drive of a world: sweeps, settling, and the raises that are left.
//!
//! It promises that a settling ends after few sweeps, wherever it begins, and that it leaves nothing on a link, no round
//! open and nothing broken; and that finishing ends the run, with the last publication at the ends of all logs. It stands
//! on the world. A settling may begin in the midst of rounds, with stale reports under way.
#![tactic(auto)]

mod driven;
mod finishing;
mod leg;
mod parts;
mod settling;
mod sweeps;

pub use driven::{a_drive_is_reached, what_is_reached_runs};
pub use finishing::{drive, finish};
pub use settling::{
    a_settling_at_the_ends_is_over, a_settling_is_short, a_settling_opens_few_rounds,
    each_event_settles, energy_is_bounded, every_story_settles, few_events_of_each,
    where_nothing_moves_all_is_calm,
};
pub use sweeps::{Sweeps, settle, sweep};
