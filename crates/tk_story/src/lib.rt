//! Histories joined: the logs, the settings, the journal and one trail per monitor, with ordered links between them.
//!
//! It promises the laws that the product exists for, over finished stories alone, whatever machine made them: where
//! nothing is under way and nothing is broken the members are valid, every published set is valid at its own cut, and
//! no frame of a story is refused. Ends of a run are joined to the story that they tell, or the first difference between
//! what was sent and what was received is told.
#![tactic(auto)]

mod ends;
mod headline;
mod joined;
mod kept;
mod resting;
mod same;
mod story;
mod validity;

pub use ends::Ends;
pub use ends::bytes::Bytes;
pub use ends::coord_end::CoordEnd;
pub use ends::difference::{Difference, Direction};
pub use ends::join_fault::JoinFault;
pub use ends::mon_end::MonEnd;
pub use ends::received::Received;
pub use headline::{a_finished_run_is_sound, a_story_is_sound_so_far};
pub use joined::{
    at_most_one_behind, links_hold_over_any_opening, the_next_frame_down_is_taken,
    the_next_frame_up_is_taken,
};
pub use kept::{a_journal_begins_with_its_opening, ends_agree_or_differ, what_is_odd_was_not_sent};
pub use resting::{still_at_the_ends_is_over, still_at_the_ends_is_stopped, still_is_quiet};
pub use same::{is_same_entry, is_same_noted};
pub use story::Story;
pub use validity::{
    a_moment_is_a_story, empty_links_leave_no_round_open, published_is_valid, quiet_is_valid,
    the_last_one_is_at_the_full_cut,
};
