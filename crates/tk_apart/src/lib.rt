//! Histories of processes that are joined by ordered links, and what holds of them wherever they stand.
//!
//! It promises that what is heard over an ordered stream of bytes is a front of what was said; that legal histories of
//! processes so connected are a story, whether or not any of them has ended; and that each set which was published is valid
//! at its cut, also over the true logs where monitors started behind a base. It stands on the story, on tk_compact and on tk_end,
//! and has laws alone: what sockets are trusted for is the premise of `AreConnected`, that a connection carries bytes in order.
#![tactic(auto)]

mod laws;

pub use laws::{
    a_story_is_sound_so_far, carried_is_a_front, ends_that_tell_are_connected,
    published_is_valid_over_the_true_logs,
};
