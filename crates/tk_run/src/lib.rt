//! The runs of the program: what comes of their words, from the first file read to the last line written.
//!
//! It promises that the story of a run that is done is sound: wherever nothing is under way and nothing is broken its
//! members are valid, each set that it published is valid at its own cut, and the last one is over the whole logs; that it
//! is the story of the input that the words and their files give, run by the drive of the order, or of `check` and
//! `show` the one that the file tells; and that what was written is its text. Any other status tells the fault that there is, and what
//! was written then is a front of that text.
#![tactic(auto)]

mod check;
mod constant;
mod generated;
mod headline;
mod multi;
mod outcome;
mod playing;
mod replay;
mod serving;
mod sessions;
mod show;
mod titled;
mod trace;

pub use headline::{
    a_querys_set_holds_over_the_logs, a_set_is_valid_for_its_windows, a_written_trace_is_checked,
    an_input_has_one_story, an_input_is_run, each_printed_set_is_valid, sessions_are_sound,
};
pub use outcome::Outcome;
pub use serving::run;
pub use tk_load::{InputKind, Status, fault_line};
pub use tk_story::{a_finished_run_is_sound, a_story_is_sound_so_far};
