//! What a monitor did, as a finished list of entries: what it must have sent, and which lists are legal.
//!
//! It has the definitions and laws of trails alone, and no machine. It promises nothing of memory or
//! time. It stands on tk_base, tk_frames, tk_input and tk_border.
#![tactic(auto)]

mod bounds;
mod entry;
mod growing;
mod laws;
mod refusal;
mod speaking;

pub use bounds::{
    a_report_names_outsiders, borders_are_within_limits, each_entry_is_allowed,
    sent_frames_are_short, settled_places_are_within_limits, taken_changes_are_within_limits,
    values_are_small,
};
pub use entry::Entry;
pub use growing::{
    a_grown_trail_is_legal, legality_looks_at_what_is_reached, the_last_record_stays,
};
pub use laws::{
    a_front_is_legal, a_report_needs_a_broken_constraint, a_stopped_monitor_is_at_rest,
    answers_come_at_once, assigns_are_numbered, frames_carry_the_sequence_of_their_place,
    no_report_within_the_slack, nothing_follows_a_stop, places_stay_within_the_parts,
    readings_never_fall,
};
pub use refusal::MonitorRefusal;
pub use speaking::{
    frames_speak_of_their_places, only_values_follow_until_the_next_assign,
    the_ends_are_the_lengths, two_answers_under_each_number, what_is_not_broken_is_in_order,
    what_is_still_is_said_of_now,
};
