//! The coordinator's journal: what it got, what it sent and what it published, in order.
//!
//! It promises what a legal journal is, turn by turn, which refusal comes, and the laws of every legal journal; no
//! machine stands here. It stands on the frames, on reallocation, whose laws it uses, and, for the names on a
//! publication's line, on the catalogue.
#![tactic(auto)]

mod at_the_end;
mod laws;
mod noted;
mod publication;
mod refusal;
mod rounds;
mod sending;
mod turn;
mod turns;

pub use at_the_end::{
    a_told_end_stays_told, an_answer_stands, an_answer_was_got, calm_at_the_ends_is_stopped,
    each_assign_was_heard_of, no_report_stands, nothing_stays_due, publications_never_go_back,
    who_was_not_asked_has_reported,
};
pub use laws::{
    a_full_round_can_be_dealt_with, a_report_can_be_dealt_with, a_start_is_set_up,
    answers_are_fresh, assigns_are_numbered, each_monitor_is_sent_the_members, factors_are_small,
    factors_sum_to_zero, frames_are_short, members_are_k_objects, only_the_final_one_is_last,
    publications_are_due, publications_are_numbered, rounds_are_counted, stop_ends_the_journal,
    the_constraint_is_kept,
};
pub use noted::{KeptEpsilon, KeptPublication, Noted};
pub use publication::{Publication, push_cut};
pub use refusal::{CoordRefusal, RetuneRefusal};
pub use rounds::{
    a_full_end_leaves_order, a_short_turn_leaves_order, a_wide_end_leaves_order, collects_rise,
    each_monitor_has_reported, rounds_are_numbered,
};
pub use sending::{
    an_awaited_monitor_was_last_asked, each_collect_is_answered, every_entry_is_said_well,
    gathered_are_fresh,
};
pub use turn::{Turn, TurnKind};
pub use turns::{each_turn_has_a_shape, the_streak_over_a_turn, turns_stand_whole, turns_tell};
