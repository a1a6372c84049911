//! Logs whose fronts are replaced by fewer changes of the same sums, and monitors that begin anew behind these.
//!
//! It promises that what stands for a log has its values at every later place; that the values of a monitor, as changes,
//! stand for what it reached; that a monitor which begins anew behind them is within its limits, with its open streams open
//! and its closed ones closed; and that a record which is told to an open stream counts once. It stands on tk_base, tk_input,
//! tk_trail and tk_monitor.
#![tactic(auto)]

mod anew;
mod laws;

pub use anew::{begin_anew, size_of_values};
pub use laws::{
    a_base_stands_for_what_was_reached, a_compacted_log_has_the_sums,
    a_grown_setup_is_within_the_limits, a_monitor_begins_anew_as_it_was,
    a_monitor_begins_anew_within_its_limits, a_moved_place_is_origin_and_place,
    bases_stand_for_the_true_logs, valid_moves_over, values_are_those_of_the_log,
    what_is_told_counts_once,
};
