//! The coordinator at its ends of the connections to the monitors.
//!
//! It promises that its journal stays legal, that at each seat, by what the wire tells of its bytes, what was taken is a
//! front of the parse of what came, that lines are written once and in order, that a stranger is closed and counted, and that
//! each answer of a turn but want of memory has its cause. It stands on the coordinator and on tk_end, which does what both
//! ends of a connection do alike; the text of its lines is that of tk_ledger, and the end that it leaves is one of tk_story.
#![tactic(auto)]

mod course;
mod desk;
mod hub;
mod laws;
mod leaving;
mod lines;
mod lobby;
mod piping;
mod room;
mod seat;
mod seats;
mod visitor;

pub use course::{Course, HubTurn};
pub use hub::Hub;
pub use laws::{
    all_lines_are_written, an_opening_has_no_input, written_lines_add_up, written_lines_stay,
};
pub use lobby::Admitted;
