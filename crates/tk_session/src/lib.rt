//! Restarts of the coordinator: sessions, each from where the monitors stood when the one before it ended.
//!
//! It promises that an order with restarts is read as its bytes mean; that a restart loses the coordinator and all that is
//! under way, and no place of a monitor; and that what is told of an order is a chain of legal stories, one for each stretch
//! between its restarts, the last of them driven to its end. So each law of stories holds of each session. It stands on the
//! world and its drive.
#![tactic(auto)]

mod laws;
mod playing;
mod session_line;
mod session_order;
mod sessions;

pub use laws::{
    a_beginning_is_a_session, a_chain_keeps_its_stretches, a_session_goes_on,
    a_story_ends_at_a_cut, each_session_is_legal, no_place_falls, one_story_for_each_stretch,
};
pub use playing::tell;
pub use session_line::SessionLine;
pub use session_order::SessionOrder;
pub use sessions::Sessions;
