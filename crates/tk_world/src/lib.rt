//! Every interleaving: one coordinator, its monitors and their links, moved one event at a time.
//!
//! It promises that each event makes one step of one node and is kept in order, that an event which is not enabled
//! changes nothing, and that what happened is a legal story after every event. It does no input or output and starts
//! no thread. It stands on the story and on what the story joins, and runs over any `Nodes`; `Direct` hands frames over.
//! A world that has settled costs nothing: it knows the monitors at which something may happen.
#![tactic(auto)]

mod diary;
mod direct;
mod laws;
mod left;
mod moved;
mod nodes;
mod seat;
mod seats;
mod serializing;
mod work;
mod world;

pub use direct::Direct;
pub use laws::{
    a_beginning_is_a_story, a_run_leaves_a_story, each_event_leaves_a_story,
    each_state_is_a_moment, each_story_has_its_events, one_story,
    where_nothing_moves_the_members_are_valid,
};
pub use moved::Moved;
pub use nodes::Nodes;
pub use seat::{Seat, new_seat};
pub use serializing::serialize;
pub use world::World;
