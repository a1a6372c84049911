//! Several queries over the same logs: each watches the objects whose names begin with its prefix.
//!
//! It promises that the queries and the order are what their files mean, or the first fault in them; and that after any
//! list of events each query stands where a world of that query alone stands after the events that it sees of them. A
//! common change is raised for every query that watches its object; all other events are those of one query. Queries
//! share nothing but the common places: whether a change is stored once is not promised. What they come to, each finished
//! by itself, is the drive of what each sees of an order (`tell`). It stands on tk_drain and tk_input.
#![tactic(auto)]

mod alone;
mod event;
mod fault;
mod front;
mod laws;
mod multi;
mod order;
mod playing;
mod queries;
mod query;
mod setting_up;
mod watch;
mod watched;

pub use alone::Alone;
pub use event::MultiEvent;
pub use fault::MultiFault;
pub use laws::{
    a_query_counts_what_the_logs_count, a_watched_object_keeps_its_name, each_query_is_as_alone,
};
pub use multi::Multi;
pub use order::MultiOrder;
pub use playing::{Told, tell};
pub use queries::Queries;
pub use setting_up::each_alone;
pub use watch::Watch;
