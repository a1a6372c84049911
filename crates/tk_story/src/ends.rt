//! The ends of a run's links as each node kept them, and what two of them can differ in.

pub mod bytes;
pub mod comparing;
pub mod coord_end;
pub mod difference;
pub mod join_fault;
pub mod mon_end;
pub mod received;

use coord_end::CoordEnd;
use mon_end::MonEnd;

/// The coordinator and the monitors, 1 to m.
#[derive(Drop)]
pub struct Ends {
    pub coordinator: CoordEnd,
    pub monitors: Vec<MonEnd>,
}
