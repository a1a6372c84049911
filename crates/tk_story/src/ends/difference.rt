//! Where two ends of a link do not agree.

use crate::ends::received::Received;
use tk_base::Mon;
use tk_frames::Frame;

/// Which of the two links of a monitor.
#[derive(Clone, Copy, Debug, PartialEq, Eq)]
pub enum Direction {
    /// From the monitor to the coordinator.
    UpLink,
    /// From the coordinator to the monitor.
    DownLink,
}

/// At this place from 0 of a link something else was received than what was sent, or where nothing was.
#[derive(Debug, Drop, PartialEq)]
pub struct Difference {
    pub mon: Mon,
    pub direction: Direction,
    pub place: u64,
    pub sent: Option<Frame>,
    pub received: Received,
}
