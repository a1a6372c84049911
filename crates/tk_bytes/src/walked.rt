//! A line beside the counts of the frames that each end took.

use crate::line::Line;

/// A line, and how far its two ways were walked.
#[derive(Drop)]
pub struct Walked {
    pub line: Line,
    /// How many frames of the coordinator the monitor took.
    pub taken: usize,
    /// How many frames of the monitor the coordinator took.
    pub got: usize,
}
