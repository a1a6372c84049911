//! Frames between a coordinator and its monitors as bytes, in memory.
//!
//! It promises that a frame which is carried over a line is taken whole and unchanged, and that no other is, in whatever
//! pieces its bytes go; want of memory leaves coordinator and monitor as they were. So a world runs over `Wired` as over
//! nodes that hand their frames over, and tells its story. It stands on the port, the hub and the drive.
#![tactic(auto)]

mod downward;
mod greeting;
mod line;
mod telling;
mod upward;
mod walked;
mod wired;
mod world;

pub use line::Line;
pub use telling::byte_story;
pub use wired::Wired;
