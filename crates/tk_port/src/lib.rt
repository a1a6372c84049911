//! A monitor at its end of a connection.
//!
//! It promises that its trail stays legal, that, by what the wire tells of its bytes, what it took is a front of the parse
//! of what came, and what went a front of the bytes of Hello and of what it sent, and that each answer of a turn but want of
//! memory has its cause. It stands on the monitor and on tk_end, which does what both ends of a connection do alike; the end
//! that it leaves is one of tk_story.
#![tactic(auto)]

mod course;
mod exchange;
mod port;
mod side;
mod turn;

pub use course::Course;
pub use port::Port;
pub use turn::Turn;
