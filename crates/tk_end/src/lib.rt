//! What both ends of a connection do alike: pull what came, take its frames, write what is to be said and give it.
//!
//! It promises, of any `Actor` that takes frames, that the frames it heard are a front of the parse of what came, that
//! what came and is not taken is kept, that what was given is a front of the bytes of the frames that were said, and
//! that the wire's count of bytes taken covers both. No word of the protocol stands here. It stands on tk_base,
//! tk_frames and tk_wire.
#![tactic(auto)]

mod actor;
mod hearing;
mod inbox;
mod link;
mod taking;

pub use actor::{Actor, Declined};
pub use hearing::{Heard, Step};
pub use link::Link;
