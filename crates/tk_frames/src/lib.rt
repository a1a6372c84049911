//! The frames that coordinator and monitors send to each other, as values and as bytes in two versions.
//!
//! It promises that `encode` writes the one spelling of a frame or leaves the bytes as they were, and that
//! `next` answers exactly what stands at the front of some bytes: a frame, a part of one, or neither.
//! `laws` has what follows for every frame. It stands on tk_base.
#![tactic(auto)]

mod answer;
mod decoder;
mod encoder;
mod fault;
mod frame;
mod kept;
mod kind;
mod laws;
mod reading;
mod writing;

pub use answer::{BadFrame, Next};
pub use decoder::next;
pub use encoder::encode;
pub use fault::EncodeFault;
pub use frame::Frame;
pub use kept::KeptFrame;
pub use kind::Kind;
pub use laws::{
    each_frame_has_one_spelling, no_spelling_begins_another, short_frames_fit, sizes_in_version_1,
    what_was_encoded_is_read_again,
};
