//! What no clause says, and each call once.

mod buffers;
mod wires;
