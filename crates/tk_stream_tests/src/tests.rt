//! What no clause says, and each call once.

mod opening;
mod reading;
mod ticks;
