//! Streams of bytes that need not end, and the changes that their lines are.
//!
//! It promises that what comes of a stream that tells its bytes is the first record of the lines that are left, or the first
//! fault in them with the number of its line; and that of any stream each change is of an object of the catalogue.
//! It stands on tk_base, tk_input and tk_window, which says what ends a tick. A reader keeps at most one line, in 64 KiB. That a read ever returns is not promised.
#![tactic(auto)]

mod front;
mod item;
mod line;
mod line_buffer;
mod line_fault;
mod map_source;
mod map_streams;
mod number;
mod plain;
mod records;
mod source;
mod streams;
mod taking;
mod tick;
mod true_source;
mod true_streams;

pub use item::Item;
pub use line::record_of;
pub use line_fault::LineFault;
pub use map_source::MapSource;
pub use map_streams::MapStreams;
pub use records::{Records, StreamFault};
pub use source::{ReadFailed, Source};
pub use streams::{OpenFault, Streams};
pub use true_source::TrueSource;
pub use true_streams::TrueStreams;
