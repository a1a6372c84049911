//! The catalogue, the logs and the order file, and the files and sinks that they come from and go to.
//!
//! It promises that what is read is what the bytes mean, or the first fault in them; that the logs are
//! within the limits of this system; and that values and totals over a cut are the plain sums.
//! It stands on tk_base, and on csv and indexmap. A file is at most 64 MiB.
#![tactic(auto)]

mod catalog;
mod change;
mod changes;
mod edges;
mod event;
mod files;
mod laws;
mod lines;
mod logs;
mod map_files;
mod name_hasher;
mod number;
mod order;
mod part;
mod place;
mod plain;
mod records;
mod retuning;
mod sink;
mod std_sink;
mod tallies;
mod true_files;
mod updates;
mod vec_sink;

pub use catalog::{Catalog, CatalogFault};
pub use change::Change;
pub use changes::Changes;
pub use edges::{put_all, take_all};
pub use event::Event;
pub use files::{FileFault, Files};
pub use laws::a_catalogue_is_of_its_names;
pub use lines::{Lines, split_word};
pub use logs::{Logs, LogsFault};
pub use map_files::MapFiles;
pub use order::{Order, OrderFault, event_of, number_of};
pub use part::{Part, PartFault, next_change};
pub use records::Records;
pub use retuning::Retuning;
pub use sink::{PutFailed, Sink};
pub use std_sink::StdSink;
pub use true_files::TrueFiles;
pub use updates::updates_in;
pub use vec_sink::VecSink;
