//! The words of the program: which command they ask for, and with which values.
//!
//! It promises that words are refused exactly where the first names no command, where clap refuses the rest,
//! or where a value is not in its form. It is the only crate that calls clap. It reads no file.
//! A new command has a file of its own, a variant of `Command` and of `Verb`, and an arm in `rules` and in `asked`.
#![tactic(auto)]

mod carriage;
mod check;
mod command;
mod coordinate;
mod fault;
mod forms;
mod generate;
mod help;
mod live;
mod manual;
mod multi;
mod options;
mod parsing;
mod recent;
mod replay;
mod rules;
mod sessions;
mod sources;
mod verb;
mod watched;
mod window;

pub use carriage::Carriage;
pub use command::{Command, read};
pub use coordinate::Coordinate;
pub use fault::WordsFault;
pub use generate::Generate;
pub use live::Live;
pub use manual::{manual_of, version_line};
pub use multi::Multi;
pub use recent::Recent;
pub use replay::Replay;
pub use sources::Sources;
pub use verb::{Verb, verb_of};
pub use watched::Watched;
