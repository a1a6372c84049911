//! What a story took: its frames, rounds and bytes, counted over its journal, and the printed text.
//!
//! It promises that the ledger is the counts of the journal, and that what is written is the text of the story, line
//! by line, or where a put fails or memory ends a front of it. It stands on the story and on the sinks.
#![tactic(auto)]

mod counts;
mod frames;
mod ledger;
mod printing;
mod rounds;
mod text;

pub use counts::{Counts, PerMonitor};
pub use ledger::Ledger;
pub use printing::{
    PrintFault, print, print_ledger, print_sets, print_summary, print_ticked, put_line,
};
