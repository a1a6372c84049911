//! The input of a run: what its words and the files that they name give, or the first rule that refuses them.
//!
//! It promises that an input is exactly what the definition gives to the words and to what each read of a file gave, in
//! the order of work: the objects, the settings, each log, the logs together, the order; that any other answer but want of
//! memory is the first rule that fails there; and that the line on standard error is exactly the text of a status. It stands on
//! tk_input and tk_words. Of a file that does not tell its content, the content is some bytes.
#![tactic(auto)]

mod basis;
mod batch;
mod changes;
mod input;
mod laws;
mod reading;
mod retunes;
mod settings;
mod status;
mod telling;

pub use basis::{Basis, load_basis, read_names};
pub use changes::{logs_from, logs_of, parts_of};
pub use input::{Input, load};
pub use laws::{
    a_valid_set_is_valid_for_its_windows, a_window_goes_over_the_logs,
    an_unreadable_file_is_counted, what_is_told_is_meant,
};
pub use reading::{bad_file, bad_whole, read};
pub use retunes::retune_fault;
pub use settings::{kind_of, settings_by};
pub use status::{InputKind, Status};
pub use telling::{fault_line, push_number};
