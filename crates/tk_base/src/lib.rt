//! The words that every other crate speaks: ids, sets, pairs, places, cuts and settings.
//!
//! It promises that a set and a list of pairs ascend strictly, that settings are within the limits of
//! this system, and that a clone equals what it was made of. It stands on nothing.
//! Only the four `try_clone`, the clone of `Places` and a `PairsBuilder` answer want of memory; `Pairs::new` takes some for its small
//! form, and does without.
#![tactic(auto)]

mod cut;
mod digits;
mod ids;
mod memory;
mod narrow_pair;
mod numbered;
mod obj_set;
mod pairs;
mod places;
mod settings;

pub use cut::Cut;
pub use digits::{digits_of, short_of};
pub use ids::{Feeder, Mon, Obj};
pub use memory::NoMemory;
pub use narrow_pair::NarrowPair;
pub use numbered::NotAscending;
pub use obj_set::ObjSet;
pub use pairs::{Pairs, PairsBuilder};
pub use places::Places;
pub use settings::{SettingFault, Settings};
