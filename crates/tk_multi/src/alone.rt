//! What is made for one of several queries before it begins.

use crate::watch::Watch;
use tk_base::{Cut, Settings};
use tk_input::{Catalog, Logs};

/// What a query runs over alone. Its objects are numbered anew, by their places in `names`.
#[derive(Drop)]
pub struct Alone {
    /// The objects that it watches.
    pub names: Catalog,
    /// Which of the common objects they are.
    pub watch: Watch,
    pub settings: Settings,
    /// The changes of its objects.
    pub logs: Logs,
    /// The places in front of all changes.
    pub from: Cut,
}
