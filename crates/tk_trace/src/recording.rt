//! What the reader of a trace gives, before its histories are checked.

use tk_base::Settings;
use tk_input::{Catalog, Logs};
use tk_journal::Noted;
use tk_trail::Entry;

/// A run as a trace holds it, of which nothing is trusted but that it is within the rules: whether the histories are
/// legal and meet is for a checker to say.
#[derive(Drop)]
pub struct Recording {
    pub names: Catalog,
    pub settings: Settings,
    pub logs: Logs,
    pub journal: Vec<Noted>,
    /// One for each monitor, in their order.
    pub trails: Vec<Vec<Entry>>,
}
