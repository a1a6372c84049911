//! What the check of a trace gives where nothing is wrong with it.

use tk_input::Catalog;
use tk_story::Story;

/// A trace that was checked: the story of a run to its end, and the names of its objects.
#[derive(Drop)]
pub struct Trace {
    pub names: Catalog,
    /// From places 0, with no events kept.
    pub story: Story,
}
