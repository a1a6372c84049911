//! What a live run is concluded from: how its loop and its workers ended, and their ends.

use crate::parting::Parting;
use tk_serve::Why;
use tk_story::Ends;

/// What is left once all workers have ended and all links are back.
#[derive(Drop)]
pub struct Left {
    pub parting: Parting,
    pub why: Why,
    pub ends: Ends,
}
