//! The ledger of a story: its frames, rounds and bytes, counted.

ghost use Rattle.std.specs.Prelude.{◌≡◌, IfOk};
ghost use Rattle.tk_ledger.specs.Ledger.{ledger_of};

use crate::counts::PerMonitor;
use crate::frames::count_frames;
use crate::rounds::count_turns;
use std::alloc::Global;
use tk_base::NoMemory;
use tk_story::Story;

/// What a journal holds, counted.
#[derive(Debug, Drop)]
pub struct Ledger {
    /// The frames of each monitor, in both directions, monitors ascending.
    pub per: PerMonitor,
    /// Short rounds that ended in an Assign.
    pub short: u64,
    /// Full rounds opened.
    pub full: u64,
    /// Wide rounds opened.
    pub wide: u64,
    /// Stale frames taken.
    pub stale: u64,
    /// The whole lengths of all frames, in version 1.
    pub bytes: u128,
}

impl Ledger {
    /// Counts a story's journal and its turns, in one pass over each.
    #[tactic(auto, unfolding(crate::specs::Ledger::ledger_of))]
    pub fn of(alloc: Global, story: &Story) -> Result<Ledger, NoMemory>
        ensures { IfOk result (λ ledger. ledger ≡ ledger_of story.now.story.settings story.now.story.journal) }
    {
        let monitors = story.settings().monitors() as usize;
        let (per, bytes) = count_frames(alloc, monitors, story.journal())?;
        let rounds = count_turns(story.turns());
        Ok(Ledger {
            per,
            short: rounds.short,
            full: rounds.full,
            wide: rounds.wide,
            stale: rounds.stale,
            bytes,
        })
    }
}
