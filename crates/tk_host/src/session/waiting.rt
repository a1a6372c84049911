//! For whom a session waits.

ghost use Rattle.std.specs.Prelude.{◌≡◌, ◌<◌, ◌≤◌, IfErr, IfSome, None, OnOk, false, true};
ghost use Rattle.tk_base.specs.Settings.{IsWithinLimits};
ghost use Rattle.tk_journal.specs.Readings.{is_stopped};

use crate::cause::Cause;
use crate::over::Over;
use crate::session::Session;
use tk_base::{Mon, Settings};
use tk_wire::Wire;

impl<W: Wire + Drop> Session<W> {
    ghost use Rattle.tk_host.specs.Going.{IsOfTurn, Leaves};
    ghost use Rattle.tk_host.specs.Seats.{has_stand_in};

    /// After how many seconds a stand-in takes a seat, if ever.
    pub fn missing(&self) -> Option<u64>
        ensures { result ≡ self.now.missing }
    {
        self.missing
    }

    /// The settings.
    pub fn settings(&self) -> &Settings
        ensures { IsWithinLimits result.now }
    {
        let settings = self.hub.coordinator().settings();
        // A count is read for its clause, that they are within limits.
        let _ = settings.monitors();
        settings
    }

    /// The number of the run. No clause says so.
    pub fn run(&self) -> u64 {
        self.run
    }

    /// Whether each monitor has a seat. No clause says so.
    pub fn is_complete(&self) -> bool {
        self.roster.len() >= self.hub.coordinator().settings().monitors() as usize
    }

    /// The least monitor without a seat, where a stand-in may take it.
    pub fn absent(&self) -> Option<Mon>
        ensures mon { IfSome result (λ mon. (0 < mon.0) × (mon.0 ≤ 64)) }
        ensures missing { IfSome result (λ mon. self.now.missing ≡ None → ⊥) }
    {
        if self.missing.is_none() {
            return None;
        }
        self.roster.absent(self.settings().monitors())
    }

    /// Ends a session whose journal has come to its end while a stand-in sits there: the set at the end is not told.
    pub fn end_early(&self) -> Result<(), Over>
        ensures ok { OnOk result (is_stopped self.now.hub.coordinator.journal ≡ true → has_stand_in self.now.roster ≡ false) }
        ensures leaves { IfErr result (Leaves self.now) }
        ensures turned { IfErr result IsOfTurn }
    {
        if self.hub.coordinator().finished() {
            if let Some(mon) = self.roster.missing() {
                return Err(Over::Ended(Cause::Early(mon)));
            }
        }
        Ok(())
    }

    /// Whether a stand-in sits there and the journal has grown since it was weighed, so that the stand-in may have an answer
    /// of which no host tells. No clause says so.
    pub fn is_answered(&self) -> bool {
        self.hub.coordinator().journal().len() > self.tally.entries
            && self.roster.missing().is_some()
    }
}
