//! What a monitor last said: its current answer, and how far it is.

ghost use Rattle.std.specs.Prelude.{◌≡◌, IfOk};
ghost use Rattle.tk_journal.specs.Readings.{Progress as ProgressView};

use std::marker::Model;
use tk_base::{NoMemory, Places};

/// A monitor's last fresh Report or Settled since the last Assign to it.
#[derive(Clone, Copy, Debug, PartialEq, Eq)]
pub enum Answer {
    Report,
    Settled,
}

/// How far a monitor said that it is, in its last fresh Settled.
#[derive(Debug, Drop)]
pub struct Progress {
    pub places: Places,
    /// Whether all its parts are at their ends.
    pub last: bool,
}

impl Model for Progress {
    ghost use Rattle.tk_journal.specs.Readings.{Progress as ProgressView};

    ghost Value = { ProgressView };

    ghost view = { λ p. record { places = p.places; last = p.last } };
}

impl Progress {
    /// What a Settled tells, copied.
    pub fn of(places: &Places, last: bool) -> Result<Progress, NoMemory>
        ensures { IfOk result (λ p. p ≡ record { places = places.now; last = last }) }
    {
        Ok(Progress {
            places: places.try_clone()?,
            last,
        })
    }
}
