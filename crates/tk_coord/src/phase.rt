//! The k and epsilon in force and those that come next, and whether Stop was sent.

ghost use Rattle.std.specs.Prelude.{◌≡◌, false};

use tk_base::Settings;

/// What holds until the next turn.
#[derive(Clone, Copy, Debug)]
pub struct Phase {
    /// With the k and epsilon in force.
    pub settings: Settings,
    /// With the k and epsilon that are in force from the end of the open round, if one is open.
    pub next: Settings,
    /// Whether Stop was sent.
    pub stopped: bool,
}

impl Phase {
    /// Where a coordinator begins.
    pub fn new(settings: Settings) -> Phase
        ensures { result ≡ record { settings = settings; next = settings; stopped = false } }
    {
        Phase {
            settings,
            next: settings,
            stopped: false,
        }
    }

    /// After the last Values to the open round.
    pub fn closed(self) -> Phase
        ensures { result ≡ record self { settings = self.next } }
    {
        Phase {
            settings: self.next,
            ..self
        }
    }
}
