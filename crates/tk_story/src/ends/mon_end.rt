//! What a monitor brings to the joining of a run's ends.

ghost use Rattle.std.specs.Prelude.{◌≡◌};
ghost use Rattle.std.specs.Option.{ForSome};
ghost use Rattle.tk_story.specs.Odd.{IsOddDown};

use crate::ends::received::Received;
use tk_monitor::Monitor;

/// A monitor once its link is done with, and what it received next and did not take, if there is something.
#[derive(Drop)]
pub struct MonEnd {
    pub monitor: Monitor,
    pub odd: Option<Received>,
    /// What is odd is a frame that the monitor refuses for another cause than memory, or no frame.
    pub ghost not_taken: { ∥ ForSome odd (IsOddDown monitor.setup monitor.trail) ∥₁ },
}

impl MonEnd {
    /// A monitor, and what it received next and did not take.
    pub fn new(monitor: Monitor, odd: Option<Received>) -> MonEnd
        requires { ForSome odd (IsOddDown monitor.setup monitor.trail) }
        ensures monitor { result.monitor ≡ monitor }
        ensures odd { result.odd ≡ odd }
    {
        MonEnd { monitor, odd }
    }
}
