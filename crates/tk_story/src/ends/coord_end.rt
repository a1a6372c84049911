//! What the coordinator brings to the joining of a run's ends.

ghost use Rattle.std.specs.Prelude.{◌≡◌};
ghost use Rattle.std.specs.Option.{ForSome};
ghost use Rattle.tk_story.specs.Odd.{IsOddUp};

use crate::ends::received::Received;
use tk_base::Mon;
use tk_coord::Coordinator;

/// The coordinator once its links are done with, and what it received next of some monitor and did not take, if
/// there is something.
#[derive(Drop)]
pub struct CoordEnd {
    pub coordinator: Coordinator,
    pub odd: Option<(Mon, Received)>,
    /// What is odd is of one of its monitors, and a frame that it refuses for another cause than memory, or no frame.
    pub ghost not_taken: { ∥ ForSome odd (IsOddUp coordinator.settings coordinator.journal) ∥₁ },
}

impl CoordEnd {
    /// A coordinator, and what it received next of a monitor and did not take.
    pub fn new(coordinator: Coordinator, odd: Option<(Mon, Received)>) -> CoordEnd
        requires { ForSome odd (IsOddUp coordinator.settings coordinator.journal) }
        ensures coordinator { result.coordinator ≡ coordinator }
        ensures odd { result.odd ≡ odd }
    {
        CoordEnd { coordinator, odd }
    }
}
