//! What keeps ends from being joined.

ghost use Rattle.std.specs.Prelude.{◌≡◌};
ghost use Rattle.tk_story.specs.declared.ends.join_fault.JoinFault.TheVariants.{NoMemory as Memory};

use crate::ends::difference::Difference;
use tk_base::NoMemory;

/// Why ends make no story.
#[derive(Debug, Drop, PartialEq)]
pub enum JoinFault {
    /// What was received on a link is not what was sent.
    Differs(Difference),
    NoMemory,
}

impl From<NoMemory> for JoinFault {
    ghost from_gives = { λ _ e. e ≡ Memory };

    fn from(_error: NoMemory) -> JoinFault {
        JoinFault::NoMemory
    }
}
