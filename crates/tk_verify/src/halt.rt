//! What can stop a node that is driven over its record.

ghost use Rattle.std.specs.Prelude.{◌≡◌};
ghost use Rattle.tk_verify.specs.declared.halt.Halt.TheVariants.{NoMemory as Memory};

use tk_base::NoMemory;

/// Why the driving of a node halts.
#[derive(Clone, Copy, Debug, PartialEq, Eq)]
pub enum Halt {
    /// The record goes on from this place, from 0, as no legal history does.
    NotLegal { place: u64 },
    NoMemory,
}

impl From<NoMemory> for Halt {
    ghost from_gives = { λ _ e. e ≡ Memory };

    fn from(_error: NoMemory) -> Halt {
        Halt::NoMemory
    }
}
