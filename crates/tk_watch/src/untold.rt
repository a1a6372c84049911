//! Why a record, or the end of a tick, does not count.

ghost use Rattle.std.specs.Prelude.{◌≡◌};
ghost use Rattle.tk_watch.specs.Untold.{untold_by};

use crate::told::Told;
use tk_base::Obj;

/// Why a record, or the end of a tick, does not count.
#[derive(Clone, Copy, Debug, PartialEq, Eq)]
pub enum Untold {
    /// Its stream is closed.
    Closed,
    /// With a change of this object the values would be too great, or the sum of it in the tick that runs.
    TooGreat(Obj),
    NoMemory,
}

/// Why a change of this object does not count that was told so, if it does not.
pub(crate) fn untold_of(told: Told, obj: Obj) -> Option<Untold>
    ensures { result ≡ untold_by told obj }
{
    match told {
        Told::Done { .. } => None,
        Told::Closed => Some(Untold::Closed),
        Told::TooGreat => Some(Untold::TooGreat(obj)),
        Told::NoMemory => Some(Untold::NoMemory),
    }
}
