//! What makes the ends of a net once the words are read that say which.

ghost use Rattle.std.specs.Prelude.{◌≡◌, false, IfOk};

use tk_base::NoMemory;
use tk_wire::{Dialer, Host, NetFault};

/// Makes the host of a coordinator.
pub trait Hosts {
    type Host: Host + Drop;

    /// A host of a run with so many monitors, which has opened nothing yet. A greeting may take so many seconds, and a link may
    /// be silent for as long.
    fn host(&mut self, run: u64, monitors: u32, silence: u64) -> Result<Self::Host, NetFault>
        ensures closed { IfOk result (λ host. (Self.Host.state host).listens ≡ false) }
        ensures run { IfOk result (λ host. Self.Host.run host ≡ run) }
        ensures monitors { IfOk result (λ host. Self.Host.monitors host ≡ monitors) };
}

/// Makes the dialer of a monitor.
pub trait Dialers {
    type Dialer: Dialer + Drop;

    /// A dialer of HOST:PORT, whose links may be silent for so many seconds. No clause says which host answers.
    fn dialer(&mut self, at: &str, silence: u64) -> Result<Self::Dialer, NoMemory>;
}
