//! Whether a session has room for a turn.

ghost use Rattle.std.specs.Prelude.{◌≡◌, IfErr, OnOk};

use crate::cause::Cause;
use crate::over::Over;
use crate::session::Session;
use tk_wire::Wire;

impl<W: Wire + Drop> Session<W> {
    ghost use Rattle.tk_host.specs.Going.{IsGoing, IsOfTurn, Steps};
    ghost use Rattle.tk_host.specs.Room.{HasRoom};

    /// Counts what is new in the journal. Where its frames have too many bytes together the session ends.
    pub fn weigh(&mut self) -> Result<(), Over>
        requires { IsGoing self.old }
        ensures steps { Steps result self.old self.new }
        ensures room { OnOk result (HasRoom self.new.hub.coordinator.journal) }
        ensures weighed { IfErr result IsOfTurn }
        ensures hub { self.new.hub ≡ self.old.hub }
        ensures roster { self.new.roster ≡ self.old.roster }
        ensures told { self.new.told ≡ self.old.told }
    {
        if self.tally.weigh(self.hub.coordinator().journal()) {
            return Ok(());
        }
        Err(Over::Ended(Cause::Full))
    }
}
