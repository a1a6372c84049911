//! A turn of a session's hub, and what follows from its answer.

ghost use Rattle.std.specs.Prelude.{◌≡◌, ◌≤◌, IfErr, OnOk, length};
ghost use Rattle.tk_hub.specs.Turn.{course_of};
ghost use Rattle.tk_hub.specs.declared.course.Course.TheVariants.{Open};

use crate::cause::Cause;
use crate::no_sink::NoSink;
use crate::over::Over;
use crate::session::Session;
use tk_hub::HubTurn;
use tk_input::Catalog;
use tk_wire::Wire;

impl<W: Wire + Drop> Session<W> {
    ghost use Rattle.tk_host.specs.Going.{EndsTurn, IsGoing, IsLink, IsOfTurn, IsStanding, Leaves, Turns};
    ghost use Rattle.tk_host.specs.Room.{HasRoom};

    /// A turn of the hub, whose own lines are dropped.
    pub fn turn(&mut self, names: &Catalog) -> HubTurn
        requires going { IsGoing self.old }
        requires room { HasRoom self.old.hub.coordinator.journal }
        requires named { self.old.hub.coordinator.settings.objects ≤ length names.now }
        ensures { Turns result self.old self.new }
    {
        self.hub.turn(names, &mut NoSink)
    }

    /// The monitor whose link failed or ended.
    fn lost(&self) -> Cause
        requires standing { IsStanding self.now }
        requires failed { self.now.hub.course ≡ course_of HubTurn.Failed }
        ensures { IsLink result }
    {
        match self.hub.lost() {
            Some(mon) => Cause::Link(mon),
            None => unreachable!(),
        }
    }

    /// Whether the session goes on after a turn, of which all is told.
    pub fn after(&self, turn: HubTurn) -> Result<(), Over>
        requires { EndsTurn turn self.now }
        ensures going { OnOk result (self.now.hub.course ≡ Open) }
        ensures leaves { IfErr result (Leaves self.now) }
        ensures turned { IfErr result IsOfTurn }
    {
        match turn {
            HubTurn::Quiet => Ok(()),
            HubTurn::More => Ok(()),
            HubTurn::Finished => Err(Over::Finished),
            HubTurn::Failed => Err(Over::Ended(self.lost())),
            HubTurn::Refused(mon, _) => Err(Over::Ended(Cause::Refused(mon))),
            HubTurn::Bad(mon, _) => Err(Over::Ended(Cause::Bad(mon))),
            HubTurn::WriteFailed => unreachable!(),
            HubTurn::NoMemory => Err(Over::Ended(Cause::Memory)),
        }
    }
}
