//! A retune that is asked of a hub.

ghost use Rattle.std.specs.Prelude.{◌≡◌, None, IfErr, OnOk};
ghost use Rattle.tk_coord.specs.Coordinator.{IsRefusal};
ghost use Rattle.tk_journal.specs.declared.refusal.RetuneRefusal.TheVariants.{NoMemory as NoRoomToTune};
ghost use Rattle.tk_hub.specs.Desk.{refuses_to_tune, tuned};
ghost use Rattle.tk_hub.specs.Hub.{IsHub};
ghost use Rattle.tk_hub.specs.declared.course.Course.{Course};

use crate::hub::Hub;
use tk_coord::RetuneRefusal;
use tk_wire::Wire;

impl<W: Wire + Drop> Hub<W> {
    /// Takes another k and epsilon, as the retune of the coordinator. The Collects that it sends are said from then on.
    /// Costs the objects times the monitors, which those Collects name.
    pub fn retune(&mut self, k: u64, epsilon: u128) -> Result<(), RetuneRefusal>
        requires { self.old.course ≡ Course.Open }
        ensures ok { OnOk result (refuses_to_tune self.old.coordinator k epsilon ≡ None) }
        ensures turn { OnOk result (self.new.coordinator.journal ≡ tuned self.old.coordinator k epsilon) }
        ensures refused { IfErr result (IsRefusal NoRoomToTune (refuses_to_tune self.old.coordinator k epsilon)) }
        ensures err { IfErr result (λ _. self.new ≡ self.old) }
        ensures settings { self.new.coordinator.settings ≡ self.old.coordinator.settings }
        ensures rest { self.new ≡ record self.old { coordinator = self.new.coordinator } }
        ensures kept { IsHub self.new }
    {
        self.seats.retune(k, epsilon)
    }
}
