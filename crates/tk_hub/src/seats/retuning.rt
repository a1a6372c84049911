//! A retune that is handed on to the coordinator behind the seats.

ghost use Rattle.std.specs.Prelude.{◌≡◌, None, IfErr, OnOk};
ghost use Rattle.tk_coord.specs.Coordinator.{IsRefusal};
ghost use Rattle.tk_journal.specs.declared.refusal.RetuneRefusal.TheVariants.{NoMemory as NoRoomToTune};
ghost use Rattle.tk_hub.specs.Desk.{refuses_to_tune, tuned};
ghost use Rattle.tk_hub.specs.Seats.{AreSeats};

use crate::seats::Seats;
use tk_coord::RetuneRefusal;
use tk_wire::Wire;

impl<W: Wire + Drop> Seats<W> {
    /// As the retune of the coordinator.
    pub fn retune(&mut self, k: u64, epsilon: u128) -> Result<(), RetuneRefusal>
        ensures ok { OnOk result (refuses_to_tune self.old.coordinator k epsilon ≡ None) }
        ensures turn { OnOk result (self.new.coordinator.journal ≡ tuned self.old.coordinator k epsilon) }
        ensures refused { IfErr result (IsRefusal NoRoomToTune (refuses_to_tune self.old.coordinator k epsilon)) }
        ensures err { IfErr result (λ _. self.new ≡ self.old) }
        ensures settings { self.new.coordinator.settings ≡ self.old.coordinator.settings }
        ensures rest { self.new ≡ record self.old { coordinator = self.new.coordinator } }
        ensures kept { AreSeats self.new }
    {
        self.desk.coordinator.retune(k, epsilon)
    }
}
