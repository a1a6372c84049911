// Another k and epsilon.
ghost use Rattle.std.specs.Prelude.{◌≡◌, not, ◌++◌, pos, IfOk, IfErr, OnOk, Some, None};
ghost use Rattle.tk_journal.specs.Legal.{Opening, IsLegal, turn_of};
ghost use Rattle.tk_journal.specs.Refusal.{retune_refusal_of};
ghost use Rattle.tk_journal.specs.declared.noted.Noted.{Noted};
ghost use Rattle.tk_journal.specs.declared.noted.Noted.TheVariants.{Tuned};
ghost use Rattle.tk_journal.specs.declared.refusal.RetuneRefusal.TheVariants.{NoMemory as NoRoomToTune};
ghost use Rattle.tk_coord.specs.Coordinator.{IsRefusal};
ghost use Rattle.tk_coord.specs.Grounds.{OpensOver};
ghost use Rattle.tk_coord.specs.Steps.{IsRetuned, retuned_to};

use crate::coordinator::Coordinator;
use crate::coordinator::room::make_room;
use crate::outcomes::open_wide;
use crate::phase::Phase;
use crate::step::{TurnOutcome, retune_turn};
use tk_base::{NoMemory, SettingFault, Settings};
use tk_journal::{KeptEpsilon, Noted, RetuneRefusal};

/// The settings with another k and epsilon, unless one of them is past its limit.
fn retuned(settings: &Settings, k: u64, epsilon: u128) -> Result<Settings, RetuneRefusal>
    ensures { result ≡ retuned_to settings.now k epsilon }
{
    let own_weight = settings.own_weight() as u64;
    let objects = settings.objects() as u64;
    match Settings::new(k, epsilon, own_weight, objects, settings.monitors() as u64) {
        Ok(settings) => Ok(settings),
        Err(SettingFault::BadK) => Err(RetuneRefusal::BadK),
        Err(SettingFault::BadEpsilon) => Err(RetuneRefusal::BadEpsilon),
        Err(_) => unreachable!(),
    }
}

impl Coordinator {
    /// A wide round opens.
    fn wide(&self) -> Result<TurnOutcome, NoMemory>
        ensures { IfOk result (OpensOver self.now.settings self.now.journal) }
    {
        let grounds = self.grounds(self.rounds()?);
        open_wide(grounds.alloc, grounds.phase, grounds.rounds)
    }

    /// The settings that a retune brings, or the first test that it does not pass.
    fn tuned(&self, k: u64, epsilon: u128) -> Result<Settings, RetuneRefusal>
        ensures ok { IfOk result (IsRetuned self.now.settings self.now.journal k epsilon) }
        ensures refused { IfErr result (λ e. retune_refusal_of self.now.settings self.now.journal k epsilon ≡ Some e) }
    {
        if self.phase.stopped {
            return Err(RetuneRefusal::AfterStop);
        }
        if self.state.round.waiting {
            return Err(RetuneRefusal::RoundOpen);
        }
        retuned(&self.settings, k, epsilon)
    }

    /// Why a retune to this k and epsilon is refused now, if it is. Takes no memory.
    pub fn retune_refusal(&self, k: u64, epsilon: u128) -> Option<RetuneRefusal>
        ensures { result ≡ retune_refusal_of self.now.settings self.now.journal k epsilon }
    {
        match self.tuned(k, epsilon) {
            Ok(_) => None,
            Err(refusal) => Some(refusal),
        }
    }

    /// Takes another k and epsilon: they are in force from the end of the wide round that opens.
    /// Costs the objects times the monitors, which the Collects of that round name.
    pub fn retune(&mut self, k: u64, epsilon: u128) -> Result<(), RetuneRefusal>
        ensures ok { OnOk result (retune_refusal_of self.old.settings self.old.journal k epsilon ≡ None) }
        ensures turn { OnOk result (self.new.journal
            ≡ self.old.journal ++ turn_of self.old.settings self.old.journal (Tuned k (pos epsilon))) }
        ensures refused { IfErr result (IsRefusal NoRoomToTune (retune_refusal_of self.old.settings self.old.journal k epsilon)) }
        ensures err { IfErr result (λ _. self.new ≡ self.old) }
        ensures settings { self.new.settings ≡ self.old.settings }
        ensures legal { (o : Opening) → o.settings ≡ self.old.settings → IsLegal o self.old.journal → IsLegal o self.new.journal }
    {
        let next = self.tuned(k, epsilon)?;
        let Ok(kept) = KeptEpsilon::new(self.journal.alloc(), next.epsilon()) else {
            return Err(RetuneRefusal::NoMemory);
        };
        let Ok(outcome) = self.wide() else {
            drop(kept);
            return Err(RetuneRefusal::NoMemory);
        };
        let more = outcome.entries.len() + 1;
        let Ok(()) = make_room(&mut self.journal, &mut self.turns, more) else {
            drop(kept);
            drop(outcome);
            return Err(RetuneRefusal::NoMemory);
        };
        let phase = outcome.phase;
        self.journal.push(Noted::Tuned(next.k(), kept));
        self.journal.append(outcome.entries);
        self.state.reply(outcome.reply);
        self.phase = Phase { next, ..phase };
        let calm = self.state.is_calm();
        self.turns.push(retune_turn(calm));
        Ok(())
    }
}
