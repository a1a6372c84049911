//! The turns of a journal, counted by kind.

ghost use Rattle.std.specs.Prelude.{◌≡◌, ◌+◌, ◌-◌, ◌<◌, ◌^◌, if◌then◌else◌};
ghost use Rattle.tk_journal.specs.Kinds.{counts_of, is_full_kind, is_short_kind, is_stale_kind};
ghost use Rattle.tk_ledger.specs.Counting.{HasRoundRoom};

use tk_journal::{Turn, TurnKind};

/// How many short rounds, full rounds, openings of wide rounds and stale frames there are.
#[derive(Clone, Copy, Debug, Default)]
pub struct Rounds {
    pub short: u64,
    pub full: u64,
    pub wide: u64,
    pub stale: u64,
}

fn count_turn(rounds: &mut Rounds, turn: &Turn)
    requires { HasRoundRoom rounds.old }
    ensures short { rounds.new.short ≡ rounds.old.short + (if is_short_kind turn.now.kind then 1 else 0) }
    ensures full { rounds.new.full ≡ rounds.old.full + (if is_full_kind turn.now.kind then 1 else 0) }
    ensures wide { rounds.new.wide ≡ rounds.old.wide + (if turn.now.widens then 1 else 0) }
    ensures stale { rounds.new.stale ≡ rounds.old.stale + (if is_stale_kind turn.now.kind then 1 else 0) }
{
    match turn.kind {
        TurnKind::Short => rounds.short += 1,
        TurnKind::Full => rounds.full += 1,
        TurnKind::Stale => rounds.stale += 1,
        TurnKind::Tune | TurnKind::Note | TurnKind::Wide | TurnKind::End => {}
    }
    if turn.widens {
        rounds.wide += 1;
    }
}

/// Counts turns by kind, and the openings of wide rounds.
pub fn count_turns(turns: &[Turn]) -> Rounds
    ensures short { result.short ≡ (counts_of turns.now).short }
    ensures full { result.full ≡ (counts_of turns.now).full }
    ensures wide { result.wide ≡ (counts_of turns.now).wide }
    ensures stale { result.stale ≡ (counts_of turns.now).stale }
{
    let mut rounds = Rounds::default();
    for turn in turns {
        count_turn(&mut rounds, turn);
    }
    rounds
}
