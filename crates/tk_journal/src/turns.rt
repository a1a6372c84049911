// Turns stand whole in legal journals, and what they are. Each function is there for its clause alone.
ghost use Rattle.std.specs.Prelude.{◌≡◌, List};
ghost use Rattle.tk_journal.specs.Legal.{IsLegal, Opening};
ghost use Rattle.tk_journal.specs.declared.noted.Noted.{Noted};
ghost use Rattle.tk_journal.specs.Turns.{rounds, streak};
ghost use Rattle.tk_journal.specs.Kinds.{streak_of, turns_of};
ghost use Rattle.tk_journal.specs.TurnLaws.{EachTurnHasAShape, StreakOverATurn, TurnsStandWhole, TurnsTellTheRounds, TurnsTellTheWideCollects};

/// A front of a legal journal that ends before an input is legal, the input is accepted over it, and its turn follows.
pub fn turns_stand_whole()
    ensures { TurnsStandWhole }
{}

/// What follows a frame that is taken is one of the few turns that there are.
pub fn each_turn_has_a_shape()
    ensures { EachTurnHasAShape }
{}

/// How many reports in a row failed the short test, over one more turn.
pub fn the_streak_over_a_turn()
    ensures { StreakOverATurn }
{}

/// The streak is a reading of the turns of a legal journal, and so is the number of rounds: those opened in full and those
/// opened wide.
pub fn turns_tell()
    ensures streak { (o : Opening) (j : List Noted) → IsLegal o j → streak o.settings j ≡ streak_of (turns_of o.settings j) }
    ensures rounds { TurnsTellTheRounds }
    ensures wide { TurnsTellTheWideCollects }
{}
