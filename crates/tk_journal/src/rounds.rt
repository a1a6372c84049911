// The numbers of rounds, what is reported to one that ends, and what it leaves. Each function is there for its clause alone.
ghost use Rattle.std.specs.Prelude.{ℕ, List, []};
ghost use Rattle.tk_base.specs.Ascending.{IsAscending};
ghost use Rattle.tk_base.specs.History.{EachFrom};
ghost use Rattle.tk_journal.specs.Laws.{IsSetUp};
ghost use Rattle.tk_journal.specs.Legal.{IsLegal, Opening};
ghost use Rattle.tk_journal.specs.RoundEnds.{NamesItsRound, rounds_to};
ghost use Rattle.tk_journal.specs.declared.noted.Noted.{Noted};
ghost use Rattle.tk_journal.specs.RoundLaws.{EachMonitorHasReported, FullEndLeavesOrder, LoneTurnLeavesOrder, ShortTurnLeavesCalm, ShortTurnLeavesOrder, WideEndLeavesOrder};

/// The numbers of the Collects to each monitor rise.
pub fn collects_rise()
    ensures { (o : Opening) (j : List Noted) (mon : ℕ) → IsSetUp o → IsLegal o j → IsAscending (rounds_to mon j) }
{}

/// Rounds are numbered as they are opened: a Collect names how many there were, its own included.
pub fn rounds_are_numbered()
    ensures { (o : Opening) (j : List Noted) → IsSetUp o → IsLegal o j → EachFrom (NamesItsRound o.settings) [] j }
{}

/// Where a round ends each monitor has reported over its objects, all of them where it is wide.
pub fn each_monitor_has_reported()
    ensures { EachMonitorHasReported }
{}

/// The end of a wide round leaves no object above a member at any monitor, at the values that it reported.
pub fn a_wide_end_leaves_order()
    ensures { WideEndLeavesOrder }
{}

/// The end of a full round leaves none of its objects above a member at any monitor, at the values that it reported.
/// With one monitor the round ends in the turn that opens it.
pub fn a_full_end_leaves_order()
    ensures several { FullEndLeavesOrder }
    ensures one { LoneTurnLeavesOrder }
{}

/// A short round leaves none of its objects above a member at the reporter, at the values that it reported; and where
/// these are its values nothing at all is broken there.
pub fn a_short_turn_leaves_order()
    ensures order { ShortTurnLeavesOrder }
    ensures calm { ShortTurnLeavesCalm }
{}
