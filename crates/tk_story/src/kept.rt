// Ends of a run as they were kept. Each function is there for its clause alone.
ghost use Rattle.std.specs.Prelude.{◌⊎◌, List};
ghost use Rattle.tk_base.specs.History.{IsFront};
ghost use Rattle.tk_journal.specs.Legal.{IsLegal, Opening, opened};
ghost use Rattle.tk_journal.specs.declared.noted.Noted.{Noted};
ghost use Rattle.tk_story.specs.Ends.{AreOrdered, HaveDifference, KeptEnds};
ghost use Rattle.tk_story.specs.KeptLaws.{FirstDifferenceIsOne, OddAtAMonitorDiffers, OddAtTheCoordinatorDiffers};

/// All links of some ends are ordered, or one of them is the first that differs; never both.
pub fn ends_agree_or_differ()
    ensures either { (ends : KeptEnds) → AreOrdered ends ⊎ HaveDifference ends }
    ensures never_both { (ends : KeptEnds) → AreOrdered ends → HaveDifference ends → ⊥ }
{}

/// There is one first difference: two that are told of the same ends are the same.
pub fn one_first_difference()
    ensures { FirstDifferenceIsOne }
{}

/// Where an end of legal histories received what it does not take, some link differs.
pub fn what_is_odd_was_not_sent()
    ensures coordinator { OddAtTheCoordinatorDiffers }
    ensures monitor { OddAtAMonitorDiffers }
{}

/// A legal journal begins with its opening.
pub fn a_journal_begins_with_its_opening()
    ensures { (o : Opening) (j : List Noted) → IsLegal o j → IsFront (opened o) j }
{}
