// Laws of legal trails. Each function is there for its clause alone.
ghost use Rattle.std.specs.Prelude.{◌≡◌, ◌+◌, ◌≤◌, List, [], ◌∷◌, ◌++◌};
ghost use Rattle.tk_frames.specs.declared.frame.Frame.TheVariants as f;
ghost use Rattle.tk_trail.specs.Setup.{MonitorSetup};
ghost use Rattle.tk_trail.specs.Readings.{seq_of};
ghost use Rattle.tk_trail.specs.Legal.{IsLegal};
ghost use Rattle.tk_trail.specs.declared.entry.Entry.{Entry};
ghost use Rattle.tk_trail.specs.declared.entry.Entry.TheVariants.{Took};
ghost use Rattle.tk_trail.specs.Laws.{AnswersComeAtOnce, AssignsAreNumbered, FramesCarryTheSequenceOfTheirPlace, FrontIsLegal, NoReportWithinTheSlackOfAPlace, NoReportWithinTheSlackOfAnAssign, PlacesNeverFall, PlacesStayWithinTheParts, ReportIsTheFirstOfItsAssign, ReportNeedsABrokenConstraint, StoppedIsAtTheEnds, StoppedIsCalm};

/// A front of a legal trail at whose end no answer is owed is legal.
pub fn a_front_is_legal()
    ensures { FrontIsLegal }
{}

/// A frame that carries a sequence number carries that of its place.
pub fn frames_carry_the_sequence_of_their_place()
    ensures { FramesCarryTheSequenceOfTheirPlace }
{}

/// Assigns are taken in the order of their numbers, from 1.
pub fn assigns_are_numbered()
    ensures { AssignsAreNumbered }
{}

/// Nothing follows a taken Stop.
pub fn nothing_follows_a_stop()
    ensures { (setup : MonitorSetup) (before after : List Entry) →
        IsLegal setup (before ++ Took f.Stop ∷ after) → after ≡ [] }
{}

/// Neither the number of Assigns nor a place ever falls.
pub fn readings_never_fall()
    ensures seq { (before after : List Entry) → seq_of before ≤ seq_of (before ++ after) }
    ensures places { PlacesNeverFall }
{}

/// While the sizes of the changes raised since an Assign sum to at most the slack right after it, no
/// Report is sent under its number. The same holds of the slack at any later place.
pub fn no_report_within_the_slack()
    ensures assign { NoReportWithinTheSlackOfAnAssign }
    ensures later { NoReportWithinTheSlackOfAPlace }
{}

/// A Report is sent only where something is broken, and only one after each Assign.
pub fn a_report_needs_a_broken_constraint()
    ensures broken { ReportNeedsABrokenConstraint }
    ensures first { ReportIsTheFirstOfItsAssign }
{}

/// The answer to a taken frame comes directly behind it.
pub fn answers_come_at_once()
    ensures { AnswersComeAtOnce }
{}

/// No place passes the end of its part.
pub fn places_stay_within_the_parts()
    ensures { PlacesStayWithinTheParts }
{}

/// Where Stop was taken, all parts are at their ends and nothing is broken.
pub fn a_stopped_monitor_is_at_rest()
    ensures ends { StoppedIsAtTheEnds }
    ensures calm { StoppedIsCalm }
{}
