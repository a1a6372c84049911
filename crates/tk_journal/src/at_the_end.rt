// What stands at the end of a legal journal. Each function is there for its clause alone.
ghost use Rattle.std.specs.Prelude.{ℕ, false, Some, Contains, ◌≡◌, List};
ghost use Rattle.tk_journal.specs.Legal.{IsLegal, Opening};
ghost use Rattle.tk_journal.specs.Links.{frames_from};
ghost use Rattle.tk_journal.specs.Readings.{answer_of, Progress, is_stopped, progress_of, settled_of};
ghost use Rattle.tk_frames.specs.declared.frame.Frame.{Frame};
ghost use Rattle.tk_journal.specs.Laws.{IsSetUp};
ghost use Rattle.tk_journal.specs.declared.noted.Noted.{Noted};
ghost use Rattle.tk_journal.specs.Publishing.{is_due};
ghost use Rattle.tk_journal.specs.EndLaws.{AnswerStands, CalmAtTheEndsIsStopped, EachAssignWasHeardOf, NoReportStands, PublicationsNeverGoBack, ToldEndStaysTold, WhoWasNotAskedHasReported};

/// Where no round is open, no current answer is a Report.
pub fn no_report_stands()
    ensures { NoReportStands }
{}

/// A Report or Settled that was got under the last number leaves a current answer; a Report stays one.
pub fn an_answer_stands()
    ensures { AnswerStands }
{}

/// A told end stays told, and a current Settled is what was accepted last.
pub fn a_told_end_stays_told()
    ensures told { ToldEndStaysTold }
    ensures current { (mon : ℕ) (j : List Noted) (p : Progress) → settled_of mon j ≡ Some p → progress_of mon j ≡ Some p }
{}

/// Where all is calm and at the ends, Stop was sent.
pub fn calm_at_the_ends_is_stopped()
    ensures { CalmAtTheEndsIsStopped }
{}

/// At the end of a legal journal that is not stopped nothing is due.
pub fn nothing_stays_due()
    ensures { (o : Opening) (j : List Noted) → IsSetUp o → IsLegal o j → is_stopped j ≡ false → is_due o.settings j ≡ false }
{}

/// Cuts never go back.
pub fn publications_never_go_back()
    ensures { PublicationsNeverGoBack }
{}

/// A current answer was got.
pub fn an_answer_was_got()
    ensures { (mon : ℕ) (j : List Noted) (frame : Frame) → answer_of mon j ≡ Some frame → Contains (frames_from mon j) frame }
{}

/// While a round is open, whoever it did not ask stands with a Report.
pub fn who_was_not_asked_has_reported()
    ensures { WhoWasNotAskedHasReported }
{}

/// An Assign past the first to a monitor was sent after a frame of it that speaks of the number before.
pub fn each_assign_was_heard_of()
    ensures { EachAssignWasHeardOf }
{}
