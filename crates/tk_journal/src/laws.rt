//! Laws of legal journals. Each function is there for its clause alone.

ghost use Rattle.std.specs.Prelude.{◌≡◌, ℕ, pos, List, [], ◌∷◌, length, map, true, false, Some};
ghost use Rattle.std.specs.List.{range_with_len};
ghost use Rattle.tk_base.specs.Settings.{Setup, IsWithinLimits};
ghost use Rattle.tk_base.specs.Sum.{int_sum};
ghost use Rattle.tk_base.specs.History.{EachFrom};
ghost use Rattle.tk_frames.specs.declared.frame.Frame.{Frame};
ghost use Rattle.tk_journal.specs.Laws.{AreFactorsSmall, AreMembers, AreNotLast, AreRoundsCounted, AreSentShort, HasEnded, IsSetUp, KeepsConstraint, SaysWhatIsDue};
ghost use Rattle.tk_journal.specs.Legal.{Opening, IsLegal, start};
ghost use Rattle.tk_journal.specs.Publishing.{publications};
ghost use Rattle.tk_journal.specs.Readings.{answer_of, assigns_sent, factor, monitors, is_stopped, own};
ghost use Rattle.tk_frames.specs.Carried.{is_numbered};
ghost use Rattle.tk_journal.specs.declared.noted.Noted.{Noted};
ghost use Rattle.tk_journal.specs.DealingLaws.{AssignsAreNumbered, EachMonitorIsSentTheMembers, FullRoundCanBeDealtWith, ReportCanBeDealtWith};

/// The factors of an object, the coordinator's own included, sum to zero.
pub fn factors_sum_to_zero()
    ensures { (s : Setup) (j : List Noted) (o : ℕ) → int_sum (own s j o ∷ map (λ mon. factor mon j o) (monitors s)) ≡ pos 0 }
{}

/// A journal may start from members 1 to k and no factors.
pub fn a_start_is_set_up()
    ensures { (s : Setup) → IsWithinLimits s → IsSetUp (start s) }
{}

/// The members are as many as k says, in ascending order, and of the catalogue.
pub fn members_are_k_objects()
    ensures { (o : Opening) (j : List Noted) → IsSetUp o → IsLegal o j → AreMembers o.settings j }
{}

/// The coordinator's constraint holds after every turn, with the epsilon in force.
pub fn the_constraint_is_kept()
    ensures { (o : Opening) (j : List Noted) → IsSetUp o → IsLegal o j → KeepsConstraint o.settings j }
{}

/// No factor passes its limit.
pub fn factors_are_small()
    ensures { (o : Opening) (j : List Noted) → IsSetUp o → IsLegal o j → AreFactorsSmall o.settings j }
{}

/// Every frame that is sent fits in both versions: it has no more items than there can be objects.
pub fn frames_are_short()
    ensures { (o : Opening) (j : List Noted) → IsSetUp o → IsLegal o j → AreSentShort j }
{}

/// A fresh Report that is taken can be dealt with in a short round, or open a full one: no number leaves its bounds.
pub fn a_report_can_be_dealt_with()
    ensures { ReportCanBeDealtWith }
{}

/// The Values that end a full round leave reports that it can be dealt with.
pub fn a_full_round_can_be_dealt_with()
    ensures { FullRoundCanBeDealtWith }
{}

/// No round is named past the last one that was counted.
pub fn rounds_are_counted()
    ensures { (o : Opening) (j : List Noted) → IsSetUp o → IsLegal o j → AreRoundsCounted o.settings j }
{}

/// Stop is sent behind the final publication, to every monitor, and nothing follows.
pub fn stop_ends_the_journal()
    ensures { (o : Opening) (j : List Noted) → IsSetUp o → IsLegal o j → is_stopped j ≡ true → HasEnded o.settings j }
{}

/// Before that no publication is the last.
pub fn only_the_final_one_is_last()
    ensures { (o : Opening) (j : List Noted) → IsSetUp o → IsLegal o j → is_stopped j ≡ false → AreNotLast (publications j) }
{}

/// A current answer is fresh: it speaks of the last Assign.
pub fn answers_are_fresh()
    ensures { (mon : ℕ) (j : List Noted) (answer : Frame) → answer_of mon j ≡ Some answer
        → is_numbered (assigns_sent mon j) answer ≡ true }
{}

/// The last Assign to each monitor names the members.
pub fn each_monitor_is_sent_the_members()
    ensures { EachMonitorIsSentTheMembers }
{}

/// The sequence numbers of the Assigns to each monitor count up from 1.
pub fn assigns_are_numbered()
    ensures { AssignsAreNumbered }
{}

/// Publications are numbered from 1.
pub fn publications_are_numbered()
    ensures { (o : Opening) (j : List Noted) → IsLegal o j
        → map (λ p. p.number) (publications j) ≡ range_with_len 1 (length (publications j)) }
{}

/// A publication stands only where one is due, and says what there is to say.
pub fn publications_are_due()
    ensures { (o : Opening) (j : List Noted) → IsLegal o j → EachFrom (SaysWhatIsDue o.settings) [] j }
{}
