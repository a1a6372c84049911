// How great what a legal trail holds can be. Each function is there for its clause alone.
ghost use Rattle.std.specs.Prelude.{ℕ, ◌≤◌, ◌^◌, unsigned_abs, List, ◌∷◌, ◌++◌};
ghost use Rattle.tk_trail.specs.Legal.{Allowed, IsLegal};
ghost use Rattle.tk_trail.specs.Readings.{value_of_object};
ghost use Rattle.tk_trail.specs.Setup.{IsSetup, MonitorSetup};
ghost use Rattle.tk_trail.specs.declared.entry.Entry.{Entry};
ghost use Rattle.tk_trail.specs.BoundLaws.{ReportBorderIsWithinLimits, ReportNamesOutsiders, SentFramesAreShort, SettledPlacesAreWithinLimits, TakenChangesAreWithinLimits, ValuesBorderIsWithinLimits};

/// Each entry is allowed after those in front of it.
pub fn each_entry_is_allowed()
    ensures { (setup : MonitorSetup) (before after : List Entry) (e : Entry) → IsLegal setup (before ++ e ∷ after)
        → Allowed setup before e }
{}

/// No value passes 2^100 in size.
pub fn values_are_small()
    ensures { (setup : MonitorSetup) (trail : List Entry) (o : ℕ) → IsSetup setup
        → unsigned_abs (value_of_object setup trail o) ≤ 2 ^ 100 }
{}

/// The changes of a taken Assign are of objects of the catalogue, and each is a factor.
pub fn taken_changes_are_within_limits()
    ensures { TakenChangesAreWithinLimits }
{}

/// A Settled has a place for each part, none past the most changes that a log may have.
pub fn settled_places_are_within_limits()
    ensures { SettledPlacesAreWithinLimits }
{}

/// A Report names some outsiders.
pub fn a_report_names_outsiders()
    ensures { ReportNamesOutsiders }
{}

/// A border that is sent is at most the level of each member, and at least -2^113.
pub fn borders_are_within_limits()
    ensures report { ReportBorderIsWithinLimits }
    ensures values { ValuesBorderIsWithinLimits }
{}

/// Every frame that a monitor sends fits in both versions: it has no more items than there can be objects.
pub fn sent_frames_are_short()
    ensures { SentFramesAreShort }
{}
