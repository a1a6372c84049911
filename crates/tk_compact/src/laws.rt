//! What holds of logs with a base in the place of their front. Each function is there for its clauses alone.

ghost use Rattle.tk_compact.specs.Anew.{AnewIsASetup, AnewIsAsBefore, BaseStandsForWhatWasReached, BasesStandForTheTrueLogs, SessionsKeepTheirBase};
ghost use Rattle.tk_compact.specs.Compacted.{CompactedHasTheSums, CompactedIsWithinTheLimits};
ghost use Rattle.tk_compact.specs.Room.{ClosingCountsOnce, GrownIsWithinTheLimits, ToldCountsOnce};
ghost use Rattle.tk_compact.specs.Standing.{CompactedGoesOn, MovedIsOriginAndPlace, ValidMovesOver, ValuesAreThoseOfTheLog};

/// At every place behind a base the values are those of the true log at the place that stands for it, and what stands for
/// the session later stands for the true log with what was reached behind it.
pub fn values_are_those_of_the_log()
    ensures values { ValuesAreThoseOfTheLog }
    ensures goes_on { CompactedGoesOn }
{}

/// A set that is valid over bases with more behind them is valid over the true logs, at the cut that stands for its own.
pub fn valid_moves_over()
    ensures { ValidMovesOver }
{}

/// One change for each object whose value is not zero has the values as its sums, and no more weight.
pub fn a_compacted_log_has_the_sums()
    ensures sums { CompactedHasTheSums }
    ensures limits { CompactedIsWithinTheLimits }
{}

/// What is printed of a place is its origin, which is the count without the start, and the place in the session.
pub fn a_moved_place_is_origin_and_place()
    ensures { MovedIsOriginAndPlace }
{}

/// Where the sum of all sizes has room for a change more, so has each limit of the grown setup.
pub fn a_grown_setup_is_within_the_limits()
    ensures { GrownIsWithinTheLimits }
{}

/// A record that is told to an open stream, and raised at once, counts once and leaves the stream open. Its closing record
/// counts nothing, and leaves it closed.
pub fn what_is_told_counts_once()
    ensures told { ToldCountsOnce }
    ensures closed { ClosingCountsOnce }
{}

/// The base of a monitor stands for what it reached.
pub fn a_base_stands_for_what_was_reached()
    ensures { BaseStandsForWhatWasReached }
{}

/// Behind its base, with the closing records of its open streams, a monitor is within its limits, and each stream waits.
pub fn a_monitor_begins_anew_within_its_limits()
    ensures { AnewIsASetup }
{}

/// Its open streams are open then, its closed ones closed, and each value is what it was.
pub fn a_monitor_begins_anew_as_it_was()
    ensures { AnewIsAsBefore }
{}

/// From session to session the base of a monitor stands for its true logs.
pub fn bases_stand_for_the_true_logs()
    ensures sessions { SessionsKeepTheirBase }
    ensures chain { BasesStandForTheTrueLogs }
{}
