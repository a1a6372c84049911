//! Laws of logs that grow while a monitor runs over them. Each function is there for its clause alone.

ghost use Rattle.tk_trail.specs.Growing.{GrownIsLegal, GrownReadsTheSame, LastRecordStays, LegalityLooksAtWhatIsReached, OpenIsNotAtItsEnds};

/// Whether a trail is legal, and what it says, looks at the reached fronts of the parts alone, as long as its monitor is not
/// at its ends.
pub fn legality_looks_at_what_is_reached()
    ensures { LegalityLooksAtWhatIsReached }
{}

/// A change that is put in front of a record that is not raised yet leaves a legal trail legal, and all that it says.
pub fn a_grown_trail_is_legal()
    ensures legal { GrownIsLegal }
    ensures reads { GrownReadsTheSame }
    ensures open { OpenIsNotAtItsEnds }
{}

/// What stands behind all records of a stream stays behind them.
pub fn the_last_record_stays()
    ensures { LastRecordStays }
{}
