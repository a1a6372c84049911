// One end of a story beside the other. Each function is there for its clause alone.
ghost use Rattle.tk_story.specs.JoinedLaws.{JoinedJournalTakesTheNextFrame, JoinedMonitorTakesTheNextFrame, NextFrameDownIsTaken, NextFrameUpIsTaken, TookAllButTheLast, TookWhatWasSent};

/// A monitor took all Assigns that were sent to it, or all but the last.
pub fn at_most_one_behind()
    ensures most { TookWhatWasSent }
    ensures least { TookAllButTheLast }
{}

/// The next frame of a down link is not refused.
pub fn the_next_frame_down_is_taken()
    ensures { NextFrameDownIsTaken }
{}

/// The next frame of an up link is not refused.
pub fn the_next_frame_up_is_taken()
    ensures { NextFrameUpIsTaken }
{}

/// The same over any opening whose changes are within their limits, for one monitor's end alone.
pub fn links_hold_over_any_opening()
    ensures down { JoinedMonitorTakesTheNextFrame }
    ensures up { JoinedJournalTakesTheNextFrame }
{}
