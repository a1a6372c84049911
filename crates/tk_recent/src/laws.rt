// What holds of the streams whose old ticks are taken back. Each function is there for its clause alone.
ghost use Rattle.tk_recent.specs.Laws.{SumsAreThoseOfTheExpandedLog, TicksAreToldInOrder, ValuesAreThoseOfTheWindow};

/// At the end of each tick the values are the sums of the last ticks, as many as the window has.
pub fn values_are_those_of_the_window()
    ensures { ValuesAreThoseOfTheWindow }
{}

/// They are those of the expanded log, which a finished log in ticks has.
pub fn sums_are_those_of_the_expanded_log()
    ensures { SumsAreThoseOfTheExpandedLog }
{}

/// Each tick is told as it came, and then what takes back the one that leaves the window, one change an object.
pub fn ticks_are_told_in_order()
    ensures { TicksAreToldInOrder }
{}
