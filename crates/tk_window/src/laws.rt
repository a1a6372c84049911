// What holds of windows over expanded logs. Each function is there for its clause alone.
ghost use Rattle.tk_window.specs.Laws.{TotalsAreThoseOfTheWindows, ValidSetIsValidForTheWindows};

/// A cut at which ticks end has the totals of the windows at these ticks.
pub fn totals_are_those_of_the_windows()
    ensures { TotalsAreThoseOfTheWindows }
{}

/// So a set that is valid there is valid for the windows.
pub fn a_valid_set_is_valid_for_the_windows()
    ensures { ValidSetIsValidForTheWindows }
{}
