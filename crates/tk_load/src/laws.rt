// What follows from how an input is loaded. Each function is there for its clause alone.
ghost use Rattle.std.specs.Prelude.{Err};
ghost use Rattle.tk_load.specs.Input.{input_of};
ghost use Rattle.tk_load.specs.Laws.{ValidSetIsValidForItsWindows, WhatIsToldIsMeant, WindowGoesOverTheLogs};
ghost use Rattle.tk_load.specs.Reads.{FileReads, Loads};
ghost use Rattle.tk_load.specs.Told.{IsCounted};
ghost use Rattle.tk_load.specs.declared.status.Status.{Status};
ghost use Rattle.tk_words.specs.Words.{SourceWords};

use tk_window::a_valid_set_is_valid_for_the_windows;

/// Where the files tell what they hold and no read fails, what is answered is the input of the words and the contents,
/// or its first fault.
pub fn what_is_told_is_meant()
    ensures { WhatIsToldIsMeant input_of }
{}

/// A file that is told to be unreadable is one of the words, and its faults rose.
pub fn an_unreadable_file_is_counted()
    ensures { (reads : FileReads) (words : SourceWords) (status : Status) → Loads reads words (Err status)
        → IsCounted reads words status }
{}

/// The window that the words ask for goes over the logs of their input: these are the files' ticks, expanded.
pub fn a_window_goes_over_the_logs()
    ensures { WindowGoesOverTheLogs }
{}

/// So a set that is valid over the logs of an input, at a cut where ticks end, is valid for the windows at these ticks.
pub fn a_valid_set_is_valid_for_its_windows()
    ensures { ValidSetIsValidForItsWindows }
{
    a_valid_set_is_valid_for_the_windows();
}
