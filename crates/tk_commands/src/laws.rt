// What follows from how the inputs of single commands are loaded. Each function is there for its clause alone.
ghost use Rattle.tk_commands.specs.Laws.{RightTraceIsRead, WhatIsToldOfQueriesIsMeant};
ghost use Rattle.tk_commands.specs.SessionInput.{session_input_of};
ghost use Rattle.tk_load.specs.Laws.{WhatIsToldIsMeant};

/// Where the files tell what they hold and no read fails, what is answered to the words of sessions or of several queries is the
/// input of the words and the contents, or its first fault.
pub fn what_single_commands_are_told_is_meant()
    ensures sessions { WhatIsToldIsMeant session_input_of }
    ensures queries { WhatIsToldOfQueriesIsMeant }
{}

/// Where a file tells some bytes, at most 64 MiB, with which nothing is wrong, and no read of it fails, its trace is answered,
/// or no memory was found.
pub fn a_right_trace_is_read()
    ensures { RightTraceIsRead }
{}
