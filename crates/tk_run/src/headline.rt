// What holds of every finished run, and of every input. Each function is there for its clause alone.
ghost use Rattle.std.specs.Prelude.{◌≡◌, List};
ghost use Rattle.tk_load.specs.declared.input.Input.{Input};
ghost use Rattle.tk_base.specs.Settings.{Setup};
ghost use Rattle.tk_input.specs.Logs.{LogSet};
ghost use Rattle.tk_run.specs.Ends.{IsStoryOf};
ghost use Rattle.tk_run.specs.Laws.{InputIsRun, PublishedIsValidForItsWindows, WrittenTraceIsChecked};
ghost use Rattle.tk_run.specs.Multi.{PublishedHoldsOverTheLogs};
ghost use Rattle.tk_run.specs.Printed.{CheckPrintsValidSets, ReplayPrintsValidSets};
ghost use Rattle.tk_run.specs.Sessions.{AreSound};
ghost use Rattle.tk_session.specs.Chain.{IsChainOf};
ghost use Rattle.tk_session.specs.declared.session_line.SessionLine.{SessionLine};
ghost use Rattle.tk_story.specs.Kept.{KeptStory};

use tk_commands::{a_right_trace_is_read, what_single_commands_are_told_is_meant};
use tk_load::{
    a_valid_set_is_valid_for_its_windows, a_window_goes_over_the_logs, what_is_told_is_meant,
};
use tk_multi::a_query_counts_what_the_logs_count;
use tk_session::each_session_is_legal;
use tk_story::{a_finished_run_is_sound, a_story_is_sound_so_far};
use tk_trace::nothing_is_wrong_with_a_finished_run;

/// Each session of an order is sound as far as it went, and the last one is finished.
pub fn sessions_are_sound()
    ensures { (settings : Setup) (logs : LogSet) (order : List SessionLine) (stories : List KeptStory)
        → IsChainOf settings logs order stories → AreSound stories }
{
    each_session_is_legal();
    a_story_is_sound_so_far();
    a_finished_run_is_sound();
}

/// An input has one story, so its text is one text.
pub fn an_input_has_one_story()
    ensures { (input : Input) (a b : KeptStory) → IsStoryOf input a → IsStoryOf input b → a ≡ b }
{}

/// Where words and the contents of their files give an input, no read of these files fails and the output is written, the
/// run is done, or no memory was found.
pub fn an_input_is_run()
    ensures { InputIsRun }
{
    what_is_told_is_meant();
    what_single_commands_are_told_is_meant();
    a_right_trace_is_read();
}

/// Where a file tells the trace of an input's story, as `trace` writes it and at most 64 MiB, no read of it fails and the
/// output is written, its check is done, or no memory was found.
pub fn a_written_trace_is_checked()
    ensures { WrittenTraceIsChecked }
{
    an_input_is_run();
    nothing_is_wrong_with_a_finished_run();
}

/// Where the words ask for a window, a set that was published where ticks end is valid for the windows at these ticks.
pub fn a_set_is_valid_for_its_windows()
    ensures { PublishedIsValidForItsWindows }
{
    a_window_goes_over_the_logs();
    a_valid_set_is_valid_for_its_windows();
}

/// Each set that a query published holds over fronts of the logs that all queries share.
pub fn a_querys_set_holds_over_the_logs()
    ensures { PublishedHoldsOverTheLogs }
{
    a_query_counts_what_the_logs_count();
}

/// Each line of sets that a replay, a window or a check has printed tells a publication of the story that it answers, whose set
/// is valid at the cut on that line.
pub fn each_printed_set_is_valid()
    ensures replay { ReplayPrintsValidSets }
    ensures check { CheckPrintsValidSets }
{}
