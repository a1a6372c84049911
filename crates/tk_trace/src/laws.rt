//! What holds of every trace.

ghost use Rattle.std.specs.Prelude.{◌≡◌, ℕ, List};
ghost use Rattle.tk_trace.specs.Checked.{Faults};
ghost use Rattle.tk_trace.specs.Recorded.{Recorded};
ghost use Rattle.tk_trace.specs.Spelling.{IsTrace};
ghost use Rattle.tk_verify.specs.declared.trace_fault.TraceFault.{TraceFault as Fault};
ghost use Rattle.tk_trace.specs.Laws.{FinishedRunIsFaultless};

use tk_verify::{nothing_is_found_of_a_finished_story, one_finding};

/// A trace is of one run.
pub fn a_trace_is_of_one_run()
    ensures { (bytes : List ℕ) (a b : Recorded) → IsTrace bytes a → IsTrace bytes b → a ≡ b }
{}

/// One thing at most is wrong with some bytes.
pub fn one_fault()
    ensures { (bytes : List ℕ) (a b : Fault) → Faults bytes a → Faults bytes b → a ≡ b }
{
    one_finding();
}

/// Nothing is wrong with the trace of a legal story from the beginning of its logs to its end.
pub fn nothing_is_wrong_with_a_finished_run()
    ensures { FinishedRunIsFaultless }
{
    nothing_is_found_of_a_finished_story();
}
