//! A trace, read and checked.

ghost use Rattle.std.specs.Prelude.{ℕ, ◌≡◌, ◌⊎◌, List, [], IfOk, IfErr};
ghost use Rattle.tk_story.specs.Story.{IsStory};
ghost use Rattle.tk_input.specs.Logs.{beginnings};
ghost use Rattle.tk_story.specs.Headline.{ReachesItsEnd};
ghost use Rattle.tk_verify.specs.Recorded.{IsFinished};
ghost use Rattle.tk_trace.specs.Checked.{Faults, IsKeptOf, OnFinishedTrace, Refuses, told};
ghost use Rattle.tk_trace.specs.Recorded.{recorded, recorded_of};
ghost use Rattle.tk_trace.specs.Spelling.{IsRecorded, IsTrace};
ghost use Rattle.tk_verify.specs.declared.trace_fault.TraceFault.{TraceFault as Fault};
ghost use Rattle.tk_verify.specs.declared.trace_fault.TraceFault.TheVariants.{NoMemory as Memory};

use crate::reading::parse;
use crate::recording::Recording;
use crate::trace::Trace;
use std::alloc::Global;
use tk_verify::{TraceFault, verify};

/// The story of a recorded run, under its names.
fn checked(alloc: Global, run: Recording) -> Result<Trace, TraceFault>
    requires { IsRecorded (recorded run) }
    ensures kept { IfOk result (IsKeptOf (recorded run)) }
    ensures succeeds { IsStory (told (recorded run)) → IsFinished (recorded run).journal
        → IfErr result (λ e. e ≡ Memory) }
    ensures found { (bytes : List ℕ) → IsTrace bytes (recorded run) → IfErr result (λ e. (e ≡ Memory) ⊎ Faults bytes e) }
    ensures exact { (bytes : List ℕ) → IsTrace bytes (recorded run) → (fault : Fault) → Faults bytes fault
        → Refuses fault result }
{
    let Recording {
        names,
        settings,
        logs,
        journal,
        trails,
    } = run;
    match verify(alloc, settings, logs, &journal, &trails) {
        Ok(story) => Ok(Trace { names, story }),
        Err(finding) => Err(TraceFault::from(finding)),
    }
}

/// Reads the trace of a run to its end, whoever made it: fresh nodes are driven over what it says, and of that nothing is
/// trusted. It takes time and memory in proportion to the bytes and to what the nodes do in that run.
pub fn read(alloc: Global, bytes: &[u8]) -> Result<Trace, TraceFault>
    // What is read is spelled by these bytes, all of them.
    ensures spelled { IfOk result (λ t. IsTrace bytes.now (recorded_of t.names t.story.story)) }
    // It is a legal story, from the beginning of its logs to its end, with no events kept.
    ensures starts { IfOk result (λ t. t.story.story.from ≡ beginnings t.story.story.logs) }
    ensures events { IfOk result (λ t. t.story.events ≡ []) }
    ensures legal { IfOk result (λ t. IsStory t.story.story) }
    ensures finished { IfOk result (λ t. ReachesItsEnd t.story.story) }
    // Every trace of such a story is read, unless there is no memory.
    ensures succeeds { OnFinishedTrace bytes.now (IfErr result (λ e. e ≡ Memory)) }
    // Else what is wrong with the bytes is told, exactly where it is wrong, unless there is no memory.
    ensures found { IfErr result (λ e. (e ≡ Memory) ⊎ Faults bytes.now e) }
    ensures exact { (fault : Fault) → Faults bytes.now fault → Refuses fault result }
{
    match parse(alloc, bytes) {
        Ok(recording) => checked(alloc, recording),
        Err(fault) => Err(TraceFault::from(fault)),
    }
}
