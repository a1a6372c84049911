//! The trace that a file holds.

ghost use Rattle.std.specs.Prelude.{◌≡◌, ◌⊎◌, ℕ, List, IfOk, length};
ghost use Rattle.tk_load.specs.Reads.{AreKept, Counts, reads_by};
ghost use Rattle.tk_commands.specs.Traced.{LoadsTrace, TellsWrong, TracesBytes};
ghost use Rattle.tk_story.specs.Story.{IsStory};
ghost use Rattle.tk_trace.specs.Checked.{Faults};
ghost use Rattle.tk_verify.specs.declared.trace_fault.TraceFault.TheVariants.{NoMemory as Memory};
ghost use Rattle.tk_story.specs.Headline.{ReachesItsEnd};

use std::alloc::Global;
use tk_input::Files;
use tk_load::{Status, read as read_file};
use tk_trace::{Trace, read};
use tk_verify::TraceFault;

/// The status of a file in which this is wrong. Where even its name finds no memory, that is the answer.
fn bad_trace(alloc: Global, file: &str, fault: TraceFault) -> Status
    ensures { (bytes : List ℕ) → (fault ≡ Memory) ⊎ Faults bytes fault → TellsWrong file.now bytes result }
{
    if fault == TraceFault::NoMemory {
        return Status::NoMemory;
    }
    match Vec::from_slice(alloc, file.as_bytes()) {
        Ok(file) => Status::BadTrace { file, fault },
        Err(_) => Status::NoMemory,
    }
}

/// The trace that the bytes of a file are.
fn trace_of(alloc: Global, bytes: &[u8], file: &str) -> Result<Trace, Status>
    ensures named { IfOk result (λ t. length t.names ≡ t.story.story.settings.objects) }
    ensures legal { IfOk result (λ t. IsStory t.story.story) }
    ensures finished { IfOk result (λ t. ReachesItsEnd t.story.story) }
    ensures traces { TracesBytes file.now bytes.now result }
{
    match read(alloc, bytes) {
        Ok(trace) => Ok(trace),
        Err(fault) => Err(bad_trace(alloc, file, fault)),
    }
}

/// Reads the trace of a file, whoever made it, and checks the run that it tells.
pub fn load_trace<F: Files>(alloc: Global, file: &str, files: &mut F) -> Result<Trace, Status>
    ensures named { IfOk result (λ t. length t.names ≡ t.story.story.settings.objects) }
    ensures legal { IfOk result (λ t. IsStory t.story.story) }
    ensures finished { IfOk result (λ t. ReachesItsEnd t.story.story) }
    ensures read { LoadsTrace (reads_by F.Files files.old files.new) file.now result }
    ensures kept { AreKept F.Files files.old files.new }
    ensures counts { Counts (reads_by F.Files files.old files.new) result }
{
    match read_file(alloc, files, file) {
        Ok(bytes) => trace_of(alloc, bytes.as_slice(), file),
        Err(status) => Err(status),
    }
}
