//! A text that is the same whatever there is: help, and the version.

ghost use Rattle.std.specs.Prelude.{◌≡◌};
ghost use Rattle.tk_load.specs.Surroundings.{faults_told, output_by};
ghost use Rattle.tk_run.specs.Constant.{EndsTold, HasTold};
ghost use Rattle.tk_run.specs.Outcome.{IfDone, IsWithout};

use crate::outcome::Outcome;
use std::alloc::Global;
use tk_input::{PutFailed, Sink};
use tk_load::Status;

/// Writes a text, which is all that the command does.
pub fn serve_text<O: Sink>(alloc: Global, text: &[u8], out: &mut O) -> Outcome
    ensures ran { IfDone result (HasTold text.now (output_by O.Sink out.old out.new)) }
    ensures ends { EndsTold text.now (output_by O.Sink out.old out.new) result.status }
    ensures without { IsWithout result }
    ensures counted { O.fault_count out.new ≡ faults_told result.status (O.fault_count out.old) }
{
    match out.put(text) {
        Ok(()) => Outcome::ended(alloc, Status::Done),
        Err(PutFailed) => Outcome::ended(alloc, Status::WriteFault),
    }
}
