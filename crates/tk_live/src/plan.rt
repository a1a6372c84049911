//! What a live run is over.

ghost use Rattle.std.specs.Prelude.{◌≡◌, IfOk};
ghost use Rattle.tk_input.specs.Logs.{IsCut, beginnings};
ghost use Rattle.tk_load.specs.Whole.{AreAgreed};

use std::alloc::Global;
use tk_base::{Cut, NoMemory};
use tk_load::Input;

/// What a live run is over: an input from its beginnings, the version of its frames, and its number.
#[derive(Drop)]
pub struct Plan {
    pub input: Input,
    pub from: Cut,
    pub version: u8,
    pub run: u64,
    pub ghost agreed: { AreAgreed input.names input.settings input.logs },
    pub ghost cut: { IsCut input.logs.logs from },
    pub ghost from_is: { from ≡ beginnings input.logs },
}

impl Plan {
    /// The plan of a run of an input.
    pub fn new(alloc: Global, input: Input, version: u8, run: u64) -> Result<Plan, NoMemory>
        requires { AreAgreed input.names input.settings input.logs }
        ensures input { IfOk result (λ plan. plan.input ≡ input) }
        ensures version { IfOk result (λ plan. plan.version ≡ version) }
        ensures run { IfOk result (λ plan. plan.run ≡ run) }
    {
        let from = input.logs.start(alloc)?;
        Ok(Plan {
            input,
            from,
            version,
            run,
        })
    }
}
