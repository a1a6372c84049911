//! The whole input of a run: what stands in front of its order, and the order.

ghost use Rattle.std.specs.Prelude.{◌≡◌, IfOk, Ok};
ghost use Rattle.tk_input.specs.Catalog.{catalog_from};
ghost use Rattle.tk_load.specs.Reads.{AreKept, Counts, Loads, reads_by};
ghost use Rattle.tk_load.specs.Whole.{AreAgreed};
ghost use Rattle.tk_words.specs.Asked.{AreOfMonitors, asked_sources};

use crate::basis::{Basis, load_basis};
use crate::retunes::read_order;
use crate::status::Status;
use std::alloc::Global;
use std::marker::Sync;
use std::thread::Threads;
use tk_base::Settings;
use tk_input::{Catalog, Files, Logs, Order};
use tk_window::TickEnds;
use tk_words::Sources;

/// What the words of a run and its files give.
#[derive(Drop)]
pub struct Input {
    pub names: Catalog,
    pub settings: Settings,
    pub logs: Logs,
    /// Where the ticks of the logs end, of a window over them.
    pub ends: Option<TickEnds>,
    pub order: Option<Order>,
}

/// Reads all that the words name, in the order of work: the objects, the settings and the width, the logs, the order.
pub fn load<R: Threads + Sync, F: Files>(
    rt: &R,
    alloc: Global,
    words: &Sources<'_>,
    files: &mut F,
) -> Result<Input, Status>
    requires { AreOfMonitors words.now.logs.items }
    ensures named { IfOk result (λ input. catalog_from input.names ≡ Ok input.names) }
    ensures agreed { IfOk result (λ input. AreAgreed input.names input.settings input.logs) }
    ensures read { Loads (reads_by F.Files files.old files.new) (asked_sources words.now) result }
    ensures kept { AreKept F.Files files.old files.new }
    ensures counts { Counts (reads_by F.Files files.old files.new) result }
{
    let Basis {
        names,
        settings,
        logs,
        ends,
    } = match load_basis(rt, alloc, words, files) {
        Ok(basis) => basis,
        Err(status) => return Err(status),
    };
    match read_order(alloc, &settings, files, words.order) {
        Ok(order) => Ok(Input {
            names,
            settings,
            logs,
            ends,
            order,
        }),
        Err(status) => Err(status),
    }
}
