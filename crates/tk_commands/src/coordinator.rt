//! The input of a coordinator that runs as a process of its own.

ghost use Rattle.std.specs.Prelude.{◌≡◌, IfOk, Ok, length};
ghost use Rattle.tk_input.specs.Catalog.{catalog_from};
ghost use Rattle.tk_commands.specs.Processes.{LoadsCoordinator};
ghost use Rattle.tk_load.specs.Reads.{AreKept, Counts, reads_by};
ghost use Rattle.tk_words.specs.Asked.{asked_coordinate};

use crate::run_mark::mark_of_run;
use std::alloc::Global;
use tk_base::Settings;
use tk_input::{Catalog, Files};
use tk_load::{Status, read_names, settings_by};
use tk_words::Coordinate;

/// What the words of a coordinator and its file give.
#[derive(Drop)]
pub struct CoordinatorInput {
    pub names: Catalog,
    pub settings: Settings,
    /// The number of the run on the wire.
    pub run: u64,
}

/// Reads the objects, and tests the settings then.
pub fn load_coordinator<F: Files>(
    alloc: Global,
    words: &Coordinate<'_>,
    files: &mut F,
) -> Result<CoordinatorInput, Status>
    ensures named { IfOk result (λ input. catalog_from input.names ≡ Ok input.names) }
    ensures objects { IfOk result (λ input. length input.names ≡ input.settings.objects) }
    ensures read { LoadsCoordinator (reads_by F.Files files.old files.new) (asked_coordinate words.now) result }
    ensures kept { AreKept F.Files files.old files.new }
    ensures counts { Counts (reads_by F.Files files.old files.new) result }
{
    let names = match read_names(alloc, files, words.objects) {
        Ok(names) => names,
        Err(status) => return Err(status),
    };
    let objects = names.len() as u64;
    match settings_by(
        alloc,
        words.k,
        words.epsilon,
        words.own_weight,
        objects,
        words.monitors,
    ) {
        Ok(settings) => {
            let run = mark_of_run(words.run, &names);
            Ok(CoordinatorInput {
                names,
                settings,
                run,
            })
        }
        Err(status) => Err(status),
    }
}
