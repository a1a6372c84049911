//! The input of a monitor that runs as a process of its own. Its sources are no part of it: they are read as they come.

ghost use Rattle.std.specs.Prelude.{◌≡◌, IfOk, Ok, length};
ghost use Rattle.tk_input.specs.Catalog.{catalog_from};
ghost use Rattle.tk_commands.specs.Processes.{LoadsMonitor};
ghost use Rattle.tk_load.specs.Reads.{AreKept, Counts, reads_by};
ghost use Rattle.tk_words.specs.Asked.{asked_monitor};

use crate::run_mark::mark_of_run;
use std::alloc::Global;
use tk_base::Settings;
use tk_input::{Catalog, Files};
use tk_load::{Status, read_names, settings_by};
use tk_words::Watched;

/// A monitor knows nothing of the sets that are asked for.
const K: u64 = 1;

const EPSILON: u128 = 0;

const OWN_WEIGHT: u64 = 1;

/// What the words of a monitor and its file give.
#[derive(Drop)]
pub struct MonitorInput {
    pub names: Catalog,
    /// Over so many monitors as its number says, since it knows of no others.
    pub settings: Settings,
    /// The number of the run on the wire.
    pub run: u64,
}

/// Reads the objects, and tests the settings then.
pub fn load_monitor<F: Files>(
    alloc: Global,
    words: &Watched<'_>,
    files: &mut F,
) -> Result<MonitorInput, Status>
    ensures named { IfOk result (λ input. catalog_from input.names ≡ Ok input.names) }
    ensures objects { IfOk result (λ input. length input.names ≡ input.settings.objects) }
    ensures monitors { IfOk result (λ input. input.settings.monitors ≡ words.now.number.0) }
    ensures read { LoadsMonitor (reads_by F.Files files.old files.new) (asked_monitor words.now) result }
    ensures kept { AreKept F.Files files.old files.new }
    ensures counts { Counts (reads_by F.Files files.old files.new) result }
{
    let names = match read_names(alloc, files, words.objects) {
        Ok(names) => names,
        Err(status) => return Err(status),
    };
    let objects = names.len() as u64;
    let monitors = u64::from(words.number.0);
    match settings_by(alloc, K, EPSILON, OWN_WEIGHT, objects, monitors) {
        Ok(settings) => {
            let run = mark_of_run(words.run, &names);
            Ok(MonitorInput {
                names,
                settings,
                run,
            })
        }
        Err(status) => Err(status),
    }
}
