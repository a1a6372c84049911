//! The system's files as those of a run, with what came of their reads counted.

ghost use Rattle.std.specs.Prelude.{◌≡◌, ◌<◌, ◌≤◌, [], None, IfOk, IsErrOf, IsSome, OnOk, length, max};
ghost use Rattle.tk_input.specs.Files.{Gives};
ghost use Rattle.tk_input.specs.MapFiles.{faults_after};
ghost use Rattle.tk_input.specs.Tallies.{Notes, count_of, faults_of, longest_of};

use crate::edges::{fault_of, take_all};
use crate::files::{FileFault, Files, MAX_LENGTH};
use crate::tallies::Tallies;
use std::alloc::Global;
use std::io::Read;
use std::marker::Model;
use std::{fs, io, rt};

/// The files of the system. Nothing is known of what they hold.
#[derive(Debug, Drop)]
pub struct TrueFiles<R> {
    system: R,
    tallies: Tallies,
}

impl<R> Model for TrueFiles<R> {
    ghost use Rattle.std.specs.Prelude.{List};
    ghost use Rattle.tk_input.specs.Tallies.{Count};

    ghost Value = { List Count };

    ghost view = { λ f. f.tallies };
}

impl<R: rt::Files> TrueFiles<R> {
    /// No file was read yet.
    pub fn new(alloc: Global, system: R) -> TrueFiles<R>
        ensures { result ≡ [] }
    {
        TrueFiles {
            system,
            tallies: Tallies::new(alloc),
        }
    }
}

/// All of a file that was opened, or why it was not.
fn take_opened<F: Read + Drop>(opened: io::Result<F>, bytes: &mut Vec<u8>) -> Result<(), FileFault>
    requires { length bytes.old.items ≡ 0 }
    ensures ok { OnOk result (Gives F.remaining opened bytes.new.items) }
    ensures short { OnOk result (length bytes.new.items ≤ 67108864) }
    ensures too_much { IsErrOf result FileFault.TooLong → 67108864 < length bytes.new.items }
{
    match opened {
        Ok(file) => take_all(file, bytes),
        Err(error) => Err(fault_of(&error)),
    }
}

/// Room for what the system says that a file holds, so that it need not grow, and its end is seen without growing. It may
/// say what is not so, of a pipe above all: then the room grows as it must.
fn room_for<R: rt::Files>(system: &R, name: &str) -> usize {
    match fs::metadata(system, name) {
        Ok(known) => known.len().min(MAX_LENGTH as u64) as usize + 1,
        Err(_) => 0,
    }
}

/// Counts what came of a read of a name that has its room, and how many bytes it took.
fn note(tallies: &mut Tallies, name: &str, outcome: &Result<(), FileFault>, taken: u64)
    requires { IsSome (count_of tallies.old name.now) }
    ensures notes { Notes tallies.old tallies.new name.now
        (faults_after outcome.now (faults_of tallies.old name.now)) (max (longest_of tallies.old name.now) taken) }
    ensures kept { faults_of tallies.old name.now ≤ faults_of tallies.new name.now }
{
    tallies.note_length(name, taken);
    match outcome {
        Ok(()) => {}
        Err(FileFault::Failed) => tallies.note_fault(name),
        Err(FileFault::TooLong) => {}
        Err(FileFault::NoMemory) => {}
    }
}

/// What a read of a name gives whose file was opened, or was not, behind no bytes. The name has its room among what is
/// counted.
fn read_opened<F: Read + Drop>(
    empty: Vec<u8>,
    opened: io::Result<F>,
    name: &str,
    tallies: &mut Tallies,
) -> Result<Vec<u8>, FileFault>
    requires empty { length empty.items ≡ 0 }
    requires counted { IsSome (count_of tallies.old name.now) }
    // What is read is all that there is: no failed read is the end of a file.
    ensures ok { IfOk result (λ v. Gives F.remaining opened v.items) }
    ensures short { IfOk result (λ v. length v.items ≤ 67108864) }
    ensures too_much { IsErrOf result FileFault.TooLong → 67108864 < longest_of tallies.new name.now }
    ensures taken { IfOk result (λ v. length v.items ≤ longest_of tallies.new name.now) }
    ensures kept_faults { faults_of tallies.old name.now ≤ faults_of tallies.new name.now }
    ensures kept_taken { longest_of tallies.old name.now ≤ longest_of tallies.new name.now }
    ensures notes { Notes tallies.old tallies.new name.now
        (faults_after result (faults_of tallies.old name.now)) (longest_of tallies.new name.now) }
{
    let mut bytes = empty;
    let outcome = take_opened(opened, &mut bytes);
    note(tallies, name, &outcome, bytes.len() as u64);
    match outcome {
        Ok(()) => Ok(bytes),
        Err(fault) => Err(fault),
    }
}

impl<R: rt::Files> Files for TrueFiles<R> {
    ghost content = { λ f name. None };

    ghost fault_count = { λ f name. faults_of f name };

    ghost most_taken = { λ f name. longest_of f name };

    fn faults(&self, name: &str) -> u64 {
        self.tallies.faults(name)
    }

    fn longest(&self, name: &str) -> u64 {
        self.tallies.longest(name)
    }

    fn read_all(&mut self, alloc: Global, name: &str) -> Result<Vec<u8>, FileFault> {
        if self.tallies.reserve(alloc, name).is_err() {
            return Err(FileFault::NoMemory);
        }
        let Ok(empty) = Vec::with_capacity(alloc, room_for(&self.system, name)) else {
            return Err(FileFault::NoMemory);
        };
        let opened = fs::open(&self.system, name);
        read_opened(empty, opened, name, &mut self.tallies)
    }
}
