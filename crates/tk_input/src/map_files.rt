//! Files given in memory, for runs that read none of the system: their content, and which reads fail.

ghost use Rattle.std.specs.Prelude.{◌≡◌, ◌≢◌, ℕ, ◌<◌, ◌≤◌, [], List, length, IfOk, IfErr, IfSome, IsErrOf, IsOk, IsSome, Ok, option_map, position, bytes_eq, string_bytes};
ghost use Rattle.tk_input.specs.MapFiles.{Faults, TakesNoMore, content_of, faults_after, files_of, given, longest_after, read_of, reads_after as reads_then};
ghost use Rattle.tk_input.specs.Tallies.{Notes, count_of, faults_of, longest_of};

use crate::files::{FileFault, Files, MAX_LENGTH};
use crate::tallies::Tallies;
use std::alloc::Global;
use std::marker::Model;

/// Files in memory, some of whose reads fail.
#[derive(Debug, Drop)]
pub struct MapFiles {
    files: Vec<(String, Vec<u8>)>,
    fails: Vec<u64>,
    reads: u64,
    tallies: Tallies,
}

impl Model for MapFiles {
    ghost use Rattle.tk_input.specs.MapFiles.{MapFilesView, files_of};

    ghost Value = { MapFilesView };

    ghost view = { λ m. record {
      files = files_of m.files.items;
      fails = m.fails.items;
      reads = m.reads;
      counts = m.tallies;
    } };
}

impl MapFiles {
    ghost use Rattle.tk_input.specs.MapFiles.{files_of};

    /// Read i of all, from 1, fails where i is among `fails`, as does a read of a name that is not here. A read
    /// that finds no memory is not counted.
    /// Of two files of one name the first is read.
    pub fn new(alloc: Global, files: Vec<(String, Vec<u8>)>, fails: Vec<u64>) -> MapFiles
        ensures { result ≡ record { files = files_of files.items; fails = fails.items; reads = 0; counts = [] } }
    {
        MapFiles {
            files,
            fails,
            reads: 0,
            tallies: Tallies::new(alloc),
        }
    }
}

fn place_of(files: &[(String, Vec<u8>)], name: &str) -> Option<usize>
    ensures { result ≡ position (λ f. bytes_eq (string_bytes f.0) name.now) files.now }
{
    files.iter().position(|file| file.0.as_str() == name)
}

fn file_of<'a>(files: &'a [(String, Vec<u8>)], name: &str) -> Option<&'a [u8]>
    ensures { option_map (λ s. s.now) result ≡ content_of (files_of files.now) name.now }
{
    let place = place_of(files, name)?;
    Some(files[place].1.as_slice())
}

fn copy_of(alloc: Global, fails: bool, file: Option<&[u8]>) -> Result<Vec<u8>, FileFault>
    ensures ok { IfOk result (λ v. given fails (option_map (λ s. s.now) file.entry) ≡ Ok v.items) }
    ensures err { IfErr result (λ e. Faults e (given fails (option_map (λ s. s.now) file.entry))) }
    // Memory is wanted for what is read alone.
    ensures room { IsErrOf result FileFault.NoMemory → IsOk (given fails (option_map (λ s. s.now) file.entry)) }
{
    match file {
        Some(bytes) if !fails => {
            if bytes.len() > MAX_LENGTH {
                return Err(FileFault::TooLong);
            }
            Vec::from_slice(alloc, bytes).map_err(|_| FileFault::NoMemory)
        }
        _ => Err(FileFault::Failed),
    }
}

fn reads_after(outcome: &Result<Vec<u8>, FileFault>, reads: u64) -> u64
    ensures { result ≡ reads_then outcome.now reads }
{
    match outcome {
        Err(FileFault::NoMemory) => reads,
        _ => reads.saturating_add(1),
    }
}

/// Counts what came of a read of a name that has its room. A call of its own leaves one way through `read_all`, and so one proof
/// of each of its many clauses.
fn note(tallies: &mut Tallies, name: &str, outcome: &Result<Vec<u8>, FileFault>)
    requires { IsSome (count_of tallies.old name.now) }
    ensures notes { Notes tallies.old tallies.new name.now
        (faults_after outcome.now (faults_of tallies.old name.now)) (longest_after outcome.now (longest_of tallies.old name.now)) }
    ensures kept { faults_of tallies.old name.now ≤ faults_of tallies.new name.now }
{
    match outcome {
        Ok(copy) => tallies.note_length(name, copy.len() as u64),
        Err(FileFault::Failed) => tallies.note_fault(name),
        Err(FileFault::TooLong) => tallies.note_length(name, MAX_LENGTH as u64 + 1),
        Err(FileFault::NoMemory) => {}
    }
}

impl Files for MapFiles {
    ghost content = { λ m name. content_of m.files name };

    ghost fault_count = { λ m name. faults_of m.counts name };

    ghost most_taken = { λ m name. longest_of m.counts name };

    fn faults(&self, name: &str) -> u64 {
        self.tallies.faults(name)
    }

    fn longest(&self, name: &str) -> u64 {
        self.tallies.longest(name)
    }

    fn read_all(&mut self, alloc: Global, name: &str) -> Result<Vec<u8>, FileFault>
        // Which reads fail, and what the others give.
        ensures ok { IfOk result (λ v. read_of self.old name.now ≡ Ok v.items) }
        ensures err { IfErr result (λ e. Faults e (read_of self.old name.now)) }
        ensures files { self.new.files ≡ self.old.files }
        ensures fails { self.new.fails ≡ self.old.fails }
        ensures reads { self.new.reads ≡ reads_then result self.old.reads }
        // What is taken of a read that fails, or finds no memory, does not count.
        ensures longest { longest_of self.new.counts name.now ≡ longest_after result (longest_of self.old.counts name.now) }
        // As every implementation of the trait.
        ensures content { IfOk result (λ v. IfSome (content_of self.old.files name.now) (λ told. v.items ≡ told)) }
        ensures told { (other : List ℕ) → content_of self.new.files other ≡ content_of self.old.files other }
        ensures short { IfOk result (λ v. length v.items ≤ 67108864) }
        ensures too_long { IsErrOf result FileFault.TooLong
            → IfSome (content_of self.old.files name.now) (λ told. 67108864 < length told) }
        ensures too_much { IsErrOf result FileFault.TooLong → 67108864 < longest_of self.new.counts name.now }
        ensures counted { faults_of self.new.counts name.now ≡ faults_after result (faults_of self.old.counts name.now) }
        ensures kept_faults { faults_of self.old.counts name.now ≤ faults_of self.new.counts name.now }
        ensures other_faults { (other : List ℕ) → other ≢ name.now
            → faults_of self.new.counts other ≡ faults_of self.old.counts other }
        ensures taken { IfOk result (λ v. length v.items ≤ longest_of self.new.counts name.now) }
        ensures kept_taken { longest_of self.old.counts name.now ≤ longest_of self.new.counts name.now }
        ensures no_more { TakesNoMore (content_of self.old.files name.now)
            (longest_of self.old.counts name.now) (longest_of self.new.counts name.now) }
        ensures other_taken { (other : List ℕ) → other ≢ name.now
            → longest_of self.new.counts other ≡ longest_of self.old.counts other }
    {
        if self.tallies.reserve(alloc, name).is_err() {
            return Err(FileFault::NoMemory);
        }
        let fails = self.fails.contains(&self.reads.saturating_add(1));
        let outcome = copy_of(alloc, fails, file_of(self.files.as_slice(), name));
        self.reads = reads_after(&outcome, self.reads);
        note(&mut self.tallies, name, &outcome);
        outcome
    }
}
