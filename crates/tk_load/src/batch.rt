//! Some logs, whose files are read one after the other, and which are then parsed side by side.

ghost use Rattle.std.specs.Prelude.{◌≡◌, ◌≤◌, ◌<◌, IfErr, IfOk, false, is_ok, length, true};
ghost use Rattle.tk_load.specs.Batch.{AreCounted, EachAt, IsLogOf, IsParsed, IsReadAs};
ghost use Rattle.tk_load.specs.Reads.{AreKept, FailedAtMostOnce, reads_by};
ghost use Rattle.tk_load.specs.Whole.{IsWidth};

use crate::reading::{log_by, read};
use crate::status::Status;
use std::alloc::{AllocError, Global};
use std::marker::Sync;
use std::thread::{self, Threads};
use tk_base::{Mon, NoMemory};
use tk_input::{Catalog, Files};
use tk_window::Expanded;

/// The file that brings a batch to so many bytes is its last.
const FULL: usize = 16 << 20;

/// Parsing so many bytes takes some ten times as long as making a thread.
const WORTH_A_THREAD: usize = 32 << 10;

/// What reading the file of a log gave.
#[derive(Drop)]
pub struct Unparsed<'a> {
    pub file: &'a str,
    pub content: Result<Vec<u8>, Status>,
}

fn parsed(
    alloc: Global,
    names: &Catalog,
    width: Option<u32>,
    log: Unparsed<'_>,
) -> Result<Expanded, Status>
    requires { IsWidth width }
    ensures { IsParsed width names.now log.entry result }
{
    let Unparsed { file, content } = log;
    match content {
        Ok(bytes) => log_by(alloc, bytes.as_slice(), names, width, file),
        Err(status) => Err(status),
    }
}

/// One after the other.
fn parsed_in_turn(
    alloc: Global,
    names: &Catalog,
    width: Option<u32>,
    logs: Vec<Unparsed<'_>>,
) -> Result<Vec<Result<Expanded, Status>>, AllocError>
    requires { IsWidth width }
    ensures count { IfOk result (λ all. length all.items ≡ length logs.entry.items) }
    ensures parsed { IfOk result (λ all. EachAt (IsParsed width names.now) logs.entry.items all.items) }
{
    let mut all = Vec::with_capacity(alloc, logs.len())?;
    for log in logs {
        all.push_reserved(parsed(alloc, names, width, log));
    }
    Ok(all)
}

/// Logs in the order of the words, whose files were read.
#[derive(Drop)]
pub struct Batch<'a> {
    pub logs: Vec<Unparsed<'a>>,
    size: usize,
}

/// Whether a batch ends with this content: it is full, or no file. Adds the bytes to those that the batch has.
fn ends_with(content: &Result<Vec<u8>, Status>, size: &mut usize) -> bool
    ensures { result ≡ false → is_ok content.now ≡ true }
{
    match content {
        Ok(bytes) => {
            *size = size.saturating_add(bytes.len());
            *size >= FULL
        }
        Err(_) => true,
    }
}

impl<'a> Batch<'a> {
    /// Reads the files of the first of some words, until there is enough to be parsed or one cannot be read.
    pub fn read<F: Files>(
        alloc: Global,
        words: &[(Mon, &'a str)],
        files: &mut F,
    ) -> Result<Batch<'a>, NoMemory>
        ensures some { IfOk result (λ batch. 0 < length words.now → 0 < length batch.logs.items) }
        ensures few { IfOk result (λ batch. length batch.logs.items ≤ length words.now) }
        ensures read { IfOk result (λ batch.
            EachAt (IsReadAs (reads_by F.Files files.old files.new)) words.now batch.logs.items) }
        ensures kept { AreKept F.Files files.old files.new }
        ensures counts { IfOk result (λ batch.
            AreCounted (reads_by F.Files files.old files.new) (λ log. log.content) batch.logs.items) }
        ensures most { IfErr result (λ e. FailedAtMostOnce (reads_by F.Files files.old files.new)) }
    {
        let mut logs = Vec::new(alloc);
        let mut size = 0;
        for (_, file) in words {
            let content = read(alloc, files, file);
            let ends = ends_with(&content, &mut size);
            logs.push(Unparsed { file, content })?;
            if ends {
                break;
            }
        }
        Ok(Batch { logs, size })
    }

    /// Parses each log in a thread of its own, unless they are small.
    pub fn parse<R: Threads + Sync>(
        self,
        rt: &R,
        alloc: Global,
        names: &Catalog,
        width: Option<u32>,
    ) -> Result<Vec<Result<Expanded, Status>>, AllocError>
        requires { IsWidth width }
        ensures count { IfOk result (λ all. length all.items ≡ length self.entry.logs.items) }
        ensures parsed { IfOk result (λ all. EachAt (IsParsed width names.now) self.entry.logs.items all.items) }
    {
        if self.size / WORTH_A_THREAD < self.logs.len() {
            return parsed_in_turn(alloc, names, width, self.logs);
        }
        let parse = |log: Unparsed<'_>| -> Result<Expanded, Status>
            requires { IsWidth width }
            ensures { IsParsed width names.entry.now log.entry result }
        { parsed(alloc, names, width, log) };
        thread::map_vec(rt, self.logs, &parse)
    }
}

/// The logs of the first of some words, at least one.
pub fn next_logs<R: Threads + Sync, F: Files>(
    rt: &R,
    alloc: Global,
    names: &Catalog,
    width: Option<u32>,
    files: &mut F,
    words: &[(Mon, &str)],
) -> Result<Vec<Result<Expanded, Status>>, NoMemory>
    requires { IsWidth width }
    ensures some { IfOk result (λ logs. 0 < length words.now → 0 < length logs.items) }
    ensures few { IfOk result (λ logs. length logs.items ≤ length words.now) }
    ensures read { IfOk result (λ logs.
        EachAt (IsLogOf (reads_by F.Files files.old files.new) width names.now) words.now logs.items) }
    ensures kept { AreKept F.Files files.old files.new }
    ensures counts { IfOk result (λ logs. AreCounted (reads_by F.Files files.old files.new) (λ log. log) logs.items) }
    ensures most { IfErr result (λ e. FailedAtMostOnce (reads_by F.Files files.old files.new)) }
{
    let batch = Batch::read(alloc, words, files)?;
    Ok(batch.parse(rt, alloc, names, width)?)
}
