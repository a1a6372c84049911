//! Files and sinks in memory.

use std::alloc::Global;
use tk_input::{FileFault, Files, MapFiles, PutFailed, Sink, VecSink};

/// A file in memory of so many letters.
fn file(alloc: Global, name: &str, length: usize) -> Option<(String, Vec<u8>)> {
    let bytes = vec![in alloc; b'a'; length].ok()?;
    Some((String::from_str(alloc, name).ok()?, bytes))
}

/// Two files in memory, of so many letters each, and the reads that fail.
fn two_files(alloc: Global, sizes: [(&str, usize); 2], fails: &[u64]) -> Option<MapFiles> {
    let first = file(alloc, sizes[0].0, sizes[0].1)?;
    let second = file(alloc, sizes[1].0, sizes[1].1)?;
    let files = vec![in alloc; first, second].ok()?;
    let fails = Vec::from_slice(alloc, fails).ok()?;
    Some(MapFiles::new(alloc, files, fails))
}

/// How many bytes a file has, or why it was not read.
fn length_of(alloc: Global, files: &mut MapFiles, name: &str) -> Result<usize, FileFault> {
    Ok(files.read_all(alloc, name)?.len())
}

/// The faults of a file, and the most bytes that were taken of it.
fn counts_of(files: &MapFiles, name: &str) -> (u64, u64) {
    (files.faults(name), files.longest(name))
}

/// A file's name, and what a read of it gives.
type Reading<'a> = (&'a str, Result<usize, FileFault>);

/// Whether reads of these files in turn give this.
fn are_read(alloc: Global, files: &mut MapFiles, readings: &[Reading<'_>]) -> bool {
    for (name, wanted) in readings {
        if length_of(alloc, files, name) != *wanted {
            return false;
        }
    }
    true
}

/// A file's name, and its faults and the most bytes that were taken of it.
type Counts<'a> = (&'a str, (u64, u64));

/// Whether these files have these counts.
fn have_counts(files: &MapFiles, wanted: &[Counts<'_>]) -> bool {
    for (name, counts) in wanted {
        if counts_of(files, name) != *counts {
            return false;
        }
    }
    true
}

/// Whether these files give this to reads in turn, and then have these counts.
fn behave(alloc: Global, files: MapFiles, readings: &[Reading<'_>], counts: &[Counts<'_>]) -> bool {
    let mut files = files;
    let as_wanted = are_read(alloc, &mut files, readings) && have_counts(&files, counts);
    drop(files);
    as_wanted
}

/// Whether two files in memory, of so many letters each, give this to reads in turn, and then have these counts.
fn are_as_wanted(
    alloc: Global,
    sizes: [(&str, usize); 2],
    fails: &[u64],
    readings: &[Reading<'_>],
    counts: &[Counts<'_>],
) -> bool {
    match two_files(alloc, sizes, fails) {
        Some(files) => behave(alloc, files, readings, counts),
        None => false,
    }
}

#[test]
fn files_in_memory_fail_where_they_are_told_to(rt: HostRuntime) {
    const FAILED: Result<usize, FileFault> = Err(FileFault::Failed);
    const READINGS: [Reading<'static>; 6] = [
        ("one", Ok(1)),
        ("one", FAILED),
        ("three", FAILED),
        ("two", Ok(2)),
        ("two", FAILED),
        ("one", Ok(1)),
    ];
    const COUNTS: [Counts<'static>; 4] = [
        ("one", (1, 1)),
        ("two", (1, 2)),
        ("three", (1, 0)),
        ("four", (0, 0)),
    ];
    let sizes = [("one", 1), ("two", 2)];
    assert!(rt; are_as_wanted(rt.alloc(), sizes, &[2, 5], &READINGS, &COUNTS));
}

#[test]
fn a_file_may_have_64_mebibytes(rt: HostRuntime) {
    const READINGS: [Reading<'static>; 2] = [
        ("full", Ok(67_108_864)),
        ("over", Err(FileFault::TooLong)),
    ];
    const COUNTS: [Counts<'static>; 1] = [("over", (0, 67_108_865))];
    let sizes = [("full", 67_108_864), ("over", 67_108_865)];
    assert!(rt; are_as_wanted(rt.alloc(), sizes, &[], &READINGS, &COUNTS));
}

/// Bytes that are given, what comes of that, and the faults so far.
type Put<'a> = (&'a [u8], Result<(), PutFailed>, u64);

/// Whether it comes so of giving these bytes in turn.
fn are_put(sink: &mut VecSink, puts: &[Put<'_>]) -> bool {
    for (bytes, outcome, faults) in puts {
        if sink.put(bytes) != *outcome || sink.faults() != *faults {
            return false;
        }
    }
    true
}

/// A sink of four bytes whose second call fails.
fn small_sink(alloc: Global) -> Option<VecSink> {
    let fails = vec![in alloc; 2].ok()?;
    VecSink::new(alloc, 4, fails).ok()
}

/// Whether it comes so of giving these bytes in turn, and those are then written.
fn is_filled(sink: VecSink, puts: &[Put<'_>], written: &[u8]) -> bool {
    let mut sink = sink;
    let is_filled = are_put(&mut sink, puts) && sink.written() == written;
    drop(sink);
    is_filled
}

#[test]
fn a_sink_in_memory_fails_where_it_is_told_to(rt: HostRuntime) {
    const PUTS: [Put<'static>; 5] = [
        (b"ab", Ok(()), 0),
        (b"c", Err(PutFailed), 1),
        (b"cde", Err(PutFailed), 2),
        (b"cd", Ok(()), 2),
        (b"", Ok(()), 2),
    ];
    let is_filled = match small_sink(rt.alloc()) {
        Some(sink) => is_filled(sink, &PUTS, b"abcd"),
        None => false,
    };
    assert!(rt; is_filled);
}
