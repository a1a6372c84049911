//! The records of streams, in pieces of any size.

ghost use Rattle.std.specs.Prelude.{◌≤◌};

use std::alloc::Global;
use tk_input::{Catalog, Change};
use tk_stream::{LineFault, MapSource, Records, Source, StreamFault};

/// What a call of `next` comes to.
#[derive(Clone, Copy, Debug, PartialEq, Eq)]
enum Said {
    Record(u32, i128),
    Bad(u32, LineFault),
    End,
    Failed,
    NoMemory,
}

fn outcome_of(outcome: Result<Option<Change>, StreamFault>) -> Said {
    match outcome {
        Ok(Some(change)) => Said::Record(change.obj.0, change.by),
        Ok(None) => Said::End,
        Err(StreamFault::Bad { line, fault }) => Said::Bad(line, fault),
        Err(StreamFault::ReadFailed) => Said::Failed,
        Err(StreamFault::NoMemory) => Said::NoMemory,
    }
}

/// Whether calls come to this, one after the other.
fn says<S: Source + Drop>(records: &mut Records<S>, names: &Catalog, wanted: &[Said]) -> bool {
    for each in wanted {
        if outcome_of(records.next(names)) != *each {
            return false;
        }
    }
    true
}

/// A stream: its bytes, whether bad lines are skipped, and the reads that fail.
#[derive(Clone, Copy)]
struct Case<'a> {
    bytes: &'a [u8],
    skips: bool,
    fails: &'a [u64],
}

/// Its records, of the names a and b, in pieces of a size.
fn records_of(alloc: Global, case: &Case<'_>, piece: usize) -> Option<Records<MapSource>>
    requires { 1 ≤ piece }
{
    let bytes = Vec::from_slice(alloc, case.bytes).ok()?;
    let fails = Vec::from_slice(alloc, case.fails).ok()?;
    Records::new(alloc, MapSource::new(bytes, piece, fails), case.skips).ok()
}

/// Whether a stream says this in pieces of a size, and skips so many lines.
fn gives(alloc: Global, case: &Case<'_>, piece: usize, wanted: &[Said], skipped: u64) -> bool
    requires { 1 ≤ piece }
{
    let Ok(names) = Catalog::read(alloc, b"a\nb\n") else {
        return false;
    };
    let Some(mut records) = records_of(alloc, case, piece) else {
        return false;
    };
    says(&mut records, &names, wanted) && records.skipped() == skipped
}

/// The same in pieces of many sizes.
fn always_gives(alloc: Global, case: &Case<'_>, wanted: &[Said], skipped: u64) -> bool {
    for piece in [1, 2, 3, 7, 100_000] {
        if !gives(alloc, case, piece.max(1), wanted, skipped) {
            return false;
        }
    }
    true
}

const LINES: [u8; 36] = *b"a,5\r\n\n\"b\",3\nc,1\nb;2\na,x\nb,-1\r\n\na,+07";

#[test]
fn bad_lines_are_skipped(rt: HostRuntime) {
    const WANTED: [Said; 6] = [
        Said::Record(1, 5),
        Said::Record(2, 3),
        Said::Record(2, -1),
        Said::Record(1, 7),
        Said::End,
        Said::End,
    ];
    let case = Case {
        bytes: &LINES,
        skips: true,
        fails: &[],
    };
    assert!(rt; always_gives(rt.alloc(), &case, &WANTED, 3));
}

#[test]
fn a_bad_line_has_its_number(rt: HostRuntime) {
    const WANTED: [Said; 8] = [
        Said::Record(1, 5),
        Said::Record(2, 3),
        Said::Bad(4, LineFault::UnknownName),
        Said::Bad(5, LineFault::BadRow),
        Said::Bad(6, LineFault::BadNumber),
        Said::Record(2, -1),
        Said::Record(1, 7),
        Said::End,
    ];
    let case = Case {
        bytes: &LINES,
        skips: false,
        fails: &[],
    };
    assert!(rt; always_gives(rt.alloc(), &case, &WANTED, 0));
}

#[test]
fn a_quote_ends_with_its_line(rt: HostRuntime) {
    const WANTED: [Said; 3] = [
        Said::Bad(1, LineFault::BadRow),
        Said::Record(2, 3),
        Said::End,
    ];
    let case = Case {
        bytes: b"\"a,5\nb,3\n",
        skips: false,
        fails: &[],
    };
    assert!(rt; always_gives(rt.alloc(), &case, &WANTED, 0));
}

#[test]
fn a_failed_read_loses_no_line(rt: HostRuntime) {
    const WANTED: [Said; 5] = [
        Said::Failed,
        Said::Record(1, 5),
        Said::Failed,
        Said::Record(2, 3),
        Said::End,
    ];
    let case = Case {
        bytes: b"a,5\nb,3\n",
        skips: false,
        fails: &[2, 4],
    };
    assert!(rt; gives(rt.alloc(), &case, 3, &WANTED, 0));
}

/// A line of so many bytes, and one more record behind it.
fn long_line(alloc: Global, size: usize) -> Option<Vec<u8>> {
    let mut bytes = vec![in alloc; b'a'; size].ok()?;
    bytes.extend_from_slice(b"\r\nb,-1").ok()?;
    Some(bytes)
}

/// Whether it is bad for this reason, in pieces of a size.
fn is_bad(alloc: Global, size: usize, piece: usize, fault: LineFault) -> bool
    requires { 1 ≤ piece }
{
    let Some(bytes) = long_line(alloc, size) else {
        return false;
    };
    let case = Case {
        bytes: &bytes,
        skips: false,
        fails: &[],
    };
    let wanted = [Said::Bad(1, fault), Said::Record(2, -1), Said::End];
    gives(alloc, &case, piece, &wanted, 0)
}

#[test]
fn a_line_over_65536_bytes_is_too_long(rt: HostRuntime) {
    let alloc = rt.alloc();
    let fits = is_bad(alloc, 65_536, 65_537, LineFault::BadRow);
    let long = is_bad(alloc, 65_537, 65_538, LineFault::TooLong);
    let longer = is_bad(alloc, 200_000, 4_000, LineFault::TooLong);
    assert!(rt; fits && long && longer);
}
