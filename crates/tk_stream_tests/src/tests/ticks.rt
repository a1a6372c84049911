//! The ticks of streams, in pieces of any size.

ghost use Rattle.std.specs.Prelude.{◌≤◌};

use std::alloc::Global;
use tk_base::Obj;
use tk_input::{Catalog, Change};
use tk_stream::{Item, LineFault, MapSource, Records, StreamFault};

/// Two ticks and what is no tick: a mark in front of another, one with a second field, one in capitals.
const LINES: [u8; 49] = *b"a,5\ntick\n\n\"tick\"\r\ntick,3\ntick\rtick\nTick\nb,-1\ntick";

type Outcome = Result<Option<Item>, StreamFault>;

fn record(obj: u32, by: i128) -> Outcome {
    Ok(Some(Item::Record(Change { obj: Obj(obj), by })))
}

fn bad(line: u32, fault: LineFault) -> Outcome {
    Err(StreamFault::Bad { line, fault })
}

/// Whether a stream gives these items in pieces of a size, over these names.
fn gives(alloc: Global, names: &[u8], piece: usize, wanted: &[Outcome]) -> bool
    requires { 1 ≤ piece }
{
    let Ok(names) = Catalog::read(alloc, names) else {
        return false;
    };
    let Ok(bytes) = Vec::from_slice(alloc, &LINES) else {
        return false;
    };
    let source = MapSource::new(bytes, piece, Vec::new(alloc));
    let Ok(mut records) = Records::new(alloc, source, false) else {
        return false;
    };
    for outcome in wanted {
        if records.next_item(&names) != *outcome {
            return false;
        }
    }
    true
}

#[test]
fn a_line_of_the_field_tick_ends_one(rt: HostRuntime) {
    let tick = Ok(Some(Item::Tick));
    let unnamed = [record(1, 5), tick, tick, bad(5, LineFault::UnknownName)];
    let named = [
        record(1, 5),
        tick,
        tick,
        record(3, 3),
        bad(6, LineFault::BadRow),
        bad(7, LineFault::BadRow),
        record(2, -1),
        tick,
        Ok(None),
    ];
    for piece in [1, 3, 100_000] {
        let piece = piece.max(1);
        assert!(rt; gives(rt.alloc(), b"a\nb\n", piece, &unnamed));
        assert!(rt; gives(rt.alloc(), b"a\nb\ntick\n", piece, &named));
    }
}
