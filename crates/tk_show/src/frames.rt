//! A frame in words, put behind a line.

ghost use Rattle.std.specs.Prelude.{◌≡◌, ◌++◌, OnOk, codes};
ghost use Rattle.tk_frames.specs.declared.frame.Frame.TheVariants.{Assign, Collect, Hello, Report, Settled, Values};
ghost use Rattle.tk_show.specs.Frames.{broken_text, factors_text, frame_text, last_text, report_title};

use crate::words::{push_named, push_objects, push_pairs, push_places};
use std::alloc::AllocError;
use tk_base::{Mon, ObjSet, Pairs, Places};
use tk_frames::Frame;
use tk_input::Catalog;

fn push_hello(
    line: &mut Vec<u8>,
    run: u64,
    version: u8,
    mon: Mon,
    names: &Catalog,
) -> Result<(), AllocError>
    ensures { OnOk result (line.new.items ≡ line.old.items ++ frame_text names.now (Hello run version mon)) }
{
    let _ = names;
    push_named(line, b"hello ", run)?;
    push_named(line, b" version ", version)?;
    push_named(line, b" monitor ", mon.0)
}

fn push_title(line: &mut Vec<u8>, seq: u64, border: i128) -> Result<(), AllocError>
    ensures { OnOk result (line.new.items ≡ line.old.items ++ report_title seq border) }
{
    push_named(line, b"report under ", seq)?;
    push_named(line, b" border ", border)
}

fn push_broken(
    line: &mut Vec<u8>,
    failed: &ObjSet,
    values: &Pairs,
    names: &Catalog,
) -> Result<(), AllocError>
    ensures { OnOk result (line.new.items ≡ line.old.items ++ broken_text names.now failed.now values.now) }
{
    line.extend_from_slice(b" broken")?;
    push_objects(line, failed, names)?;
    line.extend_from_slice(b" values")?;
    push_pairs(line, values, names)
}

fn push_report(
    line: &mut Vec<u8>,
    seq: u64,
    border: i128,
    failed: &ObjSet,
    values: &Pairs,
    names: &Catalog,
) -> Result<(), AllocError>
    ensures { OnOk result (line.new.items ≡ line.old.items ++ frame_text names.now (Report seq border failed.now values.now)) }
{
    push_title(line, seq, border)?;
    push_broken(line, failed, values, names)
}

fn push_collect(
    line: &mut Vec<u8>,
    round: u64,
    objects: &ObjSet,
    names: &Catalog,
) -> Result<(), AllocError>
    ensures { OnOk result (line.new.items ≡ line.old.items ++ frame_text names.now (Collect round objects.now)) }
{
    push_named(line, b"collect ", round)?;
    line.extend_from_slice(b" objects")?;
    push_objects(line, objects, names)
}

fn push_values(
    line: &mut Vec<u8>,
    round: u64,
    seq: u64,
    border: i128,
    values: &Pairs,
    names: &Catalog,
) -> Result<(), AllocError>
    ensures { OnOk result (line.new.items ≡ line.old.items ++ frame_text names.now (Values round seq border values.now)) }
{
    push_named(line, b"values ", round)?;
    push_named(line, b" under ", seq)?;
    push_named(line, b" border ", border)?;
    line.extend_from_slice(b" of")?;
    push_pairs(line, values, names)
}

fn push_factors(line: &mut Vec<u8>, changes: &Pairs, names: &Catalog) -> Result<(), AllocError>
    ensures { OnOk result (line.new.items ≡ line.old.items ++ factors_text names.now changes.now) }
{
    if changes.len() == 0 {
        return Ok(());
    }
    line.extend_from_slice(b" factors")?;
    push_pairs(line, changes, names)
}

fn push_assign(
    line: &mut Vec<u8>,
    seq: u64,
    members: &ObjSet,
    changes: &Pairs,
    names: &Catalog,
) -> Result<(), AllocError>
    ensures { OnOk result (line.new.items ≡ line.old.items ++ frame_text names.now (Assign seq members.now changes.now)) }
{
    push_named(line, b"assign ", seq)?;
    line.extend_from_slice(b" members")?;
    push_objects(line, members, names)?;
    push_factors(line, changes, names)
}

fn push_last(line: &mut Vec<u8>, last: bool) -> Result<(), AllocError>
    ensures { OnOk result (line.new.items ≡ line.old.items ++ last_text last) }
{
    if last {
        line.extend_from_slice(b" last")
    } else {
        Ok(())
    }
}

fn push_settled(
    line: &mut Vec<u8>,
    seq: u64,
    last: bool,
    places: &Places,
    names: &Catalog,
) -> Result<(), AllocError>
    ensures { OnOk result (line.new.items ≡ line.old.items ++ frame_text names.now (Settled seq last places.now)) }
{
    let _ = names;
    push_named(line, b"settled under ", seq)?;
    line.extend_from_slice(b" at")?;
    push_places(line, places)?;
    push_last(line, last)
}

/// A frame: its kind, its number, and what it says.
pub fn push_frame(line: &mut Vec<u8>, frame: &Frame, names: &Catalog) -> Result<(), AllocError>
    ensures { OnOk result (line.new.items ≡ line.old.items ++ frame_text names.now frame.now) }
{
    match frame {
        Frame::Hello { run, version, mon } => push_hello(line, *run, *version, *mon, names),
        Frame::Report {
            seq,
            border,
            failed,
            values,
        } => push_report(line, *seq, *border, failed, values, names),
        Frame::Collect { round, objects } => push_collect(line, *round, objects, names),
        Frame::Values {
            round,
            seq,
            border,
            values,
        } => push_values(line, *round, *seq, *border, values, names),
        Frame::Assign {
            seq,
            members,
            changes,
        } => push_assign(line, *seq, members, changes, names),
        Frame::Settled { seq, last, places } => push_settled(line, *seq, *last, places, names),
        Frame::Stop => line.extend_from_slice(b"stop"),
    }
}
