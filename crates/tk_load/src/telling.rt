//! The line for standard error that says how a run failed.

ghost use Rattle.std.specs.Prelude.{◌≡◌, ◌++◌, IfOk, OnOk, codes};
ghost use Rattle.std.specs.Fmt.{decimal};
ghost use Rattle.tk_load.specs.Status.{differs_text, fault_text, great_text, kind_text, line_text, link_text, place_text};

use crate::status::{InputKind, Status};
use itoa::Buffer;
use std::alloc::{AllocError, Global};
use tk_base::{Mon, NoMemory};
use tk_story::{Difference, Direction};

/// Appends the digits of a number.
pub fn push_number(line: &mut Vec<u8>, number: u32) -> Result<(), AllocError>
    ensures { OnOk result (line.new.items ≡ line.old.items ++ decimal number) }
{
    let mut buffer = Buffer::new();
    line.extend_from_slice(buffer.format(number).as_bytes())
}

fn push_monitor(line: &mut Vec<u8>, text: &[u8], mon: Mon) -> Result<(), AllocError>
    ensures { OnOk result (line.new.items ≡ line.old.items ++ (text.now ++ decimal mon.0)) }
{
    line.extend_from_slice(text)?;
    push_number(line, mon.0)
}

fn push_kind(line: &mut Vec<u8>, kind: InputKind) -> Result<(), AllocError>
    ensures { OnOk result (line.new.items ≡ line.old.items ++ kind_text kind) }
{
    match kind {
        InputKind::Empty => line.extend_from_slice(b"no object"),
        InputKind::TooMany => line.extend_from_slice(b"too many records"),
        InputKind::TooLong => line.extend_from_slice(b"the file is too long"),
        InputKind::LineTooLong => line.extend_from_slice(b"the line is too long"),
        InputKind::BadRow => line.extend_from_slice(b"wrong number of fields"),
        InputKind::BadName => line.extend_from_slice(b"bad name"),
        InputKind::Repeated => line.extend_from_slice(b"repeated name"),
        InputKind::UnknownName => line.extend_from_slice(b"unknown object"),
        InputKind::BadNumber => line.extend_from_slice(b"bad number"),
        InputKind::MonitorGap(mon) => push_monitor(line, b"no log for monitor ", mon),
        InputKind::TooManyFeeders(mon) => push_monitor(line, b"too many logs for monitor ", mon),
        InputKind::TooManyUpdates => line.extend_from_slice(b"too many changes"),
        InputKind::BadOrder => line.extend_from_slice(b"bad order"),
        InputKind::BadCount => line.extend_from_slice(b"bad number of objects or monitors"),
        InputKind::BadK => line.extend_from_slice(b"bad k"),
        InputKind::BadEpsilon => line.extend_from_slice(b"bad epsilon"),
        InputKind::BadWeight => line.extend_from_slice(b"bad own weight"),
        InputKind::BadWidth => line.extend_from_slice(b"bad width"),
    }
}

/// The file at fault, or the settings.
fn place(file: &[u8]) -> &[u8]
    ensures { result.now ≡ place_text file.now }
{
    match file {
        [] => b"settings",
        [_, ..] => file,
    }
}

fn push_line_number(line: &mut Vec<u8>, number: u32) -> Result<(), AllocError>
    ensures { OnOk result (line.new.items ≡ line.old.items ++ line_text number) }
{
    if number > 0 {
        line.extend_from_slice(b"line ")?;
        push_number(line, number)?;
        line.extend_from_slice(b": ")?;
    }
    Ok(())
}

fn push_bad_input(
    line: &mut Vec<u8>,
    file: &[u8],
    number: u32,
    kind: InputKind,
) -> Result<(), AllocError>
    ensures { OnOk result (line.new.items
        ≡ line.old.items ++ (place_text file.now ++ (codes ": " ++ (line_text number ++ kind_text kind)))) }
{
    line.extend_from_slice(place(file))?;
    line.extend_from_slice(b": ")?;
    push_line_number(line, number)?;
    push_kind(line, kind)
}

/// Appends what is wrong with a file as a whole.
fn push_of_file(line: &mut Vec<u8>, file: &[u8], fault: &[u8]) -> Result<(), AllocError>
    ensures { OnOk result (line.new.items ≡ line.old.items ++ (file.now ++ fault.now)) }
{
    line.extend_from_slice(file)?;
    line.extend_from_slice(fault)
}

fn push_object(line: &mut Vec<u8>, object: u32) -> Result<(), AllocError>
    ensures { OnOk result (line.new.items
        ≡ line.old.items ++ (codes ": object " ++ (decimal object ++ codes ": the changes pass the limit"))) }
{
    line.extend_from_slice(b": object ")?;
    push_number(line, object)?;
    line.extend_from_slice(b": the changes pass the limit")?;
    Ok(())
}

fn push_too_great(line: &mut Vec<u8>, mon: Mon, object: u32) -> Result<(), AllocError>
    ensures { OnOk result (line.new.items ≡ line.old.items ++ great_text mon.0 object) }
{
    push_monitor(line, b"monitor ", mon)?;
    push_object(line, object)?;
    Ok(())
}

fn push_link(line: &mut Vec<u8>, direction: Direction) -> Result<(), AllocError>
    ensures { OnOk result (line.new.items ≡ line.old.items ++ link_text direction) }
{
    match direction {
        Direction::UpLink => line.extend_from_slice(b": up frame "),
        Direction::DownLink => line.extend_from_slice(b": down frame "),
    }
}

fn push_place(line: &mut Vec<u8>, place: u64) -> Result<(), AllocError>
    ensures { OnOk result (line.new.items ≡ line.old.items ++ (decimal place ++ codes " differs")) }
{
    let mut buffer = Buffer::new();
    line.extend_from_slice(buffer.format(place).as_bytes())?;
    line.extend_from_slice(b" differs")?;
    Ok(())
}

fn push_differs(line: &mut Vec<u8>, difference: &Difference) -> Result<(), AllocError>
    ensures { OnOk result (line.new.items ≡ line.old.items ++ differs_text difference.now) }
{
    push_monitor(line, b"monitor ", difference.mon)?;
    push_link(line, difference.direction)?;
    push_place(line, difference.place)?;
    Ok(())
}

/// What the program tells of a status on standard error, without a line feed; nothing of Done.
pub fn fault_line(alloc: Global, status: &Status) -> Result<Vec<u8>, NoMemory>
    ensures { IfOk result (λ line. line.items ≡ fault_text status.now) }
{
    let mut text = Vec::new(alloc);
    if let Status::Done = status {
        return Ok(text);
    }
    text.extend_from_slice(b"topk: ")?;
    match status {
        Status::Done => {}
        Status::Usage => text.extend_from_slice(b"the words are not understood")?,
        Status::ReadFault { file } => push_of_file(&mut text, file, b": cannot be read")?,
        Status::BadInput { file, line, kind } => push_bad_input(&mut text, file, *line, *kind)?,
        Status::TooGreat { mon, obj } => push_too_great(&mut text, *mon, obj.0)?,
        Status::WriteFault => text.extend_from_slice(b"the output cannot be written")?,
        Status::NoMemory => text.extend_from_slice(b"out of memory")?,
        Status::LinkFault => text.extend_from_slice(b"a link failed")?,
        Status::LinkDiffers(difference) => push_differs(&mut text, difference)?,
        Status::BadTrace { file, .. } => push_of_file(&mut text, file, b": not a legal trace")?,
    }
    Ok(text)
}
