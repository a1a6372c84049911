//! The lines of a coordinator, each with its line feed.

ghost use Rattle.std.specs.Prelude.{◌≡◌, ◌≤◌, ◌++◌, ◌+ℤ◌, if◌then◌else◌, pos, IfOk, OnOk, All, [], codes, decimal, length, slice_index_or};
ghost use Rattle.std.specs.Fmt.{signed_decimal};
ghost use Rattle.tk_host.specs.Origins.{none, origin_of};
ghost use Rattle.tk_host.specs.Text.{absolute_text, cause_text, counts_text, cut_text, ended_text, joined_text, listening_text, missing_text, places_text, seat_text, session_text, set_text};
ghost use Rattle.tk_journal.specs.Line.{kind_text, names_text};

use crate::cause::Cause;
use crate::roster::Roster;
use crate::seat::Seat;
use itoa::{Buffer, Integer};
use std::alloc::{AllocError, Global};
use tk_base::{Cut, Mon, ObjSet, Places};
use tk_input::Catalog;
use tk_journal::Publication;
use tk_wire::{Beginning, Greeting};

fn push_named<I: Integer>(line: &mut Vec<u8>, name: &[u8], number: I) -> Result<(), AllocError>
    ensures { OnOk result (line.new.items ≡ line.old.items ++ (name.now ++ I.text number)) }
{
    let mut buffer = Buffer::new();
    line.extend_from_slice(name)?;
    line.extend_from_slice(buffer.format(number).as_bytes())
}

/// A number, which may follow another.
fn push_next<I: Integer>(line: &mut Vec<u8>, number: I, follows: bool) -> Result<(), AllocError>
    ensures { OnOk result (line.new.items ≡ line.old.items ++ ((if follows then codes "," else []) ++ I.text number)) }
{
    if follows {
        push_named(line, b",", number)
    } else {
        push_named(line, b"", number)
    }
}

/// The line that tells where the coordinator listens.
pub fn listening_line(alloc: Global, address: &str) -> Result<Vec<u8>, AllocError>
    ensures { IfOk result (λ line. line.items ≡ listening_text address.now) }
{
    let mut line = Vec::from_slice(alloc, b"listening ")?;
    line.extend_from_slice(address.as_bytes())?;
    line.extend_from_slice(b"\n")?;
    Ok(line)
}

/// The line with which a session begins.
pub fn session_line(alloc: Global, number: u64) -> Result<Vec<u8>, AllocError>
    ensures { IfOk result (λ line. line.items ≡ session_text number) }
{
    let mut line = Vec::new(alloc);
    push_named(&mut line, b"session ", number)?;
    line.extend_from_slice(b"\n")?;
    Ok(line)
}

fn push_counts(line: &mut Vec<u8>, beginnings: &[Beginning]) -> Result<(), AllocError>
    ensures { OnOk result (line.new.items ≡ line.old.items ++ counts_text beginnings.now) }
{
    for i in 0..beginnings.len() {
        push_next(line, beginnings[i].count, i > 0)?;
    }
    Ok(())
}

/// The line of a monitor that joins: it stands at the counts of its streams.
fn joined_line(alloc: Global, greeting: &Greeting) -> Result<Vec<u8>, AllocError>
    ensures { IfOk result (λ line. line.items ≡ joined_text greeting.now) }
{
    let mut line = Vec::new(alloc);
    push_named(&mut line, b"joined ", greeting.mon.0)?;
    line.extend_from_slice(b" at ")?;
    push_counts(&mut line, greeting.beginnings.as_slice())?;
    line.extend_from_slice(b"\n")?;
    Ok(line)
}

/// The line of a monitor that is missing.
fn missing_line(alloc: Global, mon: Mon) -> Result<Vec<u8>, AllocError>
    ensures { IfOk result (λ line. line.items ≡ missing_text mon) }
{
    let mut line = Vec::new(alloc);
    push_named(&mut line, b"missing ", mon.0)?;
    line.extend_from_slice(b"\n")?;
    Ok(line)
}

/// The line of a seat that is taken.
pub fn seat_line(alloc: Global, seat: &Seat) -> Result<Vec<u8>, AllocError>
    ensures { IfOk result (λ line. line.items ≡ seat_text seat.now) }
{
    match seat {
        Seat::Joined(greeting) => joined_line(alloc, greeting),
        Seat::Missing(mon) => missing_line(alloc, *mon),
    }
}

fn push_cause(line: &mut Vec<u8>, cause: Cause) -> Result<(), AllocError>
    ensures { OnOk result (line.new.items ≡ line.old.items ++ cause_text cause) }
{
    match cause {
        Cause::Link(mon) => push_named(line, b"link ", mon.0),
        Cause::Refused(mon) => push_named(line, b"refused ", mon.0),
        Cause::Bad(mon) => push_named(line, b"bad ", mon.0),
        Cause::Again(mon) => push_named(line, b"again ", mon.0),
        Cause::Back(mon) => push_named(line, b"back ", mon.0),
        Cause::Early(mon) => push_named(line, b"early ", mon.0),
        Cause::Full => line.extend_from_slice(b"full"),
        Cause::Memory => line.extend_from_slice(b"memory"),
    }
}

/// The line with which a session ends.
pub fn ended_line(alloc: Global, number: u64, cause: Cause) -> Result<Vec<u8>, AllocError>
    ensures { IfOk result (λ line. line.items ≡ ended_text number cause) }
{
    let mut line = Vec::new(alloc);
    push_named(&mut line, b"ended ", number)?;
    line.extend_from_slice(b" ")?;
    push_cause(&mut line, cause)?;
    line.extend_from_slice(b"\n")?;
    Ok(line)
}

/// How many records a stream had given where a session's place is, by its beginning.
fn absolute_place(beginning: Beginning, place: u32) -> i128
    ensures { result ≡ origin_of beginning +ℤ pos place }
{
    i128::from(beginning.count) - i128::from(beginning.start) + i128::from(place)
}

fn beginning_at(beginnings: &[Beginning], i: usize) -> Beginning
    ensures { result ≡ slice_index_or beginnings.now i none }
{
    if i < beginnings.len() {
        beginnings[i]
    } else {
        Beginning { count: 0, start: 0 }
    }
}

/// The absolute place of a stream, which may follow another.
fn push_place(
    line: &mut Vec<u8>,
    beginning: Beginning,
    place: u32,
    follows: bool,
) -> Result<(), AllocError>
    ensures { OnOk result (line.new.items ≡ line.old.items
        ++ ((if follows then codes "," else []) ++ signed_decimal (origin_of beginning +ℤ pos place))) }
{
    push_next(line, absolute_place(beginning, place), follows)
}

fn push_absolute(
    line: &mut Vec<u8>,
    beginnings: &[Beginning],
    places: &Places,
) -> Result<(), AllocError>
    ensures { OnOk result (line.new.items ≡ line.old.items ++ absolute_text beginnings.now places.now) }
{
    for i in 0..places.len() {
        push_place(line, beginning_at(beginnings, i), places.at(i), i > 0)?;
    }
    Ok(())
}

/// The absolute places of a monitor; a stand-in has none.
fn push_places(
    line: &mut Vec<u8>,
    roster: &Roster,
    mon: u64,
    places: &Places,
) -> Result<(), AllocError>
    ensures { OnOk result (line.new.items ≡ line.old.items ++ places_text roster.now mon places.now) }
{
    if roster.misses(mon) {
        line.extend_from_slice(b"-")
    } else {
        push_absolute(line, roster.beginnings(mon), places)
    }
}

fn push_monitor(
    line: &mut Vec<u8>,
    roster: &Roster,
    mon: u64,
    places: &Places,
) -> Result<(), AllocError>
    ensures { OnOk result (line.new.items
        ≡ line.old.items ++ (codes " " ++ decimal mon ++ codes ":" ++ places_text roster.now mon places.now)) }
{
    push_named(line, b" ", mon)?;
    line.extend_from_slice(b":")?;
    push_places(line, roster, mon, places)
}

fn push_cut(line: &mut Vec<u8>, roster: &Roster, cut: &Cut) -> Result<(), AllocError>
    ensures { OnOk result (line.new.items ≡ line.old.items ++ cut_text roster.now cut.now) }
{
    for i in 0..cut.len() {
        push_monitor(line, roster, i as u64 + 1, cut.at(i))?;
    }
    Ok(())
}

fn push_kind(line: &mut Vec<u8>, last: bool) -> Result<(), AllocError>
    ensures { OnOk result (line.new.items ≡ line.old.items ++ kind_text last) }
{
    if last {
        line.extend_from_slice(b"final ")
    } else {
        line.extend_from_slice(b"set ")
    }
}

fn push_name(line: &mut Vec<u8>, name: &[u8]) -> Result<(), AllocError>
    ensures { OnOk result (line.new.items ≡ line.old.items ++ (codes " " ++ name.now)) }
{
    line.extend_from_slice(b" ")?;
    line.extend_from_slice(name)
}

fn push_names(line: &mut Vec<u8>, members: &ObjSet, names: &Catalog) -> Result<(), AllocError>
    requires { All (λ o. o ≤ length names.now) members.now }
    ensures { OnOk result (line.new.items ≡ line.old.items ++ names_text names.now members.now) }
{
    for i in 0..members.len() {
        push_name(line, names.name(members.at(i)))?;
    }
    Ok(())
}

/// The line of a publication, at the absolute places of those that have joined.
pub fn set_line(
    alloc: Global,
    names: &Catalog,
    roster: &Roster,
    publication: &Publication,
) -> Result<Vec<u8>, AllocError>
    requires { All (λ o. o ≤ length names.now) publication.now.members }
    ensures { IfOk result (λ line. line.items ≡ set_text names.now roster.now publication.now) }
{
    let mut line = Vec::new(alloc);
    push_kind(&mut line, publication.last)?;
    push_named(&mut line, b"", publication.number)?;
    line.extend_from_slice(b" cut")?;
    push_cut(&mut line, roster, &publication.cut)?;
    line.extend_from_slice(b" members")?;
    push_names(&mut line, &publication.members, names)?;
    line.push(b'\n')?;
    Ok(line)
}
