//! Published sets, and the lines that print them.

ghost use Rattle.std.specs.Prelude.{◌≡◌, ◌≤◌, ◌++◌, if◌then◌else◌, IfOk, OnOk, List, [], All, length, codes, decimal};
ghost use Rattle.tk_journal.specs.Line.{bounds_text, cut_text, kind_text, line_text, names_text, places_text};

use itoa::{Buffer, Integer};
use std::alloc::{AllocError, Global};
use tk_base::{Cut, NoMemory, ObjSet, Places};
use tk_input::Catalog;

/// A set of members with the front of each log of which it speaks.
#[derive(Debug, Drop)]
pub struct Publication {
    /// Counts the publications of a journal, from 1.
    pub number: u64,
    /// Whether all logs are at their ends.
    pub last: bool,
    /// How many members there are, and within which epsilon they hold.
    pub k: u32,
    pub epsilon: i128,
    pub members: ObjSet,
    pub cut: Cut,
}

impl Publication {
    /// The printed line, its line feed included: `set` or `final`, the number, where the settings were
    /// tuned k and epsilon, the places of each monitor, and the members' names.
    pub fn line(&self, alloc: Global, names: &Catalog, tuned: bool) -> Result<Vec<u8>, NoMemory>
        requires { All (λ o. o ≤ length names.now) self.now.members }
        ensures { IfOk result (λ line. line.items ≡ line_text names.now tuned self.now) }
    {
        let mut line = Vec::new(alloc);
        push_kind(&mut line, self.last)?;
        push_number(&mut line, self.number)?;
        push_bounds(&mut line, self, tuned)?;
        line.extend_from_slice(b" cut")?;
        push_cut(&mut line, &self.cut)?;
        line.extend_from_slice(b" members")?;
        push_names(&mut line, &self.members, names)?;
        line.push(b'\n')?;
        Ok(line)
    }
}

fn push_kind(line: &mut Vec<u8>, last: bool) -> Result<(), AllocError>
    ensures { OnOk result (line.new.items ≡ line.old.items ++ kind_text last) }
{
    if last {
        line.extend_from_slice(b"final ")
    } else {
        line.extend_from_slice(b"set ")
    }
}

fn push_number<I: Integer>(line: &mut Vec<u8>, number: I) -> Result<(), AllocError>
    ensures { OnOk result (line.new.items ≡ line.old.items ++ I.text number) }
{
    let mut buffer = Buffer::new();
    line.extend_from_slice(buffer.format(number).as_bytes())
}

fn push_bounds(line: &mut Vec<u8>, publication: &Publication, tuned: bool) -> Result<(), AllocError>
    ensures { OnOk result (line.new.items ≡ line.old.items ++ bounds_text tuned publication.now) }
{
    if tuned {
        line.extend_from_slice(b" k ")?;
        push_number(line, publication.k)?;
        line.extend_from_slice(b" epsilon ")?;
        push_number(line, publication.epsilon)?;
    }
    Ok(())
}

/// Writes the places of each monitor behind a line.
pub fn push_cut(line: &mut Vec<u8>, cut: &Cut) -> Result<(), AllocError>
    ensures { OnOk result (line.new.items ≡ line.old.items ++ cut_text cut.now) }
{
    for i in 0..cut.len() {
        push_monitor(line, i as u64 + 1, cut.at(i))?;
    }
    Ok(())
}

fn push_monitor(line: &mut Vec<u8>, mon: u64, places: &Places) -> Result<(), AllocError>
    ensures { OnOk result (line.new.items ≡ line.old.items ++ (codes " " ++ decimal mon ++ codes ":" ++ places_text places.now)) }
{
    line.extend_from_slice(b" ")?;
    push_number(line, mon)?;
    line.extend_from_slice(b":")?;
    push_places(line, places)
}

fn push_places(line: &mut Vec<u8>, places: &Places) -> Result<(), AllocError>
    ensures { OnOk result (line.new.items ≡ line.old.items ++ places_text places.now) }
{
    for i in 0..places.len() {
        push_place(line, places.at(i), i > 0)?;
    }
    Ok(())
}

/// A place, which may follow another.
fn push_place(line: &mut Vec<u8>, place: u32, follows: bool) -> Result<(), AllocError>
    ensures { OnOk result (line.new.items ≡ line.old.items ++ ((if follows then codes "," else []) ++ decimal place)) }
{
    if follows {
        line.extend_from_slice(b",")?;
    }
    push_number(line, place)
}

fn push_names(line: &mut Vec<u8>, members: &ObjSet, names: &Catalog) -> Result<(), AllocError>
    requires { All (λ o. o ≤ length names.now) members.now }
    ensures { OnOk result (line.new.items ≡ line.old.items ++ names_text names.now members.now) }
{
    for i in 0..members.len() {
        push_name(line, names.name(members.at(i)))?;
    }
    Ok(())
}

fn push_name(line: &mut Vec<u8>, name: &[u8]) -> Result<(), AllocError>
    ensures { OnOk result (line.new.items ≡ line.old.items ++ (codes " " ++ name.now)) }
{
    line.extend_from_slice(b" ")?;
    line.extend_from_slice(name)
}
