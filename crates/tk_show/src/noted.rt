//! What stands in a journal between two inputs, put behind a line.

ghost use Rattle.std.specs.Prelude.{◌≡◌, ◌+◌, ◌≤◌, ◌++◌, IfOk, OnOk, codes, drop, length};
ghost use Rattle.tk_journal.specs.Legal.{is_input as is_input_of};
ghost use Rattle.tk_journal.specs.Line.{kind_text};
ghost use Rattle.tk_journal.specs.declared.noted.Noted.TheVariants.{Sent};
ghost use Rattle.tk_show.specs.Turned.{batch_length, batch_text, members_text, noted_text, published_text, published_title};

use crate::frames::push_frame;
use crate::words::{push_named, push_objects};
use std::alloc::AllocError;
use tk_base::Mon;
use tk_frames::Frame;
use tk_input::Catalog;
use tk_journal::{Noted, Publication, push_cut};

fn push_kind(line: &mut Vec<u8>, last: bool) -> Result<(), AllocError>
    ensures { OnOk result (line.new.items ≡ line.old.items ++ (codes "; " ++ kind_text last)) }
{
    if last {
        line.extend_from_slice(b"; final ")
    } else {
        line.extend_from_slice(b"; set ")
    }
}

fn push_title(line: &mut Vec<u8>, publication: &Publication) -> Result<(), AllocError>
    ensures { OnOk result (line.new.items ≡ line.old.items ++ published_title publication.now) }
{
    push_kind(line, publication.last)?;
    push_named(line, b"", publication.number)?;
    push_named(line, b" k ", publication.k)?;
    push_named(line, b" epsilon ", publication.epsilon)
}

fn push_members(
    line: &mut Vec<u8>,
    publication: &Publication,
    names: &Catalog,
) -> Result<(), AllocError>
    ensures { OnOk result (line.new.items ≡ line.old.items ++ members_text names.now publication.now) }
{
    line.extend_from_slice(b" cut")?;
    push_cut(line, &publication.cut)?;
    line.extend_from_slice(b" members")?;
    push_objects(line, &publication.members, names)
}

/// A set, with its k and epsilon and the cut at which it holds.
fn push_published(
    line: &mut Vec<u8>,
    publication: &Publication,
    names: &Catalog,
) -> Result<(), AllocError>
    ensures { OnOk result (line.new.items ≡ line.old.items ++ published_text names.now publication.now) }
{
    push_title(line, publication)?;
    push_members(line, publication, names)
}

fn push_sent(line: &mut Vec<u8>, to: Mon, frame: &Frame, names: &Catalog) -> Result<(), AllocError>
    ensures { OnOk result (line.new.items ≡ line.old.items ++ noted_text names.now (Sent to frame.now)) }
{
    push_named(line, b"; to ", to.0)?;
    line.extend_from_slice(b" ")?;
    push_frame(line, frame, names)
}

/// What is sent or published.
fn push_noted(line: &mut Vec<u8>, noted: &Noted, names: &Catalog) -> Result<(), AllocError>
    ensures { OnOk result (line.new.items ≡ line.old.items ++ noted_text names.now noted.now) }
{
    match noted {
        Noted::Sent(to, frame) => push_sent(line, *to, frame.get(), names),
        Noted::Published(publication) => push_published(line, publication.get(), names),
        Noted::Got(..) | Noted::Tuned(..) => Ok(()),
    }
}

/// Whether turns begin with the entry.
fn is_input(noted: &Noted) -> bool
    ensures { result ≡ is_input_of noted.now }
{
    matches!(noted, Noted::Got(..) | Noted::Tuned(..))
}

/// All that stands from a place on before the next input. Answers where that, or the end, is.
pub fn push_batch(
    line: &mut Vec<u8>,
    journal: &[Noted],
    from: usize,
    names: &Catalog,
) -> Result<usize, AllocError>
    requires { from ≤ length journal.now }
    ensures text { OnOk result (line.new.items ≡ line.old.items ++ batch_text names.now (drop from journal.now)) }
    ensures end { IfOk result (λ end. end ≡ from + batch_length (drop from journal.now)) }
{
    for i in from..journal.len() {
        let noted = &journal[i];
        if is_input(noted) {
            return Ok(i);
        }
        push_noted(line, noted, names)?;
    }
    Ok(journal.len())
}
