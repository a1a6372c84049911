//! How far a coordinator is told, and its next turn.

ghost use Rattle.std.specs.Prelude.{◌≡◌, ◌++◌, IfOk, OnOk, slice_get, Some};
ghost use Rattle.tk_journal.specs.declared.noted.Noted.TheVariants.{Got, Tuned as TunedTo};
ghost use Rattle.tk_show.specs.Turned.{input_text, round_text, text_if, turn_text, turned_after, turned_text, turns_after};

use crate::frames::push_frame;
use crate::noted::push_batch;
use crate::words::push_named;
use std::alloc::AllocError;
use tk_base::Mon;
use tk_frames::Frame;
use tk_input::Catalog;
use tk_journal::{Noted, Turn, TurnKind};

/// How many entries of a journal are told, and how many of its turns.
#[derive(Drop)]
pub struct Turned {
    pub entries: usize,
    pub turns: usize,
}

fn push_got(line: &mut Vec<u8>, from: Mon, frame: &Frame, names: &Catalog) -> Result<(), AllocError>
    ensures { OnOk result (line.new.items ≡ line.old.items ++ input_text names.now (Got from frame.now)) }
{
    push_named(line, b"up ", from.0)?;
    line.extend_from_slice(b": ")?;
    push_frame(line, frame, names)
}

fn push_tuned(line: &mut Vec<u8>, k: u32, epsilon: i128, names: &Catalog) -> Result<(), AllocError>
    ensures { OnOk result (line.new.items ≡ line.old.items ++ input_text names.now (TunedTo k epsilon)) }
{
    let _ = names;
    push_named(line, b"retune k ", k)?;
    push_named(line, b" epsilon ", epsilon)
}

/// What a turn begins with.
fn push_input(line: &mut Vec<u8>, input: &Noted, names: &Catalog) -> Result<(), AllocError>
    ensures { OnOk result (line.new.items ≡ line.old.items ++ input_text names.now input.now) }
{
    match input {
        Noted::Got(from, frame) => push_got(line, *from, frame.get(), names),
        Noted::Tuned(k, epsilon) => push_tuned(line, *k, epsilon.get(), names),
        Noted::Sent(..) | Noted::Published(..) => Ok(()),
    }
}

fn push_if(line: &mut Vec<u8>, holds: bool, text: &[u8]) -> Result<(), AllocError>
    ensures { OnOk result (line.new.items ≡ line.old.items ++ text_if holds text.now) }
{
    if holds {
        line.extend_from_slice(text)
    } else {
        Ok(())
    }
}

fn push_round(line: &mut Vec<u8>, kind: TurnKind) -> Result<(), AllocError>
    ensures { OnOk result (line.new.items ≡ line.old.items ++ round_text kind) }
{
    match kind {
        TurnKind::Stale => line.extend_from_slice(b"; stale"),
        TurnKind::Short => line.extend_from_slice(b"; short round"),
        TurnKind::Full => line.extend_from_slice(b"; full round"),
        TurnKind::End => line.extend_from_slice(b"; round ends"),
        TurnKind::Tune | TurnKind::Note | TurnKind::Wide => Ok(()),
    }
}

fn push_kind(line: &mut Vec<u8>, turn: &Turn) -> Result<(), AllocError>
    ensures { OnOk result (line.new.items ≡ line.old.items ++ turn_text (Some turn.now)) }
{
    push_if(line, turn.fails, b"; short test fails")?;
    push_round(line, turn.kind)?;
    push_if(line, turn.widens, b"; wide round")
}

/// The kind of the turn at a place, if there is one. Answers the next place.
fn push_kind_at(line: &mut Vec<u8>, turns: &[Turn], place: usize) -> Result<usize, AllocError>
    ensures text { OnOk result (line.new.items ≡ line.old.items ++ turn_text (slice_get turns.now place)) }
    ensures next { IfOk result (λ next. next ≡ turns_after place (slice_get turns.now place)) }
{
    match turns.get(place) {
        Some(turn) => {
            push_kind(line, turn)?;
            Ok(place + 1)
        }
        None => Ok(place),
    }
}

/// The next turn, if there is one, with its kind and all that it sends.
pub fn push_turn(
    line: &mut Vec<u8>,
    turned: &mut Turned,
    journal: &[Noted],
    turns: &[Turn],
    names: &Catalog,
) -> Result<(), AllocError>
    ensures text { OnOk result (line.new.items ≡ line.old.items
        ++ turned_text names.now journal.now turns.now turned.old (slice_get journal.now turned.old.entries)) }
    ensures further { OnOk result (turned.new
        ≡ turned_after journal.now turns.now turned.old (slice_get journal.now turned.old.entries)) }
{
    let Some(input) = journal.get(turned.entries) else {
        return Ok(());
    };
    push_input(line, input, names)?;
    turned.turns = push_kind_at(line, turns, turned.turns)?;
    turned.entries = push_batch(line, journal, turned.entries + 1, names)?;
    Ok(())
}
