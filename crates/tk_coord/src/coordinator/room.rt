// The room that a turn takes, before anything is noted.
ghost use Rattle.std.specs.Prelude.{◌≡◌, ◌<◌, IfOk, IfErr, OnOk};

use crate::journal::Journal;
use crate::turns::Turns;
use tk_base::NoMemory;
use tk_frames::{Frame, KeptFrame};

/// Takes room for so many entries and for one turn.
pub fn make_room(journal: &mut Journal, turns: &mut Turns, more: usize) -> Result<(), NoMemory>
    ensures room { OnOk result (journal.new.spare ≡ more) }
    ensures turn { OnOk result (0 < turns.new.spare) }
    ensures entries { journal.new.entries ≡ journal.old.entries }
    ensures monitors { journal.new.monitors ≡ journal.old.monitors }
    ensures list { turns.new.list ≡ turns.old.list }
{
    journal.reserve(more)?;
    turns.reserve()
}

/// Takes room for a frame, for so many entries and for one turn, and hands the frame back where there is none.
pub fn keep(
    journal: &mut Journal,
    turns: &mut Turns,
    frame: Frame,
    more: usize,
) -> Result<KeptFrame, Frame>
    ensures ok { IfOk result (λ k. k ≡ frame) }
    ensures err { IfErr result (λ f. f ≡ frame) }
    ensures room { IfOk result (λ _. journal.new.spare ≡ more) }
    ensures turn { IfOk result (λ _. 0 < turns.new.spare) }
    ensures entries { journal.new.entries ≡ journal.old.entries }
    ensures monitors { journal.new.monitors ≡ journal.old.monitors }
    ensures list { turns.new.list ≡ turns.old.list }
{
    match make_room(journal, turns, more) {
        Ok(()) => KeptFrame::new(journal.alloc(), frame),
        Err(_fault) => Err(frame),
    }
}
