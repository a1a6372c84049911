// The frames that a monitor sends, made of its board and its places.
ghost use Rattle.std.specs.Prelude.{◌≡◌, ◌<◌, ◌≤◌, IsTrue, length, All, IfOk};
ghost use Rattle.tk_border.specs.Levels.{holds};
ghost use Rattle.tk_frames.specs.declared.frame.Frame.TheVariants as f;
ghost use Rattle.tk_monitor.specs.Kept.{report_on, values_frame};

use crate::board::Board;
use std::alloc::Global;
use tk_base::{NoMemory, ObjSet, Places};
use tk_border::resolution;
use tk_frames::{Frame, KeptFrame};

pub(crate) fn report(alloc: Global, board: &Board, seq: u64) -> Result<KeptFrame, NoMemory>
    requires { 0 < length board.now.members }
    ensures { IfOk result (λ k. k ≡ report_on board.now seq) }
{
    let failed = board.failed(alloc)?;
    let asked = resolution(alloc, board.members(), &failed)?;
    let values = board.values_over(alloc, &asked)?;
    let border = board.border(&asked);
    kept(
        alloc,
        Frame::Report {
            seq,
            border,
            failed,
            values,
        },
    )
}

pub(crate) fn settled(
    alloc: Global,
    next: &[u32],
    seq: u64,
    last: bool,
) -> Result<KeptFrame, NoMemory>
    ensures { IfOk result (λ k. k ≡ f.Settled seq last next.now) }
{
    let places = Places::new(Vec::from_slice(alloc, next)?);
    kept(alloc, Frame::Settled { seq, last, places })
}

pub(crate) fn values(
    alloc: Global,
    board: &Board,
    seq: u64,
    round: u64,
    asked: &ObjSet,
) -> Result<KeptFrame, NoMemory>
    requires members { 0 < length board.now.members }
    requires held { IsTrue (holds asked.now board.now.members) }
    requires asked { All (λ o. o ≤ length board.now.levels) asked.now }
    ensures { IfOk result (λ k. k ≡ values_frame board.now seq round asked.now) }
{
    let values = board.values_over(alloc, asked)?;
    let border = board.border(asked);
    kept(
        alloc,
        Frame::Values {
            round,
            seq,
            border,
            values,
        },
    )
}

fn kept(alloc: Global, frame: Frame) -> Result<KeptFrame, NoMemory>
    ensures { IfOk result (λ k. k ≡ frame) }
{
    match KeptFrame::new(alloc, frame) {
        Ok(kept) => Ok(kept),
        Err(_frame) => Err(NoMemory),
    }
}
