// What the end of a round decides.
ghost use Rattle.std.specs.Prelude.{◌≡◌, true, IfOk};
ghost use Rattle.std.specs.List.{All};
ghost use Rattle.tk_base.specs.Objects.{objects};
ghost use Rattle.tk_base.specs.Pairs.{objects_of};
ghost use Rattle.tk_alloc.specs.Resolving.{IsReady, CanTakePart, objects_over, round_border};
ghost use Rattle.tk_alloc.specs.Rounds.{IsOfSize, AreReports};
ghost use Rattle.tk_journal.specs.Deciding.{full_decides, passes_short_test, short_decides, wide_decides};
ghost use Rattle.tk_coord.specs.Dealing.{IsDealt, IsDecided, dealt_in};

use crate::board::Board;
use std::alloc::Global;
use tk_alloc::{AllocFault, Reported, full_with_border, short_test, short_with_border, wide};
use tk_base::{NoMemory, Settings};
use tk_rows::Reallocation;

/// What is dealt at the end of a round.
#[derive(Drop)]
pub enum Dealt {
    Factors(Reallocation),
    /// A factor would pass its limit.
    PastLimit,
}

/// What was dealt: the settings are within their limits, so only memory can fail.
fn within(dealt: Result<Reallocation, AllocFault>) -> Result<Dealt, NoMemory>
    ensures { result ≡ dealt_in dealt }
{
    match dealt {
        Ok(reallocation) => Ok(Dealt::Factors(reallocation)),
        Err(AllocFault::PastLimit { .. }) => Ok(Dealt::PastLimit),
        Err(AllocFault::NoMemory) => Err(NoMemory),
    }
}

/// The short test of a Report.
pub fn passes(settings: &Settings, board: &Board, report: &Reported) -> bool
    requires ready { IsReady settings.now board.now.table board.now.members (objects_of report.now.values) }
    requires report { CanTakePart board.now.table board.now.members (objects_of report.now.values) report.now }
    ensures { result ≡ passes_short_test settings.now board.now.table board.now.members report.now }
{
    short_test(settings, board.table(), board.members(), report)
}

/// What a short round with a Report deals, with the coordinator's border.
pub fn deal_short(
    alloc: Global,
    settings: &Settings,
    board: &Board,
    report: &Reported,
    border: i128,
) -> Result<Dealt, NoMemory>
    requires ready { IsReady settings.now board.now.table board.now.members (objects_of report.now.values) }
    requires report { CanTakePart board.now.table board.now.members (objects_of report.now.values) report.now }
    requires test { passes_short_test settings.now board.now.table board.now.members report.now ≡ true }
    requires border { border ≡ round_border settings.now board.now.table board.now.members (objects_of report.now.values) }
    ensures { IfOk result (IsDealt board.now.table (short_decides settings.now board.now.table board.now.members report.now)) }
{
    within(short_with_border(
        alloc,
        settings,
        board.table(),
        board.members(),
        report,
        border,
    ))
}

/// What a full round with these reports deals, with the coordinator's border.
pub fn deal_full(
    alloc: Global,
    settings: &Settings,
    board: &Board,
    reports: &[Reported],
    border: i128,
) -> Result<Dealt, NoMemory>
    requires ready { IsReady settings.now board.now.table board.now.members (objects_over reports.now) }
    requires reports { AreReports settings.now.monitors (objects_over reports.now) reports.now }
    requires borders { All (CanTakePart board.now.table board.now.members (objects_over reports.now)) reports.now }
    requires border { border ≡ round_border settings.now board.now.table board.now.members (objects_over reports.now) }
    ensures { IfOk result (IsDealt board.now.table (full_decides settings.now board.now.table board.now.members reports.now)) }
{
    within(full_with_border(
        alloc,
        settings,
        board.table(),
        board.members(),
        reports,
        border,
    ))
}

/// What a wide round with these reports deals.
pub fn deal_wide(
    alloc: Global,
    settings: &Settings,
    board: &Board,
    reports: &[Reported],
) -> Result<Reallocation, NoMemory>
    requires size { IsOfSize settings.now board.now.table }
    requires reports { AreReports settings.now.monitors (objects settings.now.objects) reports.now }
    ensures { IfOk result (IsDecided board.now.table (wide_decides settings.now board.now.table board.now.members reports.now)) }
{
    wide(alloc, settings, board.table(), board.members(), reports)
}
