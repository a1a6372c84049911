// What follows a taken frame: nothing, Assigns or Collects.
ghost use Rattle.std.specs.Prelude.{◌≡◌, ℕ, ◌+◌, true, false, [], length, IfOk};
ghost use Rattle.std.specs.List.{All};
ghost use Rattle.tk_journal.specs.Entries.{IsEntryOf};
ghost use Rattle.tk_coord.specs.Checks.{AreNamed};
ghost use Rattle.tk_coord.specs.Dealing.{AreDealtTo, CanOpenFull, OpensFull, OpensWide};
ghost use Rattle.tk_coord.specs.Ending.{AssignsDecided, CanDealFull, CanDealShort, CanDealWide, EndsDealt, EndsFull, EndsShort, EndsWide, OpensOrEndsFull, at_end};
ghost use Rattle.tk_coord.specs.declared.step.Reply.TheVariants.{Nothing as NoReply};

use crate::board::Board;
use crate::dealing::{Dealt, deal_full, deal_short, deal_wide};
use crate::entries::{assigns, collects, first_objects, objects_of};
use crate::peer::Peer;
use crate::phase::Phase;
use crate::round::Round;
use crate::step::{Reply, TurnOutcome};
use std::alloc::Global;
use std::slice;
use tk_alloc::Reported;
use tk_base::NoMemory;
use tk_journal::Noted;
use tk_rows::Reallocation;

/// What the end of a round looks at.
#[derive(Clone, Copy)]
pub struct Grounds<'a> {
    pub alloc: Global,
    /// With the k and epsilon of the round's end.
    pub phase: Phase,
    /// How many rounds were opened.
    pub rounds: u64,
    pub board: &'a Board,
    pub peers: &'a [Peer],
}

/// Nothing follows.
pub fn nothing(alloc: Global, phase: Phase) -> TurnOutcome
    ensures entries { result.entries.items ≡ [] }
    ensures reply { result.reply ≡ NoReply }
    ensures holds { result.phase ≡ phase }
{
    TurnOutcome {
        entries: Vec::new(alloc),
        reply: Reply::Nothing,
        phase,
    }
}

/// The number of the round that is opened next.
fn next_round(rounds: u64) -> Result<u64, NoMemory>
    ensures { IfOk result (λ n. n ≡ rounds + 1) }
{
    match rounds.checked_add(1) {
        Some(number) => Ok(number),
        None => Err(NoMemory),
    }
}

/// A wide round opens.
pub fn open_wide(alloc: Global, phase: Phase, rounds: u64) -> Result<TurnOutcome, NoMemory>
    ensures opens { IfOk result (OpensWide phase rounds) }
    ensures entries { (n : ℕ) → IfOk result (λ o. All (IsEntryOf phase.settings.monitors n) o.entries.items) }
{
    let settings = phase.settings;
    let number = next_round(rounds)?;
    let asked = first_objects(alloc, settings.objects())?;
    let entries = collects(alloc, number, &asked, settings.monitors(), None)?;
    let round = Round {
        number,
        waiting: true,
        wide: true,
        asked,
    };
    Ok(TurnOutcome {
        entries,
        reply: Reply::Ask {
            round,
            opener: None,
        },
        phase,
    })
}

/// The Collects of a full round, to every monitor but the reporter.
fn ask_others(
    alloc: Global,
    phase: Phase,
    rounds: u64,
    report: Reported,
) -> Result<TurnOutcome, NoMemory>
    ensures opens { IfOk result (OpensFull phase rounds report) }
    ensures entries { (n : ℕ) → IfOk result (λ o. All (IsEntryOf phase.settings.monitors n) o.entries.items) }
{
    let number = next_round(rounds)?;
    let monitors = phase.settings.monitors();
    let asked = objects_of(alloc, &report.values)?;
    let entries = collects(alloc, number, &asked, monitors, Some(report.mon))?;
    let round = Round {
        number,
        waiting: true,
        wide: false,
        asked,
    };
    Ok(TurnOutcome {
        entries,
        reply: Reply::Ask {
            round,
            opener: Some(report),
        },
        phase,
    })
}

/// A full round opens with a Report. With one monitor it ends at once.
pub fn open_full(grounds: Grounds, report: Reported) -> Result<TurnOutcome, NoMemory>
    requires { CanOpenFull grounds.phase.settings grounds.board.now.table grounds.board.now.members grounds.peers.now report }
    ensures opens { IfOk result (OpensOrEndsFull grounds.entry report) }
    ensures entries { (n : ℕ) → IfOk result (λ o. All (IsEntryOf grounds.entry.phase.settings.monitors n) o.entries.items) }
{
    let Grounds { alloc, phase, .. } = grounds;
    if phase.settings.monitors() != 1 {
        return ask_others(alloc, phase, grounds.rounds, report);
    }
    let rounds = next_round(grounds.rounds)?;
    end_full(Grounds { rounds, ..grounds }, slice::from_ref(&report))
}

/// A round ends with this reallocation.
fn assigned(
    alloc: Global,
    peers: &[Peer],
    phase: Phase,
    reallocation: Reallocation,
) -> Result<TurnOutcome, NoMemory>
    requires count { length peers.now ≡ phase.settings.monitors }
    requires named { AreNamed phase.settings.monitors reallocation.at.items }
    ensures assigns { AssignsDecided peers.now phase reallocation result }
    ensures entries { (n : ℕ) → IfOk result (λ o. All (IsEntryOf phase.settings.monitors n) o.entries.items) }
{
    let entries = assigns(alloc, peers, &reallocation)?;
    Ok(TurnOutcome {
        entries,
        reply: Reply::Assign(reallocation),
        phase,
    })
}

/// The Assigns of what was dealt, or a wide round in their place.
fn ended(
    alloc: Global,
    peers: &[Peer],
    phase: Phase,
    rounds: u64,
    dealt: Dealt,
) -> Result<TurnOutcome, NoMemory>
    requires count { length peers.now ≡ phase.settings.monitors }
    requires named { AreDealtTo phase.settings.monitors dealt }
    ensures ends { EndsDealt peers.now phase rounds dealt result }
    ensures entries { (n : ℕ) → IfOk result (λ o. All (IsEntryOf phase.settings.monitors n) o.entries.items) }
{
    match dealt {
        Dealt::Factors(reallocation) => assigned(alloc, peers, phase, reallocation),
        Dealt::PastLimit => open_wide(alloc, phase, rounds),
    }
}

/// A short round, with the Report that passed its test.
pub fn end_short(grounds: Grounds, report: &Reported) -> Result<TurnOutcome, NoMemory>
    requires { CanDealShort grounds report.now }
    ensures ends { IfOk result (EndsShort grounds.entry report.now) }
    ensures entries { (n : ℕ) → IfOk result (λ o. All (IsEntryOf grounds.entry.phase.settings.monitors n) o.entries.items) }
{
    let Grounds { alloc, phase, .. } = grounds;
    let settings = phase.settings;
    let border = grounds.board.border_over(alloc, &settings, &report.values)?;
    let dealt = deal_short(alloc, &settings, grounds.board, report, border)?;
    ended(alloc, grounds.peers, phase, grounds.rounds, dealt)
}

/// The end of a full round.
pub fn end_full(grounds: Grounds, reports: &[Reported]) -> Result<TurnOutcome, NoMemory>
    requires { CanDealFull grounds reports.now }
    ensures ends { IfOk result (EndsFull grounds.entry reports.now) }
    ensures entries { (n : ℕ) → IfOk result (λ o. All (IsEntryOf grounds.entry.phase.settings.monitors n) o.entries.items) }
{
    let Grounds { alloc, phase, .. } = grounds;
    let settings = phase.settings;
    // The number is read for its clause, that there is a monitor.
    let _ = settings.monitors();
    let border = grounds
        .board
        .border_over(alloc, &settings, &reports[0].values)?;
    let dealt = deal_full(alloc, &settings, grounds.board, reports, border)?;
    ended(alloc, grounds.peers, phase, grounds.rounds, dealt)
}

/// The end of a wide round.
pub fn end_wide(grounds: Grounds, reports: &[Reported]) -> Result<TurnOutcome, NoMemory>
    requires { CanDealWide grounds reports.now }
    ensures assigns { IfOk result (EndsWide grounds.entry reports.now) }
    ensures entries { (n : ℕ) → IfOk result (λ o. All (IsEntryOf grounds.entry.phase.settings.monitors n) o.entries.items) }
{
    let Grounds { alloc, phase, .. } = grounds;
    let settings = phase.settings;
    let reallocation = deal_wide(alloc, &settings, grounds.board, reports)?;
    assigned(alloc, grounds.peers, phase, reallocation)
}

/// The end of a round, wide or full, from which the next k and epsilon are in force.
pub fn end_round(
    grounds: Grounds,
    wide: bool,
    reports: &[Reported],
) -> Result<TurnOutcome, NoMemory>
    requires all { wide ≡ true → CanDealWide (at_end grounds) reports.now }
    requires some { wide ≡ false → CanDealFull (at_end grounds) reports.now }
    ensures all { wide ≡ true → IfOk result (EndsWide (at_end grounds.entry) reports.now) }
    ensures some { wide ≡ false → IfOk result (EndsFull (at_end grounds.entry) reports.now) }
    ensures entries { (n : ℕ) → IfOk result (λ o. All (IsEntryOf grounds.entry.phase.next.monitors n) o.entries.items) }
{
    let phase = grounds.phase.closed();
    if wide {
        return end_wide(Grounds { phase, ..grounds }, reports);
    }
    end_full(Grounds { phase, ..grounds }, reports)
}
