//! A turn before it is noted: its statement, its entries, what they send, its kind and the phase behind it.

ghost use Rattle.std.specs.Prelude.{◌≡◌, ◌+◌, ◌≤◌, true, false, if◌then◌else◌};
ghost use Rattle.tk_journal.specs.declared.turn.TurnKind.TheVariants.{Tune, Short, Wide};
ghost use Rattle.tk_coord.specs.Steps.{asks_wide, step_with};

use crate::answer::Progress;
use crate::phase::Phase;
use crate::round::Round;
use tk_alloc::Reported;
use tk_journal::{Noted, Turn, TurnKind};
use tk_rows::Reallocation;

/// What a taken frame brings about: what it tells, what follows, and its turn.
#[derive(Drop)]
pub struct Step {
    pub statement: Statement,
    pub outcome: TurnOutcome,
    /// Whether it is calm is known at its end.
    pub turn: Turn,
}

/// What a taken frame tells of its monitor.
#[derive(Drop)]
pub enum Statement {
    /// The frame is stale.
    Nothing,
    /// A Report is its answer.
    Report,
    /// A Settled is its answer.
    Settled(Progress),
    /// Its values for the open round, which waits for more.
    Values(Reported),
    /// The last values of the open round, which it ends with.
    LastValues,
}

/// What follows: entries, what they send, and what holds after the turn.
#[derive(Drop)]
pub struct TurnOutcome {
    pub entries: Vec<Noted>,
    pub reply: Reply,
    pub phase: Phase,
}

/// What is sent to monitors, but for Stop.
#[derive(Drop)]
pub enum Reply {
    Nothing,
    /// The Collects of a new round. A full one does not ask the monitor with whose Report it begins.
    Ask {
        round: Round,
        opener: Option<Reported>,
    },
    /// The Assigns of a round that has ended.
    Assign(Reallocation),
}

impl Reply {
    /// Whether it opens a wide round.
    pub fn opens_wide(&self) -> bool
        ensures { result ≡ asks_wide self.now }
    {
        match self {
            Reply::Ask { round, .. } => round.wide,
            _ => false,
        }
    }
}

impl TurnOutcome {
    /// The step of a frame that tells this, with a turn of this kind.
    pub fn step(self, statement: Statement, kind: TurnKind, fails: bool) -> Step
        ensures { result ≡ step_with self statement kind fails }
    {
        let turn = Turn {
            kind,
            fails,
            widens: self.reply.opens_wide(),
            calm: false,
        };
        Step {
            statement,
            outcome: self,
            turn,
        }
    }
}

/// The kind of a turn in which a Report passes the short test, by what it sends.
pub fn short_kind(reply: &Reply) -> TurnKind
    ensures { result ≡ (if asks_wide reply.now then Wide else Short) }
{
    if reply.opens_wide() {
        return TurnKind::Wide;
    }
    TurnKind::Short
}

/// The turn of a retune.
pub fn retune_turn(calm: bool) -> Turn
    ensures { result ≡ record { kind = Tune; fails = false; widens = true; calm = calm } }
{
    Turn {
        kind: TurnKind::Tune,
        fails: false,
        widens: true,
        calm,
    }
}
