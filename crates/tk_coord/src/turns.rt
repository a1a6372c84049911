// The turns of the journal, and what is counted of them.
ghost use Rattle.std.specs.Prelude.{◌≡◌, ◌+◌, ◌-◌, ◌<◌, ◌≤◌, cond, not, nat_lt, [], ◌∷◌, ◌++◌, IfOk, OnOk};
ghost use Rattle.tk_journal.specs.Kinds.{is_full_kind, streak_of};
ghost use Rattle.tk_coord.specs.Turns.{streak_with};
ghost use Rattle.tk_journal.specs.RoundEnds.{openings};

use std::alloc::Global;
use std::marker::Model;
use tk_base::NoMemory;
use tk_journal::{Turn, TurnKind};

/// How many short tests may fail one after another before a wide round opens.
const MAX_STREAK: u32 = 8;

/// The turns, how many rounds they opened, and how many short tests failed since all monitors were settled.
#[derive(Debug, Drop)]
pub struct Turns {
    list: Vec<Turn>,
    spare: usize,
    /// Stops at its limit.
    rounds: u64,
    /// Counted up to eight.
    streak: u32,
}

impl Model for Turns {
    ghost use Rattle.std.specs.Prelude.{◌≡◌, ◌+◌, ◌-◌, ◌^◌, ◌≤◌, length, min, vec_capacity};
    ghost use Rattle.tk_journal.specs.Kinds.{streak_of};
    ghost use Rattle.tk_coord.specs.Turns.{TurnsView, up_to_eight};
    ghost use Rattle.tk_journal.specs.RoundEnds.{openings};

    ghost Value = { TurnsView };

    ghost view = { λ t. record { list = t.list.items; spare = t.spare } };

    ghost invariant = { λ t. (length t.list.items + t.spare ≤ vec_capacity t.list)
        × (t.rounds ≡ min (openings t.list.items) (2 ^ 64 - 1))
        × (t.streak ≡ up_to_eight (streak_of t.list.items)) };
}

/// Whether the turn ran a full round.
fn is_full(kind: TurnKind) -> bool
    ensures { result ≡ is_full_kind kind }
{
    matches!(kind, TurnKind::Full)
}

fn one_if(test: bool) -> u64
    ensures value { result ≡ cond test 1 0 }
    ensures small { result ≤ 1 }
{
    if test { 1 } else { 0 }
}

/// How many rounds a turn opens.
fn opened(turn: Turn) -> u64
    ensures { result ≡ openings (turn ∷ []) }
{
    one_if(is_full(turn.kind)) + one_if(turn.widens)
}

/// The short tests that failed in a row after one more turn.
fn streak_after(streak: u32, turn: Turn) -> u32
    ensures { result ≡ streak_with streak turn }
{
    if turn.calm {
        return 0;
    }
    if turn.fails && streak < MAX_STREAK {
        return streak + 1;
    }
    streak
}

impl Turns {
    /// No turn yet.
    pub fn new(alloc: Global) -> Turns
        ensures { result ≡ record { list = []; spare = 0 } }
    {
        Turns {
            list: Vec::new(alloc),
            spare: 0,
            rounds: 0,
            streak: 0,
        }
    }

    /// The turns, in order.
    pub fn as_slice(&self) -> &[Turn]
        ensures { result.now ≡ self.now.list }
    {
        self.list.as_slice()
    }

    /// Takes room for one turn more.
    pub fn reserve(&mut self) -> Result<(), NoMemory>
        ensures ok { OnOk result (0 < self.new.spare) }
        ensures list { self.new.list ≡ self.old.list }
    {
        self.spare = 0;
        self.list.reserve(1)?;
        self.spare = 1;
        Ok(())
    }

    /// Notes a turn, for which there is room.
    pub fn push(&mut self, turn: Turn)
        requires { 0 < self.old.spare }
        ensures { self.new.list ≡ self.old.list ++ turn ∷ [] }
    {
        self.rounds = self.rounds.saturating_add(opened(turn));
        self.streak = streak_after(self.streak, turn);
        self.list.push_reserved(turn);
        self.spare -= 1;
    }

    /// How many rounds were opened, unless they are past counting.
    pub fn rounds(&self) -> Result<u64, NoMemory>
        ensures { IfOk result (λ n. n ≡ openings self.now.list) }
    {
        if self.rounds == u64::MAX {
            return Err(NoMemory);
        }
        Ok(self.rounds)
    }

    /// Whether the next short test that fails opens a wide round.
    pub fn is_tired(&self) -> bool
        ensures { result ≡ not (nat_lt (streak_of self.now.list) 8) }
    {
        self.streak >= MAX_STREAK
    }
}
