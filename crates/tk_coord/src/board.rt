// The members and the table of factors, with the own factors in a rank.
ghost use Rattle.std.specs.Prelude.{◌≡◌, ◌≤◌, IfOk, length, Contains};
ghost use Rattle.std.specs.List.{All};
ghost use Rattle.tk_base.specs.Ascending.{IsAscending};
ghost use Rattle.tk_base.specs.Pairs.{objects_of};
ghost use Rattle.tk_border.specs.Levels.{AreMembers};
ghost use Rattle.tk_rows.specs.Factors.{IsFactor};
ghost use Rattle.tk_rows.specs.Replacing.{IsReplacement};
ghost use Rattle.tk_alloc.specs.Resolving.{own_factors, round_border};
ghost use Rattle.tk_coord.specs.Board.{ranks_of, relevelled};
ghost use Rattle.tk_coord.specs.Steps.{IsReplaced};

use crate::entries::objects_of as objects_in;
use std::alloc::Global;
use std::marker::Model;
use tk_base::{NoMemory, Obj, ObjSet, Pairs, Settings};
use tk_rank::Rank;
use tk_rows::{Reallocation, Table};

/// The members and the factors of all nodes.
#[derive(Drop)]
pub struct Board {
    members: ObjSet,
    table: Table,
    /// The own factors of the table, with the members.
    ranks: Rank,
}

impl Model for Board {
    ghost use Rattle.std.specs.Prelude.{◌≡◌};
    ghost use Rattle.tk_coord.specs.Board.{BoardView, ranks_of};

    ghost Value = { BoardView };

    ghost view = { λ b. record { members = b.members; table = b.table } };

    ghost invariant = { λ b. b.ranks ≡ ranks_of b.table b.members };
}

/// The own factor of each object.
fn own_levels(alloc: Global, table: &Table, objects: u32) -> Result<Vec<i128>, NoMemory>
    requires { length table.now.rows ≡ objects }
    ensures { IfOk result (λ v. v.items ≡ own_factors table.now) }
{
    let mut levels = Vec::with_capacity(alloc, objects as usize)?;
    for place in 0..objects {
        levels.push_reserved(table.own(Obj(place + 1)));
    }
    Ok(levels)
}

/// The own factors of a table, with some members.
fn new_ranks(alloc: Global, table: &Table, objects: u32, members: &ObjSet) -> Result<Rank, NoMemory>
    requires objects { length table.now.rows ≡ objects }
    requires few { objects ≤ 65536 }
    requires members { AreMembers objects members.now }
    ensures { IfOk result (λ r. r ≡ ranks_of table.now members.now) }
{
    table.promise();
    let levels = own_levels(alloc, table, objects)?;
    Rank::new(alloc, levels.as_slice(), members)
}

/// Some objects have other own factors.
fn relevel(ranks: &mut Rank, own: &Pairs)
    requires objects { All (λ o. o ≤ length ranks.old.levels) (objects_of own.now) }
    requires small { All (λ p. IsFactor p.1) own.now }
    ensures value { ranks.new ≡ record ranks.old { levels = relevelled ranks.old.levels own.now } }
    ensures ascends { IsAscending (objects_of own.now) }
{
    for place in 0..own.len() {
        let (o, factor) = own.at(place);
        ranks.set(o, factor);
    }
}

impl Board {
    /// These members and this table.
    pub fn new(
        alloc: Global,
        objects: u32,
        members: ObjSet,
        table: Table,
    ) -> Result<Board, NoMemory>
        requires objects { length table.rows ≡ objects }
        requires few { objects ≤ 65536 }
        requires members { AreMembers objects members }
        ensures { IfOk result (λ b. b ≡ record { members = members; table = table }) }
    {
        let ranks = new_ranks(alloc, &table, objects, &members)?;
        Ok(Board {
            members,
            table,
            ranks,
        })
    }

    /// The present members.
    pub fn members(&self) -> &ObjSet
        ensures { result.now ≡ self.now.members }
    {
        &self.members
    }

    /// The factors.
    pub fn table(&self) -> &Table
        ensures { result.now ≡ self.now.table }
    {
        &self.table
    }

    /// The coordinator's border over the objects of some values, in the time of these objects.
    pub fn border_over(
        &self,
        alloc: Global,
        settings: &Settings,
        values: &Pairs,
    ) -> Result<i128, NoMemory>
        requires { All (Contains (objects_of values.now)) self.now.members }
        ensures { IfOk result (λ b. b ≡ round_border settings.now self.now.table self.now.members (objects_of values.now)) }
    {
        let over = objects_in(alloc, values)?;
        Ok(self.ranks.own_border(settings.epsilon(), &over))
    }

    /// Takes the members and the factors of a reallocation.
    pub fn replace(&mut self, reallocation: Reallocation)
        requires fits { IsReplacement self.old.table reallocation }
        requires members { AreMembers (length self.old.table.rows) reallocation.members }
        ensures members { self.new.members ≡ reallocation.members }
        ensures table { IsReplaced self.old.table reallocation self.new.table }
    {
        self.table.replace(&reallocation);
        self.table.promise();
        relevel(&mut self.ranks, &reallocation.own);
        self.ranks.set_members(&reallocation.members);
        self.members = reallocation.members;
    }
}
