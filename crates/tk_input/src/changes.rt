//! The changes of a log, in 8 bytes each where all amounts are small.

ghost use Rattle.std.specs.Prelude.{◌≡◌, ◌<◌, ◌++◌, ◌∷◌, [], IfOk, IsTrue, OnOk, OnErr, length, map, slice_get, Some};
ghost use Rattle.tk_base.specs.Pairs.{narrow_pair_of};
ghost use Rattle.tk_input.specs.Changes.{AreSmall, changes_of, grown_by, inserted, narrow_changes_of, pair_of};

use crate::change::Change;
use std::alloc::Global;
use std::marker::Model;
use tk_base::{NarrowPair, NoMemory};

/// Some changes, all in one form.
#[derive(Drop)]
enum Form {
    Narrow(Vec<NarrowPair>),
    Wide(Vec<Change>),
}

/// A list of changes that grows. Each takes 8 bytes as long as every amount fits in 4, else 32: the first amount that
/// does not fit turns the whole list wide.
#[derive(Drop)]
pub struct Changes {
    form: Form,
}

impl Model for Changes {
    ghost use Rattle.std.specs.Prelude.{ℕ, ℤ, List};

    ghost Value = { List (ℕ × ℤ) };

    ghost use Rattle.tk_input.specs.Changes.{changes_in, IsKept};

    ghost view = { λ c. changes_in c.form };

    ghost invariant = { λ c. IsKept c.form };
}

/// A change that was kept in 8 bytes.
fn change_of(narrow: NarrowPair) -> Change
    ensures { pair_of result ≡ narrow_pair_of narrow }
{
    let (obj, by) = narrow.wide();
    Change { obj, by }
}

/// The same changes in 32 bytes each, and one more. Room for all is taken first, so that nothing may fail behind it.
fn widened(alloc: Global, list: &[NarrowPair], last: Change) -> Result<Vec<Change>, NoMemory>
    ensures { IfOk result (λ wide. changes_of wide.items ≡ narrow_changes_of list.now ++ pair_of last ∷ []) }
{
    let mut wide = Vec::with_capacity(alloc, list.len() + 1)?;
    for narrow in list {
        wide.push_reserved(change_of(*narrow));
    }
    wide.push_reserved(last);
    Ok(wide)
}

/// Puts a change at a place, all in 8 bytes.
fn insert_narrow(
    list: &mut Vec<NarrowPair>,
    place: usize,
    change: NarrowPair,
) -> Result<(), NoMemory>
    requires { place < length list.old.items }
    ensures ok { OnOk result (narrow_changes_of list.new.items
        ≡ inserted place (narrow_pair_of change) (narrow_changes_of list.old.items)) }
    ensures err { OnErr result (list.new.items ≡ list.old.items) }
{
    list.insert(place, change)?;
    Ok(())
}

/// Puts a change at a place, all in 32 bytes.
fn insert_wide(list: &mut Vec<Change>, place: usize, change: Change) -> Result<(), NoMemory>
    requires { place < length list.old.items }
    ensures ok { OnOk result (changes_of list.new.items ≡ inserted place (pair_of change) (changes_of list.old.items)) }
    ensures err { OnErr result (list.new.items ≡ list.old.items) }
{
    list.insert(place, change)?;
    Ok(())
}

/// The same changes in 32 bytes each, with one more in front of the last.
fn widened_before(
    alloc: Global,
    list: &[NarrowPair],
    change: Change,
) -> Result<Vec<Change>, NoMemory>
    requires { 0 < length list.now }
    ensures { IfOk result (λ wide. changes_of wide.items ≡ grown_by (pair_of change) (narrow_changes_of list.now)) }
{
    let place = list.len() - 1;
    let mut wide = widened(alloc, &list[..place], change)?;
    wide.push(change_of(list[place]))?;
    Ok(wide)
}

impl Changes {
    /// No changes; takes no memory.
    pub fn new(alloc: Global) -> Changes
        ensures { result ≡ [] }
    {
        Changes {
            form: Form::Narrow(Vec::new(alloc)),
        }
    }

    /// Adds a change. The one that turns the list wide takes time in proportion to the list, each other constant time on
    /// average.
    pub fn push(&mut self, change: Change) -> Result<(), NoMemory>
        ensures ok { OnOk result (self.new ≡ self.old ++ pair_of change ∷ []) }
        ensures err { OnErr result (self.new ≡ self.old) }
    {
        match &mut self.form {
            Form::Narrow(list) => match NarrowPair::of(change.obj, change.by) {
                Some(narrow) => list.push(narrow)?,
                None => {
                    let wide = widened(*list.allocator(), list.as_slice(), change)?;
                    self.form = Form::Wide(wide);
                }
            },
            Form::Wide(list) => list.push(change)?,
        }
        Ok(())
    }

    /// Puts a change in front of the last one. Costs what `push` costs.
    pub fn grow(&mut self, change: Change) -> Result<(), NoMemory>
        requires { 0 < length self.old }
        ensures ok { OnOk result (self.new ≡ grown_by (pair_of change) self.old) }
        ensures err { OnErr result (self.new ≡ self.old) }
    {
        match &mut self.form {
            Form::Narrow(list) => match NarrowPair::of(change.obj, change.by) {
                Some(narrow) => {
                    let place = list.len() - 1;
                    insert_narrow(list, place, narrow)?;
                }
                None => {
                    let wide = widened_before(*list.allocator(), list.as_slice(), change)?;
                    self.form = Form::Wide(wide);
                }
            },
            Form::Wide(list) => {
                let place = list.len() - 1;
                insert_wide(list, place, change)?;
            }
        }
        Ok(())
    }

    /// Gives back the room that is not used.
    pub fn shrink_to_fit(&mut self)
        ensures { self.new ≡ self.old }
    {
        match &mut self.form {
            Form::Narrow(list) => list.shrink_to_fit(),
            Form::Wide(list) => list.shrink_to_fit(),
        }
    }

    /// How many changes there are.
    pub fn len(&self) -> usize
        ensures { result ≡ length self.now }
    {
        match &self.form {
            Form::Narrow(list) => list.len(),
            Form::Wide(list) => list.len(),
        }
    }

    /// Whether each change is kept in 8 bytes.
    pub(crate) fn are_narrow(&self) -> bool
        ensures { IsTrue result → AreSmall self.now }
    {
        match &self.form {
            Form::Narrow(_) => true,
            Form::Wide(_) => false,
        }
    }

    /// The change at a place from 0, in constant time.
    pub fn at(&self, i: usize) -> Change
        requires { i < length self.now }
        ensures { slice_get self.now i ≡ Some (result.obj.0, result.by) }
    {
        match &self.form {
            Form::Narrow(list) => change_of(list[i]),
            Form::Wide(list) => list[i],
        }
    }

    /// A copy of the list, in the same form.
    pub fn try_clone(&self) -> Result<Changes, NoMemory>
        ensures { IfOk result (λ changes. changes ≡ self.now) }
    {
        let form = match &self.form {
            Form::Narrow(list) => Form::Narrow(list.clone()?),
            Form::Wide(list) => Form::Wide(list.clone()?),
        };
        Ok(Changes { form })
    }
}
