//! Pairs that are made one after the other, each in its short form at once.

ghost use Rattle.std.specs.Prelude.{◌≡◌, ◌↔◌, ◌++◌, ◌∷◌, [], IfOk, IfErr, IsOk, OnOk, OnErr, ℕ, List, length, map};
ghost use Rattle.tk_base.specs.Ascending.{IsAscending, FirstDisorder, IsKnownOrder};
ghost use Rattle.tk_base.specs.Pairs.{objects_of, pairs_of, pairs_in, narrow_pair_of};

use crate::ids::Obj;
use crate::memory::NoMemory;
use crate::narrow_pair::NarrowPair;
use crate::numbered::NotAscending;
use crate::pairs::{Form, Pairs};
use std::alloc::Global;
use std::marker::Model;

/// Pairs that grow at their end, which contracts see as the list so far. Each takes 8 bytes as long as every number fits
/// in 4, else 32: the first number that does not fit turns the whole list wide.
#[derive(Debug, Drop)]
pub struct PairsBuilder {
    form: Form,
    /// The last object, 0 where there is none.
    last: u32,
    /// The first place at which the objects stop to ascend.
    disorder: Option<usize>,
}

impl Model for PairsBuilder {
    ghost use Rattle.std.specs.Prelude.{ℕ, ℤ, List};
    ghost use Rattle.tk_base.specs.Ascending.{IsKnownOrder};
    ghost use Rattle.tk_base.specs.Pairs.{pairs_in, objects_of};

    ghost Value = { List (ℕ × ℤ) };

    ghost view = { λ b. pairs_in b.form };

    ghost invariant = { λ b. IsKnownOrder (objects_of (pairs_in b.form)) b.last b.disorder };
}

/// The same pairs in 32 bytes each, and one more.
fn widened(
    alloc: Global,
    list: &[NarrowPair],
    last: (Obj, i128),
) -> Result<Vec<(Obj, i128)>, NoMemory>
    ensures { IfOk result (λ wide. pairs_of wide.items ≡ map narrow_pair_of list.now ++ (last.0.0, last.1) ∷ []) }
{
    let mut wide = Vec::with_capacity(alloc, list.len() + 1)?;
    for narrow in list {
        wide.push_reserved(narrow.wide());
    }
    wide.push_reserved(last);
    Ok(wide)
}

/// Adds a pair, in the form of the others where it fits.
fn append(form: &mut Form, o: Obj, number: i128) -> Result<(), NoMemory>
    ensures ok { OnOk result (pairs_in form.new ≡ pairs_in form.old ++ (o.0, number) ∷ []) }
    ensures err { OnErr result (pairs_in form.new ≡ pairs_in form.old) }
{
    match form {
        Form::Narrow(list) => match NarrowPair::of(o, number) {
            Some(narrow) => list.push(narrow)?,
            None => {
                let wide = widened(*list.allocator(), list.as_slice(), (o, number))?;
                *form = Form::Wide(wide);
            }
        },
        Form::Wide(list) => list.push((o, number))?,
    }
    Ok(())
}

/// Where the objects stop to ascend with one more, at this place.
fn disorder_behind(disorder: Option<usize>, last: u32, place: usize, o: Obj) -> Option<usize>
    ensures { (xs : List ℕ) → length xs ≡ place → IsKnownOrder xs last disorder → IsKnownOrder (xs ++ o.0 ∷ []) o.0 result }
{
    if disorder.is_none() && o.0 <= last {
        return Some(place);
    }
    disorder
}

impl PairsBuilder {
    /// No pairs, with room for so many.
    pub fn with_capacity(alloc: Global, count: usize) -> Result<PairsBuilder, NoMemory>
        ensures { IfOk result (λ b. b ≡ []) }
    {
        Ok(PairsBuilder {
            form: Form::Narrow(Vec::with_capacity(alloc, count)?),
            last: 0,
            disorder: None,
        })
    }

    /// Adds a pair. The one that turns the list wide takes time in proportion to the list, each other constant time on
    /// average.
    pub fn push(&mut self, o: Obj, number: i128) -> Result<(), NoMemory>
        ensures ok { OnOk result (self.new ≡ self.old ++ (o.0, number) ∷ []) }
        ensures err { OnErr result (self.new ≡ self.old) }
    {
        let place = self.form.len();
        append(&mut self.form, o, number)?;
        self.disorder = disorder_behind(self.disorder, self.last, place, o);
        self.last = o.0;
        Ok(())
    }

    /// The pairs, where their objects ascend. Takes no memory, and constant time.
    pub fn finish(self) -> Result<Pairs, NotAscending>
        ensures ok { IfOk result (λ p. p ≡ self) }
        ensures ascends { IsOk result ↔ IsAscending (objects_of self) }
        ensures place { IfErr result (λ e. FirstDisorder (objects_of self) e.place) }
    {
        match self.disorder {
            Some(place) => Err(NotAscending { place }),
            None => Ok(Pairs { form: self.form }),
        }
    }
}
