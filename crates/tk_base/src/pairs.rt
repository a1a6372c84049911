//! Values and factors by their objects, as frames and rounds hold them, in little room.

ghost use Rattle.std.specs.Prelude.{◌≡◌, ◌<◌, ◌↔◌, IsTrue, IfOk, IfErr, IsOk, IfSome, IfNone, length, map, Some, slice_get, slice_index, Contains};
ghost use Rattle.tk_base.specs.Ascending.{IsAscending, FirstDisorder};
ghost use Rattle.tk_base.specs.Pairs.{objects_of, value_at, pairs_of, pairs_in, narrow_pair_of};

mod builder;

use crate::ids::Obj;
use crate::memory::NoMemory;
use crate::narrow_pair::NarrowPair;
use crate::numbered::{NotAscending, first_disorder, place_of};
pub use builder::PairsBuilder;
use std::alloc::Global;
use std::marker::Model;

/// Some pairs, all in one form.
#[derive(Debug, Drop)]
enum Form {
    Narrow(Vec<NarrowPair>),
    Wide(Vec<(Obj, i128)>),
}

/// Whole numbers under strictly ascending objects from 1, which contracts see as a list of pairs. Each takes 8 bytes
/// where every number fits in 4 and memory for that form was found, else 32.
#[derive(Debug, Drop)]
pub struct Pairs {
    form: Form,
}

impl Form {
    fn len(&self) -> usize
        ensures { result ≡ length (pairs_in self.now) }
    {
        match self {
            Form::Narrow(list) => list.len(),
            Form::Wide(list) => list.len(),
        }
    }
}

impl Model for Pairs {
    ghost use Rattle.std.specs.Prelude.{ℕ, ℤ, List};
    ghost use Rattle.tk_base.specs.Ascending.{IsAscending};
    ghost use Rattle.tk_base.specs.Pairs.{pairs_in, objects_of};

    ghost Value = { List (ℕ × ℤ) };

    ghost view = { λ p. pairs_in p.form };

    ghost invariant = { λ p. IsAscending (objects_of (pairs_in p.form)) };
}

/// The same pairs in 8 bytes each, in one pass: none where they do not ascend, a number takes more than 4 bytes, or no
/// memory is found.
fn narrowed(alloc: Global, list: &[(Obj, i128)]) -> Option<Vec<NarrowPair>>
    ensures same { IfSome result (λ narrow. map narrow_pair_of narrow.items ≡ pairs_of list.now) }
    ensures ascends { IfSome result (λ _. IsAscending (objects_of (pairs_of list.now))) }
{
    let mut narrow = Vec::with_capacity(alloc, list.len()).ok()?;
    let mut before = 0;
    for (obj, number) in list {
        if obj.0 <= before {
            return None;
        }
        before = obj.0;
        narrow.push_reserved(NarrowPair::of(*obj, *number)?);
    }
    Some(narrow)
}

/// Whether two lists have the same pairs, whatever their forms.
fn agree(left: &Pairs, right: &Pairs) -> bool
    ensures { IsTrue result ↔ (left.now ≡ right.now) }
{
    if left.len() != right.len() {
        return false;
    }
    for i in 0..left.len() {
        if left.at(i) != right.at(i) {
            return false;
        }
    }
    true
}

impl Pairs {
    /// Keeps the pairs in 8 bytes each, made in one pass over the list; else, where a number takes more than 4 or no
    /// memory is found for them, the list as it is, in a second pass.
    pub fn new(list: Vec<(Obj, i128)>) -> Result<Pairs, NotAscending>
        ensures ok { IfOk result (λ p. p ≡ pairs_of list.items) }
        ensures ascends { IsOk result ↔ IsAscending (objects_of (pairs_of list.items)) }
        ensures place { IfErr result (λ e. FirstDisorder (objects_of (pairs_of list.items)) e.place) }
    {
        if let Some(narrow) = narrowed(*list.allocator(), list.as_slice()) {
            return Ok(Pairs {
                form: Form::Narrow(narrow),
            });
        }
        match first_disorder(list.as_slice()) {
            Some(place) => Err(NotAscending { place }),
            None => Ok(Pairs {
                form: Form::Wide(list),
            }),
        }
    }

    /// How many pairs there are.
    pub fn len(&self) -> usize
        ensures value { result ≡ length self.now }
        ensures ascends { IsAscending (objects_of self.now) }
    {
        self.form.len()
    }

    /// The pair at a place from 0, in ascending order of objects.
    pub fn at(&self, i: usize) -> (Obj, i128)
        requires { i < length self.now }
        ensures value { slice_get self.now i ≡ Some (result.0.0, result.1) }
        ensures ascends { IsAscending (objects_of self.now) }
    {
        match &self.form {
            Form::Narrow(list) => list[i].wide(),
            Form::Wide(list) => list[i],
        }
    }

    /// The place of an object, in logarithmic time.
    fn place(&self, o: Obj) -> Option<usize>
        ensures within { IfSome result (λ i. i < length self.now) }
        ensures found { IfSome result (λ i. slice_index (objects_of self.now) i ≡ o.0) }
        ensures none { IfNone result (Contains (objects_of self.now) o.0 → ⊥) }
    {
        match &self.form {
            Form::Narrow(list) => place_of(list.as_slice(), o),
            Form::Wide(list) => place_of(list.as_slice(), o),
        }
    }

    /// The number under an object, in logarithmic time.
    pub fn get(&self, o: Obj) -> Option<i128>
        ensures { result ≡ value_at self.now o.0 }
    {
        let place = self.place(o)?;
        let (_, number) = self.at(place);
        Some(number)
    }

    /// The same pairs once more, in the same form.
    pub fn try_clone(&self) -> Result<Pairs, NoMemory>
        ensures { IfOk result (λ p. p ≡ self.now) }
    {
        let form = match &self.form {
            Form::Narrow(list) => Form::Narrow(list.clone()?),
            Form::Wide(list) => Form::Wide(list.clone()?),
        };
        Ok(Pairs { form })
    }
}

impl PartialEq for Pairs {
    ghost use Rattle.std.specs.Prelude.{◌≡◌, ◌↔◌, IsTrue};
    ghost use Rattle.std.specs.Cmp.Lexicographic.{pointwise, lists_per};
    ghost use Rattle.tk_base.specs.Equal.{pair_eq, pairs_equal};

    ghost eq = { pointwise pair_eq };

    ghost laws = { lists_per pairs_equal };

    fn eq(&self, other: &Self) -> bool
        ensures value { result ≡ pointwise pair_eq self.now other.now }
        ensures same { IsTrue result ↔ (self.now ≡ other.now) }
    {
        match (&self.form, &other.form) {
            (Form::Narrow(list), Form::Narrow(others)) => list == others,
            (Form::Wide(list), Form::Wide(others)) => list == others,
            _ => agree(self, other),
        }
    }
}
