//! The choice of members by total, where a present member and then the lesser number goes first among equals.

ghost use Rattle.std.specs.Prelude.{◌≡◌, ℕ, ℤ, ◌<◌, ◌≤◌, IfOk, length, map, not, slice_index_or, pos};
ghost use Rattle.std.specs.List.Sorted.{IsPermutation, IsSortedBy};
ghost use Rattle.tk_base.specs.Ascending.{IsAscending, numbers_of};
ghost use Rattle.tk_base.specs.Objects.{is_in};
ghost use Rattle.tk_base.specs.Pairs.{objects_of};
ghost use Rattle.tk_alloc.specs.Pick.{picked};
ghost use Rattle.tk_alloc.specs.Candidates.{candidate, comes_first, up_to};

use crate::candidate::Candidate;
use std::alloc::Global;
use std::cmp::Reverse;
use tk_base::{NoMemory, Obj, ObjSet, Pairs};

/// Whether an object is one of a set.
pub fn is_member(set: &ObjSet, o: Obj) -> bool
    ensures { result ≡ is_in set.now o.0 }
{
    set.has(o)
}

fn candidate_at(totals: &Pairs, old: &ObjSet, place: usize) -> Candidate
    requires { place < length totals.now }
    ensures { result ≡ candidate old.now (slice_index_or {A = ℕ × ℤ} totals.now place (0, pos 0)) }
{
    let (o, total) = totals.at(place);
    Candidate {
        total: Reverse(total),
        newcomer: !is_member(old, o),
        obj: o.0,
    }
}

fn ranked(alloc: Global, totals: &Pairs, old: &ObjSet) -> Result<Vec<Candidate>, NoMemory>
    ensures all { IfOk result (λ v. IsPermutation (map (candidate old.now) totals.now) v.items) }
    ensures order { IfOk result (λ v. IsSortedBy comes_first v.items) }
    ensures ascends { IsAscending (objects_of totals.now) }
{
    let mut list = Vec::with_capacity(alloc, totals.len())?;
    for place in 0..totals.len() {
        list.push(candidate_at(totals, old, place))?;
    }
    list.sort_unstable();
    Ok(list)
}

/// Whether a candidate comes after the last one that goes first.
fn is_past(last: Candidate, candidate: Candidate) -> bool
    ensures { result ≡ comes_first last candidate }
{
    last < candidate
}

fn first_ones(
    alloc: Global,
    totals: &Pairs,
    old: &ObjSet,
    last: Candidate,
) -> Result<Vec<Obj>, NoMemory>
    ensures { IfOk result (λ v. numbers_of v.items ≡ up_to last old.now totals.now) }
{
    let mut list = Vec::new(alloc);
    for place in 0..totals.len() {
        let candidate = candidate_at(totals, old, place);
        if !is_past(last, candidate) {
            list.push(Obj(candidate.obj))?;
        }
    }
    Ok(list)
}

/// The `k` objects that go first. It sorts the objects once.
pub fn pick(alloc: Global, totals: &Pairs, old: &ObjSet, k: u32) -> Result<ObjSet, NoMemory>
    requires some { 0 < k }
    requires enough { k ≤ length totals.now }
    ensures value { IfOk result (λ s. s ≡ picked totals.now old.now k) }
    ensures count { IfOk result (λ s. length s ≡ k) }
{
    let ranked = ranked(alloc, totals, old)?;
    let last = ranked[k as usize - 1];
    let list = first_ones(alloc, totals, old, last)?;
    match ObjSet::new(list) {
        Ok(set) => Ok(set),
        Err(_) => unreachable!(),
    }
}
