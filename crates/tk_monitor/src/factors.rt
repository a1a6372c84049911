//! The factors at one monitor, found in constant time, in little room where most objects were assigned none.

ghost use Rattle.std.specs.Prelude.{◌≡◌, ℕ, ◌+◌, ◌^◌, ◌<◌, ◌≤◌, pos, unsigned_abs, [], ◌∷◌, ◌++◌, length, slice_index, slice_set, All, IfOk, IfErr, OnOk, OnErr};
ghost use Rattle.tk_monitor.specs.Factors.{AreFactors, factor_in, factors_over, HasFactor, HasGot, IsWithFactor, kept_by};

use std::alloc::Global;
use std::marker::Model;
use tk_base::{NoMemory, Obj, Pairs, PairsBuilder};

/// The factors that a monitor was assigned. One that it was not is zero; it takes 4 bytes at most.
#[derive(Debug, Drop)]
pub(crate) struct Factors {
    /// For each object one more than the place of its factor, or 0 where it has none.
    slots: Vec<u32>,
    list: Vec<i128>,
}

impl Model for Factors {
    ghost use Rattle.std.specs.Prelude.{ℤ, List, Option};
    ghost use Rattle.tk_monitor.specs.Factors.{AreFactors, kept_by};

    ghost Value = { List (Option ℤ) };

    ghost view = { λ f. kept_by f.slots.items f.list.items };

    ghost invariant = { λ f. AreFactors f.slots.items f.list.items };
}

/// The slot of an object.
fn slot_of(slots: &[u32], o: Obj) -> usize
    ensures { result ≡ slice_index slots.now o.0 }
{
    match slots.get(o.0 as usize) {
        Some(slot) => *slot as usize,
        None => 0,
    }
}

/// The factor in a slot.
fn read(slots: &[u32], list: &[i128], o: Obj) -> i128
    requires { AreFactors slots.now list.now }
    ensures value { result ≡ factor_in (kept_by slots.now list.now) o.0 }
    ensures size { unsigned_abs result ≤ 2 ^ 112 }
{
    let slot = slot_of(slots, o);
    if slot == 0 {
        return 0;
    }
    list[slot - 1]
}

/// Makes room for the slot of an object.
fn widen(slots: &mut Vec<u32>, o: Obj) -> Result<(), NoMemory>
    ensures within { OnOk result (o.0 < length slots.new.items) }
    ensures same { (q : ℕ) → slice_index slots.new.items q ≡ slice_index slots.old.items q }
{
    let place = o.0 as usize;
    if place >= slots.len() {
        slots.resize(place + 1, 0)?;
    }
    Ok(())
}

/// Gives an object that has none a slot, with the factor zero.
fn add(slots: &mut Vec<u32>, list: &mut Vec<i128>, o: Obj) -> Result<(), NoMemory>
    requires tied { AreFactors slots.old.items list.old.items }
    requires none { slice_index slots.old.items o.0 ≡ 0 }
    ensures list { OnOk result (list.new.items ≡ list.old.items ++ pos 0 ∷ []) }
    ensures slot { OnOk result (HasGot slots.old.items slots.new.items o.0 (length list.old.items + 1)) }
    ensures kept { OnErr result (list.new.items ≡ list.old.items) }
    ensures same { OnErr result ((q : ℕ) → slice_index slots.new.items q ≡ slice_index slots.old.items q) }
{
    let Ok(slot) = u32::try_from(list.len() + 1) else {
        return Err(NoMemory);
    };
    widen(slots, o)?;
    list.push(0)?;
    slots[o.0 as usize] = slot;
    Ok(())
}

impl Factors {
    /// No factors.
    pub fn new(alloc: Global) -> Factors
        ensures { result ≡ [] }
    {
        Factors {
            slots: Vec::new(alloc),
            list: Vec::new(alloc),
        }
    }

    /// The factor of an object, in a constant.
    pub fn of(&self, o: Obj) -> i128
        ensures value { result ≡ factor_in self.now o.0 }
        ensures size { unsigned_abs result ≤ 2 ^ 112 }
    {
        read(self.slots.as_slice(), self.list.as_slice(), o)
    }

    /// The factor of an object, which is kept from now on.
    fn keep(&mut self, o: Obj) -> Result<i128, NoMemory>
        ensures value { IfOk result (λ factor. factor ≡ factor_in self.old o.0) }
        ensures size { IfOk result (λ factor. unsigned_abs factor ≤ 2 ^ 112) }
        ensures same { (q : ℕ) → factor_in self.new q ≡ factor_in self.old q }
        ensures kept { OnOk result (HasFactor self.new o.0) }
        ensures still { (q : ℕ) → HasFactor self.old q → HasFactor self.new q }
    {
        if slot_of(self.slots.as_slice(), o) > 0 {
            return Ok(read(self.slots.as_slice(), self.list.as_slice(), o));
        }
        add(&mut self.slots, &mut self.list, o)?;
        Ok(0)
    }

    /// The factors of the objects that some changes name, which are kept from now on.
    pub fn keep_over(&mut self, alloc: Global, changes: &Pairs) -> Result<Pairs, NoMemory>
        ensures value { IfOk result (λ p. p ≡ factors_over self.old changes.now) }
        ensures sizes { IfOk result (λ p. All (λ c. unsigned_abs c.1 ≤ 2 ^ 112) p) }
        ensures same { (q : ℕ) → factor_in self.new q ≡ factor_in self.old q }
        ensures kept { OnOk result (All (λ c. HasFactor self.new c.0) changes.now) }
    {
        // A field is read for what all factors keep.
        let _ = &self.slots;
        let mut list = PairsBuilder::with_capacity(alloc, changes.len())?;
        for i in 0..changes.len() {
            let (o, _) = changes.at(i);
            list.push(o, self.keep(o)?)?;
        }
        Ok(list.finish().unwrap())
    }

    /// Replaces a factor that is kept, without memory, and answers the one before.
    pub fn replace(&mut self, o: Obj, factor: i128) -> i128
        requires kept { HasFactor self.old o.0 }
        requires size { unsigned_abs factor ≤ 2 ^ 112 }
        ensures before { result ≡ factor_in self.old o.0 }
        ensures size { unsigned_abs result ≤ 2 ^ 112 }
        ensures new { IsWithFactor self.old o.0 factor self.new }
    {
        let before = read(self.slots.as_slice(), self.list.as_slice(), o);
        let place = slot_of(self.slots.as_slice(), o) - 1;
        self.list[place] = factor;
        before
    }
}
