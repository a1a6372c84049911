//! Which objects a query watches, and what it sees of a part.

ghost use Rattle.std.specs.Prelude.{◌≡◌, ◌++◌, IfOk, OnOk, length, map, option_map, option_to_list};
ghost use Rattle.tk_input.specs.Catalog.{object_of};
ghost use Rattle.tk_input.specs.Changes.{pair_of};
ghost use Rattle.tk_multi.specs.Projection.{Numbers, anew as anew_of, is_watched, watched_change, watched_in};

use std::alloc::Global;
use std::marker::Model;
use tk_base::{NoMemory, Obj};
use tk_input::{Catalog, Change, Changes, Part};

/// For each object of a catalogue its number among those that a query watches, where it watches it.
#[derive(Debug, Drop)]
pub struct Watch {
    objects: Vec<Option<Obj>>,
}

impl Model for Watch {
    ghost use Rattle.std.specs.Prelude.{ℕ, List, Option, map, option_map};

    ghost Value = { List (Option ℕ) };

    ghost view = { λ w. map (λ o. option_map (λ obj. obj.0) o) w.objects.items };
}

impl Watch {
    /// Finds each object by its name among the names of those that are watched.
    pub fn new(alloc: Global, names: &Catalog, watched: &Catalog) -> Result<Watch, NoMemory>
        ensures value { IfOk result (λ w. w ≡ map (object_of watched.now) names.now) }
        ensures numbers { IfOk result (Numbers (length watched.now)) }
    {
        let mut objects = Vec::with_capacity(alloc, names.len())?;
        for place in 0..names.len() {
            objects.push(watched.find(names.name(Obj(place as u32 + 1))))?;
        }
        Ok(Watch { objects })
    }

    /// The number of an object among those that are watched, in constant time.
    pub fn anew(&self, obj: Obj) -> Option<Obj>
        ensures { option_map (λ o. o.0) result ≡ anew_of self.now obj.0 }
    {
        match self.objects.get((obj.0 as usize).saturating_sub(1)) {
            Some(anew) => *anew,
            None => None,
        }
    }

    /// Whether an object is watched, in constant time.
    pub fn has(&self, obj: Obj) -> bool
        ensures { result ≡ is_watched self.now obj.0 }
    {
        self.anew(obj).is_some()
    }

    /// Adds a change, if its object is watched.
    fn add_to(&self, list: &mut Changes, change: Change) -> Result<(), NoMemory>
        ensures { OnOk result (list.new ≡ list.old ++ option_to_list (watched_change self.now (pair_of change))) }
    {
        if let Some(obj) = self.anew(change.obj) {
            list.push(Change { obj, by: change.by })?;
        }
        Ok(())
    }

    /// The changes of the watched objects, in order, in one pass over the part.
    pub fn part(&self, alloc: Global, part: &Part) -> Result<Part, NoMemory>
        ensures { IfOk result (λ p. p ≡ watched_in self.now part.now) }
    {
        let all = part.changes();
        let mut list = Changes::new(alloc);
        for i in 0..all.len() {
            self.add_to(&mut list, all.at(i))?;
        }
        list.shrink_to_fit();
        Ok(Part::new(list))
    }
}
