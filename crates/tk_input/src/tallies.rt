//! Counts by name of the reads that failed, and of the most bytes that one took.

ghost use Rattle.std.specs.Prelude.{◌≡◌, ◌≤◌, [], max, IfOk, OnOk, OnErr, IsSome, position, bytes_eq};
ghost use Rattle.tk_input.specs.Files.{one_more};
ghost use Rattle.tk_input.specs.Tallies.{Notes, count_of, faults_of, longest_of};

use std::alloc::Global;
use std::marker::Model;
use tk_base::NoMemory;

/// What is counted of the reads of one name.
#[derive(Debug, Drop)]
struct Tally {
    name: String,
    faults: u64,
    longest: u64,
}

impl Model for Tally {
    ghost use Rattle.std.specs.Prelude.{string_bytes};
    ghost use Rattle.tk_input.specs.Tallies.{Count};

    ghost Value = { Count };

    ghost view = { λ t. record { name = string_bytes t.name; faults = t.faults; longest = t.longest } };
}

/// What is counted of the reads of each name that was read.
#[derive(Debug, Drop)]
pub struct Tallies {
    list: Vec<Tally>,
}

impl Model for Tallies {
    ghost use Rattle.std.specs.Prelude.{List};
    ghost use Rattle.tk_input.specs.Tallies.{Count};

    ghost Value = { List Count };

    ghost view = { λ t. t.list.items };
}

impl Tallies {
    /// No name was read yet.
    pub fn new(alloc: Global) -> Tallies
        ensures { result ≡ [] }
    {
        Tallies {
            list: Vec::new(alloc),
        }
    }

    fn place_of(&self, name: &str) -> Option<usize>
        ensures { result ≡ position (λ c. bytes_eq c.name name.now) self.now }
    {
        self.list.iter().position(|t| t.name.as_str() == name)
    }

    /// How many reads of a name failed.
    pub fn faults(&self, name: &str) -> u64
        ensures { result ≡ faults_of self.now name.now }
    {
        match self.place_of(name) {
            Some(place) => self.list[place].faults,
            None => 0,
        }
    }

    /// The most bytes that one read of a name took.
    pub fn longest(&self, name: &str) -> u64
        ensures { result ≡ longest_of self.now name.now }
    {
        match self.place_of(name) {
            Some(place) => self.list[place].longest,
            None => 0,
        }
    }

    /// Takes the room for what is counted of a name.
    pub fn reserve(&mut self, alloc: Global, name: &str) -> Result<(), NoMemory>
        ensures ok { OnOk result (Notes self.old self.new name.now (faults_of self.old name.now) (longest_of self.old name.now)) }
        ensures err { OnErr result (self.new ≡ self.old) }
    {
        if self.place_of(name).is_some() {
            return Ok(());
        }
        self.list.push(Tally {
            name: String::from_str(alloc, name)?,
            faults: 0,
            longest: 0,
        })?;
        Ok(())
    }

    /// Counts one more failed read of a name that has its room.
    pub fn note_fault(&mut self, name: &str)
        requires { IsSome (count_of self.old name.now) }
        ensures notes { Notes self.old self.new name.now (one_more (faults_of self.old name.now)) (longest_of self.old name.now) }
        ensures kept { faults_of self.old name.now ≤ faults_of self.new name.now }
    {
        if let Some(place) = self.place_of(name) {
            let tally = &mut self.list[place];
            tally.faults = tally.faults.saturating_add(1);
        }
    }

    /// Notes how many bytes a read took, of a name that has its room.
    pub fn note_length(&mut self, name: &str, taken: u64)
        requires { IsSome (count_of self.old name.now) }
        ensures { Notes self.old self.new name.now (faults_of self.old name.now) (max (longest_of self.old name.now) taken) }
    {
        if let Some(place) = self.place_of(name) {
            let tally = &mut self.list[place];
            tally.longest = tally.longest.max(taken);
        }
    }
}
