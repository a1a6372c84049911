//! What one record of a file of queries says.

ghost use Rattle.std.specs.Prelude.{◌≡◌, IfOk, bytes_eq};

use std::alloc::Global;
use std::marker::Model;
use tk_base::NoMemory;

/// One query of a file.
#[derive(Debug, Drop)]
pub struct Query {
    name: Vec<u8>,
    k: u64,
    epsilon: u128,
    prefix: Vec<u8>,
}

impl Model for Query {
    ghost use Rattle.tk_multi.specs.Queries.{QueryView};

    ghost Value = { QueryView };

    ghost view = { λ q. record {
      name = q.name.items;
      k = q.k;
      epsilon = q.epsilon;
      prefix = q.prefix.items;
    } };
}

impl Query {
    /// A query of these texts and numbers.
    pub fn new(
        alloc: Global,
        name: &[u8],
        k: u64,
        epsilon: u128,
        prefix: &[u8],
    ) -> Result<Query, NoMemory>
        ensures { IfOk result (λ q. q ≡ record { name = name.now; k = k; epsilon = epsilon; prefix = prefix.now }) }
    {
        Ok(Query {
            name: Vec::from_slice(alloc, name)?,
            k,
            epsilon,
            prefix: Vec::from_slice(alloc, prefix)?,
        })
    }

    /// Its name, of 1 to 255 bytes.
    pub fn name(&self) -> &[u8]
        ensures { result.now ≡ self.now.name }
    {
        self.name.as_slice()
    }

    /// Whether these bytes are its name.
    pub fn is_named(&self, name: &[u8]) -> bool
        ensures { result ≡ bytes_eq name.now self.now.name }
    {
        name == self.name.as_slice()
    }

    /// How many objects its set has.
    pub fn k(&self) -> u64
        ensures { result ≡ self.now.k }
    {
        self.k
    }

    /// By how much an outsider may pass a member.
    pub fn epsilon(&self) -> u128
        ensures { result ≡ self.now.epsilon }
    {
        self.epsilon
    }

    /// What the names of its objects begin with.
    pub fn prefix(&self) -> &[u8]
        ensures { result.now ≡ self.now.prefix }
    {
        self.prefix.as_slice()
    }
}
