//! What a retune asks for, in little room.

ghost use Rattle.std.specs.Prelude.{◌≡◌, IfOk};

use std::alloc::Global;
use std::marker::Model;
use tk_base::NoMemory;

/// The k and epsilon that a retune asks for, behind a pointer, so that events stay small. Contracts see
/// the two numbers.
#[derive(Debug, Drop)]
pub struct Retuning {
    numbers: Box<(u64, u128)>,
}

impl Model for Retuning {
    ghost use Rattle.tk_input.specs.Event.{Tuning};

    ghost Value = { Tuning };

    ghost view = { λ r. record { k = r.numbers.value.0; epsilon = r.numbers.value.1 } };
}

impl Retuning {
    /// Takes the room for two numbers.
    pub fn new(alloc: Global, k: u64, epsilon: u128) -> Result<Retuning, NoMemory>
        ensures { IfOk result (λ r. r ≡ record { k = k; epsilon = epsilon }) }
    {
        match Box::new(alloc, (k, epsilon)) {
            Ok(numbers) => Ok(Retuning { numbers }),
            Err(_) => Err(NoMemory),
        }
    }

    /// The k that is asked for.
    pub fn k(&self) -> u64
        ensures { result ≡ self.now.k }
    {
        self.numbers.0
    }

    /// The epsilon that is asked for.
    pub fn epsilon(&self) -> u128
        ensures { result ≡ self.now.epsilon }
    {
        self.numbers.1
    }

    /// The same numbers once more.
    pub fn try_clone(&self) -> Result<Retuning, NoMemory>
        ensures { IfOk result (λ r. r ≡ self.now) }
    {
        Ok(Retuning {
            numbers: self.numbers.clone()?,
        })
    }
}
