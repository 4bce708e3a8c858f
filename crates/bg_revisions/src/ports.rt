//! The ports of a revision.
ghost use Rattle.std.specs.Prelude.{◌≡◌, IfOk};

use std::alloc::{AllocError, Global};
use std::marker::Model;

/// The ports at which a revision's endpoints listen, in order. Contracts see them as a list. The value is one
/// pointer wide.
#[derive(Debug)]
pub struct Ports {
    numbers: Box<Vec<u16>>,
}

impl Drop for Ports {
    /// Drops the fields by one call, so that the proofs of what owns a value are short (CONTRIBUTING.md, "What a check costs").
    fn drop(self) {
        let Ports { numbers: _ } = self;
    }
}

impl Model for Ports {
    ghost use Rattle.std.specs.Prelude.{List, ℕ};

    ghost Value = { List ℕ };

    ghost view = { λ p. p.numbers.value.items };
}

impl Ports {
    /// Makes the ports from a copy of `numbers`. The only error is an allocation failure.
    pub fn new(alloc: Global, numbers: &[u16]) -> Result<Ports, AllocError>
        ensures { IfOk result (λ p. p ≡ numbers.now) }
    {
        let copy = numbers.to_vec(alloc)?;
        Ports::from_vec(alloc, copy)
    }

    /// Makes the ports from `numbers` without a copy. The only error is an allocation failure.
    pub fn from_vec(alloc: Global, numbers: Vec<u16>) -> Result<Ports, AllocError>
        ensures { IfOk result (λ p. p ≡ numbers.items) }
    {
        Ok(Ports {
            numbers: Box::new(alloc, numbers)?,
        })
    }

    /// The ports in order.
    pub fn get(&self) -> &[u16]
        ensures { result.now ≡ self.now }
    {
        self.numbers.as_slice()
    }
}
