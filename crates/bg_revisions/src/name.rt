//! The name of a revision.
ghost use Rattle.std.specs.Prelude.{◌≡◌, IfOk};

use std::alloc::{AllocError, Global};
use std::marker::Model;

/// The name of a revision. Contracts see it as the list of its bytes. The value is one pointer wide.
#[derive(Debug)]
pub struct Name {
    text: Box<String>,
}

impl Drop for Name {
    /// Drops the fields by one call, so that the proofs of what owns a value are short (CONTRIBUTING.md, "What a check costs").
    fn drop(self) {
        let Name { text: _ } = self;
    }
}

impl Model for Name {
    ghost use Rattle.std.specs.Prelude.{List, ℕ, string_bytes};

    ghost Value = { List ℕ };

    ghost view = { λ n. string_bytes n.text.value };
}

impl Name {
    /// Makes a name from a copy of `text`. The only error is an allocation failure.
    pub fn new(alloc: Global, text: &str) -> Result<Name, AllocError>
        ensures { IfOk result (λ n. n ≡ text.now) }
    {
        let copy = String::from_str(alloc, text)?;
        Ok(Name {
            text: Box::new(alloc, copy)?,
        })
    }

    /// The text of the name.
    pub fn get(&self) -> &str
        ensures { result.now ≡ self.now }
    {
        self.text.as_str()
    }
}
