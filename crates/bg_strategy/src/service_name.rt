//! The name of a service.
ghost use Rattle.std.specs.Prelude.{◌≡◌, ℕ, List, IfOk, string_bytes};

use std::alloc::{AllocError, Global};
use std::marker::Model;

/// The name of a Kubernetes Service. Contracts see it as the list of its bytes.
#[derive(Debug)]
pub struct ServiceName {
    text: String,
}

impl Drop for ServiceName {
    /// Drops the fields by one call, so that the proofs of what owns a value are short (CONTRIBUTING.md, "What a check costs").
    fn drop(self) {
        let ServiceName { text: _ } = self;
    }
}

impl Model for ServiceName {
    ghost Value = { List ℕ };

    ghost view = { λ n. string_bytes n.text };
}

impl ServiceName {
    /// Makes a name from a copy of `text`. The only error is an allocation failure.
    pub fn new(alloc: Global, text: &str) -> Result<ServiceName, AllocError>
        ensures { IfOk result (λ n. n ≡ text.now) }
    {
        let copy = String::from_str(alloc, text)?;
        Ok(ServiceName { text: copy })
    }

    /// The text of the name.
    pub fn get(&self) -> &str
        ensures { result.now ≡ self.now }
    {
        self.text.as_str()
    }
}

/// The copy has the same text. The only error is an allocation failure.
impl Clone for ServiceName {
    ghost is_clone = { λ name copy. copy ≡ name };

    fn clone(&self) -> Result<ServiceName, AllocError> {
        Ok(ServiceName {
            text: self.text.clone()?,
        })
    }
}
