//! All bytes that came on a connection. Only proofs read them.
ghost use Rattle.std.specs.Prelude.{◌≡◌, List, ℕ, [], ◌++◌};
ghost use Rattle.std.specs.Borrow.{ftrue};

use std::marker::Model;

/// All bytes that came on a connection. They exist only in proofs, and take no memory.
#[derive(Drop)]
pub struct Seen {
    pub ghost bytes: { List ℕ },
}

impl Model for Seen {
    ghost also_owns = { λ _. ftrue };
}

// Its bytes exist only in proofs, so another thread may have it.
unsafe impl Send for Seen {}

impl Seen {
    /// No bytes.
    pub fn new() -> Seen
        ensures { result.bytes ≡ [] }
    {
        Seen {}
    }

    /// Appends more bytes. It does nothing at run time.
    pub fn add(&mut self, _more: &[u8])
        ensures { self.new.bytes ≡ self.old.bytes ++ _more.now }
    {}
}
