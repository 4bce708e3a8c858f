//! The journal to which a desk appends the texts of its orders.
ghost use Rattle.std.specs.Prelude.{◌≡◌, ◌≢◌, ◌⊎◌, ◌++◌, ◌∷◌, [], true, false, ℕ, List, string_bytes};

/// A journal of orders on a disk.
///
/// Definitions see the texts of the orders that it is known to keep, the oldest first (`kept`), that of the last order if
/// the disk may have it or not, and else none (`doubt`), and which texts a start may find after a crash (`may_find`).
///
/// The methods take no handle.
pub trait OrderJournal: Drop {
    ghost kept: { Self → List (List ℕ) };

    ghost doubt: { Self → List (List ℕ) };

    ghost may_find: { Self → List (List ℕ) → Type 0 };

    /// Whether no order is in doubt. If one is, tries to save it first.
    fn is_ready(&mut self) -> bool
        ensures kept { result ≡ true → kept self.new ≡ kept self.old ++ doubt self.old }
        ensures doubt { result ≡ true → doubt self.new ≡ [] }
        ensures kept_behind { result ≡ false → kept self.new ≡ kept self.old }
        ensures doubt_behind { result ≡ false → doubt self.new ≡ doubt self.old }
        ensures behind { result ≡ false → doubt self.old ≢ [] };

    /// Appends the text of an order. Returns whether the disk is known to have it.
    fn append(&mut self, text: String) -> bool
        requires ready { doubt self.old ≡ [] }
        ensures kept { result ≡ true → kept self.new ≡ kept self.old ++ string_bytes text ∷ [] }
        ensures doubt { result ≡ true → doubt self.new ≡ [] }
        ensures kept_behind { result ≡ false → kept self.new ≡ kept self.old }
        ensures doubt_behind { result ≡ false → doubt self.new ≡ string_bytes text ∷ [] };

    /// A start after a crash finds the texts that are kept, and then the one in doubt or none.
    fn survives(&self)
        ensures { (found : List (List ℕ)) → may_find self.now found
            → (found ≡ kept self.now) ⊎ (found ≡ kept self.now ++ doubt self.now) };
}
