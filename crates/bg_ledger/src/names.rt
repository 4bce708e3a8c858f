//! The names of the tokens of a book's seats.
ghost use Rattle.std.specs.Prelude.{◌≤◌, ℕ};
ghost use Rattle.std.proofs.Common.{lit≤};

use std::marker::Brand;

/// The names of the tokens of a book's seats, one for each index, and the number of seats. A caller passes `Brand` to
/// a function that is generic over `Names`, and its proof picks the members.
pub trait Names {
    /// The number of seats.
    ghost seats: { ℕ };

    /// The name of the two tokens of an index.
    ghost name: { ℕ → ℕ };

    /// A book has 1 to 2,048 seats.
    ghost in_range: { (1 ≤ seats) × (seats ≤ 2048) };
}

/// The members if the caller's proof picks none; no blank has this name.
impl Names for Brand {
    ghost seats = { 1 };

    ghost name = { λ _. 0 };

    ghost in_range = { (lit≤ tt, lit≤ tt) };
}
