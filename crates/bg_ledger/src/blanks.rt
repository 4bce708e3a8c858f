//! New tokens for a call of a function that is generic over `Names`.
ghost use Rattle.std.specs.Prelude.{◌≡◌, ◌<◌, drop, get_or, length};
ghost use Rattle.bg_ledger.specs.Tokens.{zero};

use crate::tokens::{NewTokens, RecordToken, SeatToken};
use std::marker::Model;

/// New tokens for 2,048 seats and their records, in order of index. Contracts see their names. They take no space at
/// run time.
#[derive(Drop)]
pub struct Blanks {
    tokens: NewTokens,
}

impl Model for Blanks {
    ghost use Rattle.std.specs.Prelude.{List, ℕ};

    ghost Value = { List ℕ };

    ghost view = { λ b. b.tokens.names };
}

impl Blanks {
    /// New tokens for 2,048 seats.
    pub fn new() -> Blanks
        ensures { length result ≡ 2048 }
    {
        Blanks {
            tokens: NewTokens::new(),
        }
    }

    /// Takes out the tokens of the first name.
    pub(crate) fn take(&mut self) -> (RecordToken, SeatToken)
        requires { 0 < length self.old }
        ensures own { (result.0.name ≡ get_or self.old 0 0) × (result.0.amounts ≡ zero) }
        ensures seat { (result.1.name ≡ get_or self.old 0 0) × (result.1.amounts ≡ zero) }
        ensures rest { self.new ≡ drop 1 self.old }
    {
        self.tokens.take()
    }
}
