//! Pairs of tokens. The two tokens of a pair have one name, and always say the same four numbers: they are changed
//! together, and each part with its token can prove what the other part's token says. They take no space at run time.
ghost use Rattle.std.specs.Prelude.{◌≡◌, List, ℕ};
ghost use Rattle.bg_ledger.specs.Tokens.{Amounts, all_own, amounts_of, record_owns, seat_owns, zero};

use crate::holding::Holding;
use std::marker::Model;

/// The token of a record.
#[derive(Drop)]
pub(crate) struct RecordToken {
    ghost name: { ℕ },
    ghost amounts: { Amounts },
}

impl Model for RecordToken {
    ghost also_owns = { λ t. record_owns t.name t.amounts };
}

/// The token of a seat.
#[derive(Drop)]
pub(crate) struct SeatToken {
    ghost name: { ℕ },
    ghost amounts: { Amounts },
}

impl Model for SeatToken {
    ghost also_owns = { λ t. seat_owns t.name t.amounts };
}

/// New pairs, with different names. Their numbers are 0.
#[derive(Drop)]
pub(crate) struct NewTokens {
    ghost names: { List ℕ },
}

impl Model for NewTokens {
    ghost also_owns = { λ t. all_own t.names };
}

// A token exists only in proofs, so another thread may have it.
unsafe impl Send for RecordToken {}

unsafe impl Send for SeatToken {}

unsafe impl Send for NewTokens {}

impl NewTokens {
    ghost use Rattle.std.specs.Prelude.{◌<◌, drop, get_or, length};

    /// 2,048 new pairs.
    pub(crate) fn new() -> NewTokens
        ensures { length result.names ≡ 2048 }
    {
        NewTokens {}
    }

    /// Takes out the first pair.
    pub(crate) fn take(&mut self) -> (RecordToken, SeatToken)
        requires { 0 < length self.old.names }
        ensures own { (result.0.name ≡ get_or self.old.names 0 0) × (result.0.amounts ≡ zero) }
        ensures seat { (result.1.name ≡ get_or self.old.names 0 0) × (result.1.amounts ≡ zero) }
        ensures rest { self.new.names ≡ drop 1 self.old.names }
    {
        (RecordToken {}, SeatToken {})
    }
}

/// Makes the two tokens of a name say the quantities of `_next`. It proves that they said the same.
pub(crate) fn swap(own: &mut RecordToken, seat: &mut SeatToken, _next: &Holding)
    requires name { own.old.name ≡ seat.old.name }
    ensures equal { own.old.amounts ≡ seat.old.amounts }
    ensures own { (own.new.name ≡ own.old.name) × (own.new.amounts ≡ amounts_of _next.now) }
    ensures seat { (seat.new.name ≡ seat.old.name)
        × (seat.new.amounts ≡ amounts_of _next.now) }
{}
