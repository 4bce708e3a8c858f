//! A worker's side.
ghost use Rattle.std.specs.Prelude.{◌≡◌, ◌<◌, nat_lt};
ghost use Rattle.bg_ledger.specs.Holdings.{IsInBounds};
ghost use Rattle.bg_ledger.specs.declared.holding.Holding.{Holding};
ghost use Rattle.bg_ledger.specs.Tokens.{amounts_of};

use crate::holding::Holding;
use crate::names::Names;
use crate::tokens::SeatToken;
use std::marker::{Model, PhantomData};

/// A worker's share of the book: its answered calls, and the request that it holds. The book has a `SeatRecord` of
/// the same index, and only the calls of that record change the seat. A seat can't be dropped: `SeatRecord::reunite`
/// ends it.
pub struct Seat<N: Names> {
    pub(crate) holding: Holding,
    pub(crate) token: SeatToken,
    pub(crate) names: PhantomData<N>,
}

impl<N: Names> Model for Seat<N> {
    ghost Value = { Holding };

    ghost view = { λ seat. seat.holding };

    ghost invariant = { λ seat. IsInBounds N.seats seat.holding
        × (seat.token.name ≡ N.name seat.holding.index)
        × (seat.token.amounts ≡ amounts_of seat.holding) };
}

impl<N: Names> Seat<N> {
    /// Whether the seat holds a request.
    pub fn is_in(&self) -> bool
        ensures { result ≡ nat_lt 0 self.now.number }
    {
        self.number() > 0
    }

    /// The number of the seat's request, at least 1; 0 if it holds none.
    pub fn number(&self) -> u64
        ensures { result ≡ self.now.number }
    {
        self.holding().number
    }

    /// The number of that request's revision; 0 without a request.
    pub fn revision(&self) -> u64
        ensures revision { result ≡ self.now.revision }
        ensures none { self.now.number ≡ 0 → result ≡ 0 }
    {
        self.holding().revision
    }

    /// The port of that request; 0 without a request.
    pub fn port(&self) -> u16
        ensures port { result ≡ self.now.port }
        ensures none { self.now.number ≡ 0 → result ≡ 0 }
    {
        self.holding().port as u16
    }

    /// The number of answered calls; each `enter` and each `leave` counts as one.
    pub fn calls(&self) -> u64
        ensures { result ≡ self.now.calls }
    {
        self.holding().calls
    }

    /// The seat's index among the seats of its book, from 0.
    pub fn index(&self) -> u32
        ensures index { result ≡ self.now.index }
        ensures below { result < N.seats }
    {
        self.holding().index
    }

    /// All quantities of the seat.
    pub(crate) fn holding(&self) -> Holding
        ensures all { result ≡ self.now }
        ensures bounds { IsInBounds N.seats self.now }
    {
        self.holding
    }
}
