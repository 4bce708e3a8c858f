//! The book's side.
ghost use Rattle.std.specs.Prelude.{◌≡◌, ◌+◌, ◌<◌, ◌^◌, drop};
ghost use Rattle.bg_ledger.specs.Blanks.{AreFrom};
ghost use Rattle.bg_ledger.specs.Holdings.{IsInBounds, fresh, after_enter, after_leave};
ghost use Rattle.bg_ledger.specs.declared.holding.Holding.{Holding};
ghost use Rattle.bg_ledger.specs.Tokens.{amounts_of};

use crate::blanks::Blanks;
use crate::holding::Holding;
use crate::names::Names;
use crate::seat::Seat;
use crate::tokens::{RecordToken, swap};
use std::marker::{Model, PhantomData};

/// A book's record of the seat of the same index: the calls that the book answered to it.
#[derive(Drop)]
pub struct SeatRecord<N: Names> {
    holding: Holding,
    token: RecordToken,
    names: PhantomData<N>,
}

impl<N: Names> Model for SeatRecord<N> {
    ghost Value = { Holding };

    ghost view = { λ own. own.holding };

    ghost invariant = { λ own. (own.token.name ≡ N.name own.holding.index)
        × (own.token.amounts ≡ amounts_of own.holding) };
}

/// Makes the record and the seat of an index below the number of seats, from the first of the blanks. The seat holds
/// no request and has no answered call. The call allocates nothing.
pub fn pair<N: Names>(index: u32, blanks: &mut Blanks) -> (SeatRecord<N>, Seat<N>)
    requires index { index < N.seats }
    requires blanks { AreFrom N.Names index blanks.old }
    ensures seat { result.1 ≡ fresh index }
    ensures own { result.0 ≡ result.1 }
    ensures blanks { AreFrom N.Names (index + 1) blanks.new }
{
    let (own, seat) = blanks.take();
    let holding = Holding {
        index,
        calls: 0,
        number: 0,
        revision: 0,
        port: 0,
    };
    let record = SeatRecord {
        holding,
        token: own,
        names: PhantomData,
    };
    let seat = Seat {
        holding,
        token: seat,
        names: PhantomData,
    };
    (record, seat)
}

impl<N: Names> SeatRecord<N> {
    /// Sets both sides to new quantities. It proves that they were equal.
    fn set(&mut self, seat: &mut Seat<N>, next: Holding)
        requires index { self.old.index ≡ seat.old.index }
        requires next { next.index ≡ seat.old.index }
        requires bounds { IsInBounds N.seats next }
        ensures equal { self.old ≡ seat.old }
        ensures seat { seat.new ≡ next }
        ensures own { self.new ≡ next }
    {
        swap(&mut self.token, &mut seat.token, &next);
        self.holding = next;
        seat.holding = next;
    }

    /// Counts a call by which the seat gets a request, with this number, revision and port.
    pub fn enter(&mut self, seat: &mut Seat<N>, number: u64, revision: u64, port: u16)
        requires index { self.old.index ≡ seat.old.index }
        requires out { seat.old.number ≡ 0 }
        requires number { 0 < number }
        requires calls { seat.old.calls < 2 ^ 60 }
        ensures equal { self.old ≡ seat.old }
        ensures seat { seat.new ≡ after_enter seat.old number revision port }
        ensures own { self.new ≡ seat.new }
    {
        let before = seat.holding();
        let next = Holding {
            index: before.index,
            calls: before.calls + 1,
            number,
            revision,
            port: port as u64,
        };
        self.set(seat, next);
    }

    /// Counts a call by which the seat's request leaves. Gives the number and the revision of that request.
    pub fn leave(&mut self, seat: &mut Seat<N>) -> (u64, u64)
        requires index { self.old.index ≡ seat.old.index }
        requires is_in { 0 < seat.old.number }
        ensures equal { self.old ≡ seat.old }
        ensures answer { result ≡ (seat.old.number, seat.old.revision) }
        ensures seat { seat.new ≡ after_leave seat.old }
        ensures own { self.new ≡ seat.new }
    {
        let before = seat.holding();
        let next = Holding {
            index: before.index,
            calls: before.calls + 1,
            number: 0,
            revision: 0,
            port: 0,
        };
        self.set(seat, next);
        (before.number, before.revision)
    }

    /// Changes nothing. It proves that the seat and the record of the same index are equal, regardless of the calls in
    /// between.
    pub fn agree(&mut self, seat: &mut Seat<N>)
        requires { self.old.index ≡ seat.old.index }
        ensures equal { self.old ≡ seat.old }
        ensures seat { seat.new ≡ seat.old }
        ensures own { self.new ≡ self.old }
    {
        let same = seat.holding();
        self.set(seat, same);
    }

    /// Ends both sides, and gives the number of answered calls.
    pub fn reunite(mut self, mut seat: Seat<N>) -> u64
        requires { self.index ≡ seat.index }
        ensures equal { self ≡ seat }
        ensures calls { result ≡ seat.calls }
    {
        self.agree(&mut seat);
        let calls = seat.calls();
        let Seat {
            holding: _,
            token: _,
            names: _,
        } = seat;
        calls
    }
}
