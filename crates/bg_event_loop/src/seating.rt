//! How the requests of seats enter and leave at the gate.
ghost use Rattle.std.specs.Prelude.{◌≡◌, ◌<◌, IfOk, Some, false, map, slice_get, true};
ghost use Rattle.std.specs.Option.{ForSome};
ghost use Rattle.bg_ledger.specs.declared.holding.Holding.{Holding};
ghost use Rattle.bg_event_loop.specs.Seats.{AllUsed, emptied};

use bg_book::{GoOn, Ticket};
use bg_forward::{Gate, Reason};
use bg_ledger::{Names, Seat};
use bg_revisions::Service;

/// Lets a request enter at the seat of this number. The error is why the gate refuses it; `Memory` if there is no such seat
/// that is out.
pub(crate) fn enter_at<N: Names, G: Gate<N>>(
    gate: &G,
    service: Service,
    seats: &mut [Seat<N>],
    number: usize,
) -> Result<Ticket, Reason>
    ensures used { AllUsed seats.old seats.new }
    ensures gives { IfOk result (λ ticket. (seat : Holding) → slice_get seats.old number ≡ Some seat
        → G.gives gate.now service seat ticket) }
{
    if number >= seats.len() {
        return Err(Reason::Memory);
    }
    let seat = &mut seats[number];
    if seat.is_in() {
        return Err(Reason::Memory);
    }
    match gate.enter(seat, service) {
        Ok(ticket) => Ok(ticket),
        Err(fault) => Err(Reason::of_enter(fault)),
    }
}

/// Lets the request of a seat leave, if there is such a seat.
pub(crate) fn leave_at<N: Names, G: Gate<N>>(gate: &G, seats: &mut [Seat<N>], number: Option<usize>)
    ensures { AllUsed seats.old seats.new }
{
    let Some(number) = number else {
        return;
    };
    if number >= seats.len() {
        return;
    }
    empty(gate, &mut seats[number]);
}

/// Lets the requests of all seats leave that are still in.
pub(crate) fn leave_all<N: Names, G: Gate<N>>(gate: &G, seats: &mut [Seat<N>])
    ensures { seats.new ≡ map emptied seats.old }
{
    for seat in seats.iter_mut() {
        empty(gate, seat);
    }
}

/// Lets the request of a seat leave, if it holds one.
fn empty<N: Names, G: Gate<N>>(gate: &G, seat: &mut Seat<N>)
    ensures { seat.new ≡ emptied seat.old }
{
    if seat.is_in() {
        gate.leave(seat);
    }
}

/// Whether the request of a seat, if there is such a seat, is given up, since it drained for too long. The gate is asked only if
/// draining is limited: that takes a lock, and without a limit no request is given up.
pub(crate) fn is_cut<N: Names, G: Gate<N>>(
    gate: &G,
    limits_drains: bool,
    seats: &mut [Seat<N>],
    number: Option<usize>,
) -> bool
    ensures used { AllUsed seats.old seats.new }
    ensures unchanged { seats.new ≡ seats.old }
    ensures unlimited { limits_drains ≡ false → result ≡ true → ForSome number (λ n. (seat : Holding)
        → slice_get seats.old n ≡ Some seat → seat.number ≡ 0) }
    ensures gives_up { result ≡ true → ForSome number (λ n. (seat : Holding) → slice_get seats.old n ≡ Some seat
        → 0 < seat.number → G.gives_up gate.now seat) }
{
    let Some(number) = number else {
        return false;
    };
    if number >= seats.len() {
        return true;
    }
    let seat = &mut seats[number];
    if !seat.is_in() {
        return true;
    }
    limits_drains && gate.may_go_on(seat) == GoOn::Cut
}
