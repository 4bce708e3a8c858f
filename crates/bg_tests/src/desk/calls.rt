//! The calls of a list, made at a desk.
ghost use Rattle.std.specs.Prelude.{◌≡◌};
ghost use Rattle.bg_rollout.specs.Gathering.{indices};

use bg_book::{Call, Desk, Reply, laws as book_laws};
use bg_ledger::{Names, Seat};
use bg_revisions::Service;
use std::sync::Wait;

/// Makes a call at a desk, and gives the reply in the form of a book's.
pub(super) fn make<N: Names, R: Wait>(
    rt: &R,
    desk: &Desk<N>,
    seats: &mut [Seat<N>],
    call: &Call,
) -> Reply
    ensures { indices seats.new ≡ indices seats.old }
{
    match call {
        Call::Enter { seat, service } => enter_at(rt, desk, seats, *seat as usize, *service),
        Call::Leave { seat } => leave_at(rt, desk, seats, *seat as usize),
        Call::Control(control) => match desk.control_with_compaction(rt, control) {
            Ok(outcomes) => Reply::Done(outcomes),
            Err(fault) => Reply::ControlRefused(fault),
        },
    }
}

fn enter_at<N: Names, R: Wait>(
    rt: &R,
    desk: &Desk<N>,
    seats: &mut [Seat<N>],
    place: usize,
    service: Service,
) -> Reply
    ensures { indices seats.new ≡ indices seats.old }
{
    book_laws::same_order();
    if place >= seats.len() {
        return Reply::NoSuchSeat;
    }
    let seat = &mut seats[place];
    if seat.is_in() {
        return Reply::SeatBusy;
    }
    match desk.enter_with_compaction(rt, seat, service) {
        Ok(ticket) => Reply::Entered(ticket),
        Err(fault) => Reply::EnterRefused(fault),
    }
}

fn leave_at<N: Names, R: Wait>(rt: &R, desk: &Desk<N>, seats: &mut [Seat<N>], place: usize) -> Reply
    ensures { indices seats.new ≡ indices seats.old }
{
    book_laws::same_order();
    if place >= seats.len() {
        return Reply::NoSuchSeat;
    }
    let seat = &mut seats[place];
    if !seat.is_in() {
        return Reply::SeatIdle;
    }
    Reply::Left(desk.leave(rt, seat))
}
