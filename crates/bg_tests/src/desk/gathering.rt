//! The seats with which a book is gathered.
ghost use Rattle.std.specs.Prelude.{◌≡◌};
ghost use Rattle.bg_ledger.specs.Blanks.{AreAllFor};

use crate::book::samples::{available, opening, strategy};
use crate::history::gathered::expect_audited;
use bg_book::{Book, GatherFault, SeatLimit};
use bg_ledger::{Blanks, Names, Seat};
use bg_revisions::Service;
use std::alloc::Global;
use std::marker::Brand;
use std::process::Abort;
use std::test::Fail;

/// The results of gathering a book of two seats: without its last seat, while seat 0 is in, and after it
/// has left.
#[derive(Clone, Copy, PartialEq, Eq, Debug, Drop)]
struct Told {
    short: GatherFault,
    busy: GatherFault,
    entries: u64,
}

/// Gathers seats that cannot be gathered.
fn refused<N: Names>(
    rt: &impl Abort,
    book: Book<N>,
    seats: Vec<Seat<N>>,
) -> (Book<N>, Vec<Seat<N>>, GatherFault) {
    match book.gather(seats) {
        Ok(_history) => rt.abort(),
        Err(handed_back) => handed_back,
    }
}

/// Gathers without the last seat.
fn refused_short<N: Names>(
    rt: &impl Abort,
    book: Book<N>,
    seats: Vec<Seat<N>>,
) -> (Book<N>, Vec<Seat<N>>, GatherFault) {
    let mut few = seats;
    let Some(last) = few.pop() else {
        rt.abort();
    };
    let (book, handed_back, fault) = refused(rt, book, few);
    let mut seats = handed_back;
    if seats.reserve(1).is_err() {
        rt.abort();
    }
    seats.push_reserved(last);
    (book, seats, fault)
}

/// Lets a request enter at the first seat.
fn enter_first<N: Names>(rt: &impl Abort, book: &mut Book<N>, seats: &mut [Seat<N>]) {
    if seats.is_empty() {
        rt.abort();
    }
    let seat = &mut seats[0];
    if seat.is_in() || book.enter(seat, Service::Active).is_err() {
        rt.abort();
    }
}

/// Lets the request of the first seat leave.
fn leave_first<N: Names>(rt: &impl Abort, book: &mut Book<N>, seats: &mut [Seat<N>]) {
    if seats.is_empty() {
        rt.abort();
    }
    let seat = &mut seats[0];
    if !seat.is_in() {
        rt.abort();
    }
    let _left = book.leave(seat);
}

/// Opens a book of two seats, and tries to gather it when this is possible and when it is not.
fn gather_often<N: Names, R: Abort>(rt: &R, alloc: Global, blanks: Blanks) -> Result<Told, Fail>
    requires blanks { AreAllFor N.Names blanks }
    requires seats { N.seats ≡ 2 }
{
    let strategy = strategy(alloc)?;
    let opening = opening(&strategy, 2);
    let (mut book, seats) = Book::<N>::open(alloc, SeatLimit::Few, &opening, blanks)?;
    if book.control(&available()).is_err() {
        rt.abort();
    }
    let (mut book, mut seats, short) = refused_short(rt, book, seats);
    enter_first(rt, &mut book, &mut seats);
    let (mut book, mut seats, busy) = refused(rt, book, seats);
    leave_first(rt, &mut book, &mut seats);
    match book.gather(seats) {
        Ok(history) => {
            expect_audited(alloc, &history, &strategy)?;
            Ok(Told {
                short,
                busy,
                entries: history.len(),
            })
        }
        Err(_handed_back) => rt.abort(),
    }
}

fn with_new_names<R: Abort>(rt: &R, alloc: Global) -> Result<Told, Fail> {
    gather_often::<Brand, R>(rt, alloc, Blanks::new())
}

#[test]
fn gathers_all_seats_once_they_are_out(rt: HostRuntime) -> Result<(), Fail> {
    let told = with_new_names(&rt, rt.alloc())?;
    assert_eq!(rt; told.short, GatherFault::WrongSeats);
    assert_eq!(rt; told.busy, GatherFault::StillIn(0));
    assert_eq!(rt; told.entries, 3);
    Ok(())
}
