//! Books of two endpoints at a desk, which the tests open and close.
ghost use Rattle.std.specs.Prelude.{◌≡◌, true, IfOk, ⊤};
ghost use Rattle.bg_ledger.specs.Blanks.{AreAllFor};
ghost use Rattle.bg_rollout.specs.Changes.{NewSeats};
ghost use Rattle.bg_rollout.specs.Gathering.{are_all};

use bg_book::{Book, Control, Desk, Question, RolloutOpening, SeatLimit};
use bg_history::History;
use bg_ledger::{Blanks, Names, Seat};
use std::alloc::Global;
use std::sync::Wait;
use std::test::Fail;

/// Opens a book of which this many endpoints become available. Gives its desk and the seats.
pub fn open<N: Names, R: Wait>(
    rt: &R,
    alloc: Global,
    opening: &RolloutOpening,
    available: u32,
    blanks: Blanks,
) -> Result<(Desk<N>, Vec<Seat<N>>), Fail>
    requires blanks { AreAllFor N.Names blanks }
    requires seats { N.seats ≡ opening.now.seats }
    ensures seats { IfOk result (λ r. NewSeats opening.now.seats r.1.items) }
    ensures all { IfOk result (λ r. are_all N.seats r.1.items ≡ true) }
{
    let event = Control::Available {
        revision: 1,
        size: available,
    };
    let (book, seats) = Book::open(alloc, SeatLimit::Few, opening, blanks)?;
    let desk = Desk::new(book);
    match desk.control_with_compaction(rt, &event) {
        Ok(_outcomes) => Ok((desk, seats)),
        Err(fault) => {
            let _history = close(desk, seats);
            Err(fault.into())
        }
    }
}

/// The number of open requests at the first revision.
#[derive(Drop)]
struct OpenRequests;

impl Question<usize> for OpenRequests {
    ghost gives = { λ _ _ _. ⊤ };

    fn ask<N: Names>(self, book: &Book<N>) -> usize {
        book.open_count(1)
    }
}

/// The number of open requests at the first revision of the book.
pub fn open_requests<N: Names, R: Wait>(rt: &R, desk: &Desk<N>) -> usize {
    desk.look(rt, OpenRequests)
}

/// The number of entries of the history.
#[derive(Drop)]
struct EntryCount;

impl Question<u64> for EntryCount {
    ghost gives = { λ _ _ _. ⊤ };

    fn ask<N: Names>(self, book: &Book<N>) -> u64 {
        book.history().len()
    }
}

/// The number of entries of the book's history.
pub fn entry_count<N: Names, R: Wait>(rt: &R, desk: &Desk<N>) -> u64 {
    desk.look(rt, EntryCount)
}

/// Closes the book of a desk, and gives its history.
pub fn close<N: Names>(desk: Desk<N>, seats: Vec<Seat<N>>) -> History
    requires { are_all N.seats seats.items ≡ true }
{
    desk.into_book().close(seats)
}
