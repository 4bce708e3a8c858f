//! A book together with its seats, for a caller that shares neither.
ghost use Rattle.std.specs.Prelude.{◌≡◌, ◌≤◌, ◌+◌, [], List, IfOk, OnErr, length, true};
ghost use Rattle.bg_history.specs.Requests.{open_requests};
ghost use Rattle.bg_ledger.specs.Blanks.{AreAllFor};
ghost use Rattle.bg_ledger.specs.declared.holding.Holding.{Holding};
ghost use Rattle.bg_rollout.specs.Compaction.{with_compacted};
ghost use Rattle.bg_rollout.specs.Gathering.{are_all};
ghost use Rattle.bg_rollout.specs.Openings.{opening_fault, opened_by, IsSeatCount, OpensSeats};
ghost use Rattle.bg_rollout.specs.Refusals.{AnswersBy};
ghost use Rattle.bg_rollout.specs.Routing.{Routing};
ghost use Rattle.bg_rollout.specs.declared.fault.OpenFault.TheVariants.{OutOfMemory};
ghost use Rattle.bg_book.specs.Runs.{AreOut, CallStep, LeavesAll, Runs, Unchanged};

use crate::book::Book;
use crate::calls::{Call, Reply};
use crate::fault::RunFault;
use crate::laws as book_laws;
use bg_history::History;
use bg_ledger::{Blanks, Names, Seat};
use bg_rollout::{OpenFault, RolloutOpening, SeatLimit};
use std::alloc::Global;
use std::marker::Model;

/// An open book and all its seats. It can't be dropped: a caller ends it with [`OpenBook::close`], or takes it apart
/// with [`OpenBook::into_parts`].
pub struct OpenBook<N: Names> {
    book: Book<N>,
    seats: Vec<Seat<N>>,
}

impl<N: Names> Model for OpenBook<N> {
    ghost use Rattle.std.specs.Prelude.{◌≡◌, true};
    ghost use Rattle.bg_rollout.specs.Gathering.{are_all};
    ghost use Rattle.bg_book.specs.OpenBooks.{OpenState};

    ghost Value = { OpenState };

    ghost view = { λ opened. record { book = opened.book; seats = opened.seats.items } };

    ghost invariant = { λ opened. are_all N.seats opened.seats.items ≡ true };
}

impl<N: Names> OpenBook<N> {
    /// Opens a book as [`Book::open`] does, with the same errors.
    pub fn open(
        alloc: Global,
        limit: SeatLimit,
        opening: &RolloutOpening,
        blanks: Blanks,
    ) -> Result<OpenBook<N>, OpenFault>
        requires blanks { AreAllFor N.Names blanks }
        requires count { IsSeatCount limit opening.now N.seats }
        ensures refusal { AnswersBy (opening_fault limit opening.now) OutOfMemory result }
        ensures book { IfOk result (λ made. made.book ≡ opened_by opening.now made.seats) }
        ensures seats { IfOk result (λ made. OpensSeats opening.now N.seats made.seats) }
    {
        let (book, seats) = Book::open(alloc, limit, opening, blanks)?;
        Ok(OpenBook { book, seats })
    }

    /// The book, for its readers.
    pub fn book(&self) -> &Book<N>
        ensures { result.now ≡ self.now.book }
    {
        &self.book
    }

    /// The seats, in order of index.
    pub fn seats(&self) -> &[Seat<N>]
        ensures { result.now ≡ self.now.seats }
    {
        self.seats.as_slice()
    }

    /// Makes one call, and replies as [`Book::call`] does.
    pub fn call(&mut self, call: &Call) -> Reply
        ensures { CallStep self.old.book self.old.seats call.now result
            self.new.book self.new.seats }
    {
        book_laws::lent();
        self.book.call(self.seats.as_mut_slice(), call)
    }

    /// Makes the calls one after the other as [`Book::run`] does, with the same replies and errors.
    pub fn run(&mut self, calls: &[Call]) -> Result<Vec<Reply>, RunFault>
        ensures replies { IfOk result (λ replies. Runs self.old.book self.old.seats calls.now
            replies.items self.new.book self.new.seats) }
        ensures unchanged { OnErr result
            (Unchanged self.old.book self.old.seats self.new.book self.new.seats) }
    {
        book_laws::lent();
        self.book.run(self.seats.as_mut_slice(), calls)
    }

    /// Compacts the history as [`Book::compact`] does. Gives the number of dropped entries.
    pub fn compact(&mut self) -> u64
        ensures book { self.new.book ≡ with_compacted self.old.book }
        ensures seats { self.new.seats ≡ self.old.seats }
        ensures dropped { result + length self.new.book.past ≡ length self.old.book.past }
    {
        self.book.compact()
    }

    /// Takes the book and its seats apart.
    pub fn into_parts(self) -> (Book<N>, Vec<Seat<N>>)
        ensures book { result.0 ≡ self.book }
        ensures seats { result.1.items ≡ self.seats }
        ensures all { are_all N.seats result.1.items ≡ true }
    {
        let OpenBook { book, seats } = self;
        (book, seats)
    }

    /// Records that each open request leaves, in the order of the seats, ends the book, and gives its history. The call
    /// allocates nothing.
    pub fn close(self) -> History
        ensures left { (new : Routing) × (seats : List Holding)
            × LeavesAll self.book self.seats (length self.seats) new seats
            × AreOut seats × (result.opening ≡ new.opening) × (result.closed ≡ new.closed)
            × (result.past ≡ new.past) }
        ensures none_open { open_requests result.past ≡ [] }
    {
        let OpenBook { book, seats } = self;
        book.close(seats)
    }
}
