//! Everything that a book and its seats answer about themselves.

use bg_book::Book;
use bg_ledger::{Names, Seat};
use std::fmt;

/// A book and its seats. Their display shows everything that they answer. Of the strategy, which no call changes, it
/// shows the active service. Of the history it shows the length and the newest entry.
#[derive(Drop)]
pub struct State<'a, N: Names> {
    pub book: &'a Book<N>,
    pub seats: &'a [Seat<N>],
}

impl<N: Names> fmt::Display for State<'_, N> {
    fn fmt<W: fmt::Write>(&self, f: &mut fmt::Formatter<W>) -> fmt::Result {
        let book = self.book;
        writeln!(f, "moment {} phase {:?}", book.moment(), book.phase())?;
        writeln!(f, "{:?}", book.selectors())?;
        writeln!(f, "strategy {}", book.strategy().active_service.get())?;
        write!(f, "{}{}", Revisions(book), LastEntry(book))?;
        for seat in self.seats {
            write!(f, "{}", SeatLine(seat))?;
        }
        Ok(())
    }
}

/// The revisions of a book.
#[derive(Drop)]
struct Revisions<'a, N: Names>(&'a Book<N>);

impl<N: Names> fmt::Display for Revisions<'_, N> {
    fn fmt<W: fmt::Write>(&self, f: &mut fmt::Formatter<W>) -> fmt::Result {
        let book = self.0;
        writeln!(f, "count {}", book.count())?;
        for place in 0..book.count() {
            if let Some(revision) = book.revision(place) {
                let number = revision.number;
                writeln!(f, "{revision:?}")?;
                writeln!(
                    f,
                    "open {} deadline {:?} draining {}",
                    book.open_count(number),
                    book.deadline_of(number),
                    book.is_draining(number)
                )?;
            }
        }
        Ok(())
    }
}

/// The length of a book's history, and its newest entry.
#[derive(Drop)]
struct LastEntry<'a, N: Names>(&'a Book<N>);

impl<N: Names> fmt::Display for LastEntry<'_, N> {
    fn fmt<W: fmt::Write>(&self, f: &mut fmt::Formatter<W>) -> fmt::Result {
        let history = self.0.history();
        let len = history.len();
        writeln!(f, "entries {len} {:?}", history.get(len.saturating_sub(1)))
    }
}

/// Everything that a seat answers.
#[derive(Drop)]
struct SeatLine<'a, N: Names>(&'a Seat<N>);

impl<N: Names> fmt::Display for SeatLine<'_, N> {
    fn fmt<W: fmt::Write>(&self, f: &mut fmt::Formatter<W>) -> fmt::Result {
        let seat = self.0;
        write!(
            f,
            "seat {} in {} calls {}",
            seat.index(),
            seat.is_in(),
            seat.calls()
        )?;
        writeln!(
            f,
            " number {} revision {} port {}",
            seat.number(),
            seat.revision(),
            seat.port()
        )
    }
}
