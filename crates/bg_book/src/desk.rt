//! A book shared by threads.
ghost use Rattle.std.specs.Prelude.{◌≡◌, ◌+◌, ◌<◌, ◌≤◌, ◌∷◌, [], Some, length, Err, IfOk, IfSome, OnErr};
ghost use Rattle.bg_ledger.specs.Holdings.{after_leave};
ghost use Rattle.bg_rollout.specs.Compaction.{with_compacted};
ghost use Rattle.bg_rollout.specs.Changes.{seat_in};
ghost use Rattle.bg_book.specs.Desks.{AnswersControlCompacting, AnswersControlIf, AnswersEnterCompacting, AnswersLeave, control_reply, enter_reply};
ghost use Rattle.bg_book.specs.Headline.{Headline};
ghost use Rattle.bg_book.specs.Room.{entries_used as used_entries};
ghost use Rattle.bg_rollout.specs.Meeting.{Meets};
ghost use Rattle.bg_rollout.specs.PastState.{goes_on};
ghost use Rattle.bg_rollout.specs.Refusals.{control_refusal, enter_refusal};
ghost use Rattle.bg_rollout.specs.Routing.{Routing};
ghost use Rattle.bg_rollout.specs.declared.control_fault.ControlFault.TheVariants as control_fault;
ghost use Rattle.bg_rollout.specs.declared.fault.EnterFault.TheVariants as enter_fault;

mod recording;

use crate::book::Book;
use crate::laws as book_laws;
use bg_ledger::{Names, Seat};
use bg_revisions::Service;
use bg_rollout::{Control, ControlFault, EnterFault, GoOn, Left, Ticket};
pub use recording::{JournalEnd, Recorded};
use std::sync::{Mutex, Wait};

/// A question about a book, asked under the lock of its desk.
pub trait Question<A> {
    /// The relation between the question, the book and the answer.
    ghost gives: { Self → Routing → A → Type 0 };

    /// Answers the question for the book.
    fn ask<N: Names>(self, book: &Book<N>) -> A
        ensures { gives self book.now result };
}

/// A book behind a lock, which threads share.
///
/// Each call takes the lock once, makes one call of the book and releases the lock; the calls with a compaction make up to
/// three calls of the book, and one with a condition asks it first. `told` says that one book for which [`headline`] holds,
/// and which has the record of the seat, gives the answer. If the call records something, it also says what the call makes
/// of this book. It doesn't say that this book is the one under the lock; the functions that are lent that book say what
/// becomes of it.
pub struct Desk<N: Names> {
    book: Mutex<Book<N>>,
}

impl<N: Names> Drop for Desk<N> {
    /// Drops the fields by one call, so that the proofs of what owns a value are short (CONTRIBUTING.md, "What a check costs").
    fn drop(self) {
        let Desk { book: _ } = self;
    }
}

impl<N: Names> Desk<N> {
    /// Puts a book behind a lock.
    pub fn new(book: Book<N>) -> Desk<N> {
        Desk {
            book: Mutex::new(book),
        }
    }

    /// [`Book::enter`]. If the answer is `HistoryFull`, compacts the history and enters once more, under the same lock. So
    /// the answer is `HistoryFull` only if a compacted book has no room either.
    pub fn enter_with_compaction<R: Wait>(
        &self,
        rt: &R,
        seat: &mut Seat<N>,
        service: Service,
    ) -> Result<Ticket, EnterFault>
        requires out { seat.old.number ≡ 0 }
        ensures seat { IfOk result (λ t. seat.new ≡ seat_in seat.old t) }
        ensures number { IfOk result (λ t. 0 < t.number) }
        ensures seat_unchanged { OnErr result (seat.new ≡ seat.old) }
        ensures told { (b : Routing) × (new : Routing)
            × AnswersEnterCompacting b seat.old service (enter_reply result) new seat.new }
    {
        let mut locked = self.book.lock(rt);
        enter_or_compact(&mut *locked, seat, service)
    }

    /// [`Book::leave`].
    pub fn leave<R: Wait>(&self, rt: &R, seat: &mut Seat<N>) -> Left
        requires within { 0 < seat.old.number }
        ensures left { result ≡ record { number = seat.old.number; revision = seat.old.revision } }
        ensures seat { seat.new ≡ after_leave seat.old }
        ensures told { (b : Routing) × (new : Routing) × AnswersLeave b seat.old result new seat.new }
    {
        let mut locked = self.book.lock(rt);
        let book = &mut *locked;
        book.leave(seat)
    }

    /// [`Book::may_go_on`].
    pub fn may_go_on<R: Wait>(&self, rt: &R, seat: &mut Seat<N>) -> GoOn
        ensures seat { seat.new ≡ seat.old }
        ensures told { (b : Routing) × Headline b × Meets b seat.old
            × (result ≡ goes_on b.strategy seat.old.index b.past) }
    {
        let mut locked = self.book.lock(rt);
        let book = &mut *locked;
        book_laws::headline(book);
        book.may_go_on(seat)
    }

    /// [`Book::control`]. If the answer is `HistoryFull`, compacts the history and gives the event once more, under the
    /// same lock. So the answer is `HistoryFull` only if a compacted book has no room either.
    pub fn control_with_compaction<R: Wait>(
        &self,
        rt: &R,
        event: &Control,
    ) -> Result<u64, ControlFault>
        ensures few { IfOk result (λ n. n ≤ 140) }
        ensures told { (b : Routing) × (new : Routing)
            × AnswersControlCompacting b event.now (control_reply result) new }
    {
        let mut locked = self.book.lock(rt);
        control_or_compact(&mut *locked, event)
    }

    /// [`Desk::control_with_compaction`], if the condition holds; `None` if not, and then nothing is recorded. The condition
    /// is asked and the event is given under one lock, so nobody calls the book between the two.
    pub fn control_if<Q: Question<bool>, R: Wait>(
        &self,
        rt: &R,
        condition: Q,
        event: &Control,
    ) -> Option<Result<u64, ControlFault>>
        ensures few { IfSome result (λ answer. IfOk answer (λ n. n ≤ 140)) }
        ensures told { (b : Routing) × (new : Routing)
            × AnswersControlIf (Q.gives condition b) b event.now result new }
    {
        let mut locked = self.book.lock(rt);
        control_if(&mut *locked, condition, event)
    }

    /// [`Book::compact`].
    pub fn compact<R: Wait>(&self, rt: &R) -> u64
        ensures told { (b : Routing) × Headline b
            × (result + length (with_compacted b).past ≡ length b.past) }
    {
        let mut locked = self.book.lock(rt);
        let book = &mut *locked;
        book_laws::headline(book);
        book.compact()
    }

    /// [`Book::entries_used`].
    pub fn entries_used<R: Wait>(&self, rt: &R) -> u64
        ensures few { result ≤ 1000000 }
        ensures told { (b : Routing) × Headline b × (result ≡ used_entries b.past) }
    {
        let locked = self.book.lock(rt);
        let book = &*locked;
        book_laws::headline(book);
        book.entries_used()
    }

    /// Answers the question for the book in its current state.
    pub fn look<A, Q: Question<A>, R: Wait>(&self, rt: &R, question: Q) -> A
        ensures told { (b : Routing) × Headline b × Q.gives question b result }
    {
        let book = self.book.lock(rt);
        ask(&*book, question)
    }

    /// Takes the book out of the lock.
    pub fn into_book(self) -> Book<N>
        ensures { Headline result }
    {
        let Desk { book } = self;
        let book = book.into_inner();
        book_laws::headline(&book);
        book
    }
}

/// Lets a request enter. If the history is full, compacts it and lets the request enter once more.
fn enter_or_compact<N: Names>(
    book: &mut Book<N>,
    seat: &mut Seat<N>,
    service: Service,
) -> Result<Ticket, EnterFault>
    requires out { seat.old.number ≡ 0 }
    ensures told { AnswersEnterCompacting book.old seat.old service (enter_reply result) book.new seat.new }
    ensures full { result ≡ Err enter_fault.HistoryFull
        → enter_refusal (with_compacted book.old) service ≡ Some enter_fault.HistoryFull }
{
    match book.enter(seat, service) {
        Err(EnterFault::HistoryFull) => {
            let _dropped = book.compact();
            book.enter(seat, service)
        }
        answer => answer,
    }
}

/// Gives an event to the book. If the history is full, compacts it and gives the event once more.
fn control_or_compact<N: Names>(book: &mut Book<N>, event: &Control) -> Result<u64, ControlFault>
    ensures few { IfOk result (λ n. n ≤ 140) }
    ensures told { AnswersControlCompacting book.old event.now (control_reply result) book.new }
    ensures full { result ≡ Err control_fault.HistoryFull
        → control_refusal (with_compacted book.old) event.now ≡ Some control_fault.HistoryFull }
{
    match book.control(event) {
        Err(ControlFault::HistoryFull) => {
            let _dropped = book.compact();
            book.control(event)
        }
        answer => answer,
    }
}

/// Gives an event to the book if the condition holds of it, after a compaction if its history is full. `None`, and an
/// unchanged book, if the condition does not hold.
fn control_if<N: Names, Q: Question<bool>>(
    book: &mut Book<N>,
    condition: Q,
    event: &Control,
) -> Option<Result<u64, ControlFault>>
    ensures few { IfSome result (λ answer. IfOk answer (λ n. n ≤ 140)) }
    ensures told { AnswersControlIf (Q.gives condition book.old) book.old event.now result book.new }
{
    if ask(book, condition) {
        Some(control_or_compact(book, event))
    } else {
        None
    }
}

/// Answers the question, and proves what holds of the book.
fn ask<N: Names, A, Q: Question<A>>(book: &Book<N>, question: Q) -> A
    ensures headline { Headline book.now }
    ensures answer { Q.gives question book.now result }
{
    book_laws::headline(book);
    question.ask(book)
}
