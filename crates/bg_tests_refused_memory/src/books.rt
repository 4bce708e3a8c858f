//! Books at which calls are made. The opening of a book is repeated if it was refused.
ghost use Rattle.std.specs.Prelude.{◌≡◌, ◌≤◌};
ghost use Rattle.bg_ledger.specs.Blanks.{AreAllFor};
ghost use Rattle.bg_rollout.specs.Refusals.{most_seats};

use crate::asking::{Subject, say_refused};
use crate::state::State;
use crate::stop::Stop;
use bg_book::{Call, Limits, OpenBook, Reply, RolloutOpening, SeatLimit};
use bg_ledger::{Blanks, Names};
use bg_revisions::Service;
use bg_strategy::Strategy;
use std::fmt;
use std::marker::Brand;

/// With what a book is opened.
#[derive(Clone, Copy, Drop)]
pub struct Opening<'a> {
    /// The name of the call.
    pub name: &'a str,
    pub strategy: &'a Strategy,
    pub limit: SeatLimit,
    pub seats: u32,
}

impl<'a> Opening<'a> {
    /// The opening of a book of few seats.
    pub fn of_few(strategy: &'a Strategy, seats: u32) -> Opening<'a> {
        Opening {
            name: "Book::open",
            strategy,
            limit: SeatLimit::Few,
            seats,
        }
    }
}

/// What is done at a book that was opened, up to its end.
pub trait Visit<R> {
    type End;

    fn visit<N: Names>(&self, rt: &R, opened: OpenBook<N>) -> Result<Self::End, Stop>;
}

/// Opens a book, and again if that was refused, and visits it.
pub fn visit_book<R: AllocGlobal + Eprint, V: Visit<R>>(
    rt: &R,
    opening: &Opening,
    visit: &V,
) -> Result<V::End, Stop> {
    match visit_with_new_names(rt, opening, visit) {
        Ok(end) => end,
        Err(Stop::OutOfMemory) => {
            say_refused(rt, opening.name)?;
            visit_with_new_names(rt, opening, visit)?
        }
        Err(stop) => Err(stop),
    }
}

fn visit_with_new_names<R: AllocGlobal, V: Visit<R>>(
    rt: &R,
    opening: &Opening,
    visit: &V,
) -> Result<Result<V::End, Stop>, Stop> {
    visit_with_names::<Brand, R, V>(rt, opening, visit, Blanks::new())
}

/// The outer error is that of the opening.
fn visit_with_names<N: Names, R: AllocGlobal, V: Visit<R>>(
    rt: &R,
    opening: &Opening,
    visit: &V,
    blanks: Blanks,
) -> Result<Result<V::End, Stop>, Stop>
    requires blanks { AreAllFor N.Names blanks }
    requires seats { 1 ≤ opening.now.seats → opening.now.seats ≤ most_seats opening.now.limit
        → N.seats ≡ opening.now.seats }
{
    let rollout_opening = RolloutOpening {
        strategy: opening.strategy,
        name: "v1",
        ports: &[9001, 9002],
        seats: opening.seats,
        limits: Limits::usual(),
    };
    let opened = OpenBook::<N>::open(rt.alloc(), opening.limit, &rollout_opening, blanks)?;
    Ok(visit.visit(rt, opened))
}

/// Calls that are made at a desk.
pub trait Calls<R> {
    fn make<N: Names>(&self, rt: &R, desk: &mut Desk<N>) -> Result<(), Stop>;
}

/// Opens a desk, makes the calls at it, and closes it.
pub fn make_at_desk<R: AllocGlobal + Eprint, C: Calls<R>>(
    rt: &R,
    opening: &Opening,
    calls: &C,
) -> Result<(), Stop> {
    visit_book(rt, opening, &ThenClosed { calls })
}

/// Calls after which the desk is closed.
#[derive(Drop)]
struct ThenClosed<'a, C> {
    calls: &'a C,
}

impl<R, C: Calls<R>> Visit<R> for ThenClosed<'_, C> {
    type End = ();

    fn visit<N: Names>(&self, rt: &R, opened: OpenBook<N>) -> Result<(), Stop> {
        let mut desk = Desk::new(opened);
        let end = self.calls.make(rt, &mut desk);
        desk.close();
        end
    }
}

/// A request for a service enters at a seat.
pub fn enter(seat: u32, service: Service) -> Call {
    Call::Enter { seat, service }
}

/// The request of a seat leaves.
pub fn leave(seat: u32) -> Call {
    Call::Leave { seat }
}

/// A call that is made at a desk.
#[derive(Drop)]
pub enum DeskCall {
    /// One call.
    Alone(Call),
    /// Calls that are made by one run.
    Run([Call; 3]),
    /// A request enters at the seat at this place, and leaves again.
    EnterAndLeave(u32),
}

/// A book and its seats. It cannot be dropped: it ends in [`Desk::close`] or in [`Desk::gather`].
pub struct Desk<N: Names> {
    opened: OpenBook<N>,
}

impl<N: Names> Desk<N> {
    pub fn new(opened: OpenBook<N>) -> Desk<N> {
        Desk { opened }
    }

    /// Ends the request of each seat that is in, and ends the book.
    pub fn close(self) {
        let Desk { opened } = self;
        let _history = opened.close();
    }

    /// Ends the book if no request is in. Otherwise ends each request, and returns false.
    pub fn gather(self) -> bool {
        let Desk { opened } = self;
        let (book, seats) = opened.into_parts();
        match book.gather(seats) {
            Ok(_history) => true,
            Err((book, seats, _fault)) => {
                let _history = book.close(seats);
                false
            }
        }
    }

    /// Makes a call that is done.
    pub fn call(&mut self, call: &Call) -> Result<(), Stop> {
        Stop::unless_done(&self.reply(call))
    }

    /// Makes a call.
    pub fn reply(&mut self, call: &Call) -> Reply {
        self.opened.call(call)
    }

    /// Makes calls.
    pub fn run(&mut self, calls: &[Call]) -> Result<Vec<Reply>, Stop> {
        Ok(self.opened.run(calls)?)
    }

    /// Writes the moment, the number of open requests of revision 1, and the number of entries in use.
    pub fn write_summary<W: fmt::Write>(&self, f: &mut fmt::Formatter<W>) -> fmt::Result {
        let book = self.opened.book();
        let (moment, open, used) = (book.moment(), book.open_count(1), book.entries_used());
        write!(f, "moment {moment} open {open} used {used}")
    }
}

impl<N: Names> fmt::Display for Desk<N> {
    fn fmt<W: fmt::Write>(&self, f: &mut fmt::Formatter<W>) -> fmt::Result {
        let state = State {
            book: self.opened.book(),
            seats: self.opened.seats(),
        };
        write!(f, "{state}")
    }
}

impl<N: Names> Subject for Desk<N> {
    type Call = DeskCall;

    fn make(&mut self, call: &DeskCall) -> Result<(), Stop> {
        match call {
            DeskCall::Alone(call) => self.call(call),
            DeskCall::Run(calls) => {
                let _replies = self.run(calls)?;
                Ok(())
            }
            DeskCall::EnterAndLeave(place) => {
                self.call(&enter(*place, Service::Active))?;
                self.call(&leave(*place))
            }
        }
    }
}
