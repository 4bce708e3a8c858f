//! The call of `bg_forward`: a client is served in memory, by a book whose history has no room for its request.
ghost use Rattle.std.specs.Prelude.{◌≡◌, ⊤};
ghost use Rattle.bg_rollout.specs.Gathering.{indices};

use crate::asking::{compare, made, refuse_all, refuse_none, say_made, say_refused};
use crate::books::{Opening, Visit, visit_book};
use crate::desks::available;
use crate::input_stream::InputStream;
use crate::page::Page;
use crate::state::State;
use crate::stop::Stop;
use crate::strategies::base_strategy;
use bg_book::{Book, Desk, EnterFault, GoOn, Left, OpenBook, Question, Ticket, laws as book_laws};
use bg_forward::{DeskGate, Dial, Dialled, End, Gate, InMemoryResult, Worker, serve_in_memory};
use bg_ledger::{Names, Seat};
use bg_revisions::Service;
use bg_rollout::{MOST_ENTRIES, PLACES_OF_A_REQUEST};
use std::sync::Wait;
use std::{fmt, io};

/// The number of requests that fill the room that the first event reserved.
const REQUESTS: u64 = (MOST_ENTRIES - 1 - PLACES_OF_A_REQUEST) / 2 + 1;

const REQUEST: &str = "GET /a HTTP/1.1\r\nHost: x\r\n\r\n";

const RESPONSE: &str = "HTTP/1.1 200 OK\r\nContent-Length: 3\r\n\r\none";

const BEFORE: &str = "serve_in_memory before a request enters";

const ENTERING: &str = "serve_in_memory where a request enters";

const INSIDE: &str = "serve_in_memory once a request has entered";

/// A gate that lets all allocations fail while a request leaves, and reports a request that is refused after an
/// allocation failure.
#[derive(Drop)]
struct Watched<'a, N: Names, R> {
    rt: &'a R,
    desk_gate: DeskGate<'a, N, R>,
}

impl<N: Names, R: Wait + Eprint> Gate<N> for Watched<'_, N, R> {
    fn enter(&self, seat: &mut Seat<N>, service: Service) -> Result<Ticket, EnterFault> {
        let answer = self.desk_gate.enter(seat, service);
        if answer == Err(EnterFault::OutOfMemory) {
            let _ = say_refused(self.rt, ENTERING);
        }
        answer
    }

    fn may_go_on(&self, seat: &mut Seat<N>) -> GoOn {
        self.desk_gate.may_go_on(seat)
    }

    fn leave(&self, seat: &mut Seat<N>) -> Left {
        let _ = refuse_all(self.rt);
        let left = self.desk_gate.leave(seat);
        let _ = refuse_none(self.rt);
        left
    }
}

/// An endpoint at every port, which gives the same response.
#[derive(Drop)]
struct Endpoint;

impl Dial for Endpoint {
    type Stream = InputStream<'static>;

    fn dial(&self, port: u16) -> Dialled<InputStream<'static>> {
        let stream = InputStream {
            input: RESPONSE.as_bytes(),
        };
        Dialled::once(port, Ok(stream))
    }
}

/// Everything that a book answers about itself.
#[derive(Drop)]
struct Whole;

impl Question<Result<Page, fmt::Error>> for Whole {
    ghost gives = { λ _ _ _. ⊤ };

    fn ask<N: Names>(self, book: &Book<N>) -> Result<Page, fmt::Error> {
        Page::of(&State { book, seats: &[] })
    }
}

pub fn make_calls<R: AllocGlobal + Print + Eprint + Wait>(rt: &R) -> Result<(), Stop> {
    let strategy = base_strategy(rt)?;
    visit_book(rt, &Opening::of_few(&strategy, 1), &Serving)
}

/// A client is served at a seat of the book.
#[derive(Drop)]
struct Serving;

impl<R: AllocGlobal + Print + Eprint + Wait> Visit<R> for Serving {
    type End = ();

    fn visit<N: Names>(&self, rt: &R, opened: OpenBook<N>) -> Result<(), Stop> {
        book_laws::lent();
        let (book, mut seats) = opened.into_parts();
        let desk = Desk::new(book);
        let end = serve_first(rt, &desk, seats.as_mut_slice());
        let _history = desk.into_book().close(seats);
        end
    }
}

/// Serves at the first of the seats.
fn serve_first<N: Names, R: AllocGlobal + Print + Eprint + Wait>(
    rt: &R,
    desk: &Desk<N>,
    seats: &mut [Seat<N>],
) -> Result<(), Stop>
    ensures { indices seats.new ≡ indices seats.old }
{
    book_laws::same_order();
    say_made(rt, "Book::open")?;
    let _outcomes = made(rt, "Desk::control_with_compaction", || record(rt, desk))?;
    if seats.is_empty() {
        return Err(Stop::OtherFault);
    }
    serve_at(rt, desk, &mut seats[0])
}

/// Reports that the first revision has its endpoints.
fn record<N: Names, R: Wait>(rt: &R, desk: &Desk<N>) -> Result<u64, Stop> {
    Ok(desk.control_with_compaction(rt, &available())?)
}

/// Serves a client at a seat, and another one if the first was refused after an allocation failure.
fn serve_at<N: Names, R: AllocGlobal + Print + Eprint + Wait>(
    rt: &R,
    desk: &Desk<N>,
    seat: &mut Seat<N>,
) -> Result<(), Stop>
    ensures { seat.new.index ≡ seat.old.index }
{
    fill(rt, desk, seat)?;
    let before = desk.look(rt, Whole)?;
    let mut outcome = serve(rt, desk, seat)?;
    if matches!(outcome.served.end, End::Refused(503) | End::WriteFailed) {
        if outcome.served.entered.is_some() {
            say_refused(rt, INSIDE)?;
        } else {
            say_refused(rt, BEFORE)?;
            compare(rt, BEFORE, &before, &desk.look(rt, Whole)?)?;
        }
        outcome = serve(rt, desk, seat)?;
    }
    for name in [BEFORE, ENTERING, INSIDE] {
        say_made(rt, name)?;
    }
    println!(rt; "{:?} {:?}", outcome.served.end, outcome.written)?;
    Ok(())
}

/// Lets requests enter and leave until there is no room for one more.
fn fill<N: Names, R: Wait>(rt: &R, desk: &Desk<N>, seat: &mut Seat<N>) -> Result<(), Stop>
    ensures { seat.new.index ≡ seat.old.index }
{
    for _ in 0..REQUESTS {
        pass_once(rt, desk, seat)?;
    }
    Ok(())
}

/// Lets a request enter at a seat that is out, and leave.
fn pass_once<N: Names, R: Wait>(rt: &R, desk: &Desk<N>, seat: &mut Seat<N>) -> Result<(), Stop>
    ensures { seat.new.index ≡ seat.old.index }
{
    if seat.is_in() {
        return Err(Stop::OtherFault);
    }
    let _ticket = desk.enter_with_compaction(rt, seat, Service::Active)?;
    let _left = desk.leave(rt, seat);
    Ok(())
}

/// Serves a client at a seat that is out. Standard output says so if the seat is not in the expected state
/// afterwards.
fn serve<N: Names, R: AllocGlobal + Print + Eprint + Wait>(
    rt: &R,
    desk: &Desk<N>,
    seat: &mut Seat<N>,
) -> Result<InMemoryResult, Stop>
    ensures { seat.new.index ≡ seat.old.index }
{
    if seat.is_in() {
        return Err(Stop::OtherFault);
    }
    let calls = seat.calls();
    let gate = Watched {
        rt,
        desk_gate: DeskGate::new(rt, desk),
    };
    let endpoint = Endpoint;
    let worker = Worker {
        alloc: rt.alloc(),
        gate: &gate,
        dial: &endpoint,
        service: Service::Active,
    };
    let outcome = serve_in_memory(&worker, seat, REQUEST.as_bytes());
    let made = if outcome.served.entered.is_some() {
        2
    } else {
        0
    };
    if seat.is_in() || seat.calls() != calls.saturating_add(made) {
        println!(rt; "changed: a seat at which a client was served")?;
    }
    Ok(outcome)
}
