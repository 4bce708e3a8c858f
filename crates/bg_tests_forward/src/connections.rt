//! One connection at the seat of a book, over memory.
ghost use Rattle.std.specs.Prelude.{◌≡◌, []};
ghost use Rattle.bg_forward.specs.Buffers.{held};
ghost use Rattle.bg_rollout.specs.Gathering.{indices};
ghost use Rattle.bg_ledger.specs.Blanks.{AreAllFor};

use crate::books::{close, open, open_requests};
use crate::fakes::{Asked, Endpoint, FakeStream, Pace, STEADY, Seen, Shut, Uses};
use crate::messages::{CHUNKS, GET, GET_ON};
use crate::samples::{opening, strategy};
use bg_audit::audit;
use bg_book::{Desk, laws as book_laws};
use bg_forward::{
    Buffered, DeskGate, Dial, End, Gate, Reason, RefusalBody, Served, Worker, serve_one,
    serve_received,
};
use bg_history::History;
use bg_http::{Request, RequestFault};
use bg_http_read::read_request;
use bg_ledger::{Blanks, Names, Seat};
use bg_revisions::Service;
use bg_strategy::Strategy;
use std::alloc::Global;
use std::marker::Brand;
use std::sync::Wait;
use std::sync::atomic::{AtomicU64, Ordering};
use std::test::Fail;

/// The port of the first request that enters.
pub const FIRST_PORT: u16 = 9002;

/// How the request of a connection is received.
#[derive(Clone, Copy, Drop)]
pub enum Receiving {
    /// `serve_one` reads it from the client.
    WhileServed,
    /// It is read from the client, and then `serve_received` serves it.
    Before,
    /// Nothing is read, and `serve_received` serves this fault.
    Fault(RequestFault),
}

/// A request that was received, or its fault.
type Received = Result<Request, RequestFault>;

/// A connection, with its client, gate and endpoint.
#[derive(Clone, Copy, Drop)]
pub struct Setting<'a> {
    /// What failed assertions print.
    pub name: &'a str,
    /// The bytes that the client sends.
    pub request: &'a str,
    /// The further bytes that it sends after `100 Continue` was written to it.
    pub rest: &'a str,
    pub client: Pace,
    pub receiving: Receiving,
    /// What refusals have as their bodies, if `serve_received` serves the request.
    pub refusal_body: RefusalBody,
    pub service: Service,
    /// Whether the gate admits no request.
    pub shut: bool,
    /// The question at which the gate gives the request up, counted from 1; 0 means at none.
    pub cut_at: u64,
    /// The number of available endpoints.
    pub available: u32,
    /// The port at which the endpoint listens.
    pub port: u16,
    /// The answer of the endpoint.
    pub response: &'a str,
    pub endpoint: Pace,
    /// The bytes that should be written to the endpoint.
    pub forwarded: &'a str,
}

/// A connection on which nothing fails.
pub const SOUND: Setting<'static> = Setting {
    name: "nothing fails",
    request: GET,
    rest: "",
    client: STEADY,
    receiving: Receiving::WhileServed,
    refusal_body: RefusalBody::Empty,
    service: Service::Active,
    shut: false,
    cut_at: 0,
    available: 2,
    port: FIRST_PORT,
    response: CHUNKS,
    endpoint: STEADY,
    forwarded: GET_ON,
};

impl<'a> Setting<'a> {
    /// The client's stream.
    fn stream(&self, alloc: Global) -> FakeStream<'a> {
        FakeStream::waiting(
            alloc,
            self.request.as_bytes(),
            self.rest.as_bytes(),
            self.client,
        )
    }

    /// What is received from the client before it is served, if anything is.
    fn receive(&self, alloc: Global, client: &mut FakeStream) -> Option<Received> {
        match self.receiving {
            Receiving::WhileServed => None,
            Receiving::Before => Some(read_request(alloc, client)),
            Receiving::Fault(fault) => Some(Err(fault)),
        }
    }

    fn endpoint(&self, alloc: Global, seen: &'a Seen) -> Endpoint<'a> {
        Endpoint {
            alloc,
            port: self.port,
            answer: self.response.as_bytes(),
            desired: self.forwarded.as_bytes(),
            pace: self.endpoint,
            seen,
        }
    }
}

/// The outcome of a connection.
#[derive(Clone, Copy, Drop)]
pub struct Outcome {
    pub entered: bool,
    pub end: End,
    pub reason: Option<Reason>,
    /// The number of bytes that were written to the client, and whether the answer begins with them.
    pub written: usize,
    pub is_of_answer: bool,
    /// The numbers of reads and writes of the client, and of the endpoint.
    pub client: Uses,
    pub endpoint: Uses,
    /// The number of reads of the client while it was served.
    pub reads_while_served: u64,
    /// The number of times that the gate was asked whether the request goes on, and that the client's stream was
    /// asked whether the client has gone.
    pub questions: u64,
    pub client_questions: u64,
    /// The number of calls of the seat, and whether it is out.
    pub calls: u64,
    pub is_out: bool,
    /// The number of requests that were open at the end.
    pub open: usize,
    /// Whether the history is legal, with nothing left undone.
    pub is_legal: bool,
    /// The number of connections to endpoints that were opened, of those that got the expected bytes, and of those that
    /// were dropped.
    pub dialled: u64,
    pub forwarded: u64,
    pub dropped: u64,
}

/// A connection, and what was received from its client before it is served.
#[derive(Clone, Copy, Drop)]
struct Reception<'a> {
    setting: &'a Setting<'a>,
    received: &'a Option<Received>,
}

/// A connection, and what serves it.
#[derive(Drop)]
struct Trial<'a, R, D> {
    rt: &'a R,
    alloc: Global,
    setting: &'a Setting<'a>,
    /// What was received before; `None` if the request is read while the connection is served.
    received: &'a Option<Received>,
    dial: &'a D,
    /// The number of times that the gate of the desk was asked whether the request goes on.
    questions: &'a AtomicU64,
}

/// Serves a client at the first of the seats.
fn serve_first<N: Names, R, G: Gate<N>, D: Dial>(
    trial: &Trial<R, D>,
    gate: &G,
    seats: &mut [Seat<N>],
    client: &mut Buffered<FakeStream>,
) -> Option<Served>
    requires { held client.old ≡ [] }
    ensures { indices seats.new ≡ indices seats.old }
{
    book_laws::same_order();
    if seats.is_empty() {
        return None;
    }
    let seat = &mut seats[0];
    if seat.is_in() {
        return None;
    }
    let worker = Worker {
        alloc: trial.alloc,
        gate,
        dial: trial.dial,
        service: trial.setting.service,
    };
    Some(match trial.received {
        Some(received) => {
            let refusal_body = trial.setting.refusal_body;
            serve_received(&worker, seat, received, refusal_body, client)
        }
        None => serve_one(&worker, seat, client),
    })
}

/// Serves the client through the gate of a desk, which counts its questions, or at a gate that is
/// shut.
fn serve_at<N: Names, R: Wait, D: Dial>(
    trial: &Trial<R, D>,
    desk: &Desk<N>,
    seats: &mut [Seat<N>],
    client: &mut Buffered<FakeStream>,
) -> Option<Served>
    requires { held client.old ≡ [] }
    ensures { indices seats.new ≡ indices seats.old }
{
    let desk_gate = DeskGate::new(trial.rt, desk);
    if trial.setting.shut {
        return serve_first(trial, &Shut { behind: &desk_gate }, seats, client);
    }
    let gate = Asked {
        behind: &desk_gate,
        cut_at: trial.setting.cut_at,
        questions: trial.questions,
    };
    serve_first(trial, &gate, seats, client)
}

/// The number of calls of the first seat, and whether it is out.
fn state_of_first<N: Names>(seats: &[Seat<N>]) -> (u64, bool) {
    match seats.first() {
        Some(seat) => (seat.calls(), !seat.is_in()),
        None => (0, false),
    }
}

/// The outcome of the seat of a book, and of the book.
#[derive(Drop)]
struct Closed {
    /// The outcome of the connection; `None` if there was no seat.
    served: Option<Served>,
    /// The number of calls of the seat, and whether it is out.
    calls: u64,
    is_out: bool,
    /// The number of requests that were open.
    open: usize,
    history: History,
}

/// Serves a client at the only seat of a book, and closes the book.
fn serve_over<N: Names, R: Wait, D: Dial>(
    trial: &Trial<R, D>,
    strategy: &Strategy,
    client: &mut Buffered<FakeStream>,
    blanks: Blanks,
) -> Result<Closed, Fail>
    requires blanks { AreAllFor N.Names blanks }
    requires seats { N.seats ≡ 1 }
    requires empty { held client.old ≡ [] }
{
    book_laws::lent();
    let opening = opening(strategy, 1);
    let available = trial.setting.available;
    let (desk, mut seats) = open::<N, R>(trial.rt, trial.alloc, &opening, available, blanks)?;
    let served = serve_at(trial, &desk, seats.as_mut_slice(), client);
    let (calls, is_out) = state_of_first(&seats);
    let open = open_requests(trial.rt, &desk);
    let history = close(desk, seats);
    Ok(Closed {
        served,
        calls,
        is_out,
        open,
        history,
    })
}

/// Serves a connection, and gives its outcome. The client should get this answer.
pub fn serve<R: Wait>(
    rt: &R,
    alloc: Global,
    setting: &Setting,
    answer: &str,
) -> Result<Option<Outcome>, Fail> {
    let mut stream = setting.stream(alloc);
    let received = setting.receive(alloc, &mut stream);
    let reception = Reception {
        setting: &*setting,
        received: &received,
    };
    serve_stream(rt, alloc, &reception, stream, answer)
}

/// Serves the connection over the stream of its client.
fn serve_stream<R: Wait>(
    rt: &R,
    alloc: Global,
    reception: &Reception,
    stream: FakeStream,
    answer: &str,
) -> Result<Option<Outcome>, Fail> {
    let setting = reception.setting;
    let before = stream.uses().reads;
    let strategy = strategy(alloc)?;
    let seen = Seen::new();
    let questions = AtomicU64::new(0);
    let endpoint = setting.endpoint(alloc, &seen);
    let mut client = Buffered::new(alloc, stream);
    let trial = Trial {
        rt,
        alloc,
        setting,
        received: reception.received,
        dial: &endpoint,
        questions: &questions,
    };
    let closed = serve_over::<Brand, R, Endpoint>(&trial, &strategy, &mut client, Blanks::new())?;
    let Some(served) = closed.served else {
        return Ok(None);
    };
    let stream = client.get_ref();
    Ok(Some(Outcome {
        entered: served.entered.is_some(),
        end: served.end,
        reason: served.reason,
        written: stream.shows().len(),
        is_of_answer: answer.as_bytes().starts_with(stream.shows()),
        client: stream.uses(),
        endpoint: seen.uses(),
        reads_while_served: stream.uses().reads.saturating_sub(before),
        questions: questions.load(Ordering::SeqCst),
        client_questions: stream.questions(),
        calls: closed.calls,
        is_out: closed.is_out,
        open: closed.open,
        is_legal: audit(alloc, &closed.history, &strategy)?,
        dialled: seen.dialled.load(Ordering::SeqCst),
        forwarded: seen.forwarded.load(Ordering::SeqCst),
        dropped: seen.dropped.load(Ordering::SeqCst),
    }))
}
