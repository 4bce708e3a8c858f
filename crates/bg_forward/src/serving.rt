//! One connection, from its request to its answer.
ghost use Rattle.std.specs.Prelude.{◌≡◌, ◌+◌, ◌<◌, [], ℕ, List, Option, IfSome, Ok, Err};
ghost use Rattle.bg_forward.specs.Routes.{IsRouted};
ghost use Rattle.bg_http.specs.Statuses.{request_status};
ghost use Rattle.bg_rollout.specs.Changes.{seat_in};
ghost use Rattle.bg_forward.specs.Buffers.{held, stream_of};
ghost use Rattle.bg_forward.specs.Causes.{IsCause};
ghost use Rattle.bg_forward.specs.Connections.{Connection, EndsBy, MayEnd, ReadOutcome, Receives};
ghost use Rattle.bg_forward.specs.Connections.{WroteLast};
ghost use Rattle.bg_forward.specs.Reasons.{TellsWhy, request_reason};
ghost use Rattle.bg_forward.specs.Seats.{calls_made, seat_after};
ghost use Rattle.bg_http.specs.declared.refusal.RefusalBody.TheVariants as body;

use crate::buffered::Buffered;
use crate::forwarding::{Asked, ForwardOutcome, forward_and_answer, refuse};
use crate::gate::Gate;
use crate::reason::Reason;
use crate::streams::ClientStream;
use bg_book::Ticket;
use bg_dial::{Dial, Route};
use bg_http::{Duplex, RefusalBody, Request, RequestFault};
use bg_http_read::read_request;
use bg_ledger::{Names, Seat};
use bg_revisions::Service;
use std::alloc::Global;
use std::io::Write;

/// How a connection ended for its client.
#[derive(Clone, Copy, PartialEq, Eq, Debug, Drop)]
pub enum End {
    /// The client ended its input before the end of its request. No answer was written to it.
    Closed,
    /// Reading the request failed. No answer was written to the client.
    ReadFailed,
    /// A refusal with this status was written to the client: 400, 413, 431, 501, 502 or 503.
    Refused(u16),
    /// The response of an endpoint, with this status code, was written to the client.
    Answered(u16),
    /// Writing to the client failed. A part may have been written.
    WriteFailed,
}

/// The outcome of a connection.
#[derive(Clone, Copy, PartialEq, Eq, Debug, Drop)]
pub struct Served {
    /// The ticket that the request got when it entered; `None` if it did not enter.
    pub entered: Option<Ticket>,
    /// What was dialled for the request; `None` if it did not enter.
    pub route: Option<Route>,
    /// How the connection ended for its client.
    pub end: End,
    /// Why the client was refused, also if the refusal could not be written; or that it has not taken its response.
    pub reason: Option<Reason>,
}

/// A worker: its gate, how it dials, and the service that it serves.
#[derive(Drop)]
pub struct Worker<'a, G, D> {
    pub alloc: Global,
    /// Where its requests enter and leave.
    pub gate: &'a G,
    /// Opens its connections to endpoints.
    pub dial: &'a D,
    /// The service that its clients ask for.
    pub service: Service,
}

/// Serves one client on a seat that is out: reads its whole request, and then serves it as
/// `serve_received` does, with refusals that have empty bodies. The seat is out at the end, also after a failure.
pub fn serve_one<N: Names, G: Gate<N>, S: ClientStream + Duplex, D: Dial>(
    worker: &Worker<G, D>,
    seat: &mut Seat<N>,
    client: &mut Buffered<S>,
) -> Served
    requires out { seat.old.number ≡ 0 }
    requires empty { held client.old ≡ [] }
    ensures out { seat.new.number ≡ 0 }
    ensures index { seat.new.index ≡ seat.old.index }
    ensures calls { seat.new.calls ≡ seat.old.calls + calls_made result.entered }
    ensures seat { seat.new ≡ seat_after seat.old result.entered }
    ensures number { IfSome result.entered (λ t. 0 < t.number) }
    ensures gives { IfSome result.entered
        (λ t. G.gives worker.now.gate.now worker.now.service seat.old t) }
    ensures route { IsRouted (D.routes worker.now.dial.now) result.entered result.route }
    ensures why { TellsWhy result.end result.reason }
    ensures client { (read : ReadOutcome) × Connection body.Empty (S.remaining (stream_of client.old))
        (S.contents (stream_of client.old)) (S.contents (stream_of client.new))
        read result.entered result.end
        × IsCause read (λ t. G.gives_up worker.now.gate.now (seat_in seat.old t))
        ((s : S) × S.gone s) result.entered result.end result.reason }
{
    let received = read_request(worker.alloc, &mut client.stream);
    serve_received(worker, seat, &received, RefusalBody::Empty, client)
}

/// Serves one client whose request was received, on a seat that is out: enters, dials for the
/// ticket's port, forwards the request, reads the response, writes it, and leaves. The seat is out at
/// the end, also after a failure. Nothing is read from the client.
///
/// `received` is the request or its fault. The last clause says what follows if it is what
/// `read_request` gives for some bytes of the client: then the whole connection is one of these bytes,
/// with what was written to the client while its request was read. [`Accept::accept`](crate::Accept::accept)
/// gives workers just that.
///
/// A request that cannot be read does not enter. It is answered with its fault's status
/// (`RequestFault::status`), or not at all if the fault has none. If the gate refuses the request,
/// the answer is 503. If the endpoint cannot be dialled or written to, or its response cannot be
/// read, the answer is 502; it is 503 if an allocation failed while the response was read. The gate
/// is asked once after the dial and before each read of the response. If it gives the request up,
/// the connection to the endpoint is closed, and the answer is 503. The client's stream is asked too
/// before each read of the response. If the client has gone, the request ends in the same way, for a reason of its
/// own, and writing the 503 usually fails. So a client that has gone does not hold a seat and an endpoint
/// (nginx's `proxy_ignore_client_abort off`). The reason is the same if the client does not take its response. The
/// request leaves after its answer or refusal was written or the write failed.
///
/// A refusal has the body that `refusal_body` says: none, or a page. The page of a request is HTML if its
/// Accept fields name `text/html` without a weight of zero, and text otherwise; a HEAD gets the head alone
/// (RFC 9110 sections 9.3.2 and 12.5.1). The page for a fault is always text.
///
/// The writes to the client and to the endpoint go through a buffer, which is flushed before the
/// next step. A failed flush counts as a failed write.
pub fn serve_received<N: Names, G: Gate<N>, S: ClientStream, D: Dial>(
    worker: &Worker<G, D>,
    seat: &mut Seat<N>,
    received: &Result<Request, RequestFault>,
    refusal_body: RefusalBody,
    client: &mut Buffered<S>,
) -> Served
    requires out { seat.old.number ≡ 0 }
    requires empty { held client.old ≡ [] }
    ensures out { seat.new.number ≡ 0 }
    ensures index { seat.new.index ≡ seat.old.index }
    ensures calls { seat.new.calls ≡ seat.old.calls + calls_made result.entered }
    ensures seat { seat.new ≡ seat_after seat.old result.entered }
    ensures number { IfSome result.entered (λ t. 0 < t.number) }
    ensures gives { IfSome result.entered
        (λ t. G.gives worker.now.gate.now worker.now.service seat.old t) }
    ensures route { IsRouted (D.routes worker.now.dial.now) result.entered result.route }
    ensures why { TellsWhy result.end result.reason }
    ensures cause { IsCause received.now (λ t. G.gives_up worker.now.gate.now (seat_in seat.old t))
        ((s : S) × S.gone s) result.entered result.end result.reason }
    ensures may_end { MayEnd received.now result.entered result.end }
    ensures wrote { WroteLast refusal_body (S.contents (stream_of client.old))
        (S.contents (stream_of client.new)) received.now result.end }
    ensures client { (input before : Option (List ℕ))
        → Receives input before (S.contents (stream_of client.old)) received.now
        → Connection refusal_body input before (S.contents (stream_of client.new)) received.now
        result.entered result.end }
{
    match received {
        Ok(request) => {
            let asked = Asked {
                request,
                refusal_body,
            };
            serve_request(worker, seat, &asked, client)
        }
        Err(fault) => {
            let outcome = refuse_fault(*fault, refusal_body, client);
            Served {
                entered: None,
                route: None,
                end: outcome.end,
                reason: outcome.reason,
            }
        }
    }
}

/// Enters a request at the gate, answers it, and leaves.
fn serve_request<N: Names, G: Gate<N>, S: ClientStream, D: Dial>(
    worker: &Worker<G, D>,
    seat: &mut Seat<N>,
    asked: &Asked<'_>,
    client: &mut Buffered<S>,
) -> Served
    requires out { seat.old.number ≡ 0 }
    requires empty { held client.old ≡ [] }
    ensures seat { seat.new ≡ seat_after seat.old result.entered }
    ensures number { IfSome result.entered (λ t. 0 < t.number) }
    ensures gives { IfSome result.entered
        (λ t. G.gives worker.now.gate.now worker.now.service seat.old t) }
    ensures route { IsRouted (D.routes worker.now.dial.now) result.entered result.route }
    ensures may_end { MayEnd (Ok asked.now.request.now) result.entered result.end }
    ensures why { TellsWhy result.end result.reason }
    ensures cause { IsCause (Ok asked.now.request.now)
        (λ t. G.gives_up worker.now.gate.now (seat_in seat.old t)) ((s : S) × S.gone s)
        result.entered result.end result.reason }
    ensures wrote { WroteLast asked.now.refusal_body (S.contents (stream_of client.old))
        (S.contents (stream_of client.new)) (Ok asked.now.request.now) result.end }
{
    let ticket = match worker.gate.enter(seat, worker.service) {
        Ok(ticket) => ticket,
        Err(fault) => {
            return Served {
                entered: None,
                route: None,
                end: refuse(503, asked.refusal_body.page_for(asked.request), client),
                reason: Some(Reason::of_enter(fault)),
            };
        }
    };
    let dialled = worker.dial.dial(ticket.port);
    let route = dialled.route;
    let outcome = forward_and_answer(worker, seat, asked, dialled, client);
    worker.gate.leave(seat);
    Served {
        entered: Some(ticket),
        route: Some(route),
        end: outcome.end,
        reason: outcome.reason,
    }
}

/// Ends a connection that gave no request.
fn refuse_fault<S: Write>(
    fault: RequestFault,
    refusal_body: RefusalBody,
    client: &mut Buffered<S>,
) -> ForwardOutcome
    requires { held client.old ≡ [] }
    ensures may_end { EndsBy (request_status fault) fault result.end }
    ensures why { TellsWhy result.end result.reason }
    ensures reason { result.reason ≡ request_reason fault }
    ensures wrote { WroteLast refusal_body (S.contents (stream_of client.old))
        (S.contents (stream_of client.new)) (Err fault) result.end }
{
    if let Some(reason) = Reason::of_request(fault) {
        return ForwardOutcome {
            end: refuse(reason.status(), refusal_body.page_for_fault(), client),
            reason: Some(reason),
        };
    }
    let end = match fault {
        RequestFault::Closed => End::Closed,
        RequestFault::ReadFailed => End::ReadFailed,
        _ => End::WriteFailed,
    };
    ForwardOutcome { end, reason: None }
}
