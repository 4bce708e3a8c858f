//! Connections that are in memory.
ghost use Rattle.std.specs.Prelude.{◌≡◌, ◌+◌, ◌<◌, [], IfSome, Some};
ghost use Rattle.bg_rollout.specs.Changes.{seat_in};
ghost use Rattle.bg_forward.specs.Causes.{IsCause};
ghost use Rattle.bg_forward.specs.Connections.{Connection, ReadOutcome, Receives};
ghost use Rattle.bg_forward.specs.Routes.{IsRouted};
ghost use Rattle.bg_forward.specs.Seats.{calls_made, seat_after};
ghost use Rattle.bg_http.specs.declared.refusal.RefusalBody.TheVariants as body;

use crate::buffered::Buffered;
use crate::gate::Gate;
use crate::serving::{Served, Worker, serve_one};
use crate::streams::Arrived;
use bg_dial::Dial;
use bg_http::{Bytes, MemoryStream};
use bg_http_read::read_request;
use bg_ledger::{Names, Seat};
use std::alloc::Global;

/// The outcome of a connection that is in memory.
#[derive(Drop, Debug)]
pub struct InMemoryResult {
    /// What `serve_one` gave.
    pub served: Served,
    /// The bytes that were written to the client: `100 Continue` if it is owed, and the answer or
    /// the refusal.
    pub written: Bytes,
}

/// Serves the client with these bytes, as `serve_one` does, and keeps the bytes that are written to
/// it. The client's bytes and the bytes written to it are known, so the contract is that of
/// `serve_one` with nothing unspecified.
pub fn serve_in_memory<N: Names, G: Gate<N>, D: Dial>(
    worker: &Worker<G, D>,
    seat: &mut Seat<N>,
    input: &[u8],
) -> InMemoryResult
    requires { seat.old.number ≡ 0 }
    ensures out { seat.new.number ≡ 0 }
    ensures index { seat.new.index ≡ seat.old.index }
    ensures calls { seat.new.calls ≡ seat.old.calls + calls_made result.served.entered }
    ensures seat { seat.new ≡ seat_after seat.old result.served.entered }
    ensures number { IfSome result.served.entered (λ t. 0 < t.number) }
    ensures gives { IfSome result.served.entered
        (λ t. G.gives worker.now.gate.now worker.now.service seat.old t) }
    ensures route { IsRouted (D.routes worker.now.dial.now) result.served.entered result.served.route }
    ensures client { (read : ReadOutcome) × Connection body.Empty (Some input.now) (Some []) (Some result.written)
        read result.served.entered result.served.end
        × IsCause read (λ t. G.gives_up worker.now.gate.now (seat_in seat.old t)) ⊥
        result.served.entered result.served.end result.served.reason }
{
    let mut client = Buffered::new(worker.alloc, MemoryStream::new(worker.alloc, input));
    let served = serve_one(worker, seat, &mut client);
    let written = Bytes::from_vec(client.into_inner().written);
    InMemoryResult { served, written }
}

/// A client that is in memory and has sent these bytes, after its request was read. Nothing but `100 Continue`
/// was written to it, if it was owed.
pub fn receive_in_memory<'a>(alloc: Global, input: &'a [u8]) -> Arrived<MemoryStream<'a>, &'a [u8]>
    ensures sender { result.sender.now ≡ input.now }
    ensures received { Receives (Some input.now) (Some []) (Some result.stream.written.items)
        result.received }
{
    let mut stream = MemoryStream::new(alloc, input);
    let received = read_request(alloc, &mut stream);
    Arrived {
        stream,
        sender: input,
        received,
    }
}
