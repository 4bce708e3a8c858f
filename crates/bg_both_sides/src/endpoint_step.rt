//! What an event makes of the request at its endpoint.
ghost use Rattle.std.specs.Prelude.{◌≡◌, Option};
ghost use Rattle.bg_endpoint_side.specs.declared.forwarded_request.Step.TheVariants as step;
ghost use Rattle.bg_both_sides.specs.Answers.{Reply};
ghost use Rattle.bg_both_sides.specs.EndpointEvents.{Follows};

use crate::answering::answer;
use crate::endpoint_side::EndpointSide;
use bg_client_side::ClientConnection;
use bg_endpoint_side::{ForwardFault, Health, Outcome, Step};
use bg_http::Request;
use std::alloc::Global;

/// What a client was given as the answer to its request.
#[derive(Clone, Copy, PartialEq, Eq, Debug, Drop)]
pub enum Given {
    /// The response of its endpoint, with this status code.
    Response(u16),
    /// A refusal for this fault, or nothing, if there was no memory for a refusal.
    Refusal(ForwardFault),
    /// A part of the response of its endpoint, which is cut off by this fault. The client's connection has left, and its caller resets
    /// it, so that the client sees that the response is not whole.
    Cut(ForwardFault),
}

/// What the client was given, what becomes of the connection to an endpoint after the answer, and what is told of the
/// endpoint.
#[derive(Clone, Copy, PartialEq, Eq, Debug, Drop)]
pub struct Ending {
    pub given: Given,
    /// Whether the connection, if there was one, is kept for another request. If not, it is closed.
    pub goes_back: bool,
    pub health: Health,
}

/// What an event made of the request at its endpoint.
#[derive(Clone, Copy, PartialEq, Eq, Debug, Drop)]
pub enum EndpointStep {
    /// Nothing changed: no request is at this stage.
    NotThere,
    /// The request goes on.
    GoesOn,
    /// The connection is to be closed. It is the request's no longer, and a new one is to be dialled for it.
    DialsAgain,
    /// The client has its answer, or has left. The connection is the request's no longer.
    Answered(Ending),
}

/// What a step of a request that is forwarded makes of the two sides.
pub(crate) fn follow(
    client: &mut ClientConnection,
    alloc: Global,
    request: Request,
    step: Step,
    now: u64,
) -> (EndpointSide, EndpointStep)
    ensures { (reply : Option Reply) × Follows request step now client.old result.1 reply
        (record { client = client.new; endpoint = result.0 }) }
{
    match step {
        Step::GoesOn(forwarded) => (
            EndpointSide::Forwarding(request, forwarded),
            EndpointStep::GoesOn,
        ),
        Step::Again(dialing) => (
            EndpointSide::Dialing(request, dialing),
            EndpointStep::DialsAgain,
        ),
        Step::Over(outcome) => finish(client, alloc, &request, outcome, now),
    }
}

/// The request is over with this outcome: the client gets its answer.
pub(crate) fn finish(
    client: &mut ClientConnection,
    alloc: Global,
    request: &Request,
    outcome: Outcome,
    now: u64,
) -> (EndpointSide, EndpointStep)
    ensures { (reply : Option Reply) × Follows request.now (step.Over outcome) now client.old result.1 reply
        (record { client = client.new; endpoint = result.0 }) }
{
    let (response, goes_back, health) = outcome.into_parts();
    let given = answer(client, alloc, request, response, now);
    (
        EndpointSide::NoRequest,
        EndpointStep::Answered(Ending {
            given,
            goes_back,
            health,
        }),
    )
}
