//! What a step of a request whose response is passed on makes of the two sides.
ghost use Rattle.std.specs.Prelude.{◌≡◌, not};
ghost use Rattle.bg_http.specs.Codings.{is_empty};
ghost use Rattle.bg_streams.specs.ResponseRelays.{passing_of, rest_of};
ghost use Rattle.bg_streams.specs.ResponseStreams.{relay_of};
ghost use Rattle.bg_client_side.specs.Stages.{is_passing_on};
ghost use Rattle.bg_both_sides.specs.StreamedEvents.{CutsIf, Ends, FollowsStreamed, Refuses, Shows, Telling, begun_by};

use crate::endpoint_side::EndpointSide;
use crate::endpoint_step::{Ending, EndpointStep, Given, finish};
use bg_client_side::ClientConnection;
use bg_endpoint_side::{
    ForwardFault, Health, Outcome, StreamedAnswer, StreamedRequest, StreamedStep,
};
use bg_http::{Persistence, Request};
use std::alloc::Global;

/// What a step of a request whose response is passed on makes of the two sides.
pub(crate) fn follow_streamed(
    client: &mut ClientConnection,
    alloc: Global,
    request: Request,
    step: StreamedStep,
    now: u64,
) -> (EndpointSide, EndpointStep)
    ensures { (telling : Telling) × FollowsStreamed request step now client.old result.1 telling
        (record { client = client.new; endpoint = result.0 }) }
{
    match step {
        StreamedStep::GoesOn(streamed) => {
            show(client, &streamed, now);
            (
                EndpointSide::Streaming(request, streamed),
                EndpointStep::GoesOn,
            )
        }
        StreamedStep::Again(dialing) => (
            EndpointSide::Dialing(request, dialing),
            EndpointStep::DialsAgain,
        ),
        StreamedStep::Whole(answer) => (EndpointSide::NoRequest, end(client, answer, now)),
        StreamedStep::Refused(why, health) => {
            refuse_with(client, alloc, &request, (why, health), now)
        }
        StreamedStep::Cut(why, health) => cut_or_refuse(
            client,
            alloc,
            &request,
            (why, health),
            now,
        ),
    }
}

/// Shows the client's connection a response that goes on: it begins to be passed on once its head came, and bytes of it wait or not.
fn show(client: &mut ClientConnection, streamed: &StreamedRequest, now: u64)
    ensures { (telling : Telling) × Shows streamed.now now client.old telling client.new }
{
    let head = streamed.persistence();
    begin(client, head, now);
    let waits = has_rest(streamed);
    client.passed_on(0, waits, now);
}

/// The response begins to be passed on, if its head came and it may.
fn begin(client: &mut ClientConnection, head: Option<Persistence>, now: u64)
    ensures { client.new ≡ begun_by head now client.old }
{
    if let Some(persistence) = head {
        client.begin_passing_on(persistence, now);
    }
}

/// Whether bytes of the response wait for the client.
fn has_rest(streamed: &StreamedRequest) -> bool
    ensures { result ≡ not (is_empty (rest_of (passing_of (relay_of streamed.now.stream)))) }
{
    !streamed.rest().is_empty()
}

/// Gives the client the rest of a response that is whole.
fn end(client: &mut ClientConnection, answer: StreamedAnswer, now: u64) -> EndpointStep
    ensures { (telling : Telling) × Ends answer now client.old result telling client.new }
{
    let StreamedAnswer {
        code,
        persistence,
        rest,
        goes_back,
        health,
    } = answer;
    client.answer(rest, persistence, now);
    EndpointStep::Answered(Ending {
        given: Given::Response(code),
        goes_back,
        health,
    })
}

/// Cuts a response that is passed on; without one the client is refused.
fn cut_or_refuse(
    client: &mut ClientConnection,
    alloc: Global,
    request: &Request,
    fault: (ForwardFault, Health),
    now: u64,
) -> (EndpointSide, EndpointStep)
    ensures { (telling : Telling) × CutsIf (is_passing_on client.old.stage) request.now fault.0 fault.1 now client.old result.1
        telling (record { client = client.new; endpoint = result.0 }) }
{
    if !client.cut() {
        return refuse_with(client, alloc, request, fault, now);
    }
    let (why, health) = fault;
    let ending = Ending {
        given: Given::Cut(why),
        goes_back: false,
        health,
    };
    (EndpointSide::NoRequest, EndpointStep::Answered(ending))
}

/// Refuses the client for this fault, with this health of the endpoint. The connection of the endpoint is closed.
fn refuse_with(
    client: &mut ClientConnection,
    alloc: Global,
    request: &Request,
    fault: (ForwardFault, Health),
    now: u64,
) -> (EndpointSide, EndpointStep)
    ensures { (telling : Telling) × Refuses request.now fault.0 fault.1 now client.old result.1 telling
        (record { client = client.new; endpoint = result.0 }) }
{
    let (why, health) = fault;
    let outcome = Outcome {
        answer: Err(why),
        goes_back: false,
        health,
    };
    finish(client, alloc, request, outcome, now)
}
