//! The request of a client's connection at its endpoint.
ghost use Rattle.std.specs.Prelude.{◌≡◌, IfErr, IfOk, IfSome, None, OnErr, Option, false, true};
ghost use Rattle.bg_endpoint_side.specs.Forwarding.{Ends, Receives, failed, unread, with_end, wrote};
ghost use Rattle.bg_endpoint_side.specs.StreamedSteps.{EndsStreamed, ReceivesStreamed, failed_streamed, given_up_streamed, looked_streamed};
ghost use Rattle.bg_both_sides.specs.StreamedEvents.{AtStreamed, ClientTakes, ConnectsStreamed, IsOnceStreamed, Telling};
ghost use Rattle.bg_http.specs.Persistences.{keeps};
ghost use Rattle.bg_both_sides.specs.Answers.{Reply};
ghost use Rattle.bg_both_sides.specs.EndpointEvents.{AtDialing, AtForwarded, Dials, GivesUp, IsOnce, Looks, dial_failed, on_forwarded};
ghost use Rattle.bg_endpoint_side.specs.OutgoingTexts.{IsFirstPiece};
ghost use Rattle.bg_both_sides.specs.Sides.{AsksAsItself, IsReadAsItself, as_dialing, as_entered, has_connection, is_streaming};
ghost use Rattle.bg_both_sides.specs.Sides.{reads_endpoint, request_of, to_client, to_endpoint};
ghost use Rattle.bg_both_sides.specs.UpgradeEvents.{Asks};
ghost use Rattle.bg_endpoint_side.specs.Dialing.{Forwarded};
ghost use Rattle.bg_both_sides.specs.declared.endpoint_side.EndpointSide.TheVariants as side;
ghost use Rattle.std.specs.Option.{option_copied};

use crate::endpoint_step::{EndpointStep, finish, follow};
use crate::entering::{dial_elsewhere, dial_for};
use crate::route::Route;
use crate::stream_limits::{StreamLimits, terms_for};
use crate::streamed_step::follow_streamed;
use bg_client_side::ClientConnection;
use bg_endpoint_side::{DialFault, DialingRequest, ForwardedRequest, GivingUp, StreamedRequest};
use bg_http::{Persistence, Request};
use std::alloc::Global;

/// The request of a client's connection at its endpoint. A connection to an endpoint belongs to a request that is forwarded,
/// so without one there is none.
pub enum EndpointSide {
    /// No request is inside.
    NoRequest,
    /// The request entered, and is not on its way to an endpoint.
    Entered(Request),
    /// A connection to its endpoint is awaited.
    Dialing(Request, DialingRequest),
    /// It is forwarded on a connection.
    Forwarding(Request, ForwardedRequest),
    /// It is forwarded on a connection, and its response is passed on as it comes.
    Streaming(Request, StreamedRequest),
}

impl Drop for EndpointSide {
    /// Drops the fields by one call, so that the proofs of what owns a value are short (CONTRIBUTING.md, "What a check costs").
    fn drop(self) {
        match self {
            EndpointSide::Entered(_)
            | EndpointSide::Dialing(_, _)
            | EndpointSide::Forwarding(_, _)
            | EndpointSide::Streaming(_, _)
            | EndpointSide::NoRequest => {}
        }
    }
}

impl EndpointSide {
    /// The request that entered; if none did, the side comes back.
    pub(crate) fn into_entered(self) -> Result<Request, EndpointSide>
        ensures entered { IfOk result (λ request. self ≡ side.Entered request) }
        ensures other { IfErr result (λ other. other ≡ self) }
        ensures none { OnErr result (as_entered self ≡ None) }
    {
        match self {
            EndpointSide::Entered(request) => Ok(request),
            other => Err(other),
        }
    }

    /// The request that is dialled for; if none is, the side comes back.
    pub(crate) fn into_dialing(self) -> Result<(Request, DialingRequest), EndpointSide>
        ensures dialing { IfOk result (λ pair. self ≡ side.Dialing pair.0 pair.1) }
        ensures other { IfErr result (λ other. other ≡ self) }
        ensures none { OnErr result (as_dialing self ≡ None) }
    {
        match self {
            EndpointSide::Dialing(request, dialing) => Ok((request, dialing)),
            other => Err(other),
        }
    }

    /// The request, if one is inside.
    pub(crate) fn request(&self) -> Option<&Request>
        ensures { option_copied result ≡ request_of self.now }
    {
        match self {
            EndpointSide::NoRequest => None,
            EndpointSide::Entered(request)
            | EndpointSide::Dialing(request, _)
            | EndpointSide::Forwarding(request, _)
            | EndpointSide::Streaming(request, _) => Some(request),
        }
    }

    /// A piece of what is to be written to the endpoint now.
    pub(crate) fn piece(&self) -> &[u8]
        requires { IsReadAsItself self.now }
        ensures { IsFirstPiece (to_endpoint self.now) result.now }
    {
        match self {
            EndpointSide::Forwarding(request, forwarded) => forwarded.piece(request),
            EndpointSide::Streaming(request, streamed) => streamed.piece(request),
            _ => &[],
        }
    }

    /// The request that was written whole as one that asks for an upgrade, and all bytes that came on its connection, if they are kept.
    pub(crate) fn upgrade_asked(&self) -> Option<(&Request, &[u8])>
        ensures { IfSome result (λ asked. (forwarded : Forwarded) × Asks self.now asked.0.now forwarded
            × (asked.1.now ≡ forwarded.came)) }
    {
        match self {
            EndpointSide::Forwarding(request, forwarded) if forwarded.is_sent() => {
                Some((request, forwarded.arrived()?))
            }
            EndpointSide::Streaming(request, streamed) if streamed.is_sent() => {
                Some((request, streamed.arrived()?))
            }
            _ => None,
        }
    }

    /// Whether a connection to an endpoint belongs to the request.
    pub(crate) fn has_connection(&self) -> bool
        ensures { result ≡ has_connection self.now }
    {
        matches!(
            self,
            EndpointSide::Forwarding(_, _) | EndpointSide::Streaming(_, _)
        )
    }

    /// What is to be written to the client now of a response that is passed on.
    pub(crate) fn rest_to_client(&self) -> &[u8]
        ensures { result.now ≡ to_client self.now }
    {
        match self {
            EndpointSide::Streaming(_, streamed) => streamed.rest(),
            _ => &[],
        }
    }

    /// Whether bytes of the endpoint are to be read now.
    pub(crate) fn reads_endpoint(&self) -> bool
        ensures { result ≡ reads_endpoint self.now }
    {
        match self {
            EndpointSide::Forwarding(_, _) => true,
            EndpointSide::Streaming(_, streamed) => streamed.wants_input(),
            _ => false,
        }
    }

    /// The same after the request is dialled for, and whether it is.
    pub(crate) fn dial(self, alloc: Global, route: Route, now: u64) -> (EndpointSide, bool)
        requires itself { IsReadAsItself self }
        requires asks { AsksAsItself self }
        ensures { Dials self route now result.1 result.0 }
    {
        match self {
            EndpointSide::Entered(request) => dial_for(alloc, request, route, now),
            EndpointSide::Dialing(request, dialing) => dial_elsewhere(
                alloc, request, dialing, route, now,
            ),
            EndpointSide::Forwarding(request, forwarded) => (
                EndpointSide::Forwarding(request, forwarded),
                false,
            ),
            EndpointSide::Streaming(request, streamed) => (
                EndpointSide::Streaming(request, streamed),
                false,
            ),
            EndpointSide::NoRequest => (EndpointSide::NoRequest, false),
        }
    }

    /// The same on a connection, with its response passed on to a client of this persistence, within these limits, and whether it is.
    pub(crate) fn stream(
        self,
        alloc: Global,
        is_kept: bool,
        client: (Persistence, StreamLimits),
        now: u64,
    ) -> (EndpointSide, bool)
        requires { IsReadAsItself self }
        ensures { ConnectsStreamed is_kept client.1 now (keeps client.0) result.1 self result.0 }
    {
        match self {
            EndpointSide::Dialing(request, dialing) => {
                let terms = terms_for(client, &request);
                match dialing.streamed_on(alloc, is_kept, (&request, terms), now) {
                    Ok(streamed) => (EndpointSide::Streaming(request, streamed), true),
                    Err(dialing) => (EndpointSide::Dialing(request, dialing), false),
                }
            }
            other => (other, false),
        }
    }

    /// So many bytes more were written to the endpoint, at most the rest.
    pub(crate) fn wrote(&mut self, count: usize, now: u64)
        ensures { self.new ≡ on_forwarded (λ f. wrote f count now) self.old }
    {
        match self {
            EndpointSide::Forwarding(_, forwarded) => forwarded.wrote(count, now),
            EndpointSide::Streaming(_, streamed) => streamed.wrote(count, now),
            _ => {}
        }
    }

    /// The endpoint reads no more of the request.
    pub(crate) fn note_unread(&mut self, now: u64)
        ensures { self.new ≡ on_forwarded (λ f. unread f now) self.old }
    {
        match self {
            EndpointSide::Forwarding(_, forwarded) => forwarded.note_unread(now),
            EndpointSide::Streaming(_, streamed) => streamed.note_unread(now),
            _ => {}
        }
    }

    /// The endpoint has announced the end of its connection.
    pub(crate) fn note_ending(&mut self)
        ensures { self.new ≡ on_forwarded with_end self.old }
    {
        match self {
            EndpointSide::Forwarding(_, forwarded) => forwarded.note_ending(),
            EndpointSide::Streaming(_, streamed) => streamed.note_ending(),
            _ => {}
        }
    }

    /// The same after bytes came from the endpoint.
    pub(crate) fn receive(
        self,
        client: &mut ClientConnection,
        alloc: Global,
        bytes: &[u8],
        now: u64,
    ) -> (EndpointSide, EndpointStep)
        ensures plain { is_streaming self ≡ false → (reply : Option Reply) × AtForwarded (λ f step. Receives f bytes.now now step) self now
            client.old result.1 reply (record { client = client.new; endpoint = result.0 }) }
        ensures streamed { is_streaming self ≡ true → (telling : Telling) × AtStreamed (λ s step. ReceivesStreamed s bytes.now now step) self now
            client.old result.1 telling (record { client = client.new; endpoint = result.0 }) }
    {
        match self {
            EndpointSide::Forwarding(request, forwarded) => {
                let step = forwarded.receive(bytes, now);
                follow(client, alloc, request, step, now)
            }
            EndpointSide::Dialing(request, dialing) => (
                EndpointSide::Dialing(request, dialing),
                EndpointStep::NotThere,
            ),
            EndpointSide::Streaming(request, streamed) => {
                let step = streamed.receive(bytes, now);
                follow_streamed(client, alloc, request, step, now)
            }
            EndpointSide::Entered(request) => (
                EndpointSide::Entered(request),
                EndpointStep::NotThere,
            ),
            EndpointSide::NoRequest => (EndpointSide::NoRequest, EndpointStep::NotThere),
        }
    }

    /// The same after the endpoint ended its connection.
    pub(crate) fn end(
        self,
        client: &mut ClientConnection,
        alloc: Global,
        now: u64,
    ) -> (EndpointSide, EndpointStep)
        ensures plain { is_streaming self ≡ false → (reply : Option Reply) × AtForwarded (λ f step. Ends f now step × IsOnce f step) self now
            client.old result.1 reply (record { client = client.new; endpoint = result.0 }) }
        ensures streamed { is_streaming self ≡ true → (telling : Telling) × AtStreamed (λ s step. EndsStreamed s now step × IsOnceStreamed s step) self now
            client.old result.1 telling (record { client = client.new; endpoint = result.0 }) }
    {
        match self {
            EndpointSide::Forwarding(request, forwarded) => {
                let step = forwarded.end(now);
                follow(client, alloc, request, step, now)
            }
            EndpointSide::Dialing(request, dialing) => (
                EndpointSide::Dialing(request, dialing),
                EndpointStep::NotThere,
            ),
            EndpointSide::Streaming(request, streamed) => {
                let step = streamed.end(now);
                follow_streamed(client, alloc, request, step, now)
            }
            EndpointSide::Entered(request) => (
                EndpointSide::Entered(request),
                EndpointStep::NotThere,
            ),
            EndpointSide::NoRequest => (EndpointSide::NoRequest, EndpointStep::NotThere),
        }
    }

    /// The same after the connection to the endpoint failed.
    pub(crate) fn fail(
        self,
        client: &mut ClientConnection,
        alloc: Global,
        now: u64,
    ) -> (EndpointSide, EndpointStep)
        ensures plain { is_streaming self ≡ false → (reply : Option Reply) × AtForwarded (λ f step. (step ≡ failed f now) × IsOnce f step) self now
            client.old result.1 reply (record { client = client.new; endpoint = result.0 }) }
        ensures streamed { is_streaming self ≡ true → (telling : Telling) × AtStreamed (λ s step. (step ≡ failed_streamed s now) × IsOnceStreamed s step) self now
            client.old result.1 telling (record { client = client.new; endpoint = result.0 }) }
    {
        match self {
            EndpointSide::Forwarding(request, forwarded) => {
                let step = forwarded.fail(now);
                follow(client, alloc, request, step, now)
            }
            EndpointSide::Dialing(request, dialing) => (
                EndpointSide::Dialing(request, dialing),
                EndpointStep::NotThere,
            ),
            EndpointSide::Streaming(request, streamed) => {
                let step = streamed.fail(now);
                follow_streamed(client, alloc, request, step, now)
            }
            EndpointSide::Entered(request) => (
                EndpointSide::Entered(request),
                EndpointStep::NotThere,
            ),
            EndpointSide::NoRequest => (EndpointSide::NoRequest, EndpointStep::NotThere),
        }
    }

    /// The same after the dial gave no connection.
    pub(crate) fn fail_dial(
        self,
        client: &mut ClientConnection,
        alloc: Global,
        why: DialFault,
        now: u64,
    ) -> (EndpointSide, EndpointStep)
        ensures { (reply : Option Reply) × AtDialing (λ d. dial_failed why) self now client.old result.1 reply
            (record { client = client.new; endpoint = result.0 }) }
    {
        match self {
            EndpointSide::Dialing(request, dialing) => {
                let outcome = dialing.fail(why);
                finish(client, alloc, &request, outcome, now)
            }
            EndpointSide::Forwarding(request, forwarded) => (
                EndpointSide::Forwarding(request, forwarded),
                EndpointStep::NotThere,
            ),
            EndpointSide::Streaming(request, streamed) => (
                EndpointSide::Streaming(request, streamed),
                EndpointStep::NotThere,
            ),
            EndpointSide::Entered(request) => (
                EndpointSide::Entered(request),
                EndpointStep::NotThere,
            ),
            EndpointSide::NoRequest => (EndpointSide::NoRequest, EndpointStep::NotThere),
        }
    }

    /// The same at a moment: a request that is late is over.
    pub(crate) fn look(
        self,
        client: &mut ClientConnection,
        alloc: Global,
        now: u64,
    ) -> (EndpointSide, EndpointStep)
        ensures plain { is_streaming self ≡ false → (reply : Option Reply) × Looks self now client.old result.1 reply
            (record { client = client.new; endpoint = result.0 }) }
        ensures streamed { is_streaming self ≡ true → (telling : Telling) × AtStreamed (λ s step. step ≡ looked_streamed s now) self now
            client.old result.1 telling (record { client = client.new; endpoint = result.0 }) }
    {
        match self {
            EndpointSide::Forwarding(request, forwarded) => {
                let step = forwarded.look(now);
                follow(client, alloc, request, step, now)
            }
            EndpointSide::Dialing(request, dialing) => {
                if dialing.is_late(now) {
                    let outcome = dialing.fail(DialFault::TimedOut);
                    finish(client, alloc, &request, outcome, now)
                } else {
                    (
                        EndpointSide::Dialing(request, dialing),
                        EndpointStep::GoesOn,
                    )
                }
            }
            EndpointSide::Streaming(request, streamed) => {
                let step = streamed.look(now);
                follow_streamed(client, alloc, request, step, now)
            }
            EndpointSide::Entered(request) => (
                EndpointSide::Entered(request),
                EndpointStep::NotThere,
            ),
            EndpointSide::NoRequest => (EndpointSide::NoRequest, EndpointStep::NotThere),
        }
    }

    /// The same after the request was given up.
    pub(crate) fn give_up(
        self,
        client: &mut ClientConnection,
        alloc: Global,
        why: GivingUp,
        now: u64,
    ) -> (EndpointSide, EndpointStep)
        ensures plain { is_streaming self ≡ false → (reply : Option Reply) × GivesUp why self now client.old result.1 reply
            (record { client = client.new; endpoint = result.0 }) }
        ensures streamed { is_streaming self ≡ true → (telling : Telling) × AtStreamed (λ s step. step ≡ given_up_streamed s why) self now
            client.old result.1 telling (record { client = client.new; endpoint = result.0 }) }
    {
        match self {
            EndpointSide::Forwarding(request, forwarded) => {
                let outcome = forwarded.give_up(why);
                finish(client, alloc, &request, outcome, now)
            }
            EndpointSide::Dialing(request, dialing) => {
                let outcome = dialing.give_up(why);
                finish(client, alloc, &request, outcome, now)
            }
            EndpointSide::Streaming(request, streamed) => {
                let step = streamed.give_up(why);
                follow_streamed(client, alloc, request, step, now)
            }
            EndpointSide::Entered(request) => (
                EndpointSide::Entered(request),
                EndpointStep::NotThere,
            ),
            EndpointSide::NoRequest => (EndpointSide::NoRequest, EndpointStep::NotThere),
        }
    }

    /// The same after the client took so many bytes of a response that is passed on, at most all that is to be written.
    pub(crate) fn take_by_client(
        self,
        client: &mut ClientConnection,
        alloc: Global,
        count: usize,
        now: u64,
    ) -> (EndpointSide, EndpointStep)
        ensures { (telling : Telling) × ClientTakes self count now client.old
            result.1 telling (record { client = client.new; endpoint = result.0 }) }
    {
        match self {
            EndpointSide::Streaming(request, streamed) if client.is_passing_on() => {
                client.passed_on(count, true, now);
                let step = streamed.took(count, now);
                follow_streamed(client, alloc, request, step, now)
            }
            other => (other, EndpointStep::NotThere),
        }
    }
}
