//! What happens to the request at its endpoint.
ghost use Rattle.std.specs.Prelude.{◌≡◌, Option, false, true};
ghost use Rattle.bg_endpoint_side.specs.Forwarding.{Ends, Receives, failed, unread, with_end, wrote};
ghost use Rattle.bg_endpoint_side.specs.StreamedSteps.{EndsStreamed, ReceivesStreamed, failed_streamed, given_up_streamed, looked_streamed};
ghost use Rattle.bg_both_sides.specs.Answers.{Reply};
ghost use Rattle.bg_both_sides.specs.Sides.{is_streaming};
ghost use Rattle.bg_both_sides.specs.StreamedEvents.{AtStreamed, IsOnceStreamed, Telling};
ghost use Rattle.bg_both_sides.specs.EndpointEvents.{AtDialing, AtForwarded, GivesUp, IsOnce, Looks, dial_failed, on_forwarded};

use crate::both_sides::BothSides;
use crate::endpoint_side::EndpointSide;
use crate::endpoint_step::EndpointStep;
use bg_endpoint_side::{DialFault, GivingUp};
use std::mem;

impl BothSides {
    /// Notes that so many bytes more were written to the endpoint, at most the rest.
    pub fn endpoint_wrote(&mut self, count: usize, now: u64)
        ensures client { self.new.client ≡ self.old.client }
        ensures endpoint { self.new.endpoint ≡ on_forwarded (λ f. wrote f count now) self.old.endpoint }
    {
        bg_endpoint_side::laws::a_text_is_written_in_its_order();
        self.endpoint.wrote(count, now);
    }

    /// Notes that a write failed since the endpoint reads no more of the request. What it has sent is still read.
    pub fn endpoint_reads_no_more(&mut self, now: u64)
        ensures client { self.new.client ≡ self.old.client }
        ensures endpoint { self.new.endpoint ≡ on_forwarded (λ f. unread f now) self.old.endpoint }
    {
        self.endpoint.note_unread(now);
    }

    /// Notes that the endpoint has announced the end of its connection: no byte comes behind those that wait.
    pub fn endpoint_is_ending(&mut self)
        ensures client { self.new.client ≡ self.old.client }
        ensures endpoint { self.new.endpoint ≡ on_forwarded with_end self.old.endpoint }
    {
        self.endpoint.note_ending();
    }

    /// Adds bytes that came from the endpoint.
    pub fn receive(&mut self, bytes: &[u8], now: u64) -> EndpointStep
        ensures plain { is_streaming self.old.endpoint ≡ false → (reply : Option Reply)
            × AtForwarded (λ f step. Receives f bytes.now now step) self.old.endpoint now self.old.client result reply self.new }
        ensures streamed { is_streaming self.old.endpoint ≡ true → (telling : Telling)
            × AtStreamed (λ s step. ReceivesStreamed s bytes.now now step) self.old.endpoint now self.old.client result telling self.new }
    {
        let (endpoint, told) = mem::replace(&mut self.endpoint, EndpointSide::NoRequest).receive(
            &mut self.client,
            self.alloc,
            bytes,
            now,
        );
        self.endpoint = endpoint;
        told
    }

    /// Notes that the endpoint ended its connection.
    pub fn endpoint_ended(&mut self, now: u64) -> EndpointStep
        ensures plain { is_streaming self.old.endpoint ≡ false → (reply : Option Reply)
            × AtForwarded (λ f step. Ends f now step × IsOnce f step) self.old.endpoint now self.old.client result reply self.new }
        ensures streamed { is_streaming self.old.endpoint ≡ true → (telling : Telling)
            × AtStreamed (λ s step. EndsStreamed s now step × IsOnceStreamed s step) self.old.endpoint now self.old.client result
            telling self.new }
    {
        let (endpoint, told) = mem::replace(&mut self.endpoint, EndpointSide::NoRequest).end(
            &mut self.client,
            self.alloc,
            now,
        );
        self.endpoint = endpoint;
        told
    }

    /// Notes that the connection to the endpoint failed: it was reset, or a read or a write failed.
    pub fn endpoint_failed(&mut self, now: u64) -> EndpointStep
        ensures plain { is_streaming self.old.endpoint ≡ false → (reply : Option Reply)
            × AtForwarded (λ f step. (step ≡ failed f now) × IsOnce f step) self.old.endpoint now
            self.old.client result reply self.new }
        ensures streamed { is_streaming self.old.endpoint ≡ true → (telling : Telling)
            × AtStreamed (λ s step. (step ≡ failed_streamed s now) × IsOnceStreamed s step) self.old.endpoint now self.old.client
            result telling self.new }
    {
        let (endpoint, told) = mem::replace(&mut self.endpoint, EndpointSide::NoRequest).fail(
            &mut self.client,
            self.alloc,
            now,
        );
        self.endpoint = endpoint;
        told
    }

    /// Notes that the dial gave no connection.
    pub fn dial_failed(&mut self, why: DialFault, now: u64) -> EndpointStep
        ensures { (reply : Option Reply) × AtDialing (λ d. dial_failed why) self.old.endpoint now self.old.client result reply self.new }
    {
        let (endpoint, told) = mem::replace(&mut self.endpoint, EndpointSide::NoRequest).fail_dial(
            &mut self.client,
            self.alloc,
            why,
            now,
        );
        self.endpoint = endpoint;
        told
    }

    /// Ends the request if its dial or one of its timeouts at the endpoint has passed.
    pub fn look_at_endpoint(&mut self, now: u64) -> EndpointStep
        ensures plain { is_streaming self.old.endpoint ≡ false → (reply : Option Reply)
            × Looks self.old.endpoint now self.old.client result reply self.new }
        ensures streamed { is_streaming self.old.endpoint ≡ true → (telling : Telling)
            × AtStreamed (λ s step. step ≡ looked_streamed s now) self.old.endpoint now self.old.client result telling self.new }
    {
        let (endpoint, told) = mem::replace(&mut self.endpoint, EndpointSide::NoRequest).look(
            &mut self.client,
            self.alloc,
            now,
        );
        self.endpoint = endpoint;
        told
    }

    /// Gives the request up, which is dialled for or forwarded.
    pub fn give_up(&mut self, why: GivingUp, now: u64) -> EndpointStep
        ensures plain { is_streaming self.old.endpoint ≡ false → (reply : Option Reply)
            × GivesUp why self.old.endpoint now self.old.client result reply self.new }
        ensures streamed { is_streaming self.old.endpoint ≡ true → (telling : Telling)
            × AtStreamed (λ s step. step ≡ given_up_streamed s why) self.old.endpoint now self.old.client result telling self.new }
    {
        let (endpoint, told) = mem::replace(&mut self.endpoint, EndpointSide::NoRequest).give_up(
            &mut self.client,
            self.alloc,
            why,
            now,
        );
        self.endpoint = endpoint;
        told
    }
}
