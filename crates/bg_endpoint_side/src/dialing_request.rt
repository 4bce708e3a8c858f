//! A request that is dialled for.
ghost use Rattle.std.specs.Prelude.{◌≡◌, ◌&&◌, ◌++◌, [], IfErr, IfOk, IsTrue, false, nat_le, not, true};
ghost use Rattle.bg_endpoint_side.specs.Deadlines.{deadlines_from};
ghost use Rattle.bg_endpoint_side.specs.Dialing.{begins_on, elsewhere, may_go_elsewhere};
ghost use Rattle.bg_endpoint_side.specs.EndpointRequests.{IsForwardedSoundly, forwarded_of};
ghost use Rattle.bg_endpoint_side.specs.Forwarding.{again};
ghost use Rattle.bg_endpoint_side.specs.OutgoingTexts.{uncopied_body as uncopied_of};
ghost use Rattle.bg_endpoint_side.specs.Outcomes.{health_of_dial, of_dial, of_giving_up, refused};
ghost use Rattle.bg_endpoint_side.specs.Streaming.{IsStreamedOn};
ghost use Rattle.bg_endpoint_side.specs.declared.outcome.Health.TheVariants as health;

use crate::arrived_bytes::ArrivedBytes;
use crate::connection_state::ConnectionState;
use crate::deadlines::{DIAL_MILLIS, Deadlines, Timeouts};
use crate::endpoint_request::EndpointRequest;
use crate::forwarded_request::ForwardedRequest;
use crate::outcome::{DialFault, ForwardFault, GivingUp, Health, Outcome};
use crate::outgoing_text::OutgoingText;
use crate::streamed_request::{StreamedRequest, Streaming};
use crate::terms::Terms;
use crate::version::VersionMatch;
use bg_http::Request;
use bg_http_read::ResponseParser;
use bg_streams::StreamTerms;
use std::alloc::{AllocError, Global};
use std::marker::Model;

/// A request that waits for a connection to its endpoint. Nothing of it was written to that connection.
pub struct DialingRequest {
    /// Its parser was fed nothing. What is said there of a connection has no meaning yet.
    pub(crate) boxed: Box<EndpointRequest>,
}

impl Drop for DialingRequest {
    /// Drops the fields by one call, so that the proofs of what owns a value are short (CONTRIBUTING.md, "What a check costs").
    fn drop(self) {
        let DialingRequest { boxed: _ } = self;
    }
}

impl Model for DialingRequest {
    ghost use Rattle.bg_endpoint_side.specs.Dialing.{Dialing};
    ghost use Rattle.bg_endpoint_side.specs.EndpointRequests.{IsDialedSoundly, dialing_of};

    ghost Value = { Dialing };

    ghost view = { λ r. dialing_of r.boxed.value };

    ghost invariant = { λ r. IsDialedSoundly r.boxed.value };
}

impl DialingRequest {
    /// A request that is dialled for from now on, in milliseconds from the start of the program. What is written to its
    /// endpoint are the bytes of `outgoing` and then [`uncopied_body`]. Its response is read as the one to `request`. The only
    /// error is an allocation failure.
    pub fn new(
        alloc: Global,
        request: &Request,
        outgoing: (Vec<u8>, Terms),
        timeouts: Timeouts,
        now: u64,
    ) -> Result<DialingRequest, AllocError>
        ensures { IfOk result (λ dialing. dialing ≡ record {
          request = request.now;
          text = outgoing.0.items ++ uncopied_of request.now;
          terms = outgoing.1;
          deadlines = deadlines_from timeouts now;
          is_again = false;
        }) }
    {
        let (front, terms) = outgoing;
        let boxed = EndpointRequest {
            parser: ResponseParser::new(alloc, request),
            text: OutgoingText::new(front, request),
            version: VersionMatch::new(),
            has_come: false,
            arrived: ArrivedBytes::none(alloc),
            state: ConnectionState {
                terms,
                deadlines: Deadlines::new(timeouts, now),
                is_kept: false,
                is_again: false,
                is_unread: false,
                is_ending: false,
            },
        };
        Ok(DialingRequest {
            boxed: Box::new(alloc, boxed)?,
        })
    }

    /// What the request means for its connection.
    pub fn terms(&self) -> Terms
        ensures { result ≡ self.now.terms }
    {
        self.boxed.state.terms
    }

    /// Whether it was sent on no connection before. If it was sent on one that was kept, a new connection to the same
    /// endpoint is dialled.
    pub fn is_unsent(&self) -> bool
        ensures { result ≡ not self.now.is_again }
    {
        !self.boxed.state.is_again
    }

    /// Whether its dial, or its response, has timed out.
    pub fn is_late(&self, now: u64) -> bool
        ensures { result ≡ nat_le self.now.deadlines.until now }
    {
        self.boxed.state.deadlines.until <= now
    }

    /// A new connection was made for it.
    pub fn on_new(self, now: u64) -> ForwardedRequest
        ensures { result ≡ begins_on false self now }
    {
        self.on(false, now)
    }

    /// A connection that was kept was taken for it.
    pub fn on_kept(self, now: u64) -> ForwardedRequest
        requires { IsTrue (not self.is_again) }
        ensures { result ≡ begins_on true self now }
    {
        self.on(true, now)
    }

    /// A connection was made for it, or one that was kept was taken for it, and its response is passed on as it comes: the response to
    /// this request, which is the one that is forwarded, for a client under these terms. It comes back as it is if the connection was
    /// kept and the request is sent again, or if there is no memory.
    pub fn streamed_on(
        self,
        alloc: Global,
        is_kept: bool,
        response: (&Request, StreamTerms),
        now: u64,
    ) -> Result<StreamedRequest, DialingRequest>
        requires { response.0.now ≡ self.request }
        ensures streams { IfOk result (IsStreamedOn is_kept self response.entry.1 now) }
        ensures same { IfErr result (λ same. same ≡ self) }
    {
        if is_kept && self.boxed.state.is_again {
            return Err(self);
        }
        let (request, terms) = response;
        let DialingRequest { boxed } = self;
        match Streaming::new(alloc, boxed, request, terms) {
            Ok(streaming) => Ok(StreamedRequest::begin(streaming, is_kept, now)),
            Err(boxed) => Err(DialingRequest { boxed }),
        }
    }

    /// It is sent on a connection from now on.
    fn on(self, is_kept: bool, now: u64) -> ForwardedRequest
        requires { (is_kept && self.is_again) ≡ false }
        ensures { result ≡ begins_on is_kept self now }
    {
        ForwardedRequest {
            boxed: self.begin(is_kept, now),
        }
    }

    /// What it has at its endpoint once it is sent on a connection from now on.
    fn begin(self, is_kept: bool, now: u64) -> Box<EndpointRequest>
        requires { (is_kept && self.is_again) ≡ false }
        ensures sound { IsForwardedSoundly result.value }
        ensures value { forwarded_of result.value ≡ begins_on is_kept self now }
    {
        let DialingRequest { mut boxed } = self;
        boxed.begin(is_kept, now);
        boxed
    }

    /// A request that is sent again on a new connection. No byte of its response came, and its parser was fed nothing.
    pub(crate) fn again(boxed: Box<EndpointRequest>, now: u64) -> DialingRequest
        requires sound { IsTrue boxed.value.parser.is_open × (boxed.value.text.uncopied ≡ uncopied_of boxed.value.parser.request) }
        requires none { boxed.value.parser.seen ≡ [] }
        ensures { result ≡ again (forwarded_of boxed.value) now }
    {
        let mut boxed = boxed;
        boxed.text.restart();
        boxed.state.deadlines = boxed.state.deadlines.renewed(DIAL_MILLIS, now);
        boxed.state.is_again = true;
        DialingRequest { boxed }
    }

    /// Whether another endpoint may be dialled for it: it was sent on no connection before, and the timeout of its response
    /// has not passed.
    pub fn may_go_elsewhere(&self, now: u64) -> bool
        ensures { result ≡ may_go_elsewhere self.now now }
    {
        self.is_unsent() && now < self.boxed.state.deadlines.last
    }

    /// The dial gave no connection, and another endpoint is dialled from now on: with the text that begins with these bytes,
    /// and under these terms. The timeout of the response is that of all its dials together.
    pub fn dial_elsewhere(self, outgoing: (Vec<u8>, Terms), now: u64) -> DialingRequest
        requires { IsTrue (not self.is_again) }
        ensures { result ≡ elsewhere self (outgoing.0.items ++ uncopied_of self.request) outgoing.1 now }
    {
        let DialingRequest { mut boxed } = self;
        let (front, terms) = outgoing;
        boxed.text.begin_with(front);
        boxed.state.terms = terms;
        boxed.state.deadlines = boxed.state.deadlines.renewed(DIAL_MILLIS, now);
        DialingRequest { boxed }
    }

    /// The dial gave no connection.
    pub fn fail(self, why: DialFault) -> Outcome
        ensures { result ≡ refused (of_dial why) (health_of_dial why) }
    {
        let health = match why {
            DialFault::Failed | DialFault::TimedOut => Health::Fails,
            DialFault::NoSocket => Health::Unknown,
        };
        Outcome::refused(why.fault(), health)
    }

    /// The request is given up.
    pub fn give_up(self, why: GivingUp) -> Outcome
        ensures { result ≡ refused (of_giving_up why) health.Unknown }
    {
        Outcome::refused(why.fault(), Health::Unknown)
    }
}
