//! A request that is forwarded on a connection to its endpoint, and whose response is passed on as it comes.
ghost use Rattle.std.specs.Prelude.{◌≡◌, ◌≤◌, ◌&&◌, [], IfErr, IfOk, IfSome, None, false, length, true};
ghost use Rattle.std.specs.Option.{option_copied, option_map};
ghost use Rattle.bg_http.specs.Persistences.{keeps};
ghost use Rattle.bg_streams.specs.Passings.{IsWithin};
ghost use Rattle.bg_streams.specs.ResponseRelays.{is_whole, keeps_of, passing_of, response_of, rest_of, terms_of, whole_rest};
ghost use Rattle.bg_streams.specs.ResponseStreams as streams;
ghost use Rattle.bg_streams.specs.ResponseStreams.{EndsInput, Receives, StandsFor, Takes, relay_of};
ghost use Rattle.bg_endpoint_side.specs.Dialing.{begins_on};
ghost use Rattle.bg_endpoint_side.specs.EndpointRequests.{IsDialedSoundly, dialing_of};
ghost use Rattle.bg_endpoint_side.specs.Forwarding.{again, is_sent, late_health, may_repeat, to_write, unread};
ghost use Rattle.bg_endpoint_side.specs.Forwarding.{with_bytes, with_end, wrote};
ghost use Rattle.bg_endpoint_side.specs.Outcomes.{health_of};
ghost use Rattle.bg_endpoint_side.specs.OutgoingTexts.{IsFirstPiece};
ghost use Rattle.bg_endpoint_side.specs.Streaming as spec;
ghost use Rattle.bg_endpoint_side.specs.Streaming.{awaited_from};

use crate::answering::{health_of, may_stay};
use crate::dialing_request::DialingRequest;
use crate::endpoint_request::EndpointRequest;
use crate::outcome::Health;
use crate::terms::Terms;
use bg_http::{Persistence, Request, Response};
use bg_http_read::Seen;
use bg_streams::{ResponseStream, StreamFault, StreamTerms};
use std::alloc::{AllocError, AllocFailed, Global};
use std::marker::Model;

/// A request that is forwarded on a connection to its endpoint, and whose response is passed on as it comes. Its caller writes what
/// [`Self::piece`] gives to the endpoint and what [`Self::rest`] gives to the client, and tells what happened on both connections.
pub struct StreamedRequest {
    /// It is large, so an event moves no more than the box.
    boxed: Box<Streaming>,
}

/// What a request has at its endpoint, and its response.
pub(crate) struct Streaming {
    /// Its parser is fed nothing.
    request: Box<EndpointRequest>,
    stream: ResponseStream,
    came: Seen,
}

impl Drop for StreamedRequest {
    /// Drops the fields by one call, so that the proofs of what owns a value are short (CONTRIBUTING.md, "What a check costs").
    fn drop(self) {
        let StreamedRequest { boxed: _ } = self;
    }
}

impl Drop for Streaming {
    /// Drops the fields by one call, so that the proofs of what owns a value are short (CONTRIBUTING.md, "What a check costs").
    fn drop(self) {
        let Streaming {
            request: _,
            stream: _,
            came: _,
        } = self;
    }
}

impl Model for StreamedRequest {
    ghost use Rattle.std.specs.Prelude.{◌≡◌, []};
    ghost use Rattle.bg_endpoint_side.specs.EndpointRequests.{IsSoundWith, forwarded_with};
    ghost use Rattle.bg_endpoint_side.specs.Streaming.{Streamed};

    ghost Value = { Streamed };

    ghost view = { λ r. record {
      forwarded = forwarded_with r.boxed.value.request.value r.boxed.value.came.bytes;
      stream = r.boxed.value.stream;
    } };

    ghost invariant = { λ r. IsSoundWith r.boxed.value.request.value r.boxed.value.came.bytes
        × (r.boxed.value.request.value.parser.seen ≡ []) };
}

impl StreamedRequest {
    /// A request that was dialled for is sent on a connection from now on.
    pub(crate) fn begin(boxed: Box<Streaming>, is_kept: bool, now: u64) -> StreamedRequest
        requires dialed { IsDialedSoundly boxed.value.request.value }
        requires once { (is_kept && boxed.value.request.value.state.is_again) ≡ false }
        requires none { boxed.value.came.bytes ≡ [] }
        ensures forwarded { result.forwarded ≡ begins_on is_kept (dialing_of boxed.value.request.value) now }
        ensures stream { result.stream ≡ boxed.value.stream }
    {
        let mut boxed = boxed;
        boxed.request.begin(is_kept, now);
        StreamedRequest { boxed }
    }

    /// What the request means for its connection.
    pub fn terms(&self) -> Terms
        ensures { result ≡ self.now.forwarded.state.terms }
    {
        self.boxed.request.state.terms
    }

    /// All bytes that came on the connection since the request began on it, if they are kept: its terms ask for an upgrade, there are at
    /// most 16,384 of them, and no allocation failed.
    pub fn arrived(&self) -> Option<&[u8]>
        ensures came { IfSome result (λ bytes. bytes.now ≡ self.now.forwarded.came) }
        ensures within { IfSome result (λ bytes. length bytes.now ≤ 16384) }
        ensures none { self.now.forwarded.state.terms.asks_for_upgrade ≡ false → result ≡ None }
    {
        self.boxed.request.arrived()
    }

    /// A piece of what is to be written to the endpoint now: of what is left of the text, or of nothing, if the endpoint reads no more
    /// of it. `request` is the request that is forwarded.
    pub fn piece<'a>(&'a self, request: &'a Request) -> &'a [u8]
        requires { request.now ≡ self.now.forwarded.request }
        ensures { IsFirstPiece (to_write self.now.forwarded) result.now }
    {
        self.boxed.request.piece(request)
    }

    /// Whether the whole text was written.
    pub fn is_sent(&self) -> bool
        ensures { result ≡ is_sent self.now.forwarded }
    {
        self.boxed.request.text.is_sent()
    }

    /// So many bytes more of the text were written, at most the rest.
    pub fn wrote(&mut self, count: usize, now: u64)
        ensures { self.new ≡ record self.old { forwarded = wrote self.old.forwarded count now } }
    {
        self.boxed.request.text.wrote(count);
        self.boxed.request.renew_if(count > 0, now);
    }

    /// A write failed since the endpoint reads no more of the request. What it sends is still read.
    pub fn note_unread(&mut self, now: u64)
        ensures { self.new ≡ record self.old { forwarded = unread self.old.forwarded now } }
    {
        self.boxed.request.state.is_unread = true;
        self.boxed.request.renew_if(true, now);
    }

    /// The endpoint has announced the end of the connection: no byte comes behind those that wait.
    pub fn note_ending(&mut self)
        ensures { self.new ≡ record self.old { forwarded = with_end self.old.forwarded } }
    {
        self.boxed.request.state.is_ending = true;
    }

    /// What is to be written to the client next, as [`ResponseStream::rest`] gives it.
    pub fn rest(&self) -> &[u8]
        ensures rest { result.now ≡ rest_of (passing_of (relay_of self.now.stream)) }
        ensures within { IfSome (passing_of (relay_of self.now.stream)) IsWithin }
    {
        self.boxed.stream.rest()
    }

    /// Whether more of the input is wanted. If not, the caller does not read from the endpoint, not even its end.
    pub fn wants_input(&self) -> bool
        ensures { result ≡ streams.wants_input self.now.stream }
    {
        self.boxed.stream.wants_input()
    }

    /// The response without a byte of its body, once its head came.
    pub fn response(&self) -> Option<&Response>
        ensures { option_copied result ≡ response_of (passing_of (relay_of self.now.stream)) }
    {
        self.boxed.stream.response()
    }

    /// Whether the head that is written keeps the connection of the client, as [`ResponseStream::persistence`] gives it.
    pub fn persistence(&self) -> Option<Persistence>
        ensures { option_map keeps result
            ≡ keeps_of (terms_of (relay_of self.now.stream)) (passing_of (relay_of self.now.stream)) }
    {
        self.boxed.stream.persistence()
    }

    /// All that is left to be written to the client, as [`ResponseStream::into_rest`] gives it. The only error is an allocation failure.
    pub fn into_rest(self) -> Result<Vec<u8>, AllocError>
        ensures { IfOk result (λ rest. rest.items ≡ whole_rest (passing_of (relay_of self.stream))) }
    {
        let StreamedRequest { boxed } = self;
        Box::into_inner(boxed).into_stream().into_rest()
    }

    /// Whether the response is whole: what is to be written to the client ends with its end.
    pub fn is_whole(&self) -> bool
        ensures { result ≡ is_whole (passing_of (relay_of self.now.stream)) }
    {
        self.boxed.stream.is_whole()
    }

    /// Whether the client took a byte of the response.
    pub fn is_begun(&self) -> bool
        ensures { result ≡ streams.is_begun self.now.stream }
    {
        self.boxed.stream.is_begun()
    }

    /// Bytes came from the endpoint, and they renew its timeout. The faults are those of [`ResponseStream::receive`].
    pub(crate) fn feed(&mut self, bytes: &[u8], now: u64) -> Result<(), StreamFault>
        ensures forwarded { self.new.forwarded ≡ with_bytes self.old.forwarded bytes.now now }
        ensures stream { Receives self.old.stream self.new.stream bytes.now result }
    {
        self.note_bytes(bytes, now);
        self.boxed.stream.receive(bytes)
    }

    /// Notes that bytes came.
    fn note_bytes(&mut self, bytes: &[u8], now: u64)
        ensures { self.new ≡ record self.old { forwarded = with_bytes self.old.forwarded bytes.now now } }
    {
        self.boxed.came.add(bytes);
        self.boxed.request.note_bytes(bytes, now);
    }

    /// The client took so many bytes of [`Self::rest`], at most all of them. If nothing was awaited of the endpoint before, and
    /// something is now, its timeout begins now. The faults are those of [`ResponseStream::took`].
    pub(crate) fn note_taken(&mut self, count: usize, now: u64) -> Result<(), StreamFault>
        ensures forwarded { self.new.forwarded ≡ awaited_from self.old self.new.stream now }
        ensures stream { Takes self.old.stream self.new.stream count result }
    {
        let was_awaited = self.is_awaited();
        let taken = self.boxed.stream.took(count);
        let is_awaited = self.is_awaited();
        self.boxed.request.renew_if(!was_awaited && is_awaited, now);
        taken
    }

    /// The endpoint ended its connection. The faults are those of [`ResponseStream::end_input`].
    pub(crate) fn end_input(&mut self) -> Result<(), StreamFault>
        ensures forwarded { self.new.forwarded ≡ self.old.forwarded }
        ensures stream { EndsInput self.old.stream self.new.stream result }
    {
        self.boxed.stream.end_input()
    }

    /// Whether the endpoint has to do something: to send bytes, or to take bytes of the request. While the client takes too little of
    /// the response, nothing is awaited of the endpoint.
    fn is_awaited(&self) -> bool
        ensures { result ≡ spec.is_awaited self.now }
    {
        self.boxed.stream.wants_input() || !self.boxed.request.writes_nothing()
    }

    /// Whether its timeout has passed while something is awaited of the endpoint.
    pub fn is_late(&self, now: u64) -> bool
        ensures { result ≡ spec.is_late self.now now }
    {
        self.boxed.request.state.deadlines.until <= now && self.is_awaited()
    }

    /// Whether its endpoint reads no more of the request.
    pub(crate) fn is_unread(&self) -> bool
        ensures { result ≡ self.now.forwarded.state.is_unread }
    {
        self.boxed.request.state.is_unread
    }

    /// Whether the request may be sent again after its connection was closed: the connection was kept, no byte of a response came, and
    /// the method is idempotent or nothing of the request was written (RFC 9112 section 9.3.1).
    pub fn may_repeat(&self) -> bool
        ensures { result ≡ may_repeat self.now.forwarded }
    {
        self.boxed.request.may_repeat()
    }

    /// The request is sent again on a new connection, if it may be ([`Self::may_repeat`]); otherwise it comes back as it is.
    pub(crate) fn again(self, now: u64) -> Result<DialingRequest, StreamedRequest>
        ensures again { IfOk result (λ dialing.
            (may_repeat self.forwarded ≡ true) × (dialing ≡ again self.forwarded now)) }
        ensures same { IfErr result (λ same. (may_repeat self.forwarded ≡ false) × (same ≡ self)) }
    {
        if !self.may_repeat() {
            return Err(self);
        }
        let StreamedRequest { boxed } = self;
        Ok(DialingRequest::again(Box::into_inner(boxed).into_request(), now))
    }

    /// Whether the connection goes back for another request: the response is drained, the whole text was written, and neither side
    /// ends the connection.
    pub fn goes_back(&self) -> bool
        ensures { result ≡ spec.goes_back self.now }
    {
        self.boxed.stream.is_drained() && self.stays()
    }

    /// Whether the connection may be kept after the response.
    fn stays(&self) -> bool
        ensures { result ≡ spec.stays self.now.forwarded (response_of (passing_of (relay_of self.now.stream))) }
    {
        match self.boxed.stream.response() {
            Some(response) => may_stay(&self.boxed.request, response),
            None => false,
        }
    }

    /// What the bytes that came tell of the endpoint.
    pub fn health(&self) -> Health
        ensures { result ≡ health_of self.now.forwarded.came }
    {
        health_of(self.boxed.request.has_come)
    }

    /// What a timeout tells of the endpoint.
    pub fn late_health(&self, now: u64) -> Health
        ensures { result ≡ late_health self.now.forwarded now }
    {
        self.boxed.request.late_health(now)
    }
}

impl Streaming {
    /// A request on whose connection no byte came, and the response to `asked` before its first byte. Without memory the request comes
    /// back.
    pub(crate) fn new(
        alloc: Global,
        request: Box<EndpointRequest>,
        asked: &Request,
        terms: StreamTerms,
    ) -> Result<Box<Streaming>, Box<EndpointRequest>>
        ensures request { IfOk result (λ boxed. boxed.value.request ≡ request) }
        ensures none { IfOk result (λ boxed. boxed.value.came.bytes ≡ []) }
        ensures stands { IfOk result (λ boxed. StandsFor boxed.value.stream asked.now [] []) }
        ensures begun { IfOk result (λ boxed. streams.is_begun boxed.value.stream ≡ false) }
        ensures terms { IfOk result (λ boxed. terms_of (relay_of boxed.value.stream) ≡ terms) }
        ensures same { IfErr result (λ same. same ≡ request) }
    {
        let streaming = Streaming {
            request,
            stream: ResponseStream::new(alloc, asked, terms),
            came: Seen::new(),
        };
        match Box::new(alloc, streaming) {
            Ok(boxed) => Ok(boxed),
            Err(AllocFailed { value }) => Err(value.into_request()),
        }
    }

    /// The response.
    fn into_stream(self) -> ResponseStream
        ensures { result ≡ self.stream }
    {
        let Streaming {
            request: _,
            stream,
            came: _,
        } = self;
        stream
    }

    /// What the request has at its endpoint.
    fn into_request(self) -> Box<EndpointRequest>
        ensures { result ≡ self.request }
    {
        let Streaming {
            request,
            stream: _,
            came: _,
        } = self;
        request
    }
}
