//! A large request and its response, while both are passed on.
ghost use Rattle.std.specs.Prelude.{◌≡◌, ◌≤◌, ◌+◌, ◌++◌, [], IfErr, IfOk, IfSome, Ok, Some, OnOk, false, length, not};
ghost use Rattle.bg_http.specs.Codings.{is_empty};
ghost use Rattle.std.specs.Option.{option_map};
ghost use Rattle.bg_streams.specs.ResponseRelays.{is_whole, passing_of, response_of};
ghost use Rattle.bg_streams.specs.ResponseStreams as streams;
ghost use Rattle.bg_streams.specs.ResponseStreams.{relay_of};
ghost use Rattle.bg_upload.specs.Faults.{of_response};
ghost use Rattle.bg_upload.specs.OutgoingRequests as outgoing;
ghost use Rattle.bg_upload.specs.Uploads as spec;
ghost use Rattle.bg_upload.specs.Uploads.{ClientEnds, ClientSends, ClientTakes, EndpointEnds, EndpointSends, EndpointTakes, IsBegun};

use crate::outgoing_request::OutgoingRequest;
use crate::upload_fault::{UploadFault, request_fault};
use crate::upload_terms::UploadTerms;
use bg_endpoint_side::{ForwardFault, Health};
use bg_http::{Framing, Persistence, Request, RequestFault};
use bg_streams::{ResponseStream, StreamFault, StreamTerms};
use std::alloc::{AllocError, Global};
use std::io;

/// The interim response that some clients await before they send a body (RFC 9110 section 10.1.1).
const CONTINUE: &[u8] = b"HTTP/1.1 100 Continue\r\n\r\n";

/// A large request and its response, while both are passed on. It has no socket: its caller reads from both peers while it wants
/// their bytes, writes what it gives, and tells what happened. Neither connection carries another request after it. Moments are
/// milliseconds.
pub struct Upload {
    request: OutgoingRequest,
    response: ResponseStream,
    /// The number of bytes of `100 Continue` that were written; all of them if it is not owed.
    interim_sent: usize,
    /// Whether the endpoint reads no more of the request.
    is_unread: bool,
    /// Whether a byte came from the endpoint.
    has_come: bool,
    /// The time for which no byte may pass, and when it has passed.
    silence_millis: u64,
    until: u64,
}

impl Drop for Upload {
    /// Drops the fields by one call, so that the proofs of what owns a value are short (CONTRIBUTING.md, "What a check costs").
    fn drop(self) {
        let Upload {
            request: _,
            response: _,
            interim_sent: _,
            is_unread: _,
            has_come: _,
            silence_millis: _,
            until: _,
        } = self;
    }
}

impl Upload {
    /// A large request that has a connection to its endpoint from now on. No byte of its body came yet. `request` is the request
    /// without its body. The only error is an allocation failure.
    pub fn new(
        alloc: Global,
        request: &Request,
        framing: Framing,
        terms: UploadTerms,
        now: u64,
    ) -> io::Result<Upload>
        ensures { IfOk result (IsBegun request.now framing terms now) }
    {
        let response_terms = StreamTerms {
            reads_chunks: request.minor != 0,
            persistence: Persistence::Close,
            window: terms.window,
            most_body: terms.most_response,
        };
        Ok(Upload {
            request: OutgoingRequest::new(alloc, request, framing, terms)?,
            response: ResponseStream::new(alloc, request, response_terms),
            interim_sent: if terms.owes_continue {
                0
            } else {
                CONTINUE.len()
            },
            is_unread: false,
            has_come: false,
            silence_millis: terms.silence_millis,
            until: now.saturating_add(terms.silence_millis),
        })
    }

    /// What is to be written to the client next: of `100 Continue`, and after it of the response.
    pub fn to_client(&self) -> &[u8]
        ensures { result.now ≡ spec.to_client self.now }
    {
        let interim = rest_of_continue(self.interim_sent);
        if interim.is_empty() {
            self.response.rest()
        } else {
            interim
        }
    }

    /// Whether `100 Continue` is to be written to the client next, and not the response.
    pub fn is_continuing(&self) -> bool
        ensures { result ≡ not (is_empty (spec.rest_of_continue self.now.interim_sent)) }
    {
        !rest_of_continue(self.interim_sent).is_empty()
    }

    /// What is to be written to the endpoint next: of the head, and after it of the body; nothing, if it reads no more.
    pub fn to_endpoint(&self) -> &[u8]
        ensures { result.now ≡ spec.to_endpoint self.now }
    {
        if self.is_unread {
            &[]
        } else {
            self.request.rest()
        }
    }

    /// Whether bytes of the client are to be read now. If not, its caller does not read from it, not even its end.
    pub fn reads_client(&self) -> bool
        ensures { result ≡ spec.reads_client self.now }
    {
        !self.is_unread && self.request.wants_input()
    }

    /// Whether bytes of the endpoint are to be read now. If not, its caller does not read from it, not even its end.
    pub fn reads_endpoint(&self) -> bool
        ensures { result ≡ streams.wants_input self.now.response }
    {
        self.response.wants_input()
    }

    /// Whether the response is whole: what is to be written to the client ends with its end.
    pub fn is_whole(&self) -> bool
        ensures { result ≡ is_whole (passing_of (relay_of self.now.response)) }
    {
        self.response.is_whole()
    }

    /// The status code of the response, once its head came.
    pub fn code(&self) -> Option<u16>
        ensures { result ≡ option_map (λ r. r.code) (response_of (passing_of (relay_of self.now.response))) }
    {
        match self.response.response() {
            Some(response) => Some(response.code),
            None => None,
        }
    }

    /// Whether the whole body came.
    pub fn is_body_whole(&self) -> bool
        ensures { result ≡ outgoing.is_whole self.now.request }
    {
        self.request.is_whole()
    }

    /// Whether the client took a byte of the response, or a part of `100 Continue`. If not, it may be refused.
    pub fn is_begun(&self) -> bool
        ensures { result ≡ spec.is_begun self.now }
    {
        let interim = rest_of_continue(self.interim_sent).len();
        self.response.is_begun() || 0 < interim && interim < CONTINUE.len()
    }

    /// Bytes of the body came from the client. All of them are taken over.
    ///
    /// The fault is Bad, TooLarge or OutOfMemory of the request.
    pub fn client_sent(&mut self, bytes: &[u8], now: u64) -> Result<(), UploadFault>
        ensures { ClientSends bytes.now now result self.old self.new }
    {
        self.renew(bytes.len(), now);
        match self.request.receive(bytes) {
            Ok(()) => Ok(()),
            Err(fault) => Err(UploadFault::Request(request_fault(fault))),
        }
    }

    /// The client ended its input. The fault is Closed of the request, if its body is not whole.
    pub fn client_ended(&mut self) -> Result<(), UploadFault>
        ensures { ClientEnds result self.old self.new }
    {
        match self.request.end_input() {
            Ok(()) => Ok(()),
            Err(fault) => Err(UploadFault::Request(request_fault(fault))),
        }
    }

    /// The endpoint took so many bytes of [`Self::to_endpoint`], at most all of them. The faults are those of
    /// [`Self::client_sent`], for bytes that waited.
    pub fn endpoint_took(&mut self, count: usize, now: u64) -> Result<(), UploadFault>
        ensures { EndpointTakes count now result self.old self.new }
    {
        self.renew(count, now);
        self.request.wrote(count);
        match self.request.pass_waiting() {
            Ok(()) => Ok(()),
            Err(fault) => Err(UploadFault::Request(request_fault(fault))),
        }
    }

    /// A write failed since the endpoint reads no more of the request. What it sends is still read.
    pub fn endpoint_reads_no_more(&mut self)
        ensures { self.new ≡ spec.unread self.old }
    {
        self.is_unread = true;
    }

    /// Bytes came from the endpoint. The faults are those of the response.
    pub fn endpoint_sent(&mut self, bytes: &[u8], now: u64) -> Result<(), UploadFault>
        ensures { EndpointSends bytes.now now result self.old self.new }
    {
        self.renew(bytes.len(), now);
        self.has_come = self.has_come || !bytes.is_empty();
        match self.response.receive(bytes) {
            Ok(()) => Ok(()),
            Err(fault) => Err(response_fault(fault)),
        }
    }

    /// The endpoint ended its connection. The faults are those of the response.
    pub fn endpoint_ended(&mut self) -> Result<(), UploadFault>
        ensures { EndpointEnds result self.old self.new }
    {
        match self.response.end_input() {
            Ok(()) => Ok(()),
            Err(fault) => Err(response_fault(fault)),
        }
    }

    /// The client took so many bytes of [`Self::to_client`], at most all of them. The faults are those of the response.
    pub fn client_took(&mut self, count: usize, now: u64) -> Result<(), UploadFault>
        ensures { ClientTakes count now result self.old self.new }
    {
        self.renew(count, now);
        let interim = rest_of_continue(self.interim_sent).len();
        if interim > 0 {
            self.interim_sent += count.min(interim);
            return Ok(());
        }
        match self.response.took(count) {
            Ok(()) => Ok(()),
            Err(fault) => Err(response_fault(fault)),
        }
    }

    /// Whether no byte has passed for too long.
    pub fn is_late(&self, now: u64) -> bool
        ensures { result ≡ spec.is_late now self.now }
    {
        self.until <= now
    }

    /// Whom it waits for, as the fault of one that is late: the client, which takes or sends nothing, or the endpoint.
    pub fn late_fault(&self) -> UploadFault
        ensures { result ≡ spec.late_fault self.now }
    {
        if !self.to_client().is_empty() {
            UploadFault::Forward(ForwardFault::ClientGone)
        } else if self.reads_client() && self.to_endpoint().is_empty() {
            UploadFault::Request(RequestFault::ReadFailed)
        } else {
            UploadFault::Forward(ForwardFault::ResponseTimeout)
        }
    }

    /// What the bytes that came tell of the endpoint.
    pub fn health(&self) -> Health
        ensures { result ≡ spec.health self.now }
    {
        if self.has_come {
            Health::Answers
        } else {
            Health::Unknown
        }
    }

    /// All that is left to be written to the client. The only error is an allocation failure.
    pub fn into_rest(self, alloc: Global) -> Result<Vec<u8>, AllocError>
        ensures { IfOk result (λ rest. rest.items ≡ spec.whole_rest self) }
    {
        let Upload {
            request: _,
            response,
            interim_sent,
            is_unread: _,
            has_come: _,
            silence_millis: _,
            until: _,
        } = self;
        let mut rest = Vec::from_slice(alloc, rest_of_continue(interim_sent))?;
        let body = response.into_rest()?;
        rest.extend_from_slice(&body)?;
        Ok(rest)
    }

    /// The same after so many bytes passed now, if any did.
    fn renew(&mut self, count: usize, now: u64)
        ensures { self.new ≡ spec.renewed count now self.old }
    {
        if count > 0 {
            self.until = now.saturating_add(self.silence_millis);
        }
    }
}

/// What is left of `100 Continue` after so many bytes.
fn rest_of_continue(sent: usize) -> &'static [u8]
    ensures { result.now ≡ spec.rest_of_continue sent }
{
    match CONTINUE.get(sent..) {
        Some(rest) => rest,
        None => &[],
    }
}

/// The fault of a response that is passed on.
fn response_fault(fault: StreamFault) -> UploadFault
    ensures { result ≡ of_response fault }
{
    UploadFault::Forward(ForwardFault::Response(fault.response_fault()))
}
