//! The response of an endpoint that is passed on, with the bytes that wait.
ghost use Rattle.std.specs.Prelude.{◌≡◌, ◌≤◌, ◌+◌, ◌++◌, ◌||◌, [], List, ℕ, IfErr, IfOk, IfSome, OnOk, length, not, take};
ghost use Rattle.std.specs.Prelude.{Err, false};
ghost use Rattle.std.specs.Option.{option_copied, option_map};
ghost use Rattle.bg_http.specs.Codings.{is_empty};
ghost use Rattle.bg_http.specs.Persistences.{keeps};
ghost use Rattle.bg_http.specs.declared.request.Request.{Request as RequestValue};
ghost use Rattle.bg_relay.specs.declared.relay_fault.RelayFault.TheVariants as relay_fault;
ghost use Rattle.bg_streams.specs.Faults.{body_fault as body_fault_of};
ghost use Rattle.bg_streams.specs.Passings.{IsWithin};
ghost use Rattle.bg_streams.specs.ResponseRelays.{framing_of, is_whole, keeps_of, passing_of, response_of, rest_of};
ghost use Rattle.bg_streams.specs.ResponseRelays.{terms_of, whole_rest};
ghost use Rattle.bg_streams.specs.ResponseStreams as spec;
ghost use Rattle.bg_streams.specs.ResponseStreams.{FailsFor, Holds, StandsFor, relay_of, waiting_of};

use crate::framings::tells_end;
use crate::response_relay::ResponseRelay;
use crate::stream_fault::{StreamFault, body_fault};
use crate::stream_terms::StreamTerms;
use bg_http::{Persistence, Request, Response, ResponseFraming};
use bg_relay::RelayFault;
use std::alloc::{AllocError, Global};

/// The response of an endpoint to a request as it is passed on, with the bytes that came and wait: for room, or for the rest of a
/// head, of a line or of trailers. It has no socket: its caller gives it all bytes that came, writes what it gives to the client,
/// and tells both. After a fault it is of no use, and its caller drops it.
pub struct ResponseStream {
    relay: ResponseRelay,
    waiting: Vec<u8>,
    /// Whether the client took a byte.
    is_begun: bool,
}

impl Drop for ResponseStream {
    /// Drops the fields by one call, so that the proofs of what owns a value are short (CONTRIBUTING.md, "What a check costs").
    fn drop(self) {
        let ResponseStream {
            relay: _,
            waiting: _,
            is_begun: _,
        } = self;
    }
}

impl ResponseStream {
    /// The response to `request`, before its first byte. Keeps of the request only whether its method is HEAD.
    pub fn new(alloc: Global, request: &Request, terms: StreamTerms) -> ResponseStream
        ensures stands { StandsFor result request.now [] [] }
        ensures begun { spec.is_begun result ≡ false }
        ensures terms { terms_of (relay_of result) ≡ terms }
    {
        ResponseStream {
            relay: ResponseRelay::new(alloc, request, terms),
            waiting: Vec::new(alloc),
            is_begun: false,
        }
    }

    /// The response without a byte of its body, as [`ResponseRelay::response`] gives it.
    pub fn response(&self) -> Option<&Response>
        ensures { option_copied result ≡ response_of (passing_of (relay_of self.now)) }
    {
        self.relay.response()
    }

    /// How the endpoint tells the end of the body, as [`ResponseRelay::framing`] gives it.
    pub fn framing(&self) -> Option<ResponseFraming>
        ensures { result ≡ framing_of (passing_of (relay_of self.now)) }
    {
        self.relay.framing()
    }

    /// Whether the head that is written keeps the connection of the client, as [`ResponseRelay::persistence`] gives it.
    pub fn persistence(&self) -> Option<Persistence>
        ensures { option_map keeps result
            ≡ keeps_of (terms_of (relay_of self.now)) (passing_of (relay_of self.now)) }
    {
        self.relay.persistence()
    }

    /// Whether the client took a byte.
    pub fn is_begun(&self) -> bool
        ensures { result ≡ spec.is_begun self.now }
    {
        self.is_begun
    }

    /// Whether the response is whole: what is to be written ends with its end.
    pub fn is_whole(&self) -> bool
        ensures { result ≡ is_whole (passing_of (relay_of self.now)) }
    {
        self.relay.is_whole()
    }

    /// Whether the connection of the endpoint carries nothing more of the response: it is whole by its own framing, and nothing came
    /// behind it. Only then does the connection go back for another request.
    pub fn is_drained(&self) -> bool
        ensures { result ≡ spec.is_drained self.now }
    {
        self.relay.is_drained(&self.waiting)
    }

    /// Whether more of the input is wanted. If not, the caller does not read from the endpoint, not even its end.
    pub fn wants_input(&self) -> bool
        ensures { result ≡ spec.wants_input self.now }
    {
        self.relay.wants_input()
    }

    /// What is to be written to the client next: of the head, and after it of the body.
    pub fn rest(&self) -> &[u8]
        ensures rest { result.now ≡ rest_of (passing_of (relay_of self.now)) }
        ensures within { IfSome (passing_of (relay_of self.now)) IsWithin }
    {
        self.relay.rest()
    }

    /// All that is left to be written to the client, as [`ResponseRelay::into_rest`] gives it. The only error is an allocation failure.
    pub fn into_rest(self) -> Result<Vec<u8>, AllocError>
        ensures { IfOk result (λ rest. rest.items ≡ whole_rest (passing_of (relay_of self))) }
    {
        let ResponseStream {
            relay,
            waiting: _,
            is_begun: _,
        } = self;
        relay.into_rest()
    }

    /// These bytes came. All of them are taken over: what is not passed on yet waits. While the stream wants input, fewer than 16,384
    /// bytes wait.
    ///
    /// The faults are those of [`ResponseRelay::feed`], and OutOfMemory for what waits: a refusal if the client took no byte, and
    /// otherwise a cut.
    pub fn receive(&mut self, bytes: &[u8]) -> Result<(), StreamFault>
        ensures { spec.Receives self.old self.new bytes.now result }
    {
        if self.waiting.is_empty() {
            return self.feed(bytes);
        }
        self.keep(bytes)?;
        self.feed_waiting()
    }

    /// The client took so many bytes of [`Self::rest`], at most all of them. What waits is passed on as far as there is room. The
    /// faults are those of [`Self::receive`].
    pub fn took(&mut self, count: usize) -> Result<(), StreamFault>
        ensures { spec.Takes self.old self.new count result }
    {
        self.note(count);
        self.feed_waiting()
    }

    /// The endpoint ended its connection, as [`ResponseRelay::end_input`] says. If the body goes to the end of the input and bytes of
    /// it wait, the response is cut off too: its caller read the end although the stream wanted no input.
    ///
    /// The fault is Closed or Cut, or OutOfMemory.
    pub fn end_input(&mut self) -> Result<(), StreamFault>
        ensures { spec.EndsInput self.old self.new result }
    {
        if self.loses_bytes() {
            return Err(body_fault(self.is_begun, RelayFault::Cut));
        }
        self.relay.end_input()
    }

    /// Whether an end of the input would lose bytes that wait.
    fn loses_bytes(&self) -> bool
        ensures { result ≡ spec.loses_bytes self.now }
    {
        match self.relay.framing() {
            Some(framing) => {
                !tells_end(framing) && !self.relay.is_whole() && !self.waiting.is_empty()
            }
            None => false,
        }
    }

    /// Notes that the client took so many bytes.
    fn note(&mut self, count: usize)
        ensures stands { (request : RequestValue) (came passed : List ℕ) → StandsFor self.old request came passed
            → Holds self.new request came (passed ++ take count (rest_of (passing_of (relay_of self.old)))) }
        ensures waits { waiting_of self.new ≡ waiting_of self.old }
        ensures begun { spec.is_begun self.new
            ≡ (spec.is_begun self.old || not (is_empty (take count (rest_of (passing_of (relay_of self.old)))))) }
        ensures terms { terms_of (relay_of self.new) ≡ terms_of (relay_of self.old) }
    {
        self.is_begun = self.is_begun || has_first(self.relay.rest(), count);
        self.relay.wrote(count);
    }

    /// Bytes came, and nothing waits. What is not taken of them waits.
    fn feed(&mut self, bytes: &[u8]) -> Result<(), StreamFault>
        requires { waiting_of self.old ≡ [] }
        ensures stands { (request : RequestValue) (came passed : List ℕ) → Holds self.old request came passed
            → OnOk result (StandsFor self.new request (came ++ bytes.now) passed) }
        ensures fails { (request : RequestValue) (came passed : List ℕ) → Holds self.old request came passed
            → IfErr result (FailsFor self.new request (came ++ bytes.now) passed) }
        ensures few { OnOk result (length (waiting_of self.new) ≤ length bytes.now) }
        ensures begun { spec.is_begun self.new ≡ spec.is_begun self.old }
        ensures terms { terms_of (relay_of self.new) ≡ terms_of (relay_of self.old) }
    {
        let taken = self.relay.feed(bytes)?;
        self.keep(&bytes[taken..])
    }

    /// What waits is fed as far as there is room.
    fn feed_waiting(&mut self) -> Result<(), StreamFault>
        ensures stands { (request : RequestValue) (came passed : List ℕ) → Holds self.old request came passed
            → OnOk result (StandsFor self.new request came passed) }
        ensures fails { (request : RequestValue) (came passed : List ℕ) → Holds self.old request came passed
            → IfErr result (FailsFor self.new request came passed) }
        ensures few { OnOk result (length (waiting_of self.new) ≤ length (waiting_of self.old)) }
        ensures begun { spec.is_begun self.new ≡ spec.is_begun self.old }
        ensures terms { terms_of (relay_of self.new) ≡ terms_of (relay_of self.old) }
    {
        let taken = self.relay.feed(&self.waiting)?;
        self.waiting.drain(..taken);
        Ok(())
    }

    /// These bytes wait behind those that wait. The only error is an allocation failure.
    fn keep(&mut self, bytes: &[u8]) -> Result<(), StreamFault>
        ensures added { OnOk result (waiting_of self.new ≡ waiting_of self.old ++ bytes.now) }
        ensures fault { IfErr result (λ fault. fault ≡ body_fault_of (spec.is_begun self.old) relay_fault.OutOfMemory) }
        ensures relay { relay_of self.new ≡ relay_of self.old }
        ensures begun { spec.is_begun self.new ≡ spec.is_begun self.old }
    {
        match self.waiting.extend_from_slice(bytes) {
            Ok(()) => Ok(()),
            Err(_) => Err(body_fault(self.is_begun, RelayFault::OutOfMemory)),
        }
    }
}

/// Whether there is a byte among the first `count`.
fn has_first(bytes: &[u8], count: usize) -> bool
    ensures { result ≡ not (is_empty (take count bytes.now)) }
{
    count > 0 && !bytes.is_empty()
}
