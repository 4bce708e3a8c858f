//! A parser of a response that is fed the bytes of the input as they arrive.
ghost use Rattle.std.specs.Prelude.{◌≡◌, ◌<◌, ◌++◌, [], true, IfErr, IfOk, IfNone, IfSome, IsFalse, IsTrue};
ghost use Rattle.std.specs.Prelude.{List, ℕ, length};
ghost use Rattle.std.specs.Io.KnownBytes.{Keeps};
ghost use Rattle.bg_http.specs.declared.response_fault.ResponseFault.TheVariants as response_fault;
ghost use Rattle.bg_http_read.specs.Responses.{ReadsResponse, ResponseFails};
ghost use Rattle.bg_http_read.specs.ResponseStates.{IsRead, IsReceived, IsRefused, NeedsMore};
ghost use Rattle.bg_http_read.specs.ResponseStates.{asks_more, is_of_stream};
ghost use Rattle.bg_http_read.specs.Streams.{Arrives};

use crate::arrival::{Arrival, Straight};
use crate::ghost_request::GhostRequest;
use crate::intake::read_line_piece;
use crate::received_response::ReceivedResponse;
use crate::response_feed::ResponseFeed;
use crate::seen::Seen;
use bg_http::{Duplex, Request, Response, ResponseFault, asks_for_head};
use std::alloc::Global;
use std::marker::Model;

/// A parser of a response. It is fed the bytes of the input as they arrive (RFC 9112). The result
/// does not depend on how the input is cut into pieces.
pub struct ResponseParser {
    feed: ResponseFeed,
    request: GhostRequest,
    seen: Seen,
    is_open: bool,
}

impl Drop for ResponseParser {
    /// Drops the fields by one call, so that the proofs of what owns a value are short (CONTRIBUTING.md, "What a check costs").
    fn drop(self) {
        let ResponseParser {
            feed: _,
            request: _,
            seen: _,
            is_open: _,
        } = self;
    }
}

/// Whether the parser has given neither a response nor a fault.
fn asks_more(answer: &Result<Option<ReceivedResponse>, ResponseFault>) -> bool
    ensures { result ≡ asks_more answer.now }
{
    match answer {
        Ok(found) => found.is_none(),
        Err(_) => false,
    }
}

impl Model for ResponseParser {
    ghost use Rattle.std.specs.Prelude.{IsTrue};
    ghost use Rattle.bg_http_read.specs.ResponseStates.{ResponseState};

    ghost Value = { ResponseState };

    ghost use Rattle.bg_http_read.specs.ResponsesFed.{IsFed, IsOpen};

    ghost view = { λ parser. record {
      request = parser.request.value;
      seen = parser.seen.bytes;
      is_open = parser.is_open;
    } };

    ghost invariant = { λ parser. IsTrue parser.is_open
        → IsFed parser.feed parser.request.value parser.seen.bytes
        × IsOpen parser.feed };
}

impl ResponseParser {
    /// The state before the first byte of the response to `request`. Keeps of the request only whether
    /// its method is HEAD.
    pub fn new(alloc: Global, request: &Request) -> ResponseParser
        ensures { result ≡ record { request = request.now; seen = []; is_open = true } }
    {
        ResponseParser {
            feed: ResponseFeed::new(alloc, asks_for_head(request)),
            request: GhostRequest::of(request),
            seen: Seen::new(),
            is_open: true,
        }
    }

    /// Adds bytes of the input, and gives the response if it is complete; `None` if more bytes or
    /// the end of the input are needed. Bytes after the response are dropped.
    ///
    /// The faults are those of `read_response` that no further bytes can repair, and OutOfMemory,
    /// which may come before another fault. A fault of the head is reported when its bytes are
    /// parsed: at the first call, after an empty line, after 16,384 bytes, or at the end. After a response or a fault, the caller neither feeds nor
    /// ends the parser.
    pub fn feed(&mut self, bytes: &[u8]) -> Result<Option<Response>, ResponseFault>
        requires { IsTrue self.old.is_open }
        ensures response { IfOk result (λ found. IfSome found (λ response.
            IsRead self.old.request response (self.old.seen ++ bytes.now))) }
        ensures none_yet { IfOk result (λ found. IfNone found
            ((self.new ≡ record self.old { seen = self.old.seen ++ bytes.now })
            × NeedsMore self.old.request (self.old.seen ++ bytes.now))) }
        ensures refused { IfErr result (λ fault.
            IsRefused self.old.request fault (self.old.seen ++ bytes.now)) }
        ensures fault { IfErr result (λ fault. IsFalse (is_of_stream fault)) }
        ensures goes_on { self.new.is_open ≡ asks_more result }
    {
        match self.receive(bytes)? {
            Some(received) => Ok(Some(received.response)),
            None => Ok(None),
        }
    }

    /// As `feed`, and tells whether bytes came behind the response.
    pub fn receive(&mut self, bytes: &[u8]) -> Result<Option<ReceivedResponse>, ResponseFault>
        requires { IsTrue self.old.is_open }
        ensures response { IfOk result (λ found. IfSome found (λ received.
            IsReceived self.old.request received (self.old.seen ++ bytes.now))) }
        ensures none_yet { IfOk result (λ found. IfNone found
            ((self.new ≡ record self.old { seen = self.old.seen ++ bytes.now })
            × NeedsMore self.old.request (self.old.seen ++ bytes.now))) }
        ensures refused { IfErr result (λ fault.
            IsRefused self.old.request fault (self.old.seen ++ bytes.now)) }
        ensures fault { IfErr result (λ fault. IsFalse (is_of_stream fault)) }
        ensures goes_on { self.new.is_open ≡ asks_more result }
    {
        self.seen.add(bytes);
        let answer = self.feed.feed(bytes);
        self.is_open = asks_more(&answer);
        answer
    }

    /// Reads the next bytes: if no bytes wait and the length of the body is known, directly into the
    /// memory of the body, and otherwise into the piece. Gives `None` if the read fails.
    pub(crate) fn read_more<S: Duplex>(
        &mut self,
        stream: &mut S,
        piece: &mut [u8],
    ) -> Option<Arrival>
        requires is_open { IsTrue self.old.is_open }
        requires room { 0 < length piece.old }
        ensures came { (came : List ℕ)
            × (self.new ≡ record self.old { seen = self.old.seen ++ came })
            × IfSome result (λ arrival. Arrives arrival came piece.new (S.remaining stream.old)
            (S.remaining stream.new)) }
        ensures size { length piece.new ≡ length piece.old }
        ensures kept { Keeps (S.contents stream.old) (S.contents stream.new) }
    {
        match self.feed.read_body(stream, &mut self.seen) {
            Straight::Unread => {}
            Straight::Failed => return None,
            Straight::Came(0) => return Some(Arrival::End),
            Straight::Came(_) => return Some(Arrival::Piece(0)),
        }
        match read_line_piece(stream, piece, self.feed.line_room())? {
            0 => Some(Arrival::End),
            count => Some(Arrival::Piece(count)),
        }
    }

    /// The response in an input that ends here. Otherwise the fault is Closed, a fault that was not
    /// reported yet, or OutOfMemory.
    pub fn end(mut self) -> Result<Response, ResponseFault>
        requires { IsTrue self.is_open }
        ensures response { IfOk result (λ response.
            ReadsResponse self.request response self.seen) }
        ensures refused { IfErr result (λ fault.
            ResponseFails self.request self.seen fault) }
        ensures fault { IfErr result (λ fault. ¬ (fault ≡ response_fault.ReadFailed)) }
    {
        self.finish()
    }

    /// As `end`, for a caller that keeps the parser. It neither feeds nor ends the parser again.
    pub(crate) fn finish(&mut self) -> Result<Response, ResponseFault>
        requires { IsTrue self.old.is_open }
        ensures response { IfOk result (λ response.
            ReadsResponse self.old.request response self.old.seen) }
        ensures refused { IfErr result (λ fault.
            ResponseFails self.old.request self.old.seen fault) }
        ensures fault { IfErr result (λ fault. ¬ (fault ≡ response_fault.ReadFailed)) }
    {
        self.is_open = false;
        self.feed.end()
    }
}
