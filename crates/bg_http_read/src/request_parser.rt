//! A parser of a request that is fed the bytes of the input as they arrive.
ghost use Rattle.std.specs.Prelude.{◌≡◌, ◌<◌, ◌++◌, [], true, false, IfErr, IfOk, IfSome, IsFalse, IsTrue};
ghost use Rattle.std.specs.Prelude.{List, ℕ, None, length};
ghost use Rattle.std.specs.Io.KnownBytes.{Keeps};
ghost use Rattle.bg_http.specs.declared.request_fault.RequestFault.TheVariants as request_fault;
ghost use Rattle.bg_http_read.specs.RefusedHeads.{TellsHead};
ghost use Rattle.bg_http_read.specs.RequestStates.{FailsAsked, IfWhole, IsReadAsked, IsRefusedAsked};
ghost use Rattle.bg_http_read.specs.RequestStates.{LacksRequest, OnContinue, OnMore, OwesContinue};
ghost use Rattle.bg_http_read.specs.RequestStates.{ReadsAsked, goes_on, is_of_stream};
ghost use Rattle.bg_http_read.specs.Streams.{Arrives};

use crate::arrival::{Arrival, Straight};
use crate::intake::read_line_piece;
use crate::refused_head::RefusedHead;
use crate::request_feed::RequestFeed;
use crate::request_step::RequestStep;
use crate::seen::Seen;
use bg_http::{Duplex, Request, RequestFault};
use std::alloc::Global;
use std::marker::Model;

/// A parser of a request. It is fed the bytes of the input as they arrive (RFC 9112). The result
/// does not depend on how the input is cut into pieces.
pub struct RequestParser {
    feed: RequestFeed,
    seen: Seen,
    is_open: bool,
}

impl Drop for RequestParser {
    /// Drops the fields by one call, so that the proofs of what owns a value are short (CONTRIBUTING.md, "What a check costs").
    fn drop(self) {
        let RequestParser {
            feed: _,
            seen: _,
            is_open: _,
        } = self;
    }
}

/// Whether the parser has given neither a request nor a fault.
fn goes_on(answer: &Result<RequestStep, RequestFault>) -> bool
    ensures { result ≡ goes_on answer.now }
{
    match answer {
        Ok(step) => !step.is_whole(),
        Err(_) => false,
    }
}

impl Model for RequestParser {
    ghost use Rattle.std.specs.Prelude.{IsTrue};
    ghost use Rattle.bg_http_read.specs.RequestStates.{RequestState};

    ghost Value = { RequestState };

    ghost use Rattle.bg_http_read.specs.RequestsFed.{IsFed, IsShort, head_after, was_asked};

    ghost view = { λ parser. record {
      seen = parser.seen.bytes;
      asked = was_asked parser.feed.progress.stage;
      is_open = parser.is_open;
      refused = head_after parser.is_open parser.feed.progress.stage;
    } };

    ghost invariant = { λ parser. IsTrue parser.is_open
        → IsFed parser.feed parser.seen.bytes × IsShort parser.feed };
}

impl RequestParser {
    /// A parser before the first byte of a request.
    pub fn new(alloc: Global) -> RequestParser
        ensures { result ≡ record { seen = []; asked = false; is_open = true; refused = None } }
    {
        RequestParser {
            feed: RequestFeed::new(alloc),
            seen: Seen::new(),
            is_open: true,
        }
    }

    /// Adds bytes of the input, and gives the step that they lead to. `RequestStep::Continue` comes
    /// at most once, and before the first step that concerns the body.
    ///
    /// The faults are those of `read_request` that no further bytes can repair, and OutOfMemory,
    /// which may come before another fault. A fault of the head is reported when its bytes are
    /// parsed: at the first call, after an empty line, after 16,384 bytes, or at the end. After a request or a fault, the caller neither feeds nor
    /// ends the parser.
    pub fn feed(&mut self, bytes: &[u8]) -> Result<RequestStep, RequestFault>
        requires { IsTrue self.old.is_open }
        ensures whole { IfOk result (λ step. IfWhole step (λ request.
            IsReadAsked self.old.asked request (self.old.seen ++ bytes.now))) }
        ensures owed { IfOk result (λ step. OnContinue step ((self.old.asked ≡ false)
            × (self.new ≡ record self.old { seen = self.old.seen ++ bytes.now; asked = true })
            × OwesContinue (self.old.seen ++ bytes.now))) }
        ensures none_yet { IfOk result (λ step. OnMore step
            ((self.new ≡ record self.old { seen = self.old.seen ++ bytes.now })
            × LacksRequest (self.old.seen ++ bytes.now))) }
        ensures refused { IfErr result (λ fault.
            IsRefusedAsked self.old.asked fault (self.old.seen ++ bytes.now)) }
        ensures fault { IfErr result (λ fault. IsFalse (is_of_stream fault)) }
        ensures goes_on { self.new.is_open ≡ goes_on result }
        ensures head { IfErr result (λ fault.
            TellsHead (self.old.seen ++ bytes.now) fault self.new.refused) }
        ensures no_head { IfOk result (λ step. IfWhole step (λ request. self.new.refused ≡ None)) }
    {
        self.seen.add(bytes);
        let answer = self.feed.feed(bytes, false);
        self.is_open = goes_on(&answer);
        answer
    }

    /// Reads the next bytes: if no bytes wait and the length of the body is known, directly into the
    /// memory of the body, and otherwise into the piece. Gives `None` if the read fails.
    pub(crate) fn read_more<S: Duplex>(
        &mut self,
        stream: &mut S,
        piece: &mut [u8],
    ) -> Option<Arrival>
        requires is_open { IsTrue self.old.is_open }
        requires room { 0 < length piece.old }
        ensures came { (came : List ℕ)
            × (self.new ≡ record self.old { seen = self.old.seen ++ came })
            × IfSome result (λ arrival. Arrives arrival came piece.new (S.remaining stream.old)
            (S.remaining stream.new)) }
        ensures size { length piece.new ≡ length piece.old }
        ensures kept { Keeps (S.contents stream.old) (S.contents stream.new) }
    {
        match self.feed.read_body(stream, &mut self.seen) {
            Straight::Unread => {}
            Straight::Failed => return None,
            Straight::Came(0) => return Some(Arrival::End),
            Straight::Came(_) => return Some(Arrival::Piece(0)),
        }
        match read_line_piece(stream, piece, self.feed.line_room())? {
            0 => Some(Arrival::End),
            count => Some(Arrival::Piece(count)),
        }
    }

    /// The request in an input that ends here. Otherwise the fault is Closed, a fault that was not
    /// reported yet, or OutOfMemory.
    pub fn end(mut self) -> Result<Request, RequestFault>
        requires { IsTrue self.is_open }
        ensures request { IfOk result (λ request.
            ReadsAsked self.asked request self.seen) }
        ensures refused { IfErr result (λ fault.
            FailsAsked self.asked self.seen fault) }
        ensures read { IfErr result (λ fault. ¬ (fault ≡ request_fault.ReadFailed)) }
        ensures write { IfErr result (λ fault. ¬ (fault ≡ request_fault.WriteFailed)) }
    {
        self.finish()
    }

    /// As `end`, for a caller that keeps the parser, such as one that needs the head of a refused
    /// request. It neither feeds nor ends the parser again.
    pub fn finish(&mut self) -> Result<Request, RequestFault>
        requires { IsTrue self.old.is_open }
        ensures request { IfOk result (λ request.
            ReadsAsked self.old.asked request self.old.seen) }
        ensures refused { IfErr result (λ fault.
            FailsAsked self.old.asked self.old.seen fault) }
        ensures read { IfErr result (λ fault. ¬ (fault ≡ request_fault.ReadFailed)) }
        ensures write { IfErr result (λ fault. ¬ (fault ≡ request_fault.WriteFailed)) }
        ensures head { IfErr result (λ fault. TellsHead self.old.seen fault self.new.refused) }
        ensures no_head { IfOk result (λ request. self.new.refused ≡ None) }
    {
        self.is_open = false;
        self.feed.end()
    }

    /// After `feed` or `finish` gave a fault: the head of the request. `None` if no head was parsed,
    /// because it is malformed, too large or cut off, or because an allocation failed; and `None` if
    /// the parser has given no fault.
    pub fn into_refused_head(self) -> Option<RefusedHead>
        ensures { result ≡ self.refused }
    {
        let RequestParser {
            feed,
            seen: _,
            is_open,
        } = self;
        if is_open {
            return None;
        }
        feed.into_refused_head()
    }
}
