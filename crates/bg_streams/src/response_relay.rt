//! The response of an endpoint that is passed on as it comes.
ghost use Rattle.std.specs.Prelude.{◌≡◌, ◌≤◌, ◌++◌, [], List, ℕ, IfErr, IfNone, IfOk, IfSome, IsFalse, IsTrue, OnOk, drop, length, take};
ghost use Rattle.std.specs.Prelude.{Err, None, Ok, Some};
ghost use Rattle.std.specs.Option.{option_copied, option_map};
ghost use Rattle.bg_http.specs.Persistences.{keeps};
ghost use Rattle.bg_http.specs.declared.request.Request.{Request as RequestValue};
ghost use Rattle.bg_http_read.specs.Heads.{HeadIsCut, response_heads};
ghost use Rattle.bg_streams.specs.Passings.{IsWithin};
ghost use Rattle.bg_streams.specs.ResponseRelays as spec;
ghost use Rattle.bg_streams.specs.ResponseRelays.{EndsBy, FailsBy, IsRefusal, PassesOn, StandsFor, WaitsFor, WritesNoMore};
ghost use Rattle.bg_streams.specs.ResponseRelays.{passing_of, terms_of};

use crate::framings::{persistence_after, sides, tells_end};
use crate::passing::Passing;
use crate::stream_fault::StreamFault;
use crate::stream_terms::StreamTerms;
use bg_http::{Persistence, Request, Response, ResponseFault, ResponseFraming};
use bg_http_read::{HeadFound, ResponseHeads};
use std::alloc::{AllocError, Global};

/// The response of an endpoint to a request, which is passed on as it comes: its head once it is whole, and then its body. It has
/// no socket: its caller feeds it what the endpoint sent, writes what it gives to the client, and tells both.
pub struct ResponseRelay {
    alloc: Global,
    terms: StreamTerms,
    heads: ResponseHeads,
    /// The response, once its head came.
    passing: Option<Passing>,
    /// Why the client is refused.
    refusal: Option<ResponseFault>,
}

impl Drop for ResponseRelay {
    /// Drops the fields by one call, so that the proofs of what owns a value are short (CONTRIBUTING.md, "What a check costs").
    fn drop(self) {
        let ResponseRelay {
            alloc: _,
            terms: _,
            heads: _,
            passing: _,
            refusal: _,
        } = self;
    }
}

/// The bytes behind the first `count`.
fn behind(bytes: &[u8], count: usize) -> &[u8]
    requires { count ≤ length bytes.now }
    ensures { result.now ≡ drop count bytes.now }
{
    &bytes[count..]
}

impl ResponseRelay {
    /// The response to `request`, before its first byte. Keeps of the request only whether its method is HEAD.
    pub fn new(alloc: Global, request: &Request, terms: StreamTerms) -> ResponseRelay
        ensures stands { StandsFor result request.now [] [] }
        ensures is_open { spec.fault_of result ≡ None }
        ensures terms { terms_of result ≡ terms }
    {
        ResponseRelay {
            alloc,
            terms,
            heads: ResponseHeads::new(alloc, request, terms.most_body),
            passing: None,
            refusal: None,
        }
    }

    /// The response without a byte of its body, once its head came and unless the client is refused: its code and its fields are
    /// those that the endpoint sent.
    pub fn response(&self) -> Option<&Response>
        ensures { option_copied result ≡ spec.response_of (passing_of self.now) }
    {
        match &self.passing {
            Some(passing) => Some(&passing.response),
            None => None,
        }
    }

    /// How the endpoint tells the end of the body, once the head came and unless the client is refused.
    pub fn framing(&self) -> Option<ResponseFraming>
        ensures { result ≡ spec.framing_of (passing_of self.now) }
    {
        match &self.passing {
            Some(passing) => Some(passing.framing),
            None => None,
        }
    }

    /// Whether the connection of the client is kept after the response, as the head that is written says, once the head came and
    /// unless the client is refused. It is closed after a body that goes to its end.
    pub fn persistence(&self) -> Option<Persistence>
        ensures { option_map keeps result ≡ spec.keeps_of (terms_of self.now) (passing_of self.now) }
    {
        match &self.passing {
            Some(passing) => {
                let outgoing = sides(self.terms.reads_chunks, passing.framing).outgoing();
                Some(persistence_after(outgoing, self.terms.persistence))
            }
            None => None,
        }
    }

    /// The fault that ended it, if one did.
    pub fn fault(&self) -> Option<StreamFault>
        ensures { result ≡ spec.fault_of self.now }
    {
        if let Some(fault) = self.refusal {
            return Some(StreamFault::Refused(fault));
        }
        match &self.passing {
            Some(passing) => match passing.relay.fault() {
                Some(fault) => Some(StreamFault::Cut(fault)),
                None => None,
            },
            None => None,
        }
    }

    /// Whether the response is whole: all of it was taken, and what is to be written ends with its end.
    pub fn is_whole(&self) -> bool
        ensures { result ≡ spec.is_whole (passing_of self.now) }
    {
        match &self.passing {
            Some(passing) => passing.relay.is_whole(),
            None => false,
        }
    }

    /// Whether the connection of the endpoint carries nothing more of the response: it is whole by its own framing, and `left`, the
    /// bytes that came and were not taken, is empty. Only then does the connection go back for another request.
    pub fn is_drained(&self, left: &[u8]) -> bool
        ensures { result ≡ spec.is_drained (passing_of self.now) left.now }
    {
        match &self.passing {
            Some(passing) => {
                left.is_empty() && tells_end(passing.framing) && passing.relay.is_whole()
            }
            None => false,
        }
    }

    /// Whether more of the input is to be fed: no fault came, the response is not whole, and what is to be written of its body has
    /// not filled the window. If it has, the caller does not read from the endpoint.
    pub fn wants_input(&self) -> bool
        ensures { result ≡ spec.wants_input self.now }
    {
        if self.refusal.is_some() {
            return false;
        }
        match &self.passing {
            Some(passing) => passing.relay.wants_input(),
            None => true,
        }
    }

    /// What is to be written to the client next: of the head, and after it of the body.
    pub fn rest(&self) -> &[u8]
        ensures rest { result.now ≡ spec.rest_of (passing_of self.now) }
        ensures within { IfSome (passing_of self.now) IsWithin }
    {
        match &self.passing {
            Some(passing) => passing.rest(),
            None => &[],
        }
    }

    /// All that is left to be written to the client: of the head, and then of the body that was taken. The only error is an allocation
    /// failure.
    pub fn into_rest(self) -> Result<Vec<u8>, AllocError>
        ensures { IfOk result (λ rest. rest.items ≡ spec.whole_rest (passing_of self)) }
    {
        let ResponseRelay {
            alloc,
            terms: _,
            heads: _,
            passing,
            refusal: _,
        } = self;
        match passing {
            Some(passing) => passing.into_rest(),
            None => Ok(Vec::new(alloc)),
        }
    }

    /// Notes that so many bytes more were written, at most the rest.
    pub fn wrote(&mut self, count: usize)
        ensures stands { (request : RequestValue) (input written : List ℕ) → StandsFor self.old request input written
            → StandsFor self.new request input (written ++ take count (spec.rest_of (passing_of self.old))) }
        ensures fault { spec.fault_of self.new ≡ spec.fault_of self.old }
        ensures terms { terms_of self.new ≡ terms_of self.old }
    {
        if let Some(passing) = &mut self.passing {
            passing.wrote(count);
        }
    }

    /// Takes bytes of the response as far as there is room, and gives their number. Those behind them are to be fed again: at
    /// once, if there is room again, or with more bytes, if they end within a head, a line of a chunk or trailers, of which fewer
    /// than 16,384 bytes wait. If the response is whole, they are not of it.
    ///
    /// Up to 16 interim responses before the response are taken and dropped. A fault is a refusal while no byte was written to the
    /// client: those of `read_response` for a head, where TooLarge is that of a Content-Length above `most_body` of the terms, Bad
    /// for a malformed body, TooLarge for one of which more bytes came than that, or OutOfMemory. Afterwards, and only then, it is a cut. After a fault nothing more is taken: each call gives the same
    /// fault again.
    pub fn feed(&mut self, bytes: &[u8]) -> Result<usize, StreamFault>
        ensures fits { IfOk result (λ taken. taken ≤ length bytes.now) }
        ensures stands { IfOk result (λ taken. PassesOn self.old self.new (take taken bytes.now)) }
        ensures waits { IfOk result (λ taken. WaitsFor (passing_of self.new) (drop taken bytes.now)) }
        ensures is_open { IfOk result (λ taken. spec.fault_of self.new ≡ None) }
        ensures refused { IfErr result (λ fault. spec.fault_of self.old ≡ None
            → EndsBy self.old self.new bytes.now fault) }
        ensures kept { IfErr result (λ fault. spec.fault_of self.new ≡ Some fault) }
        ensures stays { IfSome (spec.fault_of self.old) (λ fault. (result ≡ Err fault) × (self.new ≡ self.old)) }
        ensures whole { spec.fault_of self.old ≡ None → IsTrue (spec.is_whole (passing_of self.old))
            → (result ≡ Ok 0) × (self.new ≡ self.old) }
        ensures terms { terms_of self.new ≡ terms_of self.old }
    {
        if let Some(fault) = self.fault() {
            return Err(fault);
        }
        match self.take(bytes) {
            Ok(taken) => Ok(taken),
            Err(fault) => {
                self.note(fault);
                Err(fault)
            }
        }
    }

    /// Takes bytes of the heads, and then of the body.
    fn take(&mut self, bytes: &[u8]) -> Result<usize, StreamFault>
        requires { spec.fault_of self.old ≡ None }
        ensures fits { IfOk result (λ taken. taken ≤ length bytes.now) }
        ensures stands { IfOk result (λ taken. PassesOn self.old self.new (take taken bytes.now)) }
        ensures waits { IfOk result (λ taken. WaitsFor (passing_of self.new) (drop taken bytes.now)) }
        ensures is_open { IfOk result (λ taken. spec.fault_of self.new ≡ None) }
        ensures refused { IfErr result (λ fault. FailsBy self.old self.new bytes.now fault) }
        ensures whole { IsTrue (spec.is_whole (passing_of self.old)) → (result ≡ Ok 0) × (self.new ≡ self.old) }
        ensures terms { terms_of self.new ≡ terms_of self.old }
    {
        let heads = self.take_heads(bytes)?;
        let body = self.take_body(behind(bytes, heads))?;
        Ok(heads + body)
    }

    /// Takes bytes of the heads, if the head of the response has not come.
    fn take_heads(&mut self, bytes: &[u8]) -> Result<usize, StreamFault>
        requires { spec.fault_of self.old ≡ None }
        ensures fits { IfOk result (λ taken. taken ≤ length bytes.now) }
        ensures stands { IfOk result (λ taken. PassesOn self.old self.new (take taken bytes.now)) }
        ensures waits { IfOk result (λ taken. IfNone (passing_of self.new)
            (HeadIsCut response_heads (drop taken bytes.now))) }
        ensures is_open { IfOk result (λ taken. spec.fault_of self.new ≡ None) }
        ensures refused { IfErr result (λ fault. IsRefusal self.old bytes.now fault) }
        ensures came { IfSome (passing_of self.old) (λ passing. (result ≡ Ok 0) × (self.new ≡ self.old)) }
        ensures terms { terms_of self.new ≡ terms_of self.old }
    {
        if self.passing.is_some() {
            return Ok(0);
        }
        let HeadFound { head, taken } = match self.heads.take(bytes) {
            Ok(found) => found,
            Err(fault) => return Err(StreamFault::Refused(fault)),
        };
        let Some((head, framing)) = head else {
            return Ok(taken);
        };
        let Ok(passing) = Passing::new(self.alloc, self.terms, head, framing) else {
            return Err(StreamFault::Refused(ResponseFault::OutOfMemory));
        };
        self.passing = Some(passing);
        Ok(taken)
    }

    /// Takes bytes of the body, if the head of the response came.
    fn take_body(&mut self, bytes: &[u8]) -> Result<usize, StreamFault>
        requires { spec.fault_of self.old ≡ None }
        ensures fits { IfOk result (λ taken. taken ≤ length bytes.now) }
        ensures stands { IfOk result (λ taken. PassesOn self.old self.new (take taken bytes.now)) }
        ensures waits { IfOk result (λ taken. IfSome (passing_of self.old) (λ passing.
            WaitsFor (passing_of self.new) (drop taken bytes.now))) }
        ensures is_open { IfOk result (λ taken. spec.fault_of self.new ≡ None) }
        ensures refused { IfErr result (λ fault. FailsBy self.old self.new bytes.now fault) }
        ensures whole { IsTrue (spec.is_whole (passing_of self.old)) → (result ≡ Ok 0) × (self.new ≡ self.old) }
        ensures none { IfNone (passing_of self.old) ((result ≡ Ok 0) × (self.new ≡ self.old)) }
        ensures terms { terms_of self.new ≡ terms_of self.old }
    {
        bg_relay::laws::what_is_refused_is_malformed();
        match &mut self.passing {
            Some(passing) => passing.feed(bytes),
            None => Ok(0),
        }
    }

    /// Notes a fault. If the client is refused, nothing of the response is written.
    fn note(&mut self, fault: StreamFault)
        ensures { self.new ≡ spec.noted self.old fault }
    {
        if let StreamFault::Refused(refusal) = fault {
            self.refusal = Some(refusal);
            self.passing = None;
        }
    }

    /// The input has ended. The response is whole then if its body goes to the end of the input; otherwise it is cut off, and its
    /// end is not written. A cut body that is written to the end of the connection has no end either: so the caller resets the
    /// connection.
    ///
    /// The fault is Closed or Cut, OutOfMemory, or the fault that came before.
    pub fn end_input(&mut self) -> Result<(), StreamFault>
        ensures stands { OnOk result (PassesOn self.old self.new []) }
        ensures whole { OnOk result (IsTrue (spec.is_whole (passing_of self.new)) × (spec.fault_of self.new ≡ None)) }
        ensures cut { spec.fault_of self.old ≡ None → IsFalse (spec.can_end (passing_of self.old))
            → result ≡ Err (spec.cut_of (passing_of self.old)) }
        ensures memory { spec.fault_of self.old ≡ None → IsTrue (spec.can_end (passing_of self.old))
            → IfErr result (λ fault. fault ≡ spec.memory_of (passing_of self.old)) }
        ensures kept { IfErr result (λ fault. spec.fault_of self.new ≡ Some fault) }
        ensures none { spec.fault_of self.old ≡ None → IfErr result (λ fault. WritesNoMore self.new fault) }
        ensures stays { IfSome (spec.fault_of self.old) (λ fault. (result ≡ Err fault) × (self.new ≡ self.old)) }
        ensures terms { terms_of self.new ≡ terms_of self.old }
    {
        if let Some(fault) = self.fault() {
            return Err(fault);
        }
        match self.end_here() {
            Ok(()) => Ok(()),
            Err(fault) => {
                self.note(fault);
                Err(fault)
            }
        }
    }

    /// The input has ended here.
    fn end_here(&mut self) -> Result<(), StreamFault>
        requires { spec.fault_of self.old ≡ None }
        ensures stands { OnOk result (PassesOn self.old self.new []) }
        ensures whole { OnOk result (IsTrue (spec.is_whole (passing_of self.new)) × (spec.fault_of self.new ≡ None)) }
        ensures cut { IsFalse (spec.can_end (passing_of self.old)) → result ≡ Err (spec.cut_of (passing_of self.old)) }
        ensures memory { IsTrue (spec.can_end (passing_of self.old)) → IfErr result (λ fault.
            fault ≡ spec.memory_of (passing_of self.old)) }
        ensures kept { IfErr result (λ fault. spec.IsKept self.new fault) }
        ensures terms { terms_of self.new ≡ terms_of self.old }
    {
        match &mut self.passing {
            Some(passing) => passing.end_input(),
            None => Err(StreamFault::Refused(ResponseFault::Closed)),
        }
    }
}
