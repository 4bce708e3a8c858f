//! The progress of reading a response.
ghost use Rattle.std.specs.Prelude.{◌≡◌, ◌≤◌, [], List, ℕ, IfErr, IfOk, IfNone, IsFalse, drop, length};
ghost use Rattle.std.specs.Io.KnownBytes.{Keeps};
ghost use Rattle.bg_http.specs.ResponseRules.{asks_for_head};
ghost use Rattle.bg_http.specs.declared.request.Request.{Request as RequestValue};
ghost use Rattle.bg_http.specs.declared.response_fault.ResponseFault.TheVariants as response_fault;
ghost use Rattle.bg_http_read.specs.Bodies.{KeepsLimit};
ghost use Rattle.bg_http_read.specs.BodyFramings.{FedBody};
ghost use Rattle.bg_http_read.specs.Responses.{ReadsResponse, ResponseFails, SkipsInterim};
ghost use Rattle.bg_http_read.specs.ResponsesFed.{Advances, AwaitsHead, IsFedStage, responses};
ghost use Rattle.bg_http_read.specs.ResponsesFed.{IsOpenStage, IsReady, IsSeen, Starts, WantsStage};
ghost use Rattle.bg_http_read.specs.ResponsesFed.{stage_seen};
ghost use Rattle.bg_http_read.specs.ResponseStates.{is_of_stream};
ghost use Rattle.bg_http_read.specs.Streams.{SeesStraight};

use crate::arrival::Straight;
use crate::final_head::{HeadFound, HeadSearch};
use crate::intake::behind;
use crate::message_body::MessageBody;
use crate::response_body::{ResponseBody, body_of_response};
use crate::seen::Seen;
use bg_http::{Duplex, MOST_RESPONSE_BODY, Response, ResponseFault};
use std::alloc::Global;
use std::mem;

/// The part of a response that comes next.
#[derive(Drop)]
pub(crate) enum ResponseStage {
    /// The head, after interim responses.
    Heads(HeadSearch),
    /// The body.
    Body(ResponseBody),
    /// Nothing: the parser has given an answer or a fault.
    Done,
}

/// The response if it is complete, and the number of bytes that were taken.
#[derive(Drop)]
pub(crate) struct Advance {
    pub(crate) response: Option<Response>,
    pub(crate) taken: usize,
}

/// The progress of reading the response to a request.
#[derive(Drop)]
pub(crate) struct ResponseProgress {
    alloc: Global,
    /// Whether the method of the request is HEAD.
    to_head: bool,
    stage: ResponseStage,
}

impl ResponseProgress {
    /// The state before the first byte.
    pub(crate) fn new(alloc: Global, to_head: bool) -> ResponseProgress
        ensures to_head { result.to_head ≡ to_head }
        ensures stage { Starts result.stage }
    {
        ResponseProgress {
            alloc,
            to_head,
            stage: ResponseStage::Heads(HeadSearch::new()),
        }
    }

    /// More bytes wait.
    pub(crate) fn see(&mut self, bytes: &[u8])
        ensures stage { self.new.stage ≡ stage_seen self.old.stage bytes.now }
        ensures to_head { self.new.to_head ≡ self.old.to_head }
    {
        if let ResponseStage::Heads(search) = &mut self.stage {
            search.see(bytes);
        }
    }

    /// Whether `count` waiting bytes need to be parsed now.
    pub(crate) fn is_due(&self, count: usize) -> bool
        ensures { IsFalse result → AwaitsHead self.now.stage }
    {
        match &self.stage {
            ResponseStage::Heads(search) => search.is_due(count),
            ResponseStage::Body(_) | ResponseStage::Done => true,
        }
    }

    /// The number of bytes that may wait before they need to be parsed, if no line ends; 0 if any
    /// byte may matter.
    pub(crate) fn line_limit(&self) -> usize {
        match &self.stage {
            ResponseStage::Heads(search) => search.line_limit(),
            ResponseStage::Body(_) | ResponseStage::Done => 0,
        }
    }

    /// Makes one read of the missing part of a body whose length is known, directly into the memory
    /// of the body. Appends the bytes that the read gave to those that were seen.
    pub(crate) fn read_body<S: Duplex>(&mut self, stream: &mut S, seen: &mut Seen) -> Straight
        requires { IsOpenStage self.old.stage }
        ensures came { SeesStraight result seen.old.bytes seen.new.bytes (S.remaining stream.old)
            (S.remaining stream.new) }
        ensures kept { Keeps (S.contents stream.old) (S.contents stream.new) }
        ensures fed { (request : RequestValue) → IsFedStage request self.old.stage [] seen.old.bytes
            → IsFedStage request self.new.stage [] seen.new.bytes }
        ensures goes_on { IsOpenStage self.new.stage }
        ensures sees { IsSeen self.old.stage [] → IsSeen self.new.stage [] }
        ensures to_head { self.new.to_head ≡ self.old.to_head }
    {
        match &mut self.stage {
            ResponseStage::Body(part) => part.body.read_from(stream, seen),
            ResponseStage::Heads(_) | ResponseStage::Done => Straight::Unread,
        }
    }

    /// Takes as many of the bytes as it can.
    pub(crate) fn advance(&mut self, bytes: &[u8]) -> Result<Advance, ResponseFault>
        requires { IsOpenStage self.old.stage }
        ensures fits { IfOk result (λ advance. advance.taken ≤ length bytes.now) }
        ensures answer { (request : RequestValue) (seen : List ℕ)
            → self.old.to_head ≡ asks_for_head request → IsFedStage request self.old.stage bytes.now seen
            → Advances request seen bytes.now result self.new.stage }
        ensures fault { IfErr result (λ fault. IsFalse (is_of_stream fault)) }
        ensures goes_on { IfOk result (λ advance. IfNone advance.response
            (IsOpenStage self.new.stage)) }
        ensures sees { IfOk result (λ advance. IfNone advance.response
            (IsSeen self.new.stage (drop advance.taken bytes.now))) }
        ensures to_head { self.new.to_head ≡ self.old.to_head }
    {
        match mem::replace(&mut self.stage, ResponseStage::Done) {
            ResponseStage::Heads(search) => self.advance_head(search, bytes),
            ResponseStage::Body(part) => self.advance_body(part, bytes, 0),
            ResponseStage::Done => Err(ResponseFault::Bad),
        }
    }

    /// Looks for the head in the bytes, and takes as much of the body as it can.
    fn advance_head(
        &mut self,
        mut search: HeadSearch,
        bytes: &[u8],
    ) -> Result<Advance, ResponseFault>
        requires { IsReady search }
        ensures fits { IfOk result (λ advance. advance.taken ≤ length bytes.now) }
        ensures answer { (request : RequestValue) (seen : List ℕ)
            → self.old.to_head ≡ asks_for_head request
            → SkipsInterim request search.interim seen bytes.now
            → Advances request seen bytes.now result self.new.stage }
        ensures fault { IfErr result (λ fault. IsFalse (is_of_stream fault)) }
        ensures goes_on { IfOk result (λ advance. IfNone advance.response
            (IsOpenStage self.new.stage)) }
        ensures sees { IfOk result (λ advance. IfNone advance.response
            (IsSeen self.new.stage (drop advance.taken bytes.now))) }
        ensures to_head { self.new.to_head ≡ self.old.to_head }
    {
        let HeadFound { head, taken } = search.take_from(
            self.alloc,
            self.to_head,
            MOST_RESPONSE_BODY,
            bytes,
        )?;
        let Some((head, framing)) = head else {
            self.stage = ResponseStage::Heads(search);
            return Ok(Advance {
                response: None,
                taken,
            });
        };
        let ends = body_of_response(framing);
        let Ok(part) = MessageBody::new(self.alloc, head, framing, ends) else {
            return Err(ResponseFault::OutOfMemory);
        };
        self.advance_body(part, bytes, taken)
    }

    /// Takes as much as it can of the body, which begins at a given position in the bytes.
    fn advance_body(
        &mut self,
        mut part: ResponseBody,
        bytes: &[u8],
        at: usize,
    ) -> Result<Advance, ResponseFault>
        requires within { KeepsLimit part.body }
        requires place { at ≤ length bytes.now }
        ensures fits { IfOk result (λ advance. advance.taken ≤ length bytes.now) }
        ensures answer { (request : RequestValue) (seen : List ℕ)
            → self.old.to_head ≡ asks_for_head request
            → FedBody (responses request) part (drop at bytes.now) seen
            → Advances request seen bytes.now result self.new.stage }
        ensures fault { IfErr result (λ fault. IsFalse (is_of_stream fault)) }
        ensures goes_on { IfOk result (λ advance. IfNone advance.response
            (IsOpenStage self.new.stage)) }
        ensures sees { IfOk result (λ advance. IfNone advance.response
            (IsSeen self.new.stage (drop advance.taken bytes.now))) }
        ensures to_head { self.new.to_head ≡ self.old.to_head }
    {
        let taken = at + part.body.take_from(behind(bytes, at))?;
        if !part.body.is_whole() {
            self.stage = ResponseStage::Body(part);
            return Ok(Advance {
                response: None,
                taken,
            });
        }
        match part.into_response(self.alloc) {
            Ok(response) => Ok(Advance {
                response: Some(response),
                taken,
            }),
            Err(_) => Err(ResponseFault::OutOfMemory),
        }
    }

    /// The response whose body goes to the end of the input. The input has ended.
    pub(crate) fn close(&mut self) -> Result<Response, ResponseFault>
        requires { IsOpenStage self.old.stage }
        ensures response { (request : RequestValue) (waits seen : List ℕ)
            → IsFedStage request self.old.stage waits seen
            → WantsStage request self.old.stage waits seen
            → IfOk result (λ response. ReadsResponse request response seen) }
        ensures refused { (request : RequestValue) (waits seen : List ℕ)
            → IsFedStage request self.old.stage waits seen
            → WantsStage request self.old.stage waits seen
            → IfErr result (λ fault. ResponseFails request seen fault) }
        ensures fault { IfErr result (λ fault. ¬ (fault ≡ response_fault.ReadFailed)) }
    {
        let ResponseStage::Body(part) = mem::replace(&mut self.stage, ResponseStage::Done) else {
            return Err(ResponseFault::Closed);
        };
        if !part.body.can_end() {
            return Err(ResponseFault::Closed);
        }
        match part.into_response(self.alloc) {
            Ok(response) => Ok(response),
            Err(_) => Err(ResponseFault::OutOfMemory),
        }
    }
}
