//! The progress of reading a response, with the bytes that wait.
ghost use Rattle.std.specs.Prelude.{◌≡◌, ◌++◌, [], List, ℕ, IfErr, IfOk, IfNone, IfSome, IsFalse};
ghost use Rattle.std.specs.Io.KnownBytes.{Keeps};
ghost use Rattle.bg_http.specs.ResponseRules.{asks_for_head};
ghost use Rattle.bg_http.specs.declared.request.Request.{Request as RequestValue};
ghost use Rattle.bg_http.specs.declared.response_fault.ResponseFault.TheVariants as response_fault;
ghost use Rattle.bg_http_read.specs.Responses.{ReadsResponse, ResponseFails};
ghost use Rattle.bg_http_read.specs.ResponsesFed.{IsFed, IsOpen};
ghost use Rattle.bg_http_read.specs.ResponseStates.{IsReceived};
ghost use Rattle.bg_http_read.specs.ResponsesFed.{IsOpenStage, IsSeen};
ghost use Rattle.bg_http_read.specs.ResponseStates.{IsRefused, NeedsMore, is_of_stream};
ghost use Rattle.bg_http_read.specs.Streams.{SeesStraight, waiting};

use crate::arrival::Straight;
use crate::intake::{Intake, behind};
use crate::received_response::ReceivedResponse;
use crate::response_progress::{Advance, ResponseProgress};
use crate::seen::Seen;
use bg_http::{Duplex, Response, ResponseFault};
use std::alloc::Global;

/// The progress of reading a response, with the bytes that wait. Its contracts speak of all bytes
/// that were fed, which are not stored.
#[derive(Drop)]
pub(crate) struct ResponseFeed {
    /// The bytes that were fed and not yet taken.
    intake: Intake,
    progress: ResponseProgress,
}

impl ResponseFeed {
    /// The state before the first byte of the response to a request. `to_head` says whether the
    /// method of the request is HEAD.
    pub(crate) fn new(alloc: Global, to_head: bool) -> ResponseFeed
        ensures fed { (request : RequestValue) → to_head ≡ asks_for_head request
            → IsFed result request [] }
        ensures goes_on { IsOpen result }
    {
        ResponseFeed {
            intake: Intake::new(alloc),
            progress: ResponseProgress::new(alloc, to_head),
        }
    }

    /// Adds bytes of the input, and gives the response if it is complete; `None` if more bytes or
    /// the end of the input are needed.
    pub(crate) fn feed(&mut self, bytes: &[u8]) -> Result<Option<ReceivedResponse>, ResponseFault>
        requires { IsOpen self.old }
        ensures response { (request : RequestValue) (seen : List ℕ) → IsFed self.old request seen
            → IfOk result (λ found. IfSome found (λ received.
            IsReceived request received (seen ++ bytes.now))) }
        ensures none_yet { (request : RequestValue) (seen : List ℕ) → IsFed self.old request seen
            → IfOk result (λ found. IfNone found
            (IsFed self.new request (seen ++ bytes.now) × NeedsMore request (seen ++ bytes.now))) }
        ensures refused { (request : RequestValue) (seen : List ℕ) → IsFed self.old request seen
            → IfErr result (λ fault. IsRefused request fault (seen ++ bytes.now)) }
        ensures fault { IfErr result (λ fault. IsFalse (is_of_stream fault)) }
        ensures goes_on { IfOk result (λ found. IfNone found (IsOpen self.new)) }
    {
        if self.intake.is_empty() {
            return self.feed_first(bytes);
        }
        match self.intake.add(bytes) {
            Ok(()) => self.look(bytes),
            Err(_) => Err(ResponseFault::OutOfMemory),
        }
    }

    /// If no bytes wait, makes one read of the missing part of a body whose length is known, directly
    /// into the memory of the body. Appends the bytes that the read gave to those that were seen.
    pub(crate) fn read_body<S: Duplex>(&mut self, stream: &mut S, seen: &mut Seen) -> Straight
        requires { IsOpen self.old }
        ensures came { SeesStraight result seen.old.bytes seen.new.bytes (S.remaining stream.old)
            (S.remaining stream.new) }
        ensures kept { Keeps (S.contents stream.old) (S.contents stream.new) }
        ensures fed { (request : RequestValue) → IsFed self.old request seen.old.bytes
            → IsFed self.new request seen.new.bytes }
        ensures goes_on { IsOpen self.new }
    {
        if !self.intake.is_empty() {
            return Straight::Unread;
        }
        self.progress.read_body(stream, seen)
    }

    /// The number of bytes that may come before they need to be parsed, if no line ends; 0 if any
    /// byte may matter.
    pub(crate) fn line_room(&self) -> usize {
        let waiting = self.intake.get().len();
        if waiting == 0 {
            return 0;
        }
        self.progress.line_limit().saturating_sub(waiting)
    }

    /// Adds bytes when none wait, so that the bytes that can be taken are not copied a second time.
    fn feed_first(&mut self, bytes: &[u8]) -> Result<Option<ReceivedResponse>, ResponseFault>
        requires goes_on { IsOpen self.old }
        requires empty { waiting self.old.intake ≡ [] }
        ensures response { (request : RequestValue) (seen : List ℕ) → IsFed self.old request seen
            → IfOk result (λ found. IfSome found (λ received.
            IsReceived request received (seen ++ bytes.now))) }
        ensures none_yet { (request : RequestValue) (seen : List ℕ) → IsFed self.old request seen
            → IfOk result (λ found. IfNone found
            (IsFed self.new request (seen ++ bytes.now) × NeedsMore request (seen ++ bytes.now))) }
        ensures refused { (request : RequestValue) (seen : List ℕ) → IsFed self.old request seen
            → IfErr result (λ fault. IsRefused request fault (seen ++ bytes.now)) }
        ensures fault { IfErr result (λ fault. IsFalse (is_of_stream fault)) }
        ensures goes_on { IfOk result (λ found. IfNone found (IsOpen self.new)) }
    {
        let Advance { response, taken } = self.progress.advance(bytes)?;
        match response {
            Some(response) => Ok(Some(ReceivedResponse {
                response,
                is_drained: taken == bytes.len(),
            })),
            None => match self.intake.add(behind(bytes, taken)) {
                Ok(()) => Ok(None),
                Err(_) => Err(ResponseFault::OutOfMemory),
            },
        }
    }

    /// Parses the waiting bytes, to which `bytes` were added, if that is due.
    fn look(&mut self, bytes: &[u8]) -> Result<Option<ReceivedResponse>, ResponseFault>
        requires goes_on { IsOpenStage self.old.progress.stage }
        requires seen { (before : List ℕ) × IsSeen self.old.progress.stage before
            × (waiting self.old.intake ≡ before ++ bytes.now) }
        ensures response { (request : RequestValue) (seen : List ℕ) → IsFed self.old request seen
            → IfOk result (λ found. IfSome found (λ received.
            IsReceived request received seen)) }
        ensures none_yet { (request : RequestValue) (seen : List ℕ) → IsFed self.old request seen
            → IfOk result (λ found. IfNone found
            (IsFed self.new request seen × NeedsMore request seen)) }
        ensures refused { (request : RequestValue) (seen : List ℕ) → IsFed self.old request seen
            → IfErr result (λ fault. IsRefused request fault seen) }
        ensures fault { IfErr result (λ fault. IsFalse (is_of_stream fault)) }
        ensures goes_on { IfOk result (λ found. IfNone found (IsOpen self.new)) }
    {
        self.progress.see(bytes);
        if !self.progress.is_due(self.intake.get().len()) {
            return Ok(None);
        }
        let Advance { response, taken } = self.progress.advance(self.intake.get())?;
        self.intake.skip(taken);
        match response {
            Some(response) => Ok(Some(ReceivedResponse {
                response,
                is_drained: self.intake.is_empty(),
            })),
            None => Ok(None),
        }
    }

    /// The response in an input that ends here. Nothing more is fed.
    pub(crate) fn end(&mut self) -> Result<Response, ResponseFault>
        requires { IsOpen self.old }
        ensures response { (request : RequestValue) (seen : List ℕ) → IsFed self.old request seen
            → IfOk result (λ response. ReadsResponse request response seen) }
        ensures refused { (request : RequestValue) (seen : List ℕ) → IsFed self.old request seen
            → IfErr result (λ fault. ResponseFails request seen fault) }
        ensures fault { IfErr result (λ fault. ¬ (fault ≡ response_fault.ReadFailed)) }
    {
        let Advance { response, taken: _ } = self.progress.advance(self.intake.get())?;
        match response {
            Some(response) => Ok(response),
            None => self.progress.close(),
        }
    }
}
