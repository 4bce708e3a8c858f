//! The progress of reading a request.
ghost use Rattle.std.specs.Prelude.{◌≡◌, ◌≤◌, [], false, true, List, ℕ, IfErr, IfOk, IsFalse, drop, length};
ghost use Rattle.std.specs.Prelude.{None, Some};
ghost use Rattle.std.specs.Io.KnownBytes.{Keeps};
ghost use Rattle.std.specs.Option.{option_copied, option_map};
ghost use Rattle.bg_http_read.specs.Bodies.{KeepsLimit};
ghost use Rattle.bg_http_read.specs.BodyFramings.{FedBody};
ghost use Rattle.bg_http_read.specs.RefusedHeads.{TellsHead, is_sound_head};
ghost use Rattle.bg_http_read.specs.RequestStates.{IfWhole, is_of_stream};
ghost use Rattle.bg_http_read.specs.RequestsFed.{Advances, AwaitsHead, IsAt, IsFedStage, requests};
ghost use Rattle.bg_http_read.specs.RequestsFed.{IsOpenStage, LacksHead, is_head, known_head, stage_seen, was_asked};
ghost use Rattle.bg_http_read.specs.Streams.{SeesStraight};
ghost use Rattle.bg_http.specs.RequestRules.{owes_continue as owed};
ghost use Rattle.bg_http_read.specs.declared.head_end.HeadEnd.TheVariants as end;
ghost use Rattle.bg_http_read.specs.declared.request_progress.RequestStage.{RequestStage as StageValue};
ghost use Rattle.bg_http_read.specs.declared.request_progress.RequestStage.TheVariants as part;

use crate::arrival::Straight;
use crate::head_end::HeadEnd;
use crate::head_limits::MOST_HEAD;
use crate::intake::behind;
use crate::message_body::MessageBody;
use crate::parsed_head::find_head;
use crate::refused_head::RefusedHead;
use crate::request_body::{RequestBody, body_of_request};
use crate::request_step::RequestStep;
use crate::seen::Seen;
use bg_http::{Duplex, RequestFault, RequestHead, judge_request};
use std::alloc::Global;
use std::mem;

/// The part of a request that comes next.
#[derive(Drop)]
pub(crate) enum RequestStage {
    /// The head, and the position in it that the waiting bytes reach.
    Head(HeadEnd),
    /// The body.
    Body(RequestBody),
    /// Nothing: the parser has given an answer or a fault. Has the head, if it was parsed before the
    /// fault.
    Done(Option<RefusedHead>),
}

/// The step that bytes lead to, and the number of bytes that were taken.
#[derive(Drop)]
pub(crate) struct RequestAdvance {
    pub(crate) step: RequestStep,
    pub(crate) taken: usize,
}

/// The progress of reading a request.
#[derive(Drop)]
pub(crate) struct RequestProgress {
    alloc: Global,
    stage: RequestStage,
}

impl RequestProgress {
    /// The state before the first byte.
    pub(crate) fn new(alloc: Global) -> RequestProgress
        ensures at { IsAt result.stage [] [] }
        ensures lacks { LacksHead result.stage [] }
        ensures asked { was_asked result.stage ≡ false }
        ensures head { is_head result.stage ≡ true }
    {
        RequestProgress {
            alloc,
            stage: RequestStage::Head(HeadEnd::Blank),
        }
    }

    /// Begins a request of which these bytes wait.
    pub(crate) fn begin_with(&mut self, waiting: &[u8])
        ensures at { IsAt self.new.stage waiting.now waiting.now }
        ensures asked { was_asked self.new.stage ≡ false }
        ensures head { is_head self.new.stage ≡ true }
    {
        self.stage = RequestStage::Head(HeadEnd::of(waiting));
    }

    /// Whether the head comes next.
    pub(crate) fn awaits_head(&self) -> bool
        ensures { result ≡ is_head self.now.stage }
    {
        match &self.stage {
            RequestStage::Head(_) => true,
            RequestStage::Body(_) | RequestStage::Done(_) => false,
        }
    }

    /// More bytes wait.
    pub(crate) fn see(&mut self, bytes: &[u8])
        ensures { self.new.stage ≡ stage_seen self.old.stage bytes.now }
    {
        if let RequestStage::Head(end) = &mut self.stage {
            *end = end.after_all(bytes);
        }
    }

    /// Whether `count` waiting bytes need to be parsed now.
    pub(crate) fn is_due(&self, count: usize) -> bool
        ensures { IsFalse result → AwaitsHead self.now.stage }
    {
        match &self.stage {
            RequestStage::Head(end) => end.is_over() || count >= MOST_HEAD,
            RequestStage::Body(_) | RequestStage::Done(_) => true,
        }
    }

    /// The number of bytes that may wait before they need to be parsed, if no line ends; 0 if any
    /// byte may matter.
    pub(crate) fn line_limit(&self) -> usize {
        match &self.stage {
            RequestStage::Head(end) if !end.is_over() => MOST_HEAD,
            RequestStage::Head(_) | RequestStage::Body(_) | RequestStage::Done(_) => 0,
        }
    }

    /// Makes one read of the missing part of a body whose length is known, directly into the memory
    /// of the body. Appends the bytes that the read gave to those that were seen.
    pub(crate) fn read_body<S: Duplex>(&mut self, stream: &mut S, seen: &mut Seen) -> Straight
        requires { IsOpenStage self.old.stage }
        ensures came { SeesStraight result seen.old.bytes seen.new.bytes (S.remaining stream.old)
            (S.remaining stream.new) }
        ensures kept { Keeps (S.contents stream.old) (S.contents stream.new) }
        ensures at { IsAt self.old.stage [] seen.old.bytes → IsAt self.new.stage [] seen.new.bytes }
        ensures lacks { LacksHead self.old.stage [] → LacksHead self.new.stage [] }
        ensures asked { was_asked self.new.stage ≡ was_asked self.old.stage }
    {
        match &mut self.stage {
            RequestStage::Body(part) => part.body.read_from(stream, seen),
            RequestStage::Head(_) | RequestStage::Done(_) => Straight::Unread,
        }
    }

    /// Takes as many of the bytes as it can.
    pub(crate) fn advance(&mut self, bytes: &[u8]) -> Result<RequestAdvance, RequestFault>
        requires { IsOpenStage self.old.stage }
        ensures fits { IfOk result (λ advance. advance.taken ≤ length bytes.now) }
        ensures answer { (seen : List ℕ) → IsFedStage self.old.stage bytes.now seen
            → Advances self.old.stage seen bytes.now result self.new.stage }
        ensures head { (seen : List ℕ) → IsFedStage self.old.stage bytes.now seen
            → IfErr result (λ fault. TellsHead seen fault (known_head self.new.stage)) }
        ensures whole { IfOk result (λ advance. IfWhole advance.step (λ request.
            known_head self.new.stage ≡ None)) }
        ensures fault { IfErr result (λ fault. IsFalse (is_of_stream fault)) }
    {
        match mem::replace(&mut self.stage, RequestStage::Done(None)) {
            RequestStage::Head(_) => self.advance_head(bytes),
            RequestStage::Body(part) => self.advance_body(part, bytes, 0),
            RequestStage::Done(_) => Err(RequestFault::Bad),
        }
    }

    /// The head, if it is known.
    pub(crate) fn known_head(&self) -> Option<&RequestHead>
        ensures { option_copied result ≡ option_map (λ refused. refused.head) (known_head self.now.stage) }
    {
        match &self.stage {
            RequestStage::Head(_) | RequestStage::Done(None) => None,
            RequestStage::Body(part) => Some(&part.head),
            RequestStage::Done(Some(refused)) => Some(&refused.head),
        }
    }

    /// Whether the head is known, and passes all rules.
    pub(crate) fn is_refused_head_sound(&self) -> bool
        ensures { result ≡ is_sound_head (known_head self.now.stage) }
    {
        match &self.stage {
            RequestStage::Head(_) | RequestStage::Done(None) => false,
            RequestStage::Body(_) => true,
            RequestStage::Done(Some(refused)) => refused.is_sound,
        }
    }

    /// The head, if it is known.
    pub(crate) fn into_refused_head(self) -> Option<RefusedHead>
        ensures { result ≡ known_head self.stage }
    {
        match self.stage {
            RequestStage::Head(_) => None,
            RequestStage::Body(part) => Some(part.into_refused_head()),
            RequestStage::Done(refused) => refused,
        }
    }

    /// Looks for the head in the bytes, judges it, and takes as much of the body as it can. Takes
    /// nothing of the body if `100 Continue` is owed first.
    fn advance_head(&mut self, bytes: &[u8]) -> Result<RequestAdvance, RequestFault>
        ensures fits { IfOk result (λ advance. advance.taken ≤ length bytes.now) }
        ensures answer { Advances (part.Head end.Blank) bytes.now bytes.now result self.new.stage }
        ensures head { known_head self.old.stage ≡ None
            → IfErr result (λ fault. TellsHead bytes.now fault (known_head self.new.stage)) }
        ensures whole { IfOk result (λ advance. IfWhole advance.step (λ request.
            self.new.stage ≡ self.old.stage)) }
        ensures fault { IfErr result (λ fault. IsFalse (is_of_stream fault)) }
    {
        let Some((head, taken)) = find_head(self.alloc, bytes)? else {
            self.stage = RequestStage::Head(HeadEnd::of(bytes));
            return Ok(RequestAdvance {
                step: RequestStep::More,
                taken: 0,
            });
        };
        let framing = match judge_request(&head) {
            Ok(framing) => framing,
            Err(fault) => {
                let is_sound = false;
                self.stage = RequestStage::Done(Some(RefusedHead { head, is_sound }));
                return Err(fault);
            }
        };
        let ends = body_of_request(framing);
        let part = match MessageBody::new(self.alloc, head, framing, ends) {
            Ok(part) => part,
            Err(head) => {
                let is_sound = true;
                self.stage = RequestStage::Done(Some(RefusedHead { head, is_sound }));
                return Err(RequestFault::OutOfMemory);
            }
        };
        if part.owes_continue() {
            self.stage = RequestStage::Body(part);
            return Ok(RequestAdvance {
                step: RequestStep::Continue,
                taken,
            });
        }
        self.advance_body(part, bytes, taken)
    }

    /// Takes as much as it can of the body, which begins at a given position in the bytes.
    fn advance_body(
        &mut self,
        mut part: RequestBody,
        bytes: &[u8],
        at: usize,
    ) -> Result<RequestAdvance, RequestFault>
        requires within { KeepsLimit part.body }
        requires place { at ≤ length bytes.now }
        ensures fits { IfOk result (λ advance. advance.taken ≤ length bytes.now) }
        ensures answer { (old : StageValue) (seen : List ℕ)
            → owed part.head part.framing ≡ was_asked old
            → FedBody requests part (drop at bytes.now) seen
            → Advances old seen bytes.now result self.new.stage }
        ensures head { IfErr result (λ fault. known_head self.new.stage
            ≡ Some (record { head = part.head; is_sound = true })) }
        ensures whole { IfOk result (λ advance. IfWhole advance.step (λ request.
            self.new.stage ≡ self.old.stage)) }
        ensures fault { IfErr result (λ fault. IsFalse (is_of_stream fault)) }
    {
        let taken = match part.body.take_from(behind(bytes, at)) {
            Ok(count) => at + count,
            Err(fault) => {
                self.stage = RequestStage::Done(Some(part.into_refused_head()));
                return Err(RequestFault::from(fault));
            }
        };
        if part.body.is_whole() {
            return Ok(RequestAdvance {
                step: RequestStep::Whole(part.into_request()),
                taken,
            });
        }
        self.stage = RequestStage::Body(part);
        Ok(RequestAdvance {
            step: RequestStep::More,
            taken,
        })
    }
}
