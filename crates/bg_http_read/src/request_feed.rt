//! The progress of reading a request, with the bytes that wait.
ghost use Rattle.std.specs.Prelude.{◌≡◌, ◌++◌, [], Bool, false, true, List, ℕ, IfErr, IfOk, IsFalse, None};
ghost use Rattle.std.specs.Io.KnownBytes.{Keeps};
ghost use Rattle.std.specs.Option.{option_copied, option_map};
ghost use Rattle.bg_http.specs.Codings.{is_empty};
ghost use Rattle.bg_http.specs.declared.request_fault.RequestFault.TheVariants as request_fault;
ghost use Rattle.bg_http_read.specs.RefusedHeads.{TellsHead, is_sound_head};
ghost use Rattle.bg_http_read.specs.RequestStates.{IfWhole, is_of_stream};
ghost use Rattle.bg_http_read.specs.RequestsFed.{EndsTo, FedTo, IsFed, IsFedStage, IsOpenStage};
ghost use Rattle.bg_http_read.specs.RequestsFed.{IsSeen, IsShort, is_head, known_head, was_asked};
ghost use Rattle.bg_http_read.specs.Streams.{SeesStraight, waiting};

use crate::arrival::Straight;
use crate::intake::{Intake, behind};
use crate::refused_head::RefusedHead;
use crate::request_progress::{RequestAdvance, RequestProgress};
use crate::request_step::RequestStep;
use crate::seen::Seen;
use bg_http::{Duplex, Request, RequestFault, RequestHead};
use std::alloc::Global;

/// The progress of reading a request, with the bytes that wait. Its contracts speak of all bytes
/// that were fed, which are not stored.
#[derive(Drop)]
pub(crate) struct RequestFeed {
    /// The bytes that were fed and not yet taken.
    intake: Intake,
    progress: RequestProgress,
}

impl RequestFeed {
    /// The state before the first byte.
    pub(crate) fn new(alloc: Global) -> RequestFeed
        ensures fed { IsFed result [] }
        ensures short { IsShort result }
        ensures asked { was_asked result.progress.stage ≡ false }
        ensures head { is_head result.progress.stage ≡ true }
    {
        RequestFeed {
            intake: Intake::new(alloc),
            progress: RequestProgress::new(alloc),
        }
    }

    /// Adds bytes of the input, and gives the step that they lead to. The bytes behind a complete
    /// request wait if they are kept.
    pub(crate) fn feed(
        &mut self,
        bytes: &[u8],
        keeps_rest: bool,
    ) -> Result<RequestStep, RequestFault>
        requires { IsOpenStage self.old.progress.stage }
        ensures answer { (seen : List ℕ) → IsFed self.old seen
            → FedTo keeps_rest (was_asked self.old.progress.stage) (seen ++ bytes.now) result
            self.new }
        ensures head { (seen : List ℕ) → IsFed self.old seen
            → IfErr result (λ fault. TellsHead (seen ++ bytes.now) fault
            (known_head self.new.progress.stage)) }
        ensures whole { IfOk result (λ step. IfWhole step (λ request.
            known_head self.new.progress.stage ≡ None)) }
        ensures fault { IfErr result (λ fault. IsFalse (is_of_stream fault)) }
    {
        if self.intake.is_empty() {
            return self.feed_first(bytes, keeps_rest);
        }
        match self.intake.add(bytes) {
            Ok(()) => self.look(bytes),
            Err(_) => Err(RequestFault::OutOfMemory),
        }
    }

    /// If no bytes wait, makes one read of the missing part of a body whose length is known, directly
    /// into the memory of the body. Appends the bytes that the read gave to those that were seen.
    pub(crate) fn read_body<S: Duplex>(&mut self, stream: &mut S, seen: &mut Seen) -> Straight
        requires { IsOpenStage self.old.progress.stage }
        ensures came { SeesStraight result seen.old.bytes seen.new.bytes (S.remaining stream.old)
            (S.remaining stream.new) }
        ensures kept { Keeps (S.contents stream.old) (S.contents stream.new) }
        ensures fed { IsFed self.old seen.old.bytes → IsFed self.new seen.new.bytes }
        ensures short { IsShort self.old → IsShort self.new }
        ensures asked { was_asked self.new.progress.stage ≡ was_asked self.old.progress.stage }
    {
        if !self.intake.is_empty() {
            return Straight::Unread;
        }
        self.progress.read_body(stream, seen)
    }

    /// After a complete request: the next request begins with the bytes that wait.
    pub(crate) fn begin_next(&mut self)
        ensures fed { IsFed self.new (waiting self.new.intake) }
        ensures waits { waiting self.new.intake ≡ waiting self.old.intake }
        ensures asked { was_asked self.new.progress.stage ≡ false }
        ensures head { is_head self.new.progress.stage ≡ true }
    {
        self.progress.begin_with(self.intake.get());
    }

    /// Whether no byte of the request was fed.
    pub(crate) fn is_blank(&self) -> bool
        ensures { (seen : List ℕ) → IsFed self.now seen → result ≡ is_empty seen }
    {
        self.intake.is_empty() && self.progress.awaits_head()
    }

    /// The bytes that wait.
    pub(crate) fn waiting(&self) -> &[u8]
        ensures { result.now ≡ waiting self.now.intake }
    {
        self.intake.get()
    }

    /// The number of bytes that may come before they need to be parsed, if no line ends; 0 if any
    /// byte may matter.
    pub(crate) fn line_room(&self) -> usize {
        let waiting = self.intake.get().len();
        if waiting == 0 {
            return 0;
        }
        self.progress.line_limit().saturating_sub(waiting)
    }

    /// Adds bytes when none wait, so that the bytes that can be taken are not copied a second time.
    fn feed_first(&mut self, bytes: &[u8], keeps_rest: bool) -> Result<RequestStep, RequestFault>
        requires goes_on { IsOpenStage self.old.progress.stage }
        requires empty { waiting self.old.intake ≡ [] }
        ensures answer { (seen : List ℕ) → IsFed self.old seen
            → FedTo keeps_rest (was_asked self.old.progress.stage) (seen ++ bytes.now) result
            self.new }
        ensures head { (seen : List ℕ) → IsFed self.old seen
            → IfErr result (λ fault. TellsHead (seen ++ bytes.now) fault
            (known_head self.new.progress.stage)) }
        ensures whole { IfOk result (λ step. IfWhole step (λ request.
            known_head self.new.progress.stage ≡ None)) }
        ensures fault { IfErr result (λ fault. IsFalse (is_of_stream fault)) }
    {
        let RequestAdvance { step, taken } = self.progress.advance(bytes)?;
        if step.is_whole() && !keeps_rest {
            return Ok(step);
        }
        match self.intake.add(behind(bytes, taken)) {
            Ok(()) => Ok(step),
            Err(_) => Err(RequestFault::OutOfMemory),
        }
    }

    /// Parses the waiting bytes, to which `bytes` were added, if that is due.
    fn look(&mut self, bytes: &[u8]) -> Result<RequestStep, RequestFault>
        requires { IsOpenStage self.old.progress.stage }
        ensures answer { (keeps : Bool) (before seen : List ℕ)
            → IsSeen self.old.progress.stage before
            → waiting self.old.intake ≡ before ++ bytes.now
            → IsFedStage self.old.progress.stage (waiting self.old.intake) seen
            → FedTo keeps (was_asked self.old.progress.stage) seen result self.new }
        ensures head { (seen : List ℕ)
            → IsFedStage self.old.progress.stage (waiting self.old.intake) seen
            → IfErr result (λ fault. TellsHead seen fault (known_head self.new.progress.stage)) }
        ensures whole { IfOk result (λ step. IfWhole step (λ request.
            known_head self.new.progress.stage ≡ None)) }
        ensures fault { IfErr result (λ fault. IsFalse (is_of_stream fault)) }
    {
        self.progress.see(bytes);
        if !self.progress.is_due(self.intake.get().len()) {
            return Ok(RequestStep::More);
        }
        let RequestAdvance { step, taken } = self.progress.advance(self.intake.get())?;
        self.intake.skip(taken);
        Ok(step)
    }

    /// The request in an input that ends here. Nothing more is fed.
    pub(crate) fn end(&mut self) -> Result<Request, RequestFault>
        requires { IsOpenStage self.old.progress.stage }
        ensures answer { (seen : List ℕ) → IsFed self.old seen → IsShort self.old
            → EndsTo (was_asked self.old.progress.stage) seen result }
        ensures head { (seen : List ℕ) → IsFed self.old seen
            → IfErr result (λ fault. TellsHead seen fault (known_head self.new.progress.stage)) }
        ensures whole { IfOk result (λ request. known_head self.new.progress.stage ≡ None) }
        ensures read { IfErr result (λ fault. ¬ (fault ≡ request_fault.ReadFailed)) }
        ensures write { IfErr result (λ fault. ¬ (fault ≡ request_fault.WriteFailed)) }
    {
        let RequestAdvance { step, taken: _ } = self.progress.advance(self.intake.get())?;
        match step {
            RequestStep::Whole(request) => Ok(request),
            RequestStep::More | RequestStep::Continue => Err(RequestFault::Closed),
        }
    }

    /// The head, if it is known.
    pub(crate) fn known_head(&self) -> Option<&RequestHead>
        ensures { option_copied result ≡ option_map (λ refused. refused.head) (known_head self.now.progress.stage) }
    {
        self.progress.known_head()
    }

    /// Whether the head is known, and passes all rules.
    pub(crate) fn is_refused_head_sound(&self) -> bool
        ensures { result ≡ is_sound_head (known_head self.now.progress.stage) }
    {
        self.progress.is_refused_head_sound()
    }

    /// The head, if it is known.
    pub(crate) fn into_refused_head(self) -> Option<RefusedHead>
        ensures { result ≡ known_head self.progress.stage }
    {
        self.progress.into_refused_head()
    }
}
