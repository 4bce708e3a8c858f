//! The search for the head of the final response as the bytes arrive.
ghost use Rattle.std.specs.Prelude.{◌≡◌, ◌≤◌, ◌||◌, List, ℕ, IfErr, IfOk, IfNone, IfSome, IsFalse};
ghost use Rattle.std.specs.Prelude.{drop, length, nat_le};
ghost use Rattle.bg_http.specs.ResponseRules.{asks_for_head};
ghost use Rattle.bg_http.specs.declared.request.Request.{Request as RequestValue};
ghost use Rattle.bg_http_read.specs.HeadEnds.{after_bytes, is_over};
ghost use Rattle.bg_http_read.specs.Heads.{HeadIsCut, response_heads};
ghost use Rattle.bg_http_read.specs.Responses.{AfterInterim, IsFinalHeadWithin, SkipsInterim, names_another};
ghost use Rattle.bg_http_read.specs.ResponsesFed.{IsReady};
ghost use Rattle.bg_http_read.specs.ResponseStates.{HeadsAreRefused, is_of_stream};
ghost use Rattle.bg_http_read.specs.declared.head_end.HeadEnd.TheVariants as head_end;

use crate::head_end::HeadEnd;
use crate::head_limits::MOST_HEAD;
use crate::intake::behind;
use crate::parsed_head::find_head;
use bg_http::{ResponseFault, ResponseFraming, ResponseHead, judge_response};
use std::alloc::Global;

/// The maximum number of interim responses that are accepted.
const MOST_INTERIM: usize = 16;

/// Whether another response comes after this one.
fn names_another(framing: ResponseFraming) -> bool
    ensures { result ≡ names_another framing }
{
    match framing {
        ResponseFraming::Interim => true,
        ResponseFraming::NoBody
        | ResponseFraming::Chunks
        | ResponseFraming::Length(_)
        | ResponseFraming::ToTheEnd => false,
    }
}

/// The result of a search: the judged head of the final response if it is complete, and the length
/// in bytes of the heads that were taken.
#[derive(Drop)]
pub struct HeadFound {
    /// The head of the final response, and what `judge_response` says of it.
    pub head: Option<(ResponseHead, ResponseFraming)>,
    /// The length in bytes of the heads that were taken.
    pub taken: usize,
}

/// The search for the head of the final response.
#[derive(Drop)]
pub(crate) struct HeadSearch {
    interim: usize,
    /// The position in their head that the waiting bytes reach.
    end: HeadEnd,
}

impl HeadSearch {
    /// A search that has found nothing yet.
    pub(crate) fn new() -> HeadSearch
        ensures interim { result.interim ≡ 0 }
        ensures end { result.end ≡ head_end.Blank }
    {
        HeadSearch {
            interim: 0,
            end: HeadEnd::Blank,
        }
    }

    /// More bytes wait.
    pub(crate) fn see(&mut self, bytes: &[u8])
        ensures interim { self.new.interim ≡ self.old.interim }
        ensures end { self.new.end ≡ after_bytes self.old.end bytes.now }
    {
        self.end = self.end.after_all(bytes);
    }

    /// Whether the head may be complete in `count` waiting bytes, or is too large if it is not.
    pub(crate) fn is_due(&self, count: usize) -> bool
        ensures { result ≡ (is_over self.now.end || nat_le MOST_HEAD count) }
    {
        self.end.is_over() || count >= MOST_HEAD
    }

    /// The number of bytes that may wait before the head can be complete or too large, if no line
    /// ends.
    pub(crate) fn line_limit(&self) -> usize {
        if self.end.is_over() { 0 } else { MOST_HEAD }
    }

    /// Takes interim responses and the head after them from the front of the bytes, and judges it.
    /// `to_head` says whether the method of the request is HEAD, and `most` is the most bytes that a
    /// Content-Length may name.
    pub(crate) fn take_from(
        &mut self,
        alloc: Global,
        to_head: bool,
        most: usize,
        bytes: &[u8],
    ) -> Result<HeadFound, ResponseFault>
        requires { IsReady self.old }
        ensures fits { IfOk result (λ found. found.taken ≤ length bytes.now) }
        ensures head { (request : RequestValue) (seen : List ℕ)
            → to_head ≡ asks_for_head request
            → SkipsInterim request self.old.interim seen bytes.now
            → IfOk result (λ found. IfSome found.head (λ at. AfterInterim request seen
            (IsFinalHeadWithin most request at.0 at.1 (drop found.taken bytes.now)))) }
        ensures none_yet { (request : RequestValue) (seen : List ℕ)
            → to_head ≡ asks_for_head request
            → SkipsInterim request self.old.interim seen bytes.now
            → IfOk result (λ found. IfNone found.head
            (SkipsInterim request self.new.interim seen (drop found.taken bytes.now))) }
        ensures cut_off { IfOk result (λ found. IfNone found.head
            (HeadIsCut response_heads (drop found.taken bytes.now))) }
        ensures ready { IfOk result (λ found. IsReady self.new) }
        ensures end { IfOk result (λ found. IfNone found.head
            (self.new.end ≡ after_bytes head_end.Blank (drop found.taken bytes.now))) }
        ensures refused { (request : RequestValue) (seen : List ℕ)
            → to_head ≡ asks_for_head request
            → SkipsInterim request self.old.interim seen bytes.now
            → IfErr result (λ fault. HeadsAreRefused most request fault seen) }
        ensures fault { IfErr result (λ fault. IsFalse (is_of_stream fault)) }
    {
        let mut taken = 0;
        while self.interim <= MOST_INTERIM {
            let rest = behind(bytes, taken);
            let found = find_head(alloc, rest)?;
            let Some((head, count)) = found else {
                self.end = HeadEnd::of(rest);
                return Ok(HeadFound { head: None, taken });
            };
            taken += count;
            let framing = judge_response(to_head, most, &head)?;
            if !names_another(framing) {
                return Ok(HeadFound {
                    head: Some((head, framing)),
                    taken,
                });
            }
            self.interim += 1;
        }
        Err(ResponseFault::Bad)
    }
}
