//! Requests that are too large to be held until they are whole.
ghost use Rattle.std.specs.Prelude.{◌≡◌, ◌≤◌, IfErr, IfOk, IfSome, length, None};
ghost use Rattle.bg_upload.specs.LargeRequests.{HasNoLarge, IsLarge, IsRefusedLarge};

use bg_http::{Framing, Request, RequestFault, judge_request_within, owes_continue};
use bg_http_read::find_request_head;
use std::alloc::Global;

/// A request whose body is passed on as it comes.
pub struct LargeRequest {
    /// The request without its body.
    pub request: Request,
    /// How its body ends.
    pub framing: Framing,
    /// Whether its client awaits `100 Continue` before it sends the body (RFC 9110 section 10.1.1).
    pub expects_continue: bool,
    /// The number of bytes of its head. Those behind them are of the body.
    pub head_length: usize,
}

impl Drop for LargeRequest {
    /// Drops the fields by one call, so that the proofs of what owns a value are short (CONTRIBUTING.md, "What a check costs").
    fn drop(self) {
        let LargeRequest {
            request: _,
            framing: _,
            expects_continue: _,
            head_length: _,
        } = self;
    }
}

impl LargeRequest {
    /// The request without its body.
    pub fn into_request(self) -> Request
        ensures { result ≡ self.request }
    {
        let LargeRequest {
            request,
            framing: _,
            expects_continue: _,
            head_length: _,
        } = self;
        request
    }
}

/// The large request that these bytes begin with: its head is complete, passes the rules of `judge_request` of bg_http, and names a
/// body, whose length is at most `most_body` if it is told. `None` if the head is not complete, or if there is no body.
///
/// The fault is the one of the head: Bad, HeadTooLarge, NotDone, TooLarge for a longer body, or OutOfMemory.
pub fn find_large_request(
    alloc: Global,
    bytes: &[u8],
    most_body: usize,
) -> Result<Option<LargeRequest>, RequestFault>
    ensures found { IfOk result (λ found. IfSome found (IsLarge most_body bytes.now)) }
    ensures none { IfOk result (λ found. found ≡ None → HasNoLarge most_body bytes.now) }
    ensures refused { IfErr result (IsRefusedLarge most_body bytes.now) }
{
    let Some((head, head_length)) = find_request_head(alloc, bytes)? else {
        return Ok(None);
    };
    let framing = judge_request_within(&head, most_body)?;
    if framing == Framing::NoBody {
        return Ok(None);
    }
    Ok(Some(LargeRequest {
        expects_continue: owes_continue(&head, framing),
        request: head.with_body(None),
        framing,
        head_length,
    }))
}
