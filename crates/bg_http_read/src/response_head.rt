//! The head of a response, parsed by `httparse`.
ghost use Rattle.std.specs.Prelude.{◌≤◌, IfErr, IfOk, IfNone, IfSome, IsFalse, drop, length};
ghost use Rattle.httparse.specs.Spans.{IsResponseOf, IsResponseWithin};
ghost use Rattle.bg_http_read.specs.HeadFaults.{ResponseHeadFails};
ghost use Rattle.bg_http_read.specs.Heads.{FindsInFront, HeadIsCut, ReadsResponseHead, response_heads};
ghost use Rattle.bg_http_read.specs.ResponseStates.{is_of_stream};

use crate::head_limits::{MOST_FIELDS, MOST_HEAD, copy_fields};
use crate::message_fault::MessageFault;
use crate::parsed_head::{Parsed, ParsedHead, find_head};
use bg_http::{Bytes, ResponseFault, ResponseHead};
use httparse::spans::{HeaderSpan, ResponseSpans, parse_response};
use httparse::{Error, Status};
use std::alloc::Global;

/// The head that the spans cover, and its length.
fn copy_head(
    alloc: Global,
    bytes: &[u8],
    room: &[HeaderSpan],
    spans: ResponseSpans,
) -> Result<Option<(ResponseHead, usize)>, MessageFault>
    requires size { length bytes.now ≤ MOST_HEAD }
    requires within { IsResponseWithin bytes.now room.now spans }
    requires complete { IsResponseOf bytes.now room.now spans }
    ensures { FindsInFront response_heads bytes.now result }
{
    if spans.headers > MOST_FIELDS {
        return Err(MessageFault::HeadTooLarge);
    }
    let fields = copy_fields(alloc, bytes, &room[..spans.headers])?;
    let reason = Bytes::new(alloc, spans.reason.of(bytes))?;
    let head = ResponseHead {
        minor: spans.version,
        code: spans.code,
        reason,
        fields,
    };
    Ok(Some((head, spans.len)))
}

impl ParsedHead for ResponseHead {
    ghost heads = { response_heads };

    fn parse(alloc: Global, bytes: &[u8], room: &mut [HeaderSpan]) -> Parsed<ResponseHead> {
        match parse_response(bytes, room) {
            Ok(Status::Complete(spans)) => Parsed::Done(copy_head(alloc, bytes, room, spans)),
            Ok(Status::Partial) => Parsed::Done(Ok(None)),
            Err(error) => match error {
                Error::TooManyHeaders => Parsed::Crowded,
                _ => Parsed::Done(Err(MessageFault::Bad)),
            },
        }
    }

    fn laws() {}
}

/// The head of a response at the front of the bytes, and its length in bytes; `None` if it is not complete, and fewer than 16,384
/// bytes came. A head has at most 16,384 bytes and 64 fields. Interim responses are not skipped (`ResponseHeads` skips them).
///
/// The fault is Bad if the bytes are not the beginning of a head, HeadTooLarge if their head has more bytes or fields, and
/// OutOfMemory if an allocation failed. The first two stay, whatever follows (`laws::an_input_has_one_head`).
pub fn find_response_head(
    alloc: Global,
    bytes: &[u8],
) -> Result<Option<(ResponseHead, usize)>, ResponseFault>
    ensures fits { IfOk result (λ found. IfSome found (λ at. at.1 ≤ length bytes.now)) }
    ensures head { IfOk result (λ found. IfSome found (λ at.
        ReadsResponseHead bytes.now at.0 (drop at.1 bytes.now))) }
    ensures none_yet { IfOk result (λ found. IfNone found (HeadIsCut response_heads bytes.now)) }
    ensures refused { IfErr result (λ fault. ResponseHeadFails bytes.now fault) }
    ensures fault { IfErr result (λ fault. IsFalse (is_of_stream fault)) }
{
    let found = find_head(alloc, bytes)?;
    Ok(found)
}
