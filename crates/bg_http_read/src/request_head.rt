//! The head of a request, parsed by `httparse`.
ghost use Rattle.std.specs.Prelude.{◌≤◌, IfErr, IfOk, IfNone, IfSome, IsFalse, drop, length};
ghost use Rattle.httparse.specs.Spans.{IsRequestOf, IsRequestWithin};
ghost use Rattle.bg_http_read.specs.HeadFaults.{RequestHeadFails};
ghost use Rattle.bg_http_read.specs.Heads.{FindsInFront, HeadIsCut, ReadsRequestHead, request_heads};
ghost use Rattle.bg_http_read.specs.RequestStates.{is_of_stream};

use crate::head_limits::{MOST_FIELDS, MOST_HEAD, copy_fields};
use crate::message_fault::MessageFault;
use crate::parsed_head::{Parsed, ParsedHead, find_head};
use bg_http::{Bytes, RequestFault, RequestHead};
use httparse::spans::{HeaderSpan, RequestSpans, parse_request};
use httparse::{Error, Status};
use std::alloc::Global;

/// The head that the spans cover, and its length.
fn copy_head(
    alloc: Global,
    bytes: &[u8],
    room: &[HeaderSpan],
    spans: RequestSpans,
) -> Result<Option<(RequestHead, usize)>, MessageFault>
    requires size { length bytes.now ≤ MOST_HEAD }
    requires within { IsRequestWithin bytes.now room.now spans }
    requires complete { IsRequestOf bytes.now room.now spans }
    ensures { FindsInFront request_heads bytes.now result }
{
    if spans.headers > MOST_FIELDS {
        return Err(MessageFault::HeadTooLarge);
    }
    let fields = copy_fields(alloc, bytes, &room[..spans.headers])?;
    let method = Bytes::new(alloc, spans.method.of(bytes))?;
    let target = Bytes::new(alloc, spans.path.of(bytes))?;
    let head = RequestHead {
        method,
        target,
        minor: spans.version,
        fields,
    };
    Ok(Some((head, spans.len)))
}

impl ParsedHead for RequestHead {
    ghost heads = { request_heads };

    fn parse(alloc: Global, bytes: &[u8], room: &mut [HeaderSpan]) -> Parsed<RequestHead> {
        match parse_request(bytes, room) {
            Ok(Status::Complete(spans)) => Parsed::Done(copy_head(alloc, bytes, room, spans)),
            Ok(Status::Partial) => Parsed::Done(Ok(None)),
            Err(error) => match error {
                Error::TooManyHeaders => Parsed::Crowded,
                _ => Parsed::Done(Err(MessageFault::Bad)),
            },
        }
    }

    fn laws() {}
}

/// The head of a request at the front of the bytes, and its length in bytes; `None` if it is not complete, and fewer than 16,384
/// bytes came. A head has at most 16,384 bytes and 64 fields.
///
/// The fault is Bad if the bytes are not the beginning of a head, HeadTooLarge if their head has more bytes or fields, and
/// OutOfMemory if an allocation failed.
pub fn find_request_head(
    alloc: Global,
    bytes: &[u8],
) -> Result<Option<(RequestHead, usize)>, RequestFault>
    ensures fits { IfOk result (λ found. IfSome found (λ at. at.1 ≤ length bytes.now)) }
    ensures head { IfOk result (λ found. IfSome found (λ at.
        ReadsRequestHead bytes.now at.0 (drop at.1 bytes.now))) }
    ensures none_yet { IfOk result (λ found. IfNone found (HeadIsCut request_heads bytes.now)) }
    ensures refused { IfErr result (λ fault. RequestHeadFails bytes.now fault) }
    ensures fault { IfErr result (λ fault. IsFalse (is_of_stream fault)) }
{
    let found = find_head(alloc, bytes)?;
    Ok(found)
}
