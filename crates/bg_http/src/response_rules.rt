//! The rules by which a response's head is judged, and the end of its body.
ghost use Rattle.std.specs.Prelude.{◌≡◌, ◌&&◌, ◌∷◌, [], option_copied};
ghost use Rattle.bg_http.specs.Lengths.{content_length as content_length_of};
ghost use Rattle.bg_http.specs.ResponseRules as spec;

use crate::codings::named_codings;
use crate::elements::has_field;
use crate::lengths::{OneLength, content_length, value_within};
use crate::names::RuledName;
use crate::request::Request;
use crate::response::ResponseHead;
use crate::response_fault::ResponseFault;

/// The framing of a response (RFC 9112 section 6.3).
#[derive(Clone, Copy, PartialEq, Eq, Debug, Drop)]
pub enum ResponseFraming {
    /// It is interim: it has no body, and another response comes after it.
    Interim,
    /// There is no body, whatever the fields say.
    NoBody,
    /// The body is chunked.
    Chunks,
    /// The body has this many bytes.
    Length(usize),
    /// The body is everything before the end of the input.
    ToTheEnd,
}

/// The most bytes that the body of a response may have that is read as a whole.
pub const MOST_RESPONSE_BODY: usize = 4_194_304;

/// Judges the head of a response. `to_head` says whether the method of the request is HEAD
/// (`asks_for_head`), and `most` is the most bytes that its Content-Length may name. A body of chunks,
/// or one that goes to the end of the input, has no limit here. The first of these rules that applies
/// decides.
///
/// - A code below 100, and 101: Bad. The request asked for no other protocol (RFC 9110 section
///   15.2.2).
/// - A code below 200 is interim (RFC 9110 section 15.2).
/// - The method of the request is HEAD, or the code is 204 or 304: no body (RFC 9112 section 6.3).
/// - Transfer-Encoding: chunked, if version 1.1 names `chunked` and no other coding; otherwise Bad.
///   A Content-Length that comes with it is ignored (RFC 9112 section 6.3).
/// - Content-Length: this length, if its elements are all digits and equal without their leading
///   zeros; otherwise Bad. TooLarge if it is above `most`.
/// - Otherwise the body goes to the end of the input.
pub fn judge_response(
    to_head: bool,
    most: usize,
    head: &ResponseHead,
) -> Result<ResponseFraming, ResponseFault>
    ensures { result ≡ spec.framing_within most to_head head.now }
{
    if is_bad_code(head.code) {
        return Err(ResponseFault::Bad);
    }
    if head.code < 200 {
        return Ok(ResponseFraming::Interim);
    }
    if has_no_body(to_head, head.code) {
        return Ok(ResponseFraming::NoBody);
    }
    if has_field(&head.fields, RuledName::TransferEncoding) {
        return framing_by_codings(head);
    }
    framing_by_length(most, head)
}

/// For a response without a body, the digits of the length that its head gives for the body. For
/// the method HEAD and in a 304 this is the one length that the Content-Length fields give, without
/// leading zeros, of any size. `None` if there is Transfer-Encoding, and in a 204 (RFC 9110 section
/// 8.6).
pub fn length_told(head: &ResponseHead) -> Option<&[u8]>
    ensures { option_copied result ≡ spec.length_told head.now }
{
    let fields = &head.fields;
    if head.code == 204 || has_field(fields, RuledName::TransferEncoding) {
        return None;
    }
    match content_length(fields) {
        OneLength::Absent | OneLength::Wrong => None,
        OneLength::Is(digits) => Some(digits_or_zero(digits)),
    }
}

fn digits_or_zero(digits: &[u8]) -> &[u8]
    ensures { result.now ≡ spec.digits_or_zero digits.now }
{
    match digits {
        [] => b"0",
        _ => digits,
    }
}

fn is_bad_code(code: u16) -> bool
    ensures { result ≡ spec.is_bad_code code }
{
    code < 100 || code == 101
}

/// Whether the method is HEAD.
pub fn asks_for_head(request: &Request) -> bool
    ensures { result ≡ spec.asks_for_head request.now }
{
    request.method.get() == b"HEAD".as_slice()
}

/// Whether a response with the code never has a body.
pub(crate) fn has_no_body(to_head: bool, code: u16) -> bool
    ensures { result ≡ spec.lacks_body to_head code }
{
    to_head || code == 204 || code == 304
}

fn framing_by_codings(head: &ResponseHead) -> Result<ResponseFraming, ResponseFault>
    ensures { result ≡ spec.framing_by_codings head.now }
{
    let found = named_codings(&head.fields);
    if head.minor != 0 && found.chunked_last && found.count == 1 {
        Ok(ResponseFraming::Chunks)
    } else {
        Err(ResponseFault::Bad)
    }
}

fn framing_by_length(most: usize, head: &ResponseHead) -> Result<ResponseFraming, ResponseFault>
    ensures { result ≡ spec.framing_by_length_within most (content_length_of head.now.fields) }
{
    match content_length(&head.fields) {
        OneLength::Absent => Ok(ResponseFraming::ToTheEnd),
        OneLength::Is(digits) => match value_within(digits, most) {
            Some(size) => Ok(ResponseFraming::Length(size)),
            None => Err(ResponseFault::TooLarge),
        },
        OneLength::Wrong => Err(ResponseFault::Bad),
    }
}
