//! The rules that a request's head has to pass, and the end of its body.
ghost use Rattle.std.specs.Prelude.{◌≡◌, ◌&&◌, count_by};
ghost use Rattle.std.specs.List.{list_any};
ghost use Rattle.bg_http.specs.Elements.{is_named};
ghost use Rattle.bg_http.specs.Names.{spelled};
ghost use Rattle.bg_http.specs.RequestRules as spec;

use crate::codings::named_codings;
use crate::elements::{has_field, is_same_name};
use crate::field::Field;
use crate::fields::Fields;
use crate::lengths::{OneLength, content_length, value_within};
use crate::names::RuledName;
use crate::request::RequestHead;
use crate::request_fault::RequestFault;

/// The framing of a message's body (RFC 9112 section 6.3).
#[derive(Clone, Copy, PartialEq, Eq, Debug, Drop)]
pub enum Framing {
    /// There is no body: the head has neither Content-Length nor Transfer-Encoding.
    NoBody,
    /// The body is chunked.
    Chunks,
    /// The body has this many bytes.
    Length(usize),
}

/// The most bytes that a request's body may have.
pub const MOST_REQUEST_BODY: usize = 1_048_576;

/// Judges the head of a request. Gives the framing of its body, or the fault of the first rule that
/// it breaks, in this order.
///
/// - NotDone: the method is `CONNECT` (RFC 9110 section 9.3.6).
/// - Bad: there is more than one Host, or none in version 1.1 (RFC 9112 section 3.2).
/// - Bad: Transfer-Encoding comes with Content-Length, or in version 1.0 (RFC 9112 section 6.1).
/// - Bad: the last coding is not `chunked` (RFC 9112 section 6.3); then NotDone: there is another
///   coding.
/// - Bad: the elements of Content-Length are not all digits, or differ without their leading zeros
///   (RFC 9110 section 8.6); then TooLarge: the length is above 1,048,576.
pub fn judge_request(head: &RequestHead) -> Result<Framing, RequestFault>
    ensures { result ≡ spec.request_framing head.now }
{
    judge_request_within(head, MOST_REQUEST_BODY)
}

/// As [`judge_request`], but its limit of a length is `most` bytes: it is TooLarge only above that.
pub fn judge_request_within(head: &RequestHead, most: usize) -> Result<Framing, RequestFault>
    ensures { result ≡ spec.request_framing_within most head.now }
{
    match first_broken(head, most) {
        Some(fault) => Err(fault),
        None => Ok(framing_of(head, most)),
    }
}

/// Whether `100 Continue` has to be written before the body is read (RFC 9110 section 10.1.1). It
/// has to in version 1.1, if an Expect field is `100-continue` and the request has a body.
/// `framing` is what `judge_request` gave for the head.
pub fn owes_continue(head: &RequestHead, framing: Framing) -> bool
    ensures { result ≡ spec.owes_continue head.now framing }
{
    head.minor != 0 && has_body(framing) && has_expectation(&head.fields)
}

/// Whether there is an Expect field whose value is `100-continue`.
fn has_expectation(fields: &Fields) -> bool
    ensures { result ≡ list_any spec.expects_continue fields.now }
{
    fields.get().any(|field| expects_continue(&field))
}

/// Whether the field is an Expect field whose value is `100-continue`.
pub(crate) fn expects_continue(field: &Field<'_>) -> bool
    ensures { result ≡ spec.expects_continue field.now }
{
    field.is(RuledName::Expect) && is_same_name(field.value(), b"100-continue")
}

fn has_body(framing: Framing) -> bool
    ensures { result ≡ spec.has_body framing }
{
    match framing {
        Framing::NoBody => false,
        Framing::Chunks => true,
        Framing::Length(size) => size > 0,
    }
}

/// The framing of the body of a head that breaks no rule.
fn framing_of(head: &RequestHead, most: usize) -> Framing
    ensures { result ≡ spec.framing_within most head.now }
{
    if has_field(&head.fields, RuledName::TransferEncoding) {
        return Framing::Chunks;
    }
    match body_length(head, most) {
        Ok(Some(size)) => Framing::Length(size),
        Ok(None) | Err(_) => Framing::NoBody,
    }
}

/// The fault of the first rule that the head breaks.
fn first_broken(head: &RequestHead, most: usize) -> Option<RequestFault>
    ensures { result ≡ spec.first_broken (spec.rules_within most) head.now }
{
    connect_fault(head)
        .or_else(|| host_fault(head))
        .or_else(|| framing_fault(head))
        .or_else(|| coding_fault(head))
        .or_else(|| length_fault(head, most))
}

fn connect_fault(head: &RequestHead) -> Option<RequestFault>
    ensures { result ≡ spec.connect_fault head.now }
{
    if head.method.get() == b"CONNECT".as_slice() {
        return Some(RequestFault::NotDone);
    }
    None
}

fn host_fault(head: &RequestHead) -> Option<RequestFault>
    ensures { result ≡ spec.host_fault head.now }
{
    let hosts = count_named(&head.fields, RuledName::Host);
    if hosts > 1 || (hosts == 0 && head.minor != 0) {
        return Some(RequestFault::Bad);
    }
    None
}

/// The number of fields with the name.
fn count_named(fields: &Fields, name: RuledName) -> usize
    ensures { result ≡ count_by (is_named (spelled name)) fields.now }
{
    fields.get().filter(|field| field.is(name)).count()
}

fn framing_fault(head: &RequestHead) -> Option<RequestFault>
    ensures { result ≡ spec.framing_fault head.now }
{
    let fields = &head.fields;
    if has_field(fields, RuledName::TransferEncoding)
        && (has_field(fields, RuledName::ContentLength) || head.minor == 0)
    {
        return Some(RequestFault::Bad);
    }
    None
}

fn coding_fault(head: &RequestHead) -> Option<RequestFault>
    ensures { result ≡ spec.coding_fault head.now }
{
    let fields = &head.fields;
    if !has_field(fields, RuledName::TransferEncoding) {
        return None;
    }
    let found = named_codings(fields);
    if !found.chunked_last {
        return Some(RequestFault::Bad);
    }
    if found.count > 1 {
        return Some(RequestFault::NotDone);
    }
    None
}

fn length_fault(head: &RequestHead, most: usize) -> Option<RequestFault>
    ensures { result ≡ spec.length_fault_within most head.now }
{
    body_length(head, most).err()
}

/// The length that Content-Length gives, of at most `most` bytes.
fn body_length(head: &RequestHead, most: usize) -> Result<Option<usize>, RequestFault>
    ensures { result ≡ spec.body_length_within most head.now }
{
    match content_length(&head.fields) {
        OneLength::Absent => Ok(None),
        OneLength::Is(digits) => match value_within(digits, most) {
            Some(size) => Ok(Some(size)),
            None => Err(RequestFault::TooLarge),
        },
        OneLength::Wrong => Err(RequestFault::Bad),
    }
}
