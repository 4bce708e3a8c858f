//! The heads in which an upgrade is forwarded.
ghost use Rattle.std.specs.Prelude.{◌≡◌, ◌-◌, ◌++◌, IfOk, IfSome, OnOk, is_some, length, take, flat_map};
ghost use Rattle.bg_http.specs.Texts.{field_line};
ghost use Rattle.bg_upgrade.specs.HeadTexts as spec;
ghost use Rattle.bg_upgrade.specs.Upgrades.{asks_for_upgrade as asks};

use crate::upgrade::asks_for_upgrade;
use bg_http::{
    BodyEnd, Bytes, Field, Fields, Persistence, Request, Response, ResponseHead, RuledName,
    write_request_head, write_response_head,
};
use std::alloc::{AllocError, Global};

/// The number of bytes that most heads do not exceed. A text begins with room for so many, since it would else grow line by
/// line.
const USUAL_HEAD: usize = 512;

/// Takes the empty line off the end of a head.
fn reopen(text: &mut Vec<u8>)
    ensures { text.new.items ≡ take (length text.old.items - 2) text.old.items }
{
    let end = text.len().saturating_sub(2);
    text.truncate(end);
}

/// Adds the line of the field.
fn add_field(text: &mut Vec<u8>, field: &Field<'_>) -> Result<(), AllocError>
    ensures { OnOk result (text.new.items ≡ text.old.items ++ field_line field.now) }
{
    text.extend_from_slice(field.name())?;
    text.extend_from_slice(b": ")?;
    text.extend_from_slice(field.value())?;
    text.extend_from_slice(b"\r\n")?;
    Ok(())
}

/// Adds the lines of the Upgrade fields, in order.
fn add_upgrade_fields(text: &mut Vec<u8>, fields: &Fields) -> Result<(), AllocError>
    ensures { OnOk result (text.new.items
        ≡ text.old.items ++ flat_map field_line (spec.upgrade_fields fields.now)) }
{
    for field in fields.get() {
        if field.is(RuledName::Upgrade) {
            add_field(text, &field)?;
        }
    }
    Ok(())
}

/// Adds the lines that speak of an upgrade, and the empty line after them.
fn add_upgrade_lines(text: &mut Vec<u8>, fields: &Fields) -> Result<(), AllocError>
    ensures { OnOk result (text.new.items ≡ text.old.items ++ spec.upgrade_lines fields.now) }
{
    add_upgrade_fields(text, fields)?;
    text.extend_from_slice(b"Connection: upgrade\r\n\r\n")?;
    Ok(())
}

/// The head of a request that asks for an upgrade, as it is forwarded; `None` if the request does not ask for one
/// (`asks_for_upgrade`). The head is the one that `write_request_head` of bg_http writes on a connection that is kept, with each
/// Upgrade field of the request, in order, and `Connection: upgrade` before the empty line (RFC 9110 section 7.8). The only error is
/// an allocation failure.
///
/// The request has no body, so the head has neither Content-Length nor Transfer-Encoding, and nothing of the request follows it.
pub fn upgrade_text(alloc: Global, request: &Request) -> Result<Option<Vec<u8>>, AllocError>
    ensures asked { IfOk result (λ given. is_some given ≡ asks request.now) }
    ensures text { IfOk result (λ given. IfSome given (λ text. text.items ≡ spec.upgrade_text request.now)) }
{
    if !asks_for_upgrade(request) {
        return Ok(None);
    }
    let mut text = Vec::with_capacity(alloc, USUAL_HEAD)?;
    // The port would be that of a Host, which only a request of version 1.0 gets.
    if write_request_head(request, 0, Persistence::Keep, &mut text).is_err() {
        return Err(AllocError);
    }
    reopen(&mut text);
    add_upgrade_lines(&mut text, &request.fields)?;
    Ok(Some(text))
}

/// The response that has the head, and neither a length nor a body.
fn bare_response(alloc: Global, head: ResponseHead) -> Response
    ensures { result ≡ spec.bare_response head }
{
    head.with_body(None, Bytes::from_vec(Vec::new(alloc)))
}

/// The head of a response that accepts an upgrade, as it is forwarded to the client: its first line in version 1.1; the fields that
/// are not removed, in order, as `write_response_head` of bg_http writes them; each Upgrade field, in order; `Connection: upgrade`;
/// and the empty line. It has neither Content-Length nor Transfer-Encoding (RFC 9110 sections 7.8 and 8.6). The only error is an
/// allocation failure.
pub fn acceptance_text(alloc: Global, head: ResponseHead) -> Result<Vec<u8>, AllocError>
    ensures { IfOk result (λ text. text.items ≡ spec.acceptance_text head) }
{
    let response = bare_response(alloc, head);
    let mut text = Vec::with_capacity(alloc, USUAL_HEAD)?;
    if write_response_head(&response, BodyEnd::Length, Persistence::Keep, &mut text).is_err() {
        return Err(AllocError);
    }
    reopen(&mut text);
    add_upgrade_lines(&mut text, &response.fields)?;
    Ok(text)
}
