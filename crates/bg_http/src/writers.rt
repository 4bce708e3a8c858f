//! Writing messages.
//!
//! No writer allocates. Each writes line by line, so put a `BufWriter` before a socket. If a write
//! fails, a part of the text may have been written.
ghost use Rattle.std.specs.Prelude.{◌≡◌, OnOk, IsTrue, flat_map};
ghost use Rattle.std.specs.Io.KnownBytes.{Appends};
ghost use Rattle.bg_http.specs.Persistences.{keeps};
ghost use Rattle.bg_http.specs.Removed.{kept_in_request, kept_in_response};
ghost use Rattle.bg_http.specs.Statuses.{is_refusal};
ghost use Rattle.bg_http.specs.Texts as spec;

use crate::body_end::BodyEnd;
use crate::bytes::Bytes;
use crate::elements::has_field;
use crate::field::Field;
use crate::fields::Fields;
use crate::names::RuledName;
use crate::persistence::Persistence;
use crate::removed::{is_removed, is_removed_from_request};
use crate::request::Request;
use crate::request_rules::Framing;
use crate::response::Response;
use crate::response_rules::{asks_for_head, has_no_body};
use std::io;
use std::io::Write;

/// Writes a request as it is forwarded to 127.0.0.1 at `port`: its first line in version 1.1; a
/// Host if a request of version 1.0 has none; the fields that are not removed, in order; Via with
/// the version that was received; Content-Length if there is a body; `Connection: close` unless the
/// connection is kept; the body (RFC 9110 section 7.6, RFC 9112 sections 3.2 and 9.3). On Ok it has
/// written exactly this.
///
/// It removes Connection and each field that it names, except Host; Keep-Alive, Proxy-Connection,
/// TE, Transfer-Encoding, Upgrade, Trailer and Content-Length; and an Expect whose value is
/// `100-continue`.
pub fn write_request<W: Write>(
    request: &Request,
    port: u16,
    persistence: Persistence,
    writer: &mut W,
) -> io::Result<()>
    ensures { OnOk result (Appends (W.contents writer.old) (W.contents writer.new)
        (spec.request_text (keeps persistence) request.now port)) }
{
    write_request_head(request, port, persistence, writer)?;
    write_given(&request.body, writer)
}

/// Writes the head of a request as [`write_request`] does, up to the empty line before its body. On Ok it has written exactly
/// this.
pub fn write_request_head<W: Write>(
    request: &Request,
    port: u16,
    persistence: Persistence,
    writer: &mut W,
) -> io::Result<()>
    ensures { OnOk result (Appends (W.contents writer.old) (W.contents writer.new)
        (spec.request_head_text (keeps persistence) request.now port)) }
{
    write_request_line(request, writer)?;
    write_host(request, port, writer)?;
    write_request_fields(&request.fields, writer)?;
    write_via(request, writer)?;
    write_size(&request.body, writer)?;
    write_end_of_head(persistence, writer)
}

/// Writes the head of a request as [`write_request_head`] does, but with this framing in the place of the one of its body: of a
/// body that is passed on as it comes. Before a body in chunks it writes `Transfer-Encoding: chunked`, and before one of a length
/// Content-Length (RFC 9112 section 6). On Ok it has written exactly this.
pub fn write_framed_request_head<W: Write>(
    request: &Request,
    framing: Framing,
    port: u16,
    persistence: Persistence,
    writer: &mut W,
) -> io::Result<()>
    ensures { OnOk result (Appends (W.contents writer.old) (W.contents writer.new)
        (spec.framed_head_text (keeps persistence) framing request.now port)) }
{
    write_request_line(request, writer)?;
    write_host(request, port, writer)?;
    write_request_fields(&request.fields, writer)?;
    write_via(request, writer)?;
    write_framing(framing, writer)?;
    write_end_of_head(persistence, writer)
}

/// Ends a head, and says first that the connection is closed, unless it is kept.
fn write_end_of_head<W: Write>(persistence: Persistence, writer: &mut W) -> io::Result<()>
    ensures { OnOk result (Appends (W.contents writer.old) (W.contents writer.new)
        (spec.end_of_head (keeps persistence))) }
{
    match persistence {
        Persistence::Close => writer.write_all(b"Connection: close\r\n\r\n"),
        Persistence::Keep => writer.write_all(b"\r\n"),
    }
}

fn write_request_line<W: Write>(request: &Request, writer: &mut W) -> io::Result<()>
    ensures { OnOk result (Appends (W.contents writer.old) (W.contents writer.new)
        (spec.request_line request.now)) }
{
    writer.write_all(request.method.get())?;
    writer.write_all(b" ")?;
    writer.write_all(request.target.get())?;
    writer.write_all(b" HTTP/1.1\r\n")
}

/// Writes a Host if a request of version 1.0 has none.
fn write_host<W: Write>(request: &Request, port: u16, writer: &mut W) -> io::Result<()>
    ensures { OnOk result (Appends (W.contents writer.old) (W.contents writer.new)
        (spec.host_line request.now port)) }
{
    if request.minor == 0 && !has_field(&request.fields, RuledName::Host) {
        write!(writer, "Host: 127.0.0.1:{port}\r\n")?;
    }
    Ok(())
}

fn write_via<W: Write>(request: &Request, writer: &mut W) -> io::Result<()>
    ensures { OnOk result (Appends (W.contents writer.old) (W.contents writer.new)
        (spec.via_line request.now)) }
{
    if request.minor == 0 {
        writer.write_all(b"Via: 1.0 bg-switch\r\n")
    } else {
        writer.write_all(b"Via: 1.1 bg-switch\r\n")
    }
}

fn write_field<W: Write>(field: &Field<'_>, writer: &mut W) -> io::Result<()>
    ensures { OnOk result (Appends (W.contents writer.old) (W.contents writer.new)
        (spec.field_line field.now)) }
{
    writer.write_all(field.name())?;
    writer.write_all(b": ")?;
    writer.write_all(field.value())?;
    writer.write_all(b"\r\n")
}

/// Writes the fields of a request that are forwarded.
fn write_request_fields<W: Write>(fields: &Fields, writer: &mut W) -> io::Result<()>
    ensures { OnOk result (Appends (W.contents writer.old) (W.contents writer.new)
        (flat_map spec.field_line (kept_in_request fields.now))) }
{
    let has_connection = has_field(fields, RuledName::Connection);
    for field in fields.get() {
        if !is_removed_from_request(fields, has_connection, &field) {
            write_field(&field, writer)?;
        }
    }
    Ok(())
}

/// Writes the length of a request's body, if there is a body.
fn write_size<W: Write>(body: &Option<Bytes>, writer: &mut W) -> io::Result<()>
    ensures { OnOk result (Appends (W.contents writer.old) (W.contents writer.new)
        (spec.size_line body.now)) }
{
    match body {
        Some(body) => write!(writer, "Content-Length: {}\r\n", body.get().len()),
        None => Ok(()),
    }
}

/// Writes the framing of a request's body, if there is a body.
fn write_framing<W: Write>(framing: Framing, writer: &mut W) -> io::Result<()>
    ensures { OnOk result (Appends (W.contents writer.old) (W.contents writer.new)
        (spec.framing_line framing)) }
{
    match framing {
        Framing::NoBody => Ok(()),
        Framing::Chunks => writer.write_all(b"Transfer-Encoding: chunked\r\n"),
        Framing::Length(size) => write!(writer, "Content-Length: {size}\r\n"),
    }
}

/// Writes a request's body, if there is one.
fn write_given<W: Write>(body: &Option<Bytes>, writer: &mut W) -> io::Result<()>
    ensures { OnOk result (Appends (W.contents writer.old) (W.contents writer.new)
        (spec.bytes_of body.now)) }
{
    match body {
        Some(body) => writer.write_all(body.get()),
        None => Ok(()),
    }
}

/// Writes the response to a request as it is forwarded to the client: its first line in version
/// 1.1; the fields that are not removed, in order; Content-Length if `length` gives one;
/// `Connection: close` unless the connection is kept; the body, unless the method is HEAD or the
/// code is 204 or 304 (RFC 9110 section 7.6, RFC 9112 sections 6.3 and 9.3). On Ok it has written
/// exactly this.
///
/// It removes Connection and each field that it names, except Host; Keep-Alive, Proxy-Connection,
/// TE, Transfer-Encoding, Upgrade, Trailer and Content-Length.
pub fn write_response<W: Write>(
    request: &Request,
    response: &Response,
    persistence: Persistence,
    writer: &mut W,
) -> io::Result<()>
    ensures { OnOk result (Appends (W.contents writer.old) (W.contents writer.new)
        (spec.response_text (keeps persistence) request.now response.now)) }
{
    write_response_head(response, BodyEnd::Length, persistence, writer)?;
    write_sent(request, response, writer)
}

/// Writes the head of a response as [`write_response`] does, up to the empty line before its body. Before a body in chunks it
/// writes `Transfer-Encoding: chunked` in the place of Content-Length. On Ok it has written exactly this.
pub fn write_response_head<W: Write>(
    response: &Response,
    end: BodyEnd,
    persistence: Persistence,
    writer: &mut W,
) -> io::Result<()>
    ensures { OnOk result (Appends (W.contents writer.old) (W.contents writer.new)
        (spec.response_head_text (keeps persistence) end response.now)) }
{
    write_status_line(response, writer)?;
    write_response_fields(&response.fields, writer)?;
    write_body_end(response, end, writer)?;
    write_end_of_head(persistence, writer)
}

fn write_status_line<W: Write>(response: &Response, writer: &mut W) -> io::Result<()>
    ensures { OnOk result (Appends (W.contents writer.old) (W.contents writer.new)
        (spec.status_line response.now)) }
{
    write!(writer, "HTTP/1.1 {} ", response.code)?;
    writer.write_all(response.reason.get())?;
    writer.write_all(b"\r\n")
}

/// Writes the fields of a response that are forwarded.
fn write_response_fields<W: Write>(fields: &Fields, writer: &mut W) -> io::Result<()>
    ensures { OnOk result (Appends (W.contents writer.old) (W.contents writer.new)
        (flat_map spec.field_line (kept_in_response fields.now))) }
{
    let has_connection = has_field(fields, RuledName::Connection);
    for field in fields.get() {
        if !is_removed(fields, has_connection, &field) {
            write_field(&field, writer)?;
        }
    }
    Ok(())
}

/// Writes how the body ends.
fn write_body_end<W: Write>(response: &Response, end: BodyEnd, writer: &mut W) -> io::Result<()>
    ensures { OnOk result (Appends (W.contents writer.old) (W.contents writer.new)
        (spec.body_end_line end response.now.length)) }
{
    match end {
        BodyEnd::Length => write_length(&response.length, writer),
        BodyEnd::Chunks => writer.write_all(b"Transfer-Encoding: chunked\r\n"),
    }
}

/// Writes the Content-Length, if there is one.
fn write_length<W: Write>(length: &Option<Bytes>, writer: &mut W) -> io::Result<()>
    ensures { OnOk result (Appends (W.contents writer.old) (W.contents writer.new)
        (spec.length_line length.now)) }
{
    match length {
        Some(digits) => write_digits(digits.get(), writer),
        None => Ok(()),
    }
}

fn write_digits<W: Write>(digits: &[u8], writer: &mut W) -> io::Result<()>
    ensures { OnOk result (Appends (W.contents writer.old) (W.contents writer.new)
        (spec.digits_line digits.now)) }
{
    writer.write_all(b"Content-Length: ")?;
    writer.write_all(digits)?;
    writer.write_all(b"\r\n")
}

/// Writes the body, if the response may have one.
fn write_sent<W: Write>(request: &Request, response: &Response, writer: &mut W) -> io::Result<()>
    ensures { OnOk result (Appends (W.contents writer.old) (W.contents writer.new)
        (spec.body_sent request.now response.now)) }
{
    if has_no_body(asks_for_head(request), response.code) {
        return Ok(());
    }
    writer.write_all(response.body.get())
}

/// Writes a refusal with an empty body and `Connection: close`. `status` is 400, 413, 431, 501, 502
/// or 503; the reason is that of RFC 9110 section 15 (431: RFC 6585 section 5). On Ok it has
/// written exactly this.
pub fn write_refusal<W: Write>(status: u16, writer: &mut W) -> io::Result<()>
    requires { IsTrue (is_refusal status) }
    ensures { OnOk result (Appends (W.contents writer.old) (W.contents writer.new)
        (spec.refusal_text status)) }
{
    write!(
        writer,
        "HTTP/1.1 {status} {}\r\nContent-Length: 0\r\nConnection: close\r\n\r\n",
        reason(status)
    )
}

/// The reason of a refusal.
pub(crate) fn reason(status: u16) -> &'static str
    ensures { result.now ≡ spec.reason_of status }
{
    match status {
        400 => "Bad Request",
        413 => "Content Too Large",
        431 => "Request Header Fields Too Large",
        501 => "Not Implemented",
        502 => "Bad Gateway",
        _ => "Service Unavailable",
    }
}
