//! Requests as clients and smugglers send them, each with the bytes that are forwarded to the
//! server or the refusal. Each answer is worked out by hand from RFC 9110, RFC 9112 and
//! docs/HTTP.md.
mod chunks;
mod codings;
mod fields;
mod lengths;
mod line_ends;
mod request_lines;

use crate::passing::{BadRow, Kind, Outcome, Row, first_not_bad, first_wrong};
use chunks::{BAD_CHUNKS, CHUNKS};
use codings::{BAD_CODINGS, CODINGS};
use fields::FIELDS;
use lengths::{BAD_LENGTHS, LENGTHS};
use line_ends::{BAD_LINE_ENDS, LINE_ENDS};
use request_lines::{BAD_REQUEST_LINES, REQUEST_LINES};
use std::alloc::Global;

/// A request without a body.
const GOT: Outcome<'static> = Outcome::GoesOn(
    b"GET / HTTP/1.1\r\nHost: x\r\nVia: 1.1 bg-switch\r\nConnection: close\r\n\r\n",
);

/// A request whose body is `hi`.
const HI: Outcome<'static> = Outcome::GoesOn(
    b"POST / HTTP/1.1\r\nHost: x\r\nVia: 1.1 bg-switch\r\nContent-Length: 2\r\nConnection: close\r\n\r\nhi",
);

/// The name of the first request with another outcome.
fn wrong_request<'a>(alloc: Global, rows: &[Row<'a>], bad: &[BadRow<'a>]) -> Option<&'a str> {
    match first_wrong(alloc, Kind::Request, rows) {
        Some(name) => Some(name),
        None => first_not_bad(alloc, Kind::Request, bad),
    }
}

#[test]
fn requests_with_lengths(rt: HostRuntime) {
    assert_eq!(rt; wrong_request(rt.alloc(), &LENGTHS, &BAD_LENGTHS), None);
}

#[test]
fn requests_with_codings(rt: HostRuntime) {
    assert_eq!(rt; wrong_request(rt.alloc(), &CODINGS, &BAD_CODINGS), None);
}

#[test]
fn requests_in_chunks(rt: HostRuntime) {
    assert_eq!(rt; wrong_request(rt.alloc(), &CHUNKS, &BAD_CHUNKS), None);
}

#[test]
fn requests_with_line_ends(rt: HostRuntime) {
    assert_eq!(rt; wrong_request(rt.alloc(), &LINE_ENDS, &BAD_LINE_ENDS), None);
}

#[test]
fn requests_with_request_lines(rt: HostRuntime) {
    assert_eq!(rt;
        wrong_request(rt.alloc(), &REQUEST_LINES, &BAD_REQUEST_LINES),
        None
    );
}

#[test]
fn requests_with_fields(rt: HostRuntime) {
    assert_eq!(rt; first_wrong(rt.alloc(), Kind::Request, &FIELDS), None);
}
