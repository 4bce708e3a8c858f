//! Responses to HEAD, which never have a body (RFC 9110 section 9.3.2).
use crate::passing::Outcome::GoesOn;
use crate::passing::{BAD, Row};

static TO_HEAD: [Row<'static>; 11] = [
    (
        "a length, and a body all the same",
        b"HTTP/1.1 200 OK\r\nContent-Length: 010\r\n\r\nhi",
        GoesOn(b"HTTP/1.1 200 OK\r\nContent-Length: 10\r\nConnection: close\r\n\r\n"),
    ),
    (
        "a length of zeros",
        b"HTTP/1.1 200 OK\r\nContent-Length: 00\r\n\r\n",
        GoesOn(b"HTTP/1.1 200 OK\r\nContent-Length: 0\r\nConnection: close\r\n\r\n"),
    ),
    (
        "a length that no number of 64 bits holds",
        b"HTTP/1.1 200 OK\r\nContent-Length: 99999999999999999999999\r\n\r\n",
        GoesOn(
            b"HTTP/1.1 200 OK\r\nContent-Length: 99999999999999999999999\r\nConnection: close\r\n\r\n",
        ),
    ),
    (
        "lengths that differ",
        b"HTTP/1.1 200 OK\r\nContent-Length: 1, 2\r\n\r\n",
        GoesOn(b"HTTP/1.1 200 OK\r\nConnection: close\r\n\r\n"),
    ),
    (
        "a length with a sign",
        b"HTTP/1.1 200 OK\r\nContent-Length: +1\r\n\r\n",
        GoesOn(b"HTTP/1.1 200 OK\r\nConnection: close\r\n\r\n"),
    ),
    (
        "chunks beside a length",
        b"HTTP/1.1 200 OK\r\nTransfer-Encoding: chunked\r\nContent-Length: 2\r\n\r\n0\r\n\r\n",
        GoesOn(b"HTTP/1.1 200 OK\r\nConnection: close\r\n\r\n"),
    ),
    (
        "a coding in version 1.0",
        b"HTTP/1.0 200 OK\r\nTransfer-Encoding: gzip\r\n\r\n",
        GoesOn(b"HTTP/1.1 200 OK\r\nConnection: close\r\n\r\n"),
    ),
    (
        "no length",
        b"HTTP/1.1 200 OK\r\n\r\n",
        GoesOn(b"HTTP/1.1 200 OK\r\nConnection: close\r\n\r\n"),
    ),
    (
        "a 204 that tells a length",
        b"HTTP/1.1 204 No Content\r\nContent-Length: 5\r\n\r\n",
        GoesOn(b"HTTP/1.1 204 No Content\r\nConnection: close\r\n\r\n"),
    ),
    (
        "an interim response",
        b"HTTP/1.1 199 x\r\n\r\nHTTP/1.1 200 OK\r\n\r\n",
        GoesOn(b"HTTP/1.1 200 OK\r\nConnection: close\r\n\r\n"),
    ),
    ("another protocol", b"HTTP/1.1 101 x\r\n\r\n", BAD),
];

pub fn rows() -> &'static [Row<'static>] {
    &TO_HEAD
}
