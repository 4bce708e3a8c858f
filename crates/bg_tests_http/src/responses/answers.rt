//! Responses that are forwarded to the client (RFC 9112 section 6.3).
use super::HI;
use crate::passing::Outcome::GoesOn;
use crate::passing::Row;

static ANSWERS: [Row<'static>; 26] = [
    (
        "a length",
        b"HTTP/1.1 200 OK\r\nContent-Length: 2\r\n\r\nhi",
        HI,
    ),
    (
        "a length, and a second response",
        b"HTTP/1.1 200 OK\r\nContent-Length: 2\r\n\r\nhiHTTP/1.1 200 OK\r\nA: b\r\n\r\n",
        HI,
    ),
    (
        "a length of 0, and a second response",
        b"HTTP/1.1 404 Not Found\r\nContent-Length: 000\r\n\r\nHTTP/1.1 200 OK\r\n\r\n",
        GoesOn(b"HTTP/1.1 404 Not Found\r\nContent-Length: 0\r\nConnection: close\r\n\r\n"),
    ),
    (
        "equal lengths",
        b"HTTP/1.1 200 OK\r\nContent-Length: 002, 2\r\ncontent-length:2\r\n\r\nhi",
        HI,
    ),
    (
        "version 1.0",
        b"HTTP/1.0 200 OK\r\nContent-Length: 2\r\n\r\nhi",
        HI,
    ),
    (
        "chunks",
        b"HTTP/1.1 200 OK\r\nTransfer-Encoding: chunked\r\n\r\n2\r\nhi\r\n0\r\n\r\n",
        HI,
    ),
    (
        "chunks beside a length",
        b"HTTP/1.1 200 OK\r\nContent-Length: 9\r\nTransfer-Encoding: chunked\r\n\r\n2\r\nhi\r\n0\r\n\r\n",
        HI,
    ),
    (
        "chunks beside what is no length",
        b"HTTP/1.1 200 OK\r\nTransfer-Encoding: ,Chunked\r\nContent-Length: x\r\n\r\n1;a\r\nh\r\n1 \r\ni\r\n0\r\nA: b\r\n\r\n",
        HI,
    ),
    (
        "trailers that tell another length",
        b"HTTP/1.1 200 OK\r\nTransfer-Encoding: chunked\r\n\r\n2\r\nhi\r\n0\r\nContent-Length: 9\r\n\r\nHTTP/1.1 200 OK\r\n\r\n",
        HI,
    ),
    ("all bytes to the end", b"HTTP/1.1 200 OK\r\n\r\nhi", HI),
    (
        "no byte to the end",
        b"HTTP/1.1 200 OK\r\n\r\n",
        GoesOn(b"HTTP/1.1 200 OK\r\nContent-Length: 0\r\nConnection: close\r\n\r\n"),
    ),
    (
        "a second response in a body that goes to the end",
        b"HTTP/1.1 200 OK\r\n\r\nHTTP/1.1 200 OK\r\n\r\n",
        GoesOn(
            b"HTTP/1.1 200 OK\r\nContent-Length: 19\r\nConnection: close\r\n\r\nHTTP/1.1 200 OK\r\n\r\n",
        ),
    ),
    (
        "a code that isn't known",
        b"HTTP/1.1 999 x\r\n\r\nhi",
        GoesOn(b"HTTP/1.1 999 x\r\nContent-Length: 2\r\nConnection: close\r\n\r\nhi"),
    ),
    (
        "no reason, and no space before it",
        b"HTTP/1.0 200\r\n\r\nhi",
        GoesOn(b"HTTP/1.1 200 \r\nContent-Length: 2\r\nConnection: close\r\n\r\nhi"),
    ),
    (
        "an empty reason",
        b"HTTP/1.1 200 \r\n\r\nhi",
        GoesOn(b"HTTP/1.1 200 \r\nContent-Length: 2\r\nConnection: close\r\n\r\nhi"),
    ),
    (
        "blanks, a tab and bytes past ASCII in a reason",
        b"HTTP/1.1 200 a\tb \xc3\xa9\r\n\r\nhi",
        GoesOn(b"HTTP/1.1 200 a\tb \xc3\xa9\r\nContent-Length: 2\r\nConnection: close\r\n\r\nhi"),
    ),
    (
        "LF alone at each end",
        b"HTTP/1.1 200 OK\nA: b\n\nhi",
        GoesOn(b"HTTP/1.1 200 OK\r\nA: b\r\nContent-Length: 2\r\nConnection: close\r\n\r\nhi"),
    ),
    (
        "an empty line before the head",
        b"\r\nHTTP/1.1 200 OK\r\n\r\nhi",
        HI,
    ),
    (
        "fields of one connection",
        b"HTTP/1.1 200 OK\r\nConnection: close, A\r\nA: b\r\nKeep-Alive: a\r\nProxy-Connection: a\r\nTE: a\r\nTrailer: a\r\nUpgrade: h2c\r\nB: c\r\nContent-Length: 2\r\n\r\nhi",
        GoesOn(b"HTTP/1.1 200 OK\r\nB: c\r\nContent-Length: 2\r\nConnection: close\r\n\r\nhi"),
    ),
    (
        "fields that stay",
        b"HTTP/1.1 200 OK\r\nSet-Cookie: a\r\nExpect: 100-continue\r\nset-cookie: b\r\nConnection: Host\r\nHost: x\r\n\r\nhi",
        GoesOn(
            b"HTTP/1.1 200 OK\r\nSet-Cookie: a\r\nExpect: 100-continue\r\nset-cookie: b\r\nHost: x\r\nContent-Length: 2\r\nConnection: close\r\n\r\nhi",
        ),
    ),
    (
        "a 304 that tells a length",
        b"HTTP/1.1 304 Not Modified\r\nContent-Length: 05\r\n\r\nhi",
        GoesOn(b"HTTP/1.1 304 Not Modified\r\nContent-Length: 5\r\nConnection: close\r\n\r\n"),
    ),
    (
        "a 304 in chunks",
        b"HTTP/1.1 304 Not Modified\r\nTransfer-Encoding: chunked\r\nContent-Length: 5\r\n\r\n0\r\n\r\n",
        GoesOn(b"HTTP/1.1 304 Not Modified\r\nConnection: close\r\n\r\n"),
    ),
    (
        "a 204 that tells a length",
        b"HTTP/1.1 204 No Content\r\nContent-Length: 2\r\n\r\nhi",
        GoesOn(b"HTTP/1.1 204 No Content\r\nConnection: close\r\n\r\n"),
    ),
    (
        "a 204 in chunks",
        b"HTTP/1.1 204 No Content\r\nTransfer-Encoding: chunked\r\n\r\n2\r\nhi\r\n0\r\n\r\n",
        GoesOn(b"HTTP/1.1 204 No Content\r\nConnection: close\r\n\r\n"),
    ),
    (
        "an interim response",
        b"HTTP/1.1 100 Continue\r\n\r\nHTTP/1.1 200 OK\r\n\r\nhi",
        HI,
    ),
    (
        "interim responses with a length and with a coding",
        b"HTTP/1.1 100 Continue\r\nContent-Length: 9\r\n\r\nHTTP/1.1 103 x\r\nTransfer-Encoding: gzip\r\n\r\nHTTP/1.1 200 OK\r\n\r\nhi",
        HI,
    ),
];

pub fn rows() -> &'static [Row<'static>] {
    &ANSWERS
}
