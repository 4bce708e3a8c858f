//! Requests with fields that concern one connection and are not forwarded (RFC 9110 section 7.6.1).
use super::GOT;
use crate::passing::Outcome::GoesOn;
use crate::passing::Row;

pub static FIELDS: [Row<'static>; 16] = [
    (
        "a field that Connection names",
        b"GET / HTTP/1.1\r\nHost: x\r\nA: b\r\nConnection: close, a\r\nC: d\r\n\r\n",
        GoesOn(
            b"GET / HTTP/1.1\r\nHost: x\r\nC: d\r\nVia: 1.1 bg-switch\r\nConnection: close\r\n\r\n",
        ),
    ),
    (
        "fields that two Connections name",
        b"GET / HTTP/1.1\r\nHost: x\r\nConnection: a\r\nA: b\r\nB: c\r\nconnection: ,\tB ,\r\n\r\n",
        GOT,
    ),
    (
        "each field of that name",
        b"GET / HTTP/1.1\r\nHost: x\r\nA: b\r\nConnection: a\r\nA: c\r\n\r\n",
        GOT,
    ),
    (
        "Connection names Host",
        b"GET / HTTP/1.1\r\nHost: x\r\nConnection: Host\r\n\r\n",
        GOT,
    ),
    (
        "Connection names Via",
        b"GET / HTTP/1.1\r\nHost: x\r\nVia: 1.0 y\r\nConnection: via\r\n\r\n",
        GOT,
    ),
    (
        "a Via that came",
        b"GET / HTTP/1.1\r\nHost: x\r\nVia: 1.0 y\r\n\r\n",
        GoesOn(
            b"GET / HTTP/1.1\r\nHost: x\r\nVia: 1.0 y\r\nVia: 1.1 bg-switch\r\nConnection: close\r\n\r\n",
        ),
    ),
    (
        "Connection names no field name",
        b"GET / HTTP/1.1\r\nHost: x\r\nConnection: \"a\", a b, @\r\nA: b\r\n\r\n",
        GoesOn(
            b"GET / HTTP/1.1\r\nHost: x\r\nA: b\r\nVia: 1.1 bg-switch\r\nConnection: close\r\n\r\n",
        ),
    ),
    (
        "an empty Connection",
        b"GET / HTTP/1.1\r\nHost: x\r\nConnection:\r\nA: b\r\n\r\n",
        GoesOn(
            b"GET / HTTP/1.1\r\nHost: x\r\nA: b\r\nVia: 1.1 bg-switch\r\nConnection: close\r\n\r\n",
        ),
    ),
    (
        "Connection keeps open",
        b"GET / HTTP/1.1\r\nHost: x\r\nConnection: keep-alive\r\nKeep-Alive: timeout=5\r\nProxy-Connection: keep-alive\r\n\r\n",
        GOT,
    ),
    (
        "another protocol is asked for",
        b"GET / HTTP/1.1\r\nHost: x\r\nConnection: Upgrade, HTTP2-Settings\r\nUpgrade: h2c\r\nHTTP2-Settings: AAMAAABk\r\n\r\n",
        GOT,
    ),
    (
        "an Upgrade that Connection doesn't name",
        b"GET / HTTP/1.1\r\nHost: x\r\nUpgrade: websocket\r\nTE: trailers\r\nTrailer: A\r\n\r\n",
        GOT,
    ),
    (
        "an expectation without a body",
        b"GET / HTTP/1.1\r\nHost: x\r\nExpect: 100-Continue\r\n\r\n",
        GOT,
    ),
    (
        "an expectation of something else",
        b"GET / HTTP/1.1\r\nHost: x\r\nExpect: 100-continue, y\r\nExpect: z\r\n\r\n",
        GoesOn(
            b"GET / HTTP/1.1\r\nHost: x\r\nExpect: 100-continue, y\r\nExpect: z\r\nVia: 1.1 bg-switch\r\nConnection: close\r\n\r\n",
        ),
    ),
    (
        "an expectation in version 1.0",
        b"POST / HTTP/1.0\r\nHost: x\r\nExpect: 100-continue\r\nContent-Length: 2\r\n\r\nhi",
        GoesOn(
            b"POST / HTTP/1.1\r\nHost: x\r\nVia: 1.0 bg-switch\r\nContent-Length: 2\r\nConnection: close\r\n\r\nhi",
        ),
    ),
    (
        "fields of one name stay in order",
        b"GET / HTTP/1.1\r\nHost: x\r\nCookie: a\r\nB: c\r\ncookie: d\r\n\r\n",
        GoesOn(
            b"GET / HTTP/1.1\r\nHost: x\r\nCookie: a\r\nB: c\r\ncookie: d\r\nVia: 1.1 bg-switch\r\nConnection: close\r\n\r\n",
        ),
    ),
    (
        "names that are almost those of fields that go",
        b"GET / HTTP/1.1\r\nHost: x\r\nConnections: A\r\nTEE: a\r\nTransfer-Encodings: chunked\r\nA: b\r\n\r\n",
        GoesOn(
            b"GET / HTTP/1.1\r\nHost: x\r\nConnections: A\r\nTEE: a\r\nTransfer-Encodings: chunked\r\nA: b\r\nVia: 1.1 bg-switch\r\nConnection: close\r\n\r\n",
        ),
    ),
];
