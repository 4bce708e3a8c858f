//! Requests that give the length of their body correctly, wrongly or twice (RFC 9110 section 8.6,
//! RFC 9112 section 6.3).
use super::HI;
use crate::passing::Outcome::GoesOn;
use crate::passing::{BadRow, CLOSED, Row, TOO_LARGE};

pub static LENGTHS: [Row<'static>; 21] = [
    (
        "a length",
        b"POST / HTTP/1.1\r\nHost: x\r\nContent-Length: 2\r\n\r\nhi",
        HI,
    ),
    (
        "a length, and a second request after the body",
        b"POST / HTTP/1.1\r\nHost: x\r\ncontent-length: 2\r\n\r\nhiGET /admin HTTP/1.1\r\nHost: x\r\n\r\n",
        HI,
    ),
    (
        "a length of 0, and a second request",
        b"POST / HTTP/1.1\r\nHost: x\r\nContent-Length: 0\r\n\r\nGET /admin HTTP/1.1\r\nHost: x\r\n\r\n",
        GoesOn(
            b"POST / HTTP/1.1\r\nHost: x\r\nVia: 1.1 bg-switch\r\nContent-Length: 0\r\nConnection: close\r\n\r\n",
        ),
    ),
    (
        "no length, and a second request",
        b"POST / HTTP/1.1\r\nHost: x\r\n\r\nGET /admin HTTP/1.1\r\nHost: x\r\n\r\n",
        GoesOn(b"POST / HTTP/1.1\r\nHost: x\r\nVia: 1.1 bg-switch\r\nConnection: close\r\n\r\n"),
    ),
    (
        "a second request in the body",
        b"POST / HTTP/1.1\r\nHost: x\r\nContent-Length: 18\r\n\r\nGET / HTTP/1.1\r\n\r\n",
        GoesOn(
            b"POST / HTTP/1.1\r\nHost: x\r\nVia: 1.1 bg-switch\r\nContent-Length: 18\r\nConnection: close\r\n\r\nGET / HTTP/1.1\r\n\r\n",
        ),
    ),
    (
        "GET with a body",
        b"GET / HTTP/1.1\r\nHost: x\r\nContent-Length: 2\r\n\r\nhi",
        GoesOn(
            b"GET / HTTP/1.1\r\nHost: x\r\nVia: 1.1 bg-switch\r\nContent-Length: 2\r\nConnection: close\r\n\r\nhi",
        ),
    ),
    (
        "HEAD with a body",
        b"HEAD / HTTP/1.1\r\nHost: x\r\nContent-Length: 2\r\n\r\nhi",
        GoesOn(
            b"HEAD / HTTP/1.1\r\nHost: x\r\nVia: 1.1 bg-switch\r\nContent-Length: 2\r\nConnection: close\r\n\r\nhi",
        ),
    ),
    (
        "version 1.0",
        b"POST / HTTP/1.0\r\nContent-Length: 2\r\n\r\nhi",
        GoesOn(
            b"POST / HTTP/1.1\r\nHost: 127.0.0.1:9001\r\nVia: 1.0 bg-switch\r\nContent-Length: 2\r\nConnection: close\r\n\r\nhi",
        ),
    ),
    (
        "two equal lengths in two fields",
        b"POST / HTTP/1.1\r\nHost: x\r\nContent-Length: 2\r\nContent-Length: 2\r\n\r\nhi",
        HI,
    ),
    (
        "two equal lengths in one field",
        b"POST / HTTP/1.1\r\nHost: x\r\nContent-Length: 2 ,\t2\r\n\r\nhi",
        HI,
    ),
    (
        "two lengths that differ in their zeros",
        b"POST / HTTP/1.1\r\nHost: x\r\nContent-Length: 2\r\ncONTENT-lENGTH: 002\r\n\r\nhi",
        HI,
    ),
    (
        "a length that is another number in base 8",
        b"POST / HTTP/1.1\r\nHost: x\r\nContent-Length: 010\r\n\r\n0123456789",
        GoesOn(
            b"POST / HTTP/1.1\r\nHost: x\r\nVia: 1.1 bg-switch\r\nContent-Length: 10\r\nConnection: close\r\n\r\n0123456789",
        ),
    ),
    (
        "more zeros than a number of 64 bits has digits",
        b"POST / HTTP/1.1\r\nHost: x\r\nContent-Length: 00000000000000000000000000000000000000000000000000000000000000000000000000000000000000000000000000002\r\n\r\nhi",
        HI,
    ),
    (
        "blanks around a length",
        b"POST / HTTP/1.1\r\nHost: x\r\nContent-Length:\t 2 \t\r\n\r\nhi",
        HI,
    ),
    (
        "a name with an underscore is another name",
        b"POST / HTTP/1.1\r\nHost: x\r\nContent_Length: 2\r\n\r\nhi",
        GoesOn(
            b"POST / HTTP/1.1\r\nHost: x\r\nContent_Length: 2\r\nVia: 1.1 bg-switch\r\nConnection: close\r\n\r\n",
        ),
    ),
    (
        "Connection names the length",
        b"POST / HTTP/1.1\r\nHost: x\r\nConnection: Content-Length\r\nContent-Length: 2\r\n\r\nhi",
        HI,
    ),
    (
        "one above the limit",
        b"POST / HTTP/1.1\r\nHost: x\r\nContent-Length: 1048577\r\n\r\nhi",
        TOO_LARGE,
    ),
    (
        "2 more than 32 bits hold",
        b"POST / HTTP/1.1\r\nHost: x\r\nContent-Length: 4294967298\r\n\r\nhi",
        TOO_LARGE,
    ),
    (
        "2 more than 64 bits hold",
        b"POST / HTTP/1.1\r\nHost: x\r\nContent-Length: 18446744073709551618\r\n\r\nhi",
        TOO_LARGE,
    ),
    (
        "more is told than comes",
        b"POST / HTTP/1.1\r\nHost: x\r\nContent-Length: 3\r\n\r\nhi",
        CLOSED,
    ),
    (
        "the limit is told, and less comes",
        b"POST / HTTP/1.1\r\nHost: x\r\nContent-Length: 1048576\r\n\r\nhi",
        CLOSED,
    ),
];

/// Requests with lengths that are malformed.
pub static BAD_LENGTHS: [BadRow<'static>; 29] = [
    (
        "two lengths that differ, the first larger",
        b"POST / HTTP/1.1\r\nHost: x\r\nContent-Length: 2\r\nContent-Length: 0\r\n\r\nhi",
    ),
    (
        "two lengths that differ, the first smaller",
        b"POST / HTTP/1.1\r\nHost: x\r\nContent-Length: 0\r\nContent-Length: 2\r\n\r\nhi",
    ),
    (
        "three lengths, the last another",
        b"POST / HTTP/1.1\r\nHost: x\r\nContent-Length: 2\r\nContent-Length: 2\r\nContent-Length: 3\r\n\r\nhi",
    ),
    (
        "two lengths that differ in one field",
        b"POST / HTTP/1.1\r\nHost: x\r\nContent-Length: 2, 3\r\n\r\nhi",
    ),
    (
        "an empty element after a length",
        b"POST / HTTP/1.1\r\nHost: x\r\nContent-Length: 2,\r\n\r\nhi",
    ),
    (
        "an empty element before a length",
        b"POST / HTTP/1.1\r\nHost: x\r\nContent-Length: ,2\r\n\r\nhi",
    ),
    (
        "an empty length",
        b"POST / HTTP/1.1\r\nHost: x\r\nContent-Length:\r\n\r\nhi",
    ),
    (
        "an empty length beside one",
        b"POST / HTTP/1.1\r\nHost: x\r\nContent-Length: 2\r\nContent-Length: \r\n\r\nhi",
    ),
    (
        "a plus before a length",
        b"POST / HTTP/1.1\r\nHost: x\r\nContent-Length: +2\r\n\r\nhi",
    ),
    (
        "a minus before a length",
        b"POST / HTTP/1.1\r\nHost: x\r\nContent-Length: -2\r\n\r\nhi",
    ),
    (
        "a minus before 0",
        b"POST / HTTP/1.1\r\nHost: x\r\nContent-Length: -0\r\n\r\nhi",
    ),
    (
        "a length in base 16",
        b"POST / HTTP/1.1\r\nHost: x\r\nContent-Length: 0x2\r\n\r\nhi",
    ),
    (
        "a length with an exponent",
        b"POST / HTTP/1.1\r\nHost: x\r\nContent-Length: 2e0\r\n\r\nhi",
    ),
    (
        "a length with a point",
        b"POST / HTTP/1.1\r\nHost: x\r\nContent-Length: 2.0\r\n\r\nhi",
    ),
    (
        "a length in quotes",
        b"POST / HTTP/1.1\r\nHost: x\r\nContent-Length: \"2\"\r\n\r\nhi",
    ),
    (
        "a length with a parameter",
        b"POST / HTTP/1.1\r\nHost: x\r\nContent-Length: 2;q=1\r\n\r\nhi",
    ),
    (
        "a space within a length",
        b"POST / HTTP/1.1\r\nHost: x\r\nContent-Length: 2 2\r\n\r\nhi",
    ),
    (
        "a vertical tab after a length",
        b"POST / HTTP/1.1\r\nHost: x\r\nContent-Length: 2\x0b\r\n\r\nhi",
    ),
    (
        "a form feed before a length",
        b"POST / HTTP/1.1\r\nHost: x\r\nContent-Length: \x0c2\r\n\r\nhi",
    ),
    (
        "NUL after a length",
        b"POST / HTTP/1.1\r\nHost: x\r\nContent-Length: 2\0\r\n\r\nhi",
    ),
    (
        "a digit past ASCII",
        b"POST / HTTP/1.1\r\nHost: x\r\nContent-Length: \xef\xbc\x92\r\n\r\nhi",
    ),
    (
        "a space before the colon",
        b"POST / HTTP/1.1\r\nHost: x\r\nContent-Length : 2\r\n\r\nhi",
    ),
    (
        "a length that is folded",
        b"POST / HTTP/1.1\r\nHost: x\r\nContent-Length:\r\n 2\r\n\r\nhi",
    ),
    (
        "a length that goes on in a folded line",
        b"POST / HTTP/1.1\r\nHost: x\r\nContent-Length: 2\r\n\t0\r\n\r\nhi",
    ),
    (
        "two large lengths that differ",
        b"POST / HTTP/1.1\r\nHost: x\r\nContent-Length: 1048577, 1048578\r\n\r\nhi",
    ),
    (
        "two lengths that are one where only 64 bits are kept",
        b"POST / HTTP/1.1\r\nHost: x\r\nContent-Length: 2\r\nContent-Length: 18446744073709551618\r\n\r\nhi",
    ),
    (
        "a length before chunks",
        b"POST / HTTP/1.1\r\nHost: x\r\nContent-Length: 6\r\nTransfer-Encoding: chunked\r\n\r\n0\r\n\r\nG",
    ),
    (
        "a length after chunks",
        b"POST / HTTP/1.1\r\nHost: x\r\nTransfer-Encoding: chunked\r\nContent-Length: 2\r\n\r\n2\r\nhi\r\n0\r\n\r\n",
    ),
    (
        "an empty length beside chunks",
        b"POST / HTTP/1.1\r\nHost: x\r\nTransfer-Encoding: chunked\r\nContent-Length:\r\n\r\n0\r\n\r\n",
    ),
];
