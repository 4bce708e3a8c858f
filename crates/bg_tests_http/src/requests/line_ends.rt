//! Requests with odd ends of lines, blanks and bytes in their fields (RFC 9112 sections 2.2 and 5).
use super::GOT;
use crate::passing::Outcome::GoesOn;
use crate::passing::{BadRow, CLOSED, Row};

pub static LINE_ENDS: [Row<'static>; 14] = [
    (
        "CR LF at each end",
        b"GET / HTTP/1.1\r\nHost: x\r\n\r\n",
        GOT,
    ),
    ("LF alone at each end", b"GET / HTTP/1.1\nHost: x\n\n", GOT),
    (
        "CR LF and LF alone",
        b"GET / HTTP/1.1\r\nHost: x\n\r\n",
        GOT,
    ),
    (
        "LF alone at the end of the head",
        b"GET / HTTP/1.1\r\nHost: x\r\n\n",
        GOT,
    ),
    (
        "empty lines before the head",
        b"\r\n\n\r\nGET / HTTP/1.1\r\nHost: x\r\n\r\n",
        GOT,
    ),
    (
        "no blank before a value",
        b"GET / HTTP/1.1\r\nHost:x\r\n\r\n",
        GOT,
    ),
    (
        "blanks around a value",
        b"GET / HTTP/1.1\r\nHost: \t x \t \r\n\r\n",
        GOT,
    ),
    (
        "empty values, and one of blanks",
        b"GET / HTTP/1.1\r\nHost: x\r\nA:\r\nB: \t\r\n\r\n",
        GoesOn(
            b"GET / HTTP/1.1\r\nHost: x\r\nA: \r\nB: \r\nVia: 1.1 bg-switch\r\nConnection: close\r\n\r\n",
        ),
    ),
    (
        "a tab, a space and bytes past ASCII within a value",
        b"GET / HTTP/1.1\r\nHost: x\r\nA: b\tc d\xe9\xff\r\n\r\n",
        GoesOn(
            b"GET / HTTP/1.1\r\nHost: x\r\nA: b\tc d\xe9\xff\r\nVia: 1.1 bg-switch\r\nConnection: close\r\n\r\n",
        ),
    ),
    (
        "colons and quotes in a value",
        b"GET / HTTP/1.1\r\nHost: x\r\nA: b: \"c, d\r\n\r\n",
        GoesOn(
            b"GET / HTTP/1.1\r\nHost: x\r\nA: b: \"c, d\r\nVia: 1.1 bg-switch\r\nConnection: close\r\n\r\n",
        ),
    ),
    (
        "every kind of byte that a name may have",
        b"GET / HTTP/1.1\r\nHost: x\r\n!#$%&'*+-.^_`|~0aZ: b\r\n\r\n",
        GoesOn(
            b"GET / HTTP/1.1\r\nHost: x\r\n!#$%&'*+-.^_`|~0aZ: b\r\nVia: 1.1 bg-switch\r\nConnection: close\r\n\r\n",
        ),
    ),
    ("nothing", b"", CLOSED),
    ("empty lines alone", b"\r\n\r\n\r\n", CLOSED),
    (
        "no empty line after the fields",
        b"GET / HTTP/1.1\r\nHost: x\r\n",
        CLOSED,
    ),
];

/// Requests with ends of lines, blanks or bytes that are malformed.
pub static BAD_LINE_ENDS: [BadRow<'static>; 33] = [
    ("CR alone at each end", b"GET / HTTP/1.1\rHost: x\r\r"),
    (
        "CR alone after the version",
        b"GET / HTTP/1.1\rHost: x\r\n\r\n",
    ),
    ("two CRs at an end", b"GET / HTTP/1.1\r\nHost: x\r\r\n\r\n"),
    (
        "CR alone in a value",
        b"GET / HTTP/1.1\r\nHost: x\r\nA: b\rc\r\n\r\n",
    ),
    (
        "CR before a name",
        b"GET / HTTP/1.1\r\nHost: x\r\n\rA: b\r\n\r\n",
    ),
    (
        "CR before a colon",
        b"GET / HTTP/1.1\r\nHost: x\r\nA\r: b\r\n\r\n",
    ),
    (
        "CR alone at the end of the head",
        b"GET / HTTP/1.1\r\nHost: x\r\n\rGET",
    ),
    (
        "CR alone before the head",
        b"\rGET / HTTP/1.1\r\nHost: x\r\n\r\n",
    ),
    (
        "a space before the head",
        b" GET / HTTP/1.1\r\nHost: x\r\n\r\n",
    ),
    (
        "a line of a space before the head",
        b" \r\nGET / HTTP/1.1\r\nHost: x\r\n\r\n",
    ),
    (
        "NUL before the head",
        b"\0GET / HTTP/1.1\r\nHost: x\r\n\r\n",
    ),
    (
        "a mark of UTF-8 before the head",
        b"\xef\xbb\xbfGET / HTTP/1.1\r\nHost: x\r\n\r\n",
    ),
    (
        "a line that is folded by a space",
        b"GET / HTTP/1.1\r\nHost: x\r\n y\r\n\r\n",
    ),
    (
        "a line that is folded by a tab",
        b"GET / HTTP/1.1\r\nHost: x\r\nA: b\r\n\tc\r\n\r\n",
    ),
    (
        "an empty value that goes on in a folded line",
        b"GET / HTTP/1.1\r\nA:\r\n Host: x\r\n\r\n",
    ),
    (
        "a space before the first name",
        b"GET / HTTP/1.1\r\n Host: x\r\n\r\n",
    ),
    (
        "a line of a space",
        b"GET / HTTP/1.1\r\nHost: x\r\n \r\nA: b\r\n\r\n",
    ),
    (
        "a space before a colon",
        b"GET / HTTP/1.1\r\nHost : x\r\n\r\n",
    ),
    (
        "a tab before a colon",
        b"GET / HTTP/1.1\r\nHost: x\r\nA\t: b\r\n\r\n",
    ),
    (
        "a line without a colon",
        b"GET / HTTP/1.1\r\nHost: x\r\nA\r\n\r\n",
    ),
    (
        "a line without a name",
        b"GET / HTTP/1.1\r\nHost: x\r\n: b\r\n\r\n",
    ),
    (
        "a space within a name",
        b"GET / HTTP/1.1\r\nHost: x\r\nA B: c\r\n\r\n",
    ),
    (
        "a slash in a name",
        b"GET / HTTP/1.1\r\nHost: x\r\nA/B: c\r\n\r\n",
    ),
    (
        "a bracket in a name",
        b"GET / HTTP/1.1\r\nHost: x\r\nA[0]: c\r\n\r\n",
    ),
    (
        "a quote in a name",
        b"GET / HTTP/1.1\r\nHost: x\r\n\"A\": c\r\n\r\n",
    ),
    (
        "a byte past ASCII in a name",
        b"GET / HTTP/1.1\r\nHost\xa0: x\r\n\r\n",
    ),
    (
        "NUL in a name",
        b"GET / HTTP/1.1\r\nHost: x\r\nA\0: b\r\n\r\n",
    ),
    (
        "a vertical tab in a name",
        b"GET / HTTP/1.1\r\nHost: x\r\nA\x0b: b\r\n\r\n",
    ),
    (
        "NUL in a value",
        b"GET / HTTP/1.1\r\nHost: x\r\nA: b\0c\r\n\r\n",
    ),
    (
        "a vertical tab in a value",
        b"GET / HTTP/1.1\r\nHost: x\r\nA: \x0bb\r\n\r\n",
    ),
    (
        "a form feed in a value",
        b"GET / HTTP/1.1\r\nHost: x\r\nA: b\x0c\r\n\r\n",
    ),
    (
        "an escape in a value",
        b"GET / HTTP/1.1\r\nHost: x\r\nA: \x1b[0m\r\n\r\n",
    ),
    (
        "DEL in a value",
        b"GET / HTTP/1.1\r\nHost: x\r\nA: \x7f\r\n\r\n",
    ),
];
