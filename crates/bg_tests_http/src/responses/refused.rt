//! Responses that are refused (RFC 9112 sections 4 to 7): the client gets 502.
use crate::passing::{BadRow, CLOSED, Row, TOO_LARGE};

static REFUSED: [Row<'static>; 9] = [
    (
        "one above the limit",
        b"HTTP/1.1 200 OK\r\nContent-Length: 4194305\r\n\r\nhi",
        TOO_LARGE,
    ),
    (
        "2 more than 64 bits hold",
        b"HTTP/1.1 200 OK\r\nContent-Length: 18446744073709551618\r\n\r\nhi",
        TOO_LARGE,
    ),
    (
        "more is told than comes",
        b"HTTP/1.1 200 OK\r\nContent-Length: 3\r\n\r\nhi",
        CLOSED,
    ),
    (
        "the limit is told, and less comes",
        b"HTTP/1.1 200 OK\r\nContent-Length: 4194304\r\n\r\nhi",
        CLOSED,
    ),
    (
        "too large a chunk",
        b"HTTP/1.1 200 OK\r\nTransfer-Encoding: chunked\r\n\r\n400001\r\n",
        TOO_LARGE,
    ),
    (
        "a chunk that is cut",
        b"HTTP/1.1 200 OK\r\nTransfer-Encoding: chunked\r\n\r\n400000\r\nhi",
        CLOSED,
    ),
    (
        "no trailers",
        b"HTTP/1.1 200 OK\r\nTransfer-Encoding: chunked\r\n\r\n0\r\n",
        CLOSED,
    ),
    ("nothing", b"", CLOSED),
    (
        "an interim response alone",
        b"HTTP/1.1 100 x\r\n\r\n",
        CLOSED,
    ),
];

/// Responses that are malformed.
static BAD_RESPONSES: [BadRow<'static>; 45] = [
    (
        "lengths that differ",
        b"HTTP/1.1 200 OK\r\nContent-Length: 2, 3\r\n\r\nhi",
    ),
    (
        "lengths that differ, in two fields",
        b"HTTP/1.1 200 OK\r\nContent-Length: 2\r\nContent-Length: 0\r\n\r\nhi",
    ),
    (
        "an empty element after a length",
        b"HTTP/1.1 200 OK\r\nContent-Length: 2,\r\n\r\nhi",
    ),
    (
        "an empty length",
        b"HTTP/1.1 200 OK\r\nContent-Length:\r\n\r\nhi",
    ),
    (
        "a plus before a length",
        b"HTTP/1.1 200 OK\r\nContent-Length: +2\r\n\r\nhi",
    ),
    (
        "a minus before a length",
        b"HTTP/1.1 200 OK\r\nContent-Length: -2\r\n\r\nhi",
    ),
    (
        "a length in base 16",
        b"HTTP/1.1 200 OK\r\nContent-Length: 0x2\r\n\r\nhi",
    ),
    (
        "a space before the colon of a length",
        b"HTTP/1.1 200 OK\r\nContent-Length : 2\r\n\r\nhi",
    ),
    (
        "chunks in version 1.0",
        b"HTTP/1.0 200 OK\r\nTransfer-Encoding: chunked\r\n\r\n0\r\n\r\n",
    ),
    (
        "gzip",
        b"HTTP/1.1 200 OK\r\nTransfer-Encoding: gzip\r\n\r\nhi",
    ),
    (
        "gzip before chunked",
        b"HTTP/1.1 200 OK\r\nTransfer-Encoding: gzip, chunked\r\n\r\n0\r\n\r\n",
    ),
    (
        "identity beside a length",
        b"HTTP/1.1 200 OK\r\nTransfer-Encoding: identity\r\nContent-Length: 2\r\n\r\nhi",
    ),
    (
        "chunked twice",
        b"HTTP/1.1 200 OK\r\nTransfer-Encoding: chunked\r\nTransfer-Encoding: chunked\r\n\r\n2\r\nhi\r\n0\r\n\r\n",
    ),
    (
        "chunked with a parameter",
        b"HTTP/1.1 200 OK\r\nTransfer-Encoding: chunked;q=1\r\n\r\n2\r\nhi\r\n0\r\n\r\n",
    ),
    (
        "a letter before chunked",
        b"HTTP/1.1 200 OK\r\nTransfer-Encoding: xchunked\r\n\r\n2\r\nhi\r\n0\r\n\r\n",
    ),
    (
        "an empty coding",
        b"HTTP/1.1 200 OK\r\nTransfer-Encoding:\r\n\r\nhi",
    ),
    (
        "a vertical tab before chunked",
        b"HTTP/1.1 200 OK\r\nTransfer-Encoding: \x0bchunked\r\n\r\n2\r\nhi\r\n0\r\n\r\n",
    ),
    (
        "chunked in a folded line",
        b"HTTP/1.1 200 OK\r\nTransfer-Encoding:\r\n chunked\r\n\r\n2\r\nhi\r\n0\r\n\r\n",
    ),
    (
        "LF alone after a size",
        b"HTTP/1.1 200 OK\r\nTransfer-Encoding: chunked\r\n\r\n2\nhi\r\n0\r\n\r\n",
    ),
    (
        "0x before a size",
        b"HTTP/1.1 200 OK\r\nTransfer-Encoding: chunked\r\n\r\n0x2\r\nhi\r\n0\r\n\r\n",
    ),
    (
        "a size of 17 digits",
        b"HTTP/1.1 200 OK\r\nTransfer-Encoding: chunked\r\n\r\n00000000000000002\r\nhi\r\n0\r\n\r\n",
    ),
    (
        "no end of line after the data",
        b"HTTP/1.1 200 OK\r\nTransfer-Encoding: chunked\r\n\r\n2\r\nhi0\r\n\r\n",
    ),
    (
        "a trailer that looks like a response",
        b"HTTP/1.1 200 OK\r\nTransfer-Encoding: chunked\r\n\r\n2\r\nhi\r\n0\r\nHTTP/1.1 200 OK\r\n\r\n",
    ),
    (
        "another protocol",
        b"HTTP/1.1 101 x\r\n\r\nHTTP/1.1 200 OK\r\n\r\nhi",
    ),
    ("a code below 100", b"HTTP/1.1 099 x\r\n\r\nhi"),
    ("the code 0", b"HTTP/1.1 000 x\r\n\r\nhi"),
    ("a code of two digits", b"HTTP/1.1 20 x\r\n\r\nhi"),
    ("a code of four digits", b"HTTP/1.1 2000 x\r\n\r\nhi"),
    ("a code with a sign", b"HTTP/1.1 +20 x\r\n\r\nhi"),
    ("a reason right after the code", b"HTTP/1.1 200OK\r\n\r\nhi"),
    ("two spaces before the code", b"HTTP/1.1  200 OK\r\n\r\nhi"),
    (
        "CR alone in the reason",
        b"HTTP/1.1 200 OK\rContent-Length: 2\r\n\r\nhi",
    ),
    ("NUL in the reason", b"HTTP/1.1 200 O\0K\r\n\r\nhi"),
    ("version 1.2", b"HTTP/1.2 200 OK\r\n\r\nhi"),
    ("version 2", b"HTTP/2 200 OK\r\n\r\nhi"),
    ("a version of small letters", b"http/1.1 200 OK\r\n\r\nhi"),
    ("another protocol's first line", b"ICY 200 OK\r\n\r\nhi"),
    ("no head, but a body", b"hi"),
    ("a request", b"GET / HTTP/1.1\r\n\r\n"),
    (
        "a space before a colon",
        b"HTTP/1.1 200 OK\r\nA : b\r\n\r\nhi",
    ),
    (
        "a line that is folded",
        b"HTTP/1.1 200 OK\r\nA: b\r\n c\r\n\r\nhi",
    ),
    ("a line without a name", b"HTTP/1.1 200 OK\r\n: b\r\n\r\nhi"),
    ("NUL in a value", b"HTTP/1.1 200 OK\r\nA: \0\r\n\r\nhi"),
    (
        "CR alone in a value",
        b"HTTP/1.1 200 OK\r\nA: b\rSet-Cookie: c\r\n\r\nhi",
    ),
    (
        "an interim response that is no head",
        b"HTTP/1.1 100 x\r\nA\r\n\r\nHTTP/1.1 200 OK\r\n\r\nhi",
    ),
];

pub fn rows() -> &'static [Row<'static>] {
    &REFUSED
}

pub fn bad_rows() -> &'static [BadRow<'static>] {
    &BAD_RESPONSES
}
