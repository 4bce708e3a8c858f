//! Requests with correct and wrong chunked bodies (RFC 9112 section 7.1).
use super::HI;
use crate::passing::Outcome::GoesOn;
use crate::passing::{BadRow, CLOSED, Row, TOO_LARGE};

pub static CHUNKS: [Row<'static>; 27] = [
    (
        "two chunks",
        b"POST / HTTP/1.1\r\nHost: x\r\nTransfer-Encoding: chunked\r\n\r\n1\r\nh\r\n1\r\ni\r\n0\r\n\r\n",
        HI,
    ),
    (
        "extensions",
        b"POST / HTTP/1.1\r\nHost: x\r\nTransfer-Encoding: chunked\r\n\r\n2;a=b;c\r\nhi\r\n0;d\r\n\r\n",
        HI,
    ),
    (
        "an extension of any bytes but CR and LF",
        b"POST / HTTP/1.1\r\nHost: x\r\nTransfer-Encoding: chunked\r\n\r\n2;\0\x0b\x7f\xff\r\nhi\r\n0\r\n\r\n",
        HI,
    ),
    (
        "a quoted extension that isn't closed",
        b"POST / HTTP/1.1\r\nHost: x\r\nTransfer-Encoding: chunked\r\n\r\n2;a=\"\r\nhi\r\n0\r\n\r\n",
        HI,
    ),
    (
        "blanks after a size",
        b"POST / HTTP/1.1\r\nHost: x\r\nTransfer-Encoding: chunked\r\n\r\n2 \t\r\nhi\r\n0 \r\n\r\n",
        HI,
    ),
    (
        "blanks between a size and its extension",
        b"POST / HTTP/1.1\r\nHost: x\r\nTransfer-Encoding: chunked\r\n\r\n2 \t;a\r\nhi\r\n0\t;a\r\n\r\n",
        HI,
    ),
    (
        "zeros before a size, and after one of 0",
        b"POST / HTTP/1.1\r\nHost: x\r\nTransfer-Encoding: chunked\r\n\r\n0002\r\nhi\r\n000\r\n\r\n",
        HI,
    ),
    (
        "a size of 16 digits",
        b"POST / HTTP/1.1\r\nHost: x\r\nTransfer-Encoding: chunked\r\n\r\n0000000000000002\r\nhi\r\n0\r\n\r\n",
        HI,
    ),
    (
        "a capital digit of base 16",
        b"POST / HTTP/1.1\r\nHost: x\r\nTransfer-Encoding: chunked\r\n\r\nA\r\n0123456789\r\n0\r\n\r\n",
        GoesOn(
            b"POST / HTTP/1.1\r\nHost: x\r\nVia: 1.1 bg-switch\r\nContent-Length: 10\r\nConnection: close\r\n\r\n0123456789",
        ),
    ),
    (
        "a small digit of base 16",
        b"POST / HTTP/1.1\r\nHost: x\r\nTransfer-Encoding: chunked\r\n\r\na\r\n0123456789\r\n0\r\n\r\n",
        GoesOn(
            b"POST / HTTP/1.1\r\nHost: x\r\nVia: 1.1 bg-switch\r\nContent-Length: 10\r\nConnection: close\r\n\r\n0123456789",
        ),
    ),
    (
        "a size that is another number in base 10",
        b"POST / HTTP/1.1\r\nHost: x\r\nTransfer-Encoding: chunked\r\n\r\n10\r\n0123456789abcdef\r\n0\r\n\r\n",
        GoesOn(
            b"POST / HTTP/1.1\r\nHost: x\r\nVia: 1.1 bg-switch\r\nContent-Length: 16\r\nConnection: close\r\n\r\n0123456789abcdef",
        ),
    ),
    (
        "data that is an end of line",
        b"POST / HTTP/1.1\r\nHost: x\r\nTransfer-Encoding: chunked\r\n\r\n2\r\n\r\n\r\n0\r\n\r\n",
        GoesOn(
            b"POST / HTTP/1.1\r\nHost: x\r\nVia: 1.1 bg-switch\r\nContent-Length: 2\r\nConnection: close\r\n\r\n\r\n",
        ),
    ),
    (
        "data that looks like the last chunk",
        b"POST / HTTP/1.1\r\nHost: x\r\nTransfer-Encoding: chunked\r\n\r\n5\r\n0\r\n\r\n\r\n0\r\n\r\n",
        GoesOn(
            b"POST / HTTP/1.1\r\nHost: x\r\nVia: 1.1 bg-switch\r\nContent-Length: 5\r\nConnection: close\r\n\r\n0\r\n\r\n",
        ),
    ),
    (
        "a second request",
        b"POST / HTTP/1.1\r\nHost: x\r\nTransfer-Encoding: chunked\r\n\r\n2\r\nhi\r\n0\r\n\r\nGET /admin HTTP/1.1\r\nHost: x\r\n\r\n",
        HI,
    ),
    (
        "more chunks after the last",
        b"POST / HTTP/1.1\r\nHost: x\r\nTransfer-Encoding: chunked\r\n\r\n2\r\nhi\r\n0\r\n\r\n5\r\nlater\r\n0\r\n\r\n",
        HI,
    ),
    (
        "trailers that tell another end and another host",
        b"POST / HTTP/1.1\r\nHost: x\r\nTransfer-Encoding: chunked\r\n\r\n2\r\nhi\r\n0\r\nContent-Length: 9\r\nTransfer-Encoding: x\r\nHost: y\r\n\r\n",
        HI,
    ),
    (
        "a trailer whose name is a method",
        b"POST / HTTP/1.1\r\nHost: x\r\nTransfer-Encoding: chunked\r\n\r\n2\r\nhi\r\n0\r\nGET: /admin HTTP/1.1\r\n\r\n",
        HI,
    ),
    (
        "trailers whose lines end in LF alone",
        b"POST / HTTP/1.1\r\nHost: x\r\nTransfer-Encoding: chunked\r\n\r\n2\r\nhi\r\n0\r\nA: b\n\n",
        HI,
    ),
    (
        "no trailer, and LF alone at the end",
        b"POST / HTTP/1.1\r\nHost: x\r\nTransfer-Encoding: chunked\r\n\r\n2\r\nhi\r\n0\r\n\n",
        HI,
    ),
    (
        "2 more than 32 bits hold",
        b"POST / HTTP/1.1\r\nHost: x\r\nTransfer-Encoding: chunked\r\n\r\n100000002\r\nhi\r\n0\r\n\r\n",
        TOO_LARGE,
    ),
    (
        "the most that 64 bits hold",
        b"POST / HTTP/1.1\r\nHost: x\r\nTransfer-Encoding: chunked\r\n\r\nFFFFFFFFFFFFFFFF\r\nhi\r\n0\r\n\r\n",
        TOO_LARGE,
    ),
    (
        "the most that 64 bits hold, after another chunk",
        b"POST / HTTP/1.1\r\nHost: x\r\nTransfer-Encoding: chunked\r\n\r\n2\r\nhi\r\nffffffffffffffff\r\n",
        TOO_LARGE,
    ),
    (
        "one above the limit",
        b"POST / HTTP/1.1\r\nHost: x\r\nTransfer-Encoding: chunked\r\n\r\n100001\r\n",
        TOO_LARGE,
    ),
    (
        "one above the limit in two chunks",
        b"POST / HTTP/1.1\r\nHost: x\r\nTransfer-Encoding: chunked\r\n\r\n1\r\nh\r\n100000\r\n",
        TOO_LARGE,
    ),
    (
        "the end of the input in the data",
        b"POST / HTTP/1.1\r\nHost: x\r\nTransfer-Encoding: chunked\r\n\r\n2\r\nh",
        CLOSED,
    ),
    (
        "the end of the input before the last chunk",
        b"POST / HTTP/1.1\r\nHost: x\r\nTransfer-Encoding: chunked\r\n\r\n2\r\nhi\r\n",
        CLOSED,
    ),
    (
        "the end of the input before the end of the trailers",
        b"POST / HTTP/1.1\r\nHost: x\r\nTransfer-Encoding: chunked\r\n\r\n2\r\nhi\r\n0\r\nA: b\r\n",
        CLOSED,
    ),
];

/// Requests with chunked bodies that are malformed.
pub static BAD_CHUNKS: [BadRow<'static>; 41] = [
    (
        "a trailer that looks like a request line",
        b"POST / HTTP/1.1\r\nHost: x\r\nTransfer-Encoding: chunked\r\n\r\n2\r\nhi\r\n0\r\nGET /admin HTTP/1.1\r\nHost: x\r\n\r\n",
    ),
    (
        "a trailer that is folded",
        b"POST / HTTP/1.1\r\nHost: x\r\nTransfer-Encoding: chunked\r\n\r\n2\r\nhi\r\n0\r\nA: x\r\n y\r\n\r\n",
    ),
    (
        "a trailer with a space before the colon",
        b"POST / HTTP/1.1\r\nHost: x\r\nTransfer-Encoding: chunked\r\n\r\n2\r\nhi\r\n0\r\nA : x\r\n\r\n",
    ),
    (
        "a trailer without a name",
        b"POST / HTTP/1.1\r\nHost: x\r\nTransfer-Encoding: chunked\r\n\r\n2\r\nhi\r\n0\r\n: x\r\n\r\n",
    ),
    (
        "NUL in a trailer",
        b"POST / HTTP/1.1\r\nHost: x\r\nTransfer-Encoding: chunked\r\n\r\n2\r\nhi\r\n0\r\nA: \0\r\n\r\n",
    ),
    (
        "a CR alone in a trailer",
        b"POST / HTTP/1.1\r\nHost: x\r\nTransfer-Encoding: chunked\r\n\r\n2\r\nhi\r\n0\r\nA: b\rc\r\n\r\n",
    ),
    (
        "a CR alone in place of trailers",
        b"POST / HTTP/1.1\r\nHost: x\r\nTransfer-Encoding: chunked\r\n\r\n2\r\nhi\r\n0\r\n\rGET",
    ),
    (
        "a size that is no number",
        b"POST / HTTP/1.1\r\nHost: x\r\nTransfer-Encoding: chunked\r\n\r\nx\r\nhi\r\n0\r\n\r\n",
    ),
    (
        "no size",
        b"POST / HTTP/1.1\r\nHost: x\r\nTransfer-Encoding: chunked\r\n\r\n\r\nhi\r\n0\r\n\r\n",
    ),
    (
        "an extension without a size",
        b"POST / HTTP/1.1\r\nHost: x\r\nTransfer-Encoding: chunked\r\n\r\n;a\r\nhi\r\n0\r\n\r\n",
    ),
    (
        "a space before a size",
        b"POST / HTTP/1.1\r\nHost: x\r\nTransfer-Encoding: chunked\r\n\r\n 2\r\nhi\r\n0\r\n\r\n",
    ),
    (
        "a tab before a size",
        b"POST / HTTP/1.1\r\nHost: x\r\nTransfer-Encoding: chunked\r\n\r\n\t2\r\nhi\r\n0\r\n\r\n",
    ),
    (
        "a plus before a size",
        b"POST / HTTP/1.1\r\nHost: x\r\nTransfer-Encoding: chunked\r\n\r\n+2\r\nhi\r\n0\r\n\r\n",
    ),
    (
        "a minus before a size",
        b"POST / HTTP/1.1\r\nHost: x\r\nTransfer-Encoding: chunked\r\n\r\n-2\r\nhi\r\n0\r\n\r\n",
    ),
    (
        "a minus before 0",
        b"POST / HTTP/1.1\r\nHost: x\r\nTransfer-Encoding: chunked\r\n\r\n2\r\nhi\r\n-0\r\n\r\n",
    ),
    (
        "0x before a size",
        b"POST / HTTP/1.1\r\nHost: x\r\nTransfer-Encoding: chunked\r\n\r\n0x2\r\nhi\r\n0\r\n\r\n",
    ),
    (
        "h after a size",
        b"POST / HTTP/1.1\r\nHost: x\r\nTransfer-Encoding: chunked\r\n\r\n2h\r\nhi\r\n0\r\n\r\n",
    ),
    (
        "an underscore after a size",
        b"POST / HTTP/1.1\r\nHost: x\r\nTransfer-Encoding: chunked\r\n\r\n2_\r\nhi\r\n0\r\n\r\n",
    ),
    (
        "a size in quotes",
        b"POST / HTTP/1.1\r\nHost: x\r\nTransfer-Encoding: chunked\r\n\r\n\"2\"\r\nhi\r\n0\r\n\r\n",
    ),
    (
        "a comma after a size",
        b"POST / HTTP/1.1\r\nHost: x\r\nTransfer-Encoding: chunked\r\n\r\n2,2\r\nhi\r\n0\r\n\r\n",
    ),
    (
        "two sizes",
        b"POST / HTTP/1.1\r\nHost: x\r\nTransfer-Encoding: chunked\r\n\r\n2 2\r\nhi\r\n0\r\n\r\n",
    ),
    (
        "a vertical tab after a size",
        b"POST / HTTP/1.1\r\nHost: x\r\nTransfer-Encoding: chunked\r\n\r\n2\x0b\r\nhi\r\n0\r\n\r\n",
    ),
    (
        "NUL after a size",
        b"POST / HTTP/1.1\r\nHost: x\r\nTransfer-Encoding: chunked\r\n\r\n2\0\r\nhi\r\n0\r\n\r\n",
    ),
    (
        "a byte past ASCII before a size",
        b"POST / HTTP/1.1\r\nHost: x\r\nTransfer-Encoding: chunked\r\n\r\n\xa02\r\nhi\r\n0\r\n\r\n",
    ),
    (
        "LF alone after a size",
        b"POST / HTTP/1.1\r\nHost: x\r\nTransfer-Encoding: chunked\r\n\r\n2\nhi\r\n0\r\n\r\n",
    ),
    (
        "LF alone after a size and a blank",
        b"POST / HTTP/1.1\r\nHost: x\r\nTransfer-Encoding: chunked\r\n\r\n2 \nhi\r\n0\r\n\r\n",
    ),
    (
        "LF alone after the last size",
        b"POST / HTTP/1.1\r\nHost: x\r\nTransfer-Encoding: chunked\r\n\r\n2\r\nhi\r\n0\n\r\n",
    ),
    (
        "CR alone after a size",
        b"POST / HTTP/1.1\r\nHost: x\r\nTransfer-Encoding: chunked\r\n\r\n2\rhi\r\n0\r\n\r\n",
    ),
    (
        "two CRs after a size",
        b"POST / HTTP/1.1\r\nHost: x\r\nTransfer-Encoding: chunked\r\n\r\n2\r\r\nhi\r\n0\r\n\r\n",
    ),
    (
        "LF in an extension",
        b"POST / HTTP/1.1\r\nHost: x\r\nTransfer-Encoding: chunked\r\n\r\n2;a\nb\r\nhi\r\n0\r\n\r\n",
    ),
    (
        "CR in an extension",
        b"POST / HTTP/1.1\r\nHost: x\r\nTransfer-Encoding: chunked\r\n\r\n2;a\rb\r\nhi\r\n0\r\n\r\n",
    ),
    (
        "LF in a quoted extension",
        b"POST / HTTP/1.1\r\nHost: x\r\nTransfer-Encoding: chunked\r\n\r\n2;a=\"\n\"\r\nhi\r\n0\r\n\r\n",
    ),
    (
        "a size of 17 digits",
        b"POST / HTTP/1.1\r\nHost: x\r\nTransfer-Encoding: chunked\r\n\r\n00000000000000002\r\nhi\r\n0\r\n\r\n",
    ),
    (
        "2 more than 64 bits hold",
        b"POST / HTTP/1.1\r\nHost: x\r\nTransfer-Encoding: chunked\r\n\r\n10000000000000002\r\nhi\r\n0\r\n\r\n",
    ),
    (
        "a wrong end of data, and then too large a size",
        b"POST / HTTP/1.1\r\nHost: x\r\nTransfer-Encoding: chunked\r\n\r\n1\r\nhx100001\r\n",
    ),
    (
        "no end of line after the data",
        b"POST / HTTP/1.1\r\nHost: x\r\nTransfer-Encoding: chunked\r\n\r\n2\r\nhi0\r\n\r\n",
    ),
    (
        "LF alone after the data",
        b"POST / HTTP/1.1\r\nHost: x\r\nTransfer-Encoding: chunked\r\n\r\n2\r\nhi\n0\r\n\r\n",
    ),
    (
        "CR alone after the data",
        b"POST / HTTP/1.1\r\nHost: x\r\nTransfer-Encoding: chunked\r\n\r\n2\r\nhi\r0\r\n\r\n",
    ),
    (
        "more data than the size",
        b"POST / HTTP/1.1\r\nHost: x\r\nTransfer-Encoding: chunked\r\n\r\n1\r\nhi\r\n0\r\n\r\n",
    ),
    (
        "less data than the size",
        b"POST / HTTP/1.1\r\nHost: x\r\nTransfer-Encoding: chunked\r\n\r\n3\r\nhi\r\n0\r\n\r\n",
    ),
    (
        "two ends of line after the data",
        b"POST / HTTP/1.1\r\nHost: x\r\nTransfer-Encoding: chunked\r\n\r\n2\r\nhi\r\n\r\n0\r\n\r\n",
    ),
];
