//! Requests with correct and wrong codings, and with codings and a length (RFC 9112 sections 6.1
//! and 6.3).
use super::HI;
use crate::passing::Outcome::GoesOn;
use crate::passing::{BadRow, CLOSED, NOT_DONE, Row};

pub static CODINGS: [Row<'static>; 21] = [
    (
        "chunked",
        b"POST / HTTP/1.1\r\nHost: x\r\nTransfer-Encoding: chunked\r\n\r\n2\r\nhi\r\n0\r\n\r\n",
        HI,
    ),
    (
        "an empty body, and a second request",
        b"POST / HTTP/1.1\r\nHost: x\r\nTransfer-Encoding: chunked\r\n\r\n0\r\n\r\nGET /admin HTTP/1.1\r\nHost: x\r\n\r\n",
        GoesOn(
            b"POST / HTTP/1.1\r\nHost: x\r\nVia: 1.1 bg-switch\r\nContent-Length: 0\r\nConnection: close\r\n\r\n",
        ),
    ),
    (
        "a name and a coding in other cases",
        b"POST / HTTP/1.1\r\nHost: x\r\ntRANSFER-eNCODING: ChunKED\r\n\r\n2\r\nhi\r\n0\r\n\r\n",
        HI,
    ),
    (
        "blanks around the coding",
        b"POST / HTTP/1.1\r\nHost: x\r\nTransfer-Encoding:\t chunked \t\r\n\r\n2\r\nhi\r\n0\r\n\r\n",
        HI,
    ),
    (
        "no blank before the coding",
        b"POST / HTTP/1.1\r\nHost: x\r\nTransfer-Encoding:chunked\r\n\r\n2\r\nhi\r\n0\r\n\r\n",
        HI,
    ),
    (
        "an empty element after the coding",
        b"POST / HTTP/1.1\r\nHost: x\r\nTransfer-Encoding: chunked,\r\n\r\n2\r\nhi\r\n0\r\n\r\n",
        HI,
    ),
    (
        "empty elements around the coding",
        b"POST / HTTP/1.1\r\nHost: x\r\nTransfer-Encoding: ,\t, chunked , ,\r\n\r\n2\r\nhi\r\n0\r\n\r\n",
        HI,
    ),
    (
        "a field of empty elements before the coding",
        b"POST / HTTP/1.1\r\nHost: x\r\nTransfer-Encoding: ,\t\r\nTransfer-Encoding: chunked\r\n\r\n2\r\nhi\r\n0\r\n\r\n",
        HI,
    ),
    (
        "an empty field after the coding",
        b"POST / HTTP/1.1\r\nHost: x\r\nTransfer-Encoding: chunked\r\nTransfer-Encoding:\r\n\r\n2\r\nhi\r\n0\r\n\r\n",
        HI,
    ),
    (
        "Connection names the coding's field",
        b"POST / HTTP/1.1\r\nHost: x\r\nConnection: Transfer-Encoding\r\nTransfer-Encoding: chunked\r\n\r\n2\r\nhi\r\n0\r\n\r\n",
        HI,
    ),
    (
        "a field after an end of line that is LF alone",
        b"POST / HTTP/1.1\r\nHost: x\r\nA: b\nTransfer-Encoding: chunked\r\n\r\n2\r\nhi\r\n0\r\n\r\n",
        GoesOn(
            b"POST / HTTP/1.1\r\nHost: x\r\nA: b\r\nVia: 1.1 bg-switch\r\nContent-Length: 2\r\nConnection: close\r\n\r\nhi",
        ),
    ),
    (
        "a name with an underscore is another name",
        b"POST / HTTP/1.1\r\nHost: x\r\nTransfer_Encoding: chunked\r\nContent-Length: 2\r\n\r\nhi",
        GoesOn(
            b"POST / HTTP/1.1\r\nHost: x\r\nTransfer_Encoding: chunked\r\nVia: 1.1 bg-switch\r\nContent-Length: 2\r\nConnection: close\r\n\r\nhi",
        ),
    ),
    (
        "a coding of the content is another coding",
        b"POST / HTTP/1.1\r\nHost: x\r\nContent-Encoding: chunked\r\n\r\n2\r\nhi\r\n0\r\n\r\n",
        GoesOn(
            b"POST / HTTP/1.1\r\nHost: x\r\nContent-Encoding: chunked\r\nVia: 1.1 bg-switch\r\nConnection: close\r\n\r\n",
        ),
    ),
    (
        "identity before chunked",
        b"POST / HTTP/1.1\r\nHost: x\r\nTransfer-Encoding: identity, chunked\r\n\r\n2\r\nhi\r\n0\r\n\r\n",
        NOT_DONE,
    ),
    (
        "gzip before chunked",
        b"POST / HTTP/1.1\r\nHost: x\r\nTransfer-Encoding: gzip, chunked\r\n\r\n2\r\nhi\r\n0\r\n\r\n",
        NOT_DONE,
    ),
    (
        "gzip before chunked, in two fields",
        b"POST / HTTP/1.1\r\nHost: x\r\nTransfer-Encoding: gzip\r\nTransfer-Encoding: chunked\r\n\r\n2\r\nhi\r\n0\r\n\r\n",
        NOT_DONE,
    ),
    (
        "a coding that isn't known before chunked, in two fields",
        b"POST / HTTP/1.1\r\nHost: x\r\nTransfer-Encoding: cow\r\nTransfer-Encoding: chunked\r\n\r\n2\r\nhi\r\n0\r\n\r\n",
        NOT_DONE,
    ),
    (
        "chunked twice",
        b"POST / HTTP/1.1\r\nHost: x\r\nTransfer-Encoding: chunked, chunked\r\n\r\n2\r\nhi\r\n0\r\n\r\n",
        NOT_DONE,
    ),
    (
        "chunked twice, in two fields",
        b"POST / HTTP/1.1\r\nHost: x\r\nTransfer-Encoding: chunked\r\nTransfer-Encoding: chunked\r\n\r\n2\r\nhi\r\n0\r\n\r\n",
        NOT_DONE,
    ),
    (
        "chunked after a quote that isn't closed",
        b"POST / HTTP/1.1\r\nHost: x\r\nTransfer-Encoding: gzip;a=\",chunked\r\n\r\n2\r\nhi\r\n0\r\n\r\n",
        NOT_DONE,
    ),
    (
        "no chunk comes",
        b"POST / HTTP/1.1\r\nHost: x\r\nTransfer-Encoding: chunked\r\n\r\n",
        CLOSED,
    ),
];

/// Requests with codings that are malformed.
pub static BAD_CODINGS: [BadRow<'static>; 37] = [
    (
        "an empty field",
        b"POST / HTTP/1.1\r\nHost: x\r\nTransfer-Encoding:\r\n\r\n2\r\nhi\r\n0\r\n\r\n",
    ),
    (
        "empty elements alone",
        b"POST / HTTP/1.1\r\nHost: x\r\nTransfer-Encoding: , ,\r\n\r\n2\r\nhi\r\n0\r\n\r\n",
    ),
    (
        "identity",
        b"POST / HTTP/1.1\r\nHost: x\r\nTransfer-Encoding: identity\r\n\r\nhi",
    ),
    (
        "identity beside a length",
        b"POST / HTTP/1.1\r\nHost: x\r\nTransfer-Encoding: identity\r\nContent-Length: 2\r\n\r\nhi",
    ),
    (
        "identity after chunked",
        b"POST / HTTP/1.1\r\nHost: x\r\nTransfer-Encoding: chunked, identity\r\n\r\n2\r\nhi\r\n0\r\n\r\n",
    ),
    (
        "a letter before chunked",
        b"POST / HTTP/1.1\r\nHost: x\r\nTransfer-Encoding: xchunked\r\n\r\n2\r\nhi\r\n0\r\n\r\n",
    ),
    (
        "a letter after chunked",
        b"POST / HTTP/1.1\r\nHost: x\r\nTransfer-Encoding: chunkedx\r\n\r\n2\r\nhi\r\n0\r\n\r\n",
    ),
    (
        "a word before chunked, without a comma",
        b"POST / HTTP/1.1\r\nHost: x\r\nTransfer-Encoding: x chunked\r\n\r\n2\r\nhi\r\n0\r\n\r\n",
    ),
    (
        "a coding that isn't known beside a length",
        b"POST / HTTP/1.1\r\nHost: x\r\nTransfer-Encoding: xchunked\r\nContent-Length: 2\r\n\r\nhi",
    ),
    (
        "gzip alone",
        b"POST / HTTP/1.1\r\nHost: x\r\nTransfer-Encoding: gzip\r\n\r\nhi",
    ),
    (
        "gzip after chunked",
        b"POST / HTTP/1.1\r\nHost: x\r\nTransfer-Encoding: chunked, gzip\r\n\r\n2\r\nhi\r\n0\r\n\r\n",
    ),
    (
        "a coding that isn't known after chunked, in two fields",
        b"POST / HTTP/1.1\r\nHost: x\r\nTransfer-Encoding: chunked\r\nTransfer-Encoding: cow\r\n\r\n2\r\nhi\r\n0\r\n\r\n",
    ),
    (
        "chunked with a parameter",
        b"POST / HTTP/1.1\r\nHost: x\r\nTransfer-Encoding: chunked;q=1\r\n\r\n2\r\nhi\r\n0\r\n\r\n",
    ),
    (
        "chunked with a semicolon",
        b"POST / HTTP/1.1\r\nHost: x\r\nTransfer-Encoding: chunked ;\r\n\r\n2\r\nhi\r\n0\r\n\r\n",
    ),
    (
        "chunked in quotes",
        b"POST / HTTP/1.1\r\nHost: x\r\nTransfer-Encoding: \"chunked\"\r\n\r\n2\r\nhi\r\n0\r\n\r\n",
    ),
    (
        "chunked at the end of a quoted parameter",
        b"POST / HTTP/1.1\r\nHost: x\r\nTransfer-Encoding: gzip;a=\"b,chunked\"\r\n\r\n2\r\nhi\r\n0\r\n\r\n",
    ),
    (
        "a letter past ASCII whose lower case is k",
        b"POST / HTTP/1.1\r\nHost: x\r\nTransfer-Encoding: chun\xe2\x84\xaaed\r\n\r\n2\r\nhi\r\n0\r\n\r\n",
    ),
    (
        "a byte past ASCII before chunked",
        b"POST / HTTP/1.1\r\nHost: x\r\nTransfer-Encoding: \xa0chunked\r\n\r\n2\r\nhi\r\n0\r\n\r\n",
    ),
    (
        "a vertical tab before chunked",
        b"POST / HTTP/1.1\r\nHost: x\r\nTransfer-Encoding: \x0bchunked\r\n\r\n2\r\nhi\r\n0\r\n\r\n",
    ),
    (
        "a vertical tab after chunked",
        b"POST / HTTP/1.1\r\nHost: x\r\nTransfer-Encoding: chunked\x0b\r\nContent-Length: 2\r\n\r\nhi",
    ),
    (
        "NUL after chunked",
        b"POST / HTTP/1.1\r\nHost: x\r\nTransfer-Encoding: chunked\0\r\n\r\n2\r\nhi\r\n0\r\n\r\n",
    ),
    (
        "DEL after chunked",
        b"POST / HTTP/1.1\r\nHost: x\r\nTransfer-Encoding: chunked\x7f\r\n\r\n2\r\nhi\r\n0\r\n\r\n",
    ),
    (
        "a CR alone after chunked",
        b"POST / HTTP/1.1\r\nHost: x\r\nTransfer-Encoding: chunked\r\r\n\r\n2\r\nhi\r\n0\r\n\r\n",
    ),
    (
        "a CR alone before the field",
        b"POST / HTTP/1.1\r\nHost: x\r\nA: b\rTransfer-Encoding: chunked\r\n\r\n2\r\nhi\r\n0\r\n\r\n",
    ),
    (
        "a space before the colon",
        b"POST / HTTP/1.1\r\nHost: x\r\nTransfer-Encoding : chunked\r\n\r\n2\r\nhi\r\n0\r\n\r\n",
    ),
    (
        "a tab before the colon, beside a length",
        b"POST / HTTP/1.1\r\nHost: x\r\nTransfer-Encoding\t: chunked\r\nContent-Length: 2\r\n\r\nhi",
    ),
    (
        "a vertical tab before the colon, beside a length",
        b"POST / HTTP/1.1\r\nHost: x\r\nTransfer-Encoding\x0b: chunked\r\nContent-Length: 2\r\n\r\nhi",
    ),
    (
        "NUL in the name, beside a length",
        b"POST / HTTP/1.1\r\nHost: x\r\nTransfer-\0Encoding: chunked\r\nContent-Length: 2\r\n\r\nhi",
    ),
    (
        "a space before the name",
        b"POST / HTTP/1.1\r\nHost: x\r\n Transfer-Encoding: chunked\r\n\r\n2\r\nhi\r\n0\r\n\r\n",
    ),
    (
        "a space before the name in the first line of a field",
        b"POST / HTTP/1.1\r\n Transfer-Encoding: chunked\r\nHost: x\r\n\r\n2\r\nhi\r\n0\r\n\r\n",
    ),
    (
        "chunked in a folded line",
        b"POST / HTTP/1.1\r\nHost: x\r\nTransfer-Encoding:\r\n chunked\r\n\r\n2\r\nhi\r\n0\r\n\r\n",
    ),
    (
        "a coding that goes on in a folded line",
        b"POST / HTTP/1.1\r\nHost: x\r\nTransfer-Encoding: chunked\r\n\t, identity\r\n\r\n2\r\nhi\r\n0\r\n\r\n",
    ),
    (
        "version 1.0",
        b"POST / HTTP/1.0\r\nTransfer-Encoding: chunked\r\n\r\n2\r\nhi\r\n0\r\n\r\n",
    ),
    (
        "version 1.0, and a coding that isn't done",
        b"POST / HTTP/1.0\r\nTransfer-Encoding: gzip, chunked\r\n\r\n2\r\nhi\r\n0\r\n\r\n",
    ),
    (
        "version 1.0, kept open",
        b"POST / HTTP/1.0\r\nHost: x\r\nConnection: keep-alive\r\nTransfer-Encoding: chunked\r\n\r\n0\r\n\r\n",
    ),
    (
        "a coding that isn't done beside a length",
        b"POST / HTTP/1.1\r\nHost: x\r\nTransfer-Encoding: gzip, chunked\r\nContent-Length: 2\r\n\r\nhi",
    ),
    (
        "chunks beside a length that is too large",
        b"POST / HTTP/1.1\r\nHost: x\r\nTransfer-Encoding: chunked\r\nContent-Length: 1048577\r\n\r\n0\r\n\r\n",
    ),
];
