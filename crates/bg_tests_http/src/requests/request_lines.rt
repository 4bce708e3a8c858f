//! Requests with odd first lines and Hosts (RFC 9112 section 3), and with bytes after them.
use super::GOT;
use crate::passing::Outcome::GoesOn;
use crate::passing::{BadRow, NOT_DONE, Row};

pub static REQUEST_LINES: [Row<'static>; 16] = [
    (
        "a second request",
        b"GET / HTTP/1.1\r\nHost: x\r\n\r\nGET /admin HTTP/1.1\r\nHost: x\r\n\r\n",
        GOT,
    ),
    (
        "a second request that is cut",
        b"GET / HTTP/1.1\r\nHost: x\r\n\r\nGET /admin HTT",
        GOT,
    ),
    (
        "bytes that are no request after one",
        b"GET / HTTP/1.1\r\nHost: x\r\n\r\n\0\0",
        GOT,
    ),
    (
        "version 1.0 without a Host",
        b"GET / HTTP/1.0\r\n\r\n",
        GoesOn(
            b"GET / HTTP/1.1\r\nHost: 127.0.0.1:9001\r\nVia: 1.0 bg-switch\r\nConnection: close\r\n\r\n",
        ),
    ),
    (
        "version 1.0 with a Host",
        b"GET / HTTP/1.0\r\nHost: x\r\n\r\n",
        GoesOn(b"GET / HTTP/1.1\r\nHost: x\r\nVia: 1.0 bg-switch\r\nConnection: close\r\n\r\n"),
    ),
    (
        "a method of other letters",
        b"get / HTTP/1.1\r\nHost: x\r\n\r\n",
        GoesOn(b"get / HTTP/1.1\r\nHost: x\r\nVia: 1.1 bg-switch\r\nConnection: close\r\n\r\n"),
    ),
    (
        "a method that isn't known",
        b"M-SEARCH / HTTP/1.1\r\nHost: x\r\n\r\n",
        GoesOn(
            b"M-SEARCH / HTTP/1.1\r\nHost: x\r\nVia: 1.1 bg-switch\r\nConnection: close\r\n\r\n",
        ),
    ),
    (
        "CONNECT in small letters is another method",
        b"connect a:1 HTTP/1.1\r\nHost: x\r\n\r\n",
        GoesOn(
            b"connect a:1 HTTP/1.1\r\nHost: x\r\nVia: 1.1 bg-switch\r\nConnection: close\r\n\r\n",
        ),
    ),
    (
        "a target for the server as a whole",
        b"OPTIONS * HTTP/1.1\r\nHost: x\r\n\r\n",
        GoesOn(b"OPTIONS * HTTP/1.1\r\nHost: x\r\nVia: 1.1 bg-switch\r\nConnection: close\r\n\r\n"),
    ),
    (
        "a target that names another host",
        b"GET http://y/a HTTP/1.1\r\nHost: x\r\n\r\n",
        GoesOn(
            b"GET http://y/a HTTP/1.1\r\nHost: x\r\nVia: 1.1 bg-switch\r\nConnection: close\r\n\r\n",
        ),
    ),
    (
        "a target with dots and ends of lines in percent codes",
        b"GET /a/../%2e%2e/b%0d%0aA:%20b HTTP/1.1\r\nHost: x\r\n\r\n",
        GoesOn(
            b"GET /a/../%2e%2e/b%0d%0aA:%20b HTTP/1.1\r\nHost: x\r\nVia: 1.1 bg-switch\r\nConnection: close\r\n\r\n",
        ),
    ),
    (
        "a target past ASCII in UTF-8",
        b"GET /\xc3\xa9 HTTP/1.1\r\nHost: x\r\n\r\n",
        GoesOn(
            b"GET /\xc3\xa9 HTTP/1.1\r\nHost: x\r\nVia: 1.1 bg-switch\r\nConnection: close\r\n\r\n",
        ),
    ),
    (
        "a Host of other letters",
        b"GET / HTTP/1.1\r\nhOST: x\r\n\r\n",
        GoesOn(b"GET / HTTP/1.1\r\nhOST: x\r\nVia: 1.1 bg-switch\r\nConnection: close\r\n\r\n"),
    ),
    (
        "an empty Host",
        b"GET / HTTP/1.1\r\nHost:\r\n\r\n",
        GoesOn(b"GET / HTTP/1.1\r\nHost: \r\nVia: 1.1 bg-switch\r\nConnection: close\r\n\r\n"),
    ),
    (
        "CONNECT",
        b"CONNECT a:1 HTTP/1.1\r\nHost: x\r\n\r\n",
        NOT_DONE,
    ),
    (
        "CONNECT that breaks more rules",
        b"CONNECT a:1 HTTP/1.1\r\nHost: x\r\nHost: y\r\nContent-Length: x\r\n\r\n",
        NOT_DONE,
    ),
];

/// Requests with first lines or Hosts that are malformed.
pub static BAD_REQUEST_LINES: [BadRow<'static>; 37] = [
    ("no Host", b"GET / HTTP/1.1\r\n\r\n"),
    (
        "a Host after the head",
        b"GET / HTTP/1.1\r\n\r\nHost: x\r\n\r\n",
    ),
    (
        "no Host, and a coding that isn't done",
        b"GET / HTTP/1.1\r\nTransfer-Encoding: gzip, chunked\r\n\r\n",
    ),
    (
        "no Host, and too large a length",
        b"GET / HTTP/1.1\r\nContent-Length: 1048577\r\n\r\n",
    ),
    (
        "two Hosts that differ",
        b"GET / HTTP/1.1\r\nHost: x\r\nHost: y\r\n\r\n",
    ),
    (
        "two equal Hosts",
        b"GET / HTTP/1.1\r\nHost: x\r\nhost: x\r\n\r\n",
    ),
    (
        "two Hosts, the first empty",
        b"GET / HTTP/1.1\r\nHost:\r\nHost: x\r\n\r\n",
    ),
    (
        "two Hosts, and a target that names a host",
        b"GET http://x/ HTTP/1.1\r\nHost: x\r\nHost: y\r\n\r\n",
    ),
    (
        "two Hosts in version 1.0",
        b"GET / HTTP/1.0\r\nHost: x\r\nHost: y\r\n\r\n",
    ),
    (
        "a second Host with a space before its colon",
        b"GET / HTTP/1.1\r\nHost: x\r\nHost : y\r\n\r\n",
    ),
    (
        "two spaces before the target",
        b"GET  / HTTP/1.1\r\nHost: x\r\n\r\n",
    ),
    (
        "two spaces after the target",
        b"GET /  HTTP/1.1\r\nHost: x\r\n\r\n",
    ),
    (
        "a space after the version",
        b"GET / HTTP/1.1 \r\nHost: x\r\n\r\n",
    ),
    ("a tab for a space", b"GET\t/ HTTP/1.1\r\nHost: x\r\n\r\n"),
    (
        "a vertical tab for a space",
        b"GET /\x0bHTTP/1.1\r\nHost: x\r\n\r\n",
    ),
    (
        "a space within the target",
        b"GET /a b HTTP/1.1\r\nHost: x\r\n\r\n",
    ),
    (
        "a second request line in the target",
        b"GET /a HTTP/1.1 HTTP/1.1\r\nHost: x\r\n\r\n",
    ),
    ("no target", b"GET HTTP/1.1\r\nHost: x\r\n\r\n"),
    ("no method", b"/ HTTP/1.1\r\nHost: x\r\n\r\n"),
    (
        "a method that is no token",
        b"G@T / HTTP/1.1\r\nHost: x\r\n\r\n",
    ),
    ("NUL in a method", b"GE\0T / HTTP/1.1\r\nHost: x\r\n\r\n"),
    ("NUL in a target", b"GET /\0 HTTP/1.1\r\nHost: x\r\n\r\n"),
    ("a tab in a target", b"GET /\ta HTTP/1.1\r\nHost: x\r\n\r\n"),
    ("CR in a target", b"GET /\ra HTTP/1.1\r\nHost: x\r\n\r\n"),
    ("DEL in a target", b"GET /\x7f HTTP/1.1\r\nHost: x\r\n\r\n"),
    (
        "a target past ASCII that isn't UTF-8",
        b"GET /\xff HTTP/1.1\r\nHost: x\r\n\r\n",
    ),
    ("version 0.9, which has none", b"GET /\r\nHost: x\r\n\r\n"),
    ("version 0.9 by name", b"GET / HTTP/0.9\r\nHost: x\r\n\r\n"),
    ("version 1.2", b"GET / HTTP/1.2\r\nHost: x\r\n\r\n"),
    ("version 1.10", b"GET / HTTP/1.10\r\nHost: x\r\n\r\n"),
    ("version 01.1", b"GET / HTTP/01.1\r\nHost: x\r\n\r\n"),
    ("version 2.0", b"GET / HTTP/2.0\r\nHost: x\r\n\r\n"),
    (
        "the first bytes of version 2",
        b"PRI * HTTP/2.0\r\n\r\nSM\r\n\r\n",
    ),
    (
        "a version without its second number",
        b"GET / HTTP/1\r\nHost: x\r\n\r\n",
    ),
    (
        "a version of small letters",
        b"GET / http/1.1\r\nHost: x\r\n\r\n",
    ),
    ("another protocol", b"GET / RTSP/1.0\r\nHost: x\r\n\r\n"),
    ("a response", b"HTTP/1.1 200 OK\r\nHost: x\r\n\r\n"),
];
