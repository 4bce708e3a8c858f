//! The heads of requests that are refused.
use bg_http::RequestFault;
use bg_http_read::{RefusedHead, RequestParser, RequestStep};
use std::alloc::Global;

/// What is told of a refused head: the method, the target, and whether the head is sound.
type Told<'a> = (&'a [u8], &'a [u8], bool);

/// An input, the fault that it has if it ends there, and what is told of its head.
type RefusedRow<'a> = (&'a [u8], RequestFault, Option<Told<'a>>);

static REFUSED: [RefusedRow<'static>; 10] = [
    (
        b"CONNECT x:443 HTTP/1.1\r\nHost: x\r\n\r\n",
        RequestFault::NotDone,
        Some((b"CONNECT", b"x:443", false)),
    ),
    (
        b"GET /a HTTP/1.1\r\n\r\n",
        RequestFault::Bad,
        Some((b"GET", b"/a", false)),
    ),
    (
        b"PUT /b HTTP/1.1\r\nHost: x\r\nContent-Length: 1048577\r\n\r\n",
        RequestFault::TooLarge,
        Some((b"PUT", b"/b", false)),
    ),
    (
        b"PUT /c HTTP/1.1\r\nHost: x\r\nTransfer-Encoding: chunked\r\n\r\n100001\r\n",
        RequestFault::TooLarge,
        Some((b"PUT", b"/c", true)),
    ),
    (
        b"PUT /d HTTP/1.1\r\nHost: x\r\nTransfer-Encoding: chunked\r\n\r\nx\r\n",
        RequestFault::Bad,
        Some((b"PUT", b"/d", true)),
    ),
    (
        b"\r\nPUT /e HTTP/1.1\r\nHost: x\r\nContent-Length: 3\r\n\r\nhi",
        RequestFault::Closed,
        Some((b"PUT", b"/e", true)),
    ),
    (
        b"PUT /f HTTP/1.1\r\nHost: x\r\nExpect: 100-continue\r\nContent-Length: 3\r\n\r\n",
        RequestFault::Closed,
        Some((b"PUT", b"/f", true)),
    ),
    (
        b"GET /g HTTP/1.1\r\nHost: x\r\n",
        RequestFault::Closed,
        None,
    ),
    (b"no request\r\n\r\n", RequestFault::Bad, None),
    (b"", RequestFault::Closed, None),
];

/// Whether the head is as it is told.
fn is_told(refused: &Option<RefusedHead>, told: Option<Told<'_>>) -> bool {
    match (refused, told) {
        (None, None) => true,
        (Some(refused), Some((method, target, is_sound))) => {
            refused.head.method.get() == method
                && refused.head.target.get() == target
                && refused.is_sound == is_sound
        }
        (Some(_), None) | (None, Some(_)) => false,
    }
}

/// Whether the input has the fault and the head of the row.
fn is_refused(alloc: Global, row: &RefusedRow<'_>) -> bool {
    let mut parser = RequestParser::new(alloc);
    let fault = match parser.feed(row.0) {
        Ok(RequestStep::Whole(_)) => None,
        Ok(RequestStep::More | RequestStep::Continue) => parser.finish().err(),
        Err(fault) => Some(fault),
    };
    fault == Some(row.1) && is_told(&parser.into_refused_head(), row.2)
}

#[test]
fn the_head_of_a_refused_request_is_told(rt: HostRuntime) {
    let alloc = rt.alloc();
    for row in &REFUSED {
        assert!(rt; is_refused(alloc, row), "{}", row.0.escape_ascii());
    }
}
