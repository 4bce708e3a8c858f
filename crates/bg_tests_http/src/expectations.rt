//! Requests that ask for `100 Continue`, which is written before the body is read (RFC 9110 section
//! 10.1.1).
use crate::paced_stream::{Pace, PacedStream};
use crate::passing::{Kind, read};
use bg_http::RequestFault;
use std::alloc::Global;

const CONTINUE: &[u8] = b"HTTP/1.1 100 Continue\r\n\r\n";

/// The name of a request, its head, the bytes that are written to the client, the body that the
/// client sends only after they were written, and the fault.
type Expectation<'a> = (&'a str, &'a [u8], &'a [u8], &'a [u8], Option<RequestFault>);

static EXPECTATIONS: [Expectation<'static>; 15] = [
    (
        "a length",
        b"PUT / HTTP/1.1\r\nHost: x\r\nExpect: 100-continue\r\nContent-Length: 2\r\n\r\n",
        CONTINUE,
        b"hi",
        None,
    ),
    (
        "other cases of letters",
        b"PUT / HTTP/1.1\r\nHost: x\r\nEXPECT: 100-Continue\r\nContent-Length: 1\r\n\r\n",
        CONTINUE,
        b"h",
        None,
    ),
    (
        "chunks",
        b"PUT / HTTP/1.1\r\nHost: x\r\nExpect: 100-continue\r\nTransfer-Encoding: chunked\r\n\r\n",
        CONTINUE,
        b"0\r\n\r\n",
        None,
    ),
    (
        "a second expectation",
        b"PUT / HTTP/1.1\r\nHost: x\r\nExpect: y\r\nExpect: 100-continue\r\nContent-Length: 2\r\n\r\n",
        CONTINUE,
        b"hi",
        None,
    ),
    (
        "a body that is cut",
        b"PUT / HTTP/1.1\r\nHost: x\r\nExpect: 100-continue\r\nContent-Length: 3\r\n\r\n",
        CONTINUE,
        b"hi",
        Some(RequestFault::Closed),
    ),
    (
        "a body that doesn't come",
        b"PUT / HTTP/1.1\r\nHost: x\r\nExpect: 100-continue\r\nContent-Length: 2\r\n\r\n",
        CONTINUE,
        b"",
        Some(RequestFault::Closed),
    ),
    (
        "a chunk that is malformed",
        b"PUT / HTTP/1.1\r\nHost: x\r\nExpect: 100-continue\r\nTransfer-Encoding: chunked\r\n\r\n",
        CONTINUE,
        b"x\r\n",
        Some(RequestFault::Bad),
    ),
    (
        "a chunk that is too large",
        b"PUT / HTTP/1.1\r\nHost: x\r\nExpect: 100-continue\r\nTransfer-Encoding: chunked\r\n\r\n",
        CONTINUE,
        b"100001\r\n",
        Some(RequestFault::TooLarge),
    ),
    (
        "a length of 0",
        b"PUT / HTTP/1.1\r\nHost: x\r\nExpect: 100-continue\r\nContent-Length: 0\r\n\r\n",
        b"",
        b"",
        None,
    ),
    (
        "no length",
        b"PUT / HTTP/1.1\r\nHost: x\r\nExpect: 100-continue\r\n\r\n",
        b"",
        b"",
        None,
    ),
    (
        "version 1.0",
        b"PUT / HTTP/1.0\r\nExpect: 100-continue\r\nContent-Length: 2\r\n\r\n",
        b"",
        b"hi",
        None,
    ),
    (
        "something else beside it",
        b"PUT / HTTP/1.1\r\nHost: x\r\nExpect: 100-continue, y\r\nContent-Length: 2\r\n\r\n",
        b"",
        b"hi",
        None,
    ),
    (
        "no Host",
        b"PUT / HTTP/1.1\r\nExpect: 100-continue\r\nContent-Length: 2\r\n\r\n",
        b"",
        b"hi",
        Some(RequestFault::Bad),
    ),
    (
        "too large a length",
        b"PUT / HTTP/1.1\r\nHost: x\r\nExpect: 100-continue\r\nContent-Length: 1048577\r\n\r\n",
        b"",
        b"",
        Some(RequestFault::TooLarge),
    ),
    (
        "a head that is cut",
        b"PUT / HTTP/1.1\r\nHost: x\r\nExpect: 100-continue\r\nContent-Length: 2\r\n",
        b"",
        b"",
        Some(RequestFault::Closed),
    ),
];

/// Whether a request has its answer, and only the expected bytes are written to the client.
fn is_answered(alloc: Global, row: &Expectation<'_>, pace: Pace) -> bool {
    let (_, head, written, body, fault) = row;
    let mut stream = PacedStream::holding_back(alloc, head, written, body, pace);
    let answer = read(alloc, Kind::Request, &mut stream).err();
    answer == *fault && stream.written() == *written
}

#[test]
fn expectations_are_answered(rt: HostRuntime) {
    for row in &EXPECTATIONS {
        for pace in [Pace::UpTo(65_536), Pace::UpTo(5)] {
            assert!(rt; is_answered(rt.alloc(), row, pace), "{}", row.0);
        }
    }
}
