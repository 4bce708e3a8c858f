//! Messages that are cut after each of their bytes.
use crate::paced_stream::{Pace, PacedStream};
use crate::passing::{Kind, read};
use bg_http::RequestFault;
use std::alloc::Global;

static REQUESTS: [&[u8]; 3] = [
    b"\r\nPUT /a HTTP/1.1\r\nHost: x\r\nContent-Length: 2\r\n\r\nhi",
    b"PUT / HTTP/1.1\nHost: x\nTransfer-Encoding: chunked\n\n2;a\r\nhi\r\n0 \r\nA: b\r\n\r\n",
    b"GET / HTTP/1.0\r\n\r\n",
];

static RESPONSES: [&[u8]; 2] = [
    b"HTTP/1.1 100 Continue\r\n\r\nHTTP/1.1 200 OK\r\nContent-Length: 2\r\n\r\nhi",
    b"HTTP/1.1 200 OK\r\nTransfer-Encoding: chunked\r\n\r\n2\r\nhi\r\n0\r\nA: b\r\n\r\n",
];

/// Whether each proper front of the input gives Closed, and nothing is written.
fn is_closed_before(alloc: Global, kind: Kind<'_>, input: &[u8]) -> bool {
    for end in 0..input.len() {
        let mut stream = PacedStream::new(alloc, &input[..end], Pace::UpTo(3));
        let fault = read(alloc, kind, &mut stream).err();
        if fault != Some(RequestFault::Closed) || !stream.written().is_empty() {
            return false;
        }
    }
    true
}

#[test]
fn messages_that_are_cut_are_closed(rt: HostRuntime) {
    let alloc = rt.alloc();
    for input in &REQUESTS {
        assert!(rt;
            is_closed_before(alloc, Kind::Request, input),
            "{}",
            input.escape_ascii()
        );
    }
    for input in &RESPONSES {
        let kind = Kind::ResponseTo(b"GET");
        assert!(rt;
            is_closed_before(alloc, kind, input),
            "{}",
            input.escape_ascii()
        );
    }
}
