//! Responses that are passed on as they come, beside what the parser of whole responses reads.
use crate::pieces::{PIECES, Pieces, WINDOWS};
use crate::way::{GET, HEAD, Passed, Way, pass_all};
use bg_http::{Request, Response, ResponseFault};
use bg_http_read::{ResponseParser, request_in};
use bg_relay::RelayFault;
use bg_streams::StreamFault;
use std::alloc::Global;
use std::test::Fail;

/// What the parser of whole responses reads.
fn read_whole(alloc: Global, request: &Request, bytes: &[u8]) -> Result<Response, ResponseFault> {
    let mut parser = ResponseParser::new(alloc, request);
    match parser.receive(bytes)? {
        Some(received) => Ok(received.response),
        None => parser.end(),
    }
}

/// Whether both have the same code, reason and body.
fn are_alike(one: &Response, other: &Response) -> bool {
    one.code == other.code
        && one.reason.get() == other.reason.get()
        && one.body.get() == other.body.get()
}

/// Whether the response was refused for this fault, or cut off by it if bytes were written.
fn has_fault(passed: &Passed, fault: ResponseFault) -> bool {
    let is_begun = !passed.written.as_slice().is_empty();
    match passed.result {
        Ok(_) => false,
        Err(StreamFault::Refused(refused)) => !is_begun && refused == fault,
        Err(StreamFault::Cut(RelayFault::Malformed)) => is_begun && fault == ResponseFault::Bad,
        Err(StreamFault::Cut(RelayFault::Cut)) => is_begun && fault == ResponseFault::Closed,
        Err(StreamFault::Cut(RelayFault::TooLarge)) => {
            is_begun && fault == ResponseFault::TooLarge
        }
        Err(StreamFault::Cut(RelayFault::OutOfMemory)) => false,
    }
}

/// Whether what is passed on of an input is what the parser of whole responses reads of it: the response, or a part of it and the
/// fault.
fn is_passed(alloc: Global, request: &Request, input: &[u8], way: Way) -> bool {
    let passed = pass_all(alloc, request, input, way);
    let written = read_whole(alloc, request, passed.written.as_slice());
    match read_whole(alloc, request, input) {
        Ok(whole) => match written {
            Ok(response) => passed.result.is_ok() && are_alike(&whole, &response),
            Err(_) => false,
        },
        Err(fault) => {
            has_fault(&passed, fault)
                && (!way.reads_chunks || written.err() == Some(ResponseFault::Closed))
        }
    }
}

/// The name of a response, the request, and the bytes that come.
type Row<'a> = (&'a str, &'a [u8], &'a [u8]);

static RESPONSES: [Row<'static>; 25] = [
    (
        "a length",
        GET,
        b"HTTP/1.1 200 OK\r\nContent-Length: 5\r\nA: b\r\n\r\nhello",
    ),
    (
        "no byte",
        GET,
        b"HTTP/1.1 404 Not Found\r\nContent-Length: 0\r\n\r\n",
    ),
    (
        "bytes behind it",
        GET,
        b"HTTP/1.1 200 OK\r\nContent-Length: 2\r\n\r\nheHTTP/1.1 200",
    ),
    (
        "no chunk",
        GET,
        b"HTTP/1.1 200 OK\r\nTransfer-Encoding: chunked\r\n\r\n0\r\n\r\n",
    ),
    (
        "chunks, extensions and trailers",
        GET,
        b"HTTP/1.1 200 \r\nTransfer-Encoding: chunked\r\n\r\n2;a=b\r\nhe\r\n003 \r\nllo\r\n0;x\r\nA: b\r\n\r\nHTTP",
    ),
    (
        "chunks with a length beside them",
        GET,
        b"HTTP/1.1 200 OK\r\nContent-Length: 3\r\nTransfer-Encoding: chunked\r\n\r\n2\r\nhe\r\n0\r\n\r\n",
    ),
    (
        "the end of the connection",
        GET,
        b"HTTP/1.0 200 OK\r\n\r\nhello",
    ),
    ("the end at once", GET, b"HTTP/1.1 200 OK\r\nA: b\r\n\r\n"),
    (
        "a length for HEAD",
        HEAD,
        b"HTTP/1.1 200 OK\r\nContent-Length: 50\r\n\r\n",
    ),
    (
        "chunks for HEAD",
        HEAD,
        b"HTTP/1.1 200 OK\r\nTransfer-Encoding: chunked\r\n\r\n",
    ),
    (
        "no content",
        GET,
        b"HTTP/1.1 204 No Content\r\nContent-Length: 5\r\n\r\n",
    ),
    (
        "not modified",
        GET,
        b"HTTP/1.1 304 Not Modified\r\nContent-Length: 5\r\n\r\nHTTP",
    ),
    (
        "interim responses",
        GET,
        b"HTTP/1.1 100 Continue\r\n\r\nHTTP/1.1 103 Early\r\nLink: a\r\n\r\nHTTP/1.1 200 OK\r\nContent-Length: 2\r\n\r\nhe",
    ),
    (
        "lines that end in LF",
        GET,
        b"HTTP/1.1 200 OK\nContent-Length: 2\n\nhe",
    ),
    (
        "another protocol",
        GET,
        b"HTTP/1.1 101 Switching\r\n\r\nHTTP/1.1 200 OK\r\n\r\n",
    ),
    (
        "an interim response alone",
        GET,
        b"HTTP/1.1 100 Continue\r\n\r\n",
    ),
    ("no response", GET, b"hello\r\n\r\n"),
    (
        "a field without a name",
        GET,
        b"HTTP/1.1 200 OK\r\n: b\r\n\r\nhello",
    ),
    (
        "two lengths",
        GET,
        b"HTTP/1.1 200 OK\r\nContent-Length: 5, 6\r\n\r\nhello",
    ),
    (
        "another coding",
        GET,
        b"HTTP/1.1 200 OK\r\nTransfer-Encoding: gzip, chunked\r\n\r\n0\r\n\r\n",
    ),
    (
        "chunks in version 1.0",
        GET,
        b"HTTP/1.0 200 OK\r\nTransfer-Encoding: chunked\r\n\r\n0\r\n\r\n",
    ),
    (
        "a length above the limit",
        GET,
        b"HTTP/1.1 200 OK\r\nContent-Length: 4194305\r\n\r\nhello",
    ),
    (
        "a line without a size",
        GET,
        b"HTTP/1.1 200 OK\r\nTransfer-Encoding: chunked\r\n\r\n2\r\nhe\r\nx\r\n",
    ),
    (
        "data without CR LF",
        GET,
        b"HTTP/1.1 200 OK\r\nTransfer-Encoding: chunked\r\n\r\n2\r\nhello\r\n0\r\n\r\n",
    ),
    (
        "a trailer without a name",
        GET,
        b"HTTP/1.1 200 OK\r\nTransfer-Encoding: chunked\r\n\r\n2\r\nhe\r\n0\r\n: b\r\n\r\n",
    ),
];

/// Whether an input is passed on in these pieces with each window, to each client.
fn is_passed_in(alloc: Global, request: &Request, input: &[u8], pieces: Pieces) -> bool {
    for window in &WINDOWS {
        for reads_chunks in [false, true] {
            let way = Way {
                pieces,
                window: *window,
                reads_chunks,
            };
            if !is_passed(alloc, request, input, way) {
                return false;
            }
        }
    }
    true
}

/// The first row that is not passed on, in any pieces.
fn first_wrong(alloc: Global) -> Result<Option<&'static str>, Fail> {
    for row in &RESPONSES {
        let request = request_in(alloc, row.1)?;
        for pieces in &PIECES {
            if !is_passed_in(alloc, &request, row.2, *pieces) {
                return Ok(Some(row.0));
            }
        }
    }
    Ok(None)
}

#[test]
fn responses_are_passed_on_in_whatever_pieces_they_come(rt: HostRuntime) -> Result<(), Fail> {
    assert_eq!(rt; first_wrong(rt.alloc())?, None);
    Ok(())
}

/// The first row that is not passed on if it is cut off after any byte.
fn first_wrong_cut(alloc: Global, pieces: Pieces) -> Result<Option<&'static str>, Fail> {
    for row in &RESPONSES {
        let request = request_in(alloc, row.1)?;
        for end in 0..row.2.len() {
            let front = row.2.get(..end).unwrap_or(&[]);
            if !is_passed_in(alloc, &request, front, pieces) {
                return Ok(Some(row.0));
            }
        }
    }
    Ok(None)
}

#[test]
fn responses_may_be_cut_off_after_each_byte(rt: HostRuntime) -> Result<(), Fail> {
    assert_eq!(rt; first_wrong_cut(rt.alloc(), Pieces::Of(3))?, None);
    assert_eq!(rt; first_wrong_cut(rt.alloc(), Pieces::Of(1000))?, None);
    Ok(())
}

/// So many interim responses, and a response.
fn after_interim(alloc: Global, count: usize) -> Result<Vec<u8>, Fail> {
    let mut text = Vec::new(alloc);
    for _ in 0..count {
        text.extend_from_slice(b"HTTP/1.1 102 Wait\r\n\r\n")?;
    }
    text.extend_from_slice(b"HTTP/1.1 200 OK\r\nContent-Length: 2\r\n\r\nhe")?;
    Ok(text)
}

#[test]
fn sixteen_interim_responses_are_dropped(rt: HostRuntime) -> Result<(), Fail> {
    let request = request_in(rt.alloc(), GET)?;
    let few = after_interim(rt.alloc(), 16)?;
    let many = after_interim(rt.alloc(), 17)?;
    for pieces in &PIECES {
        assert!(rt; is_passed_in(rt.alloc(), &request, few.as_slice(), *pieces));
        assert!(rt; is_passed_in(rt.alloc(), &request, many.as_slice(), *pieces));
    }
    let way = Way {
        pieces: Pieces::Of(8),
        window: 4,
        reads_chunks: true,
    };
    let refused = pass_all(rt.alloc(), &request, many.as_slice(), way);
    assert_eq!(rt;
        refused.result,
        Err(StreamFault::Refused(ResponseFault::Bad))
    );
    Ok(())
}
