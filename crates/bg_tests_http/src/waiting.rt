//! Responses that are passed on with the bytes that wait, to a client that takes few bytes at a time.
use bg_http::{Persistence, ResponseFault};
use bg_http_read::request_in;
use bg_relay::RelayFault;
use bg_streams::{ResponseStream, StreamFault, StreamTerms};
use std::alloc::Global;
use std::test::Fail;

/// More turns than any row takes.
const MOST_TURNS: usize = 4096;

const NO_MEMORY: StreamFault = StreamFault::Refused(ResponseFault::OutOfMemory);

const GET: &[u8] = b"GET / HTTP/1.1\r\nHost: x\r\n\r\n";

/// The response to a client of HTTP/1.0, of which this many bytes are held.
fn stream(alloc: Global, window: usize) -> Result<ResponseStream, Fail> {
    let request = request_in(alloc, GET)?;
    let terms = StreamTerms {
        reads_chunks: false,
        persistence: Persistence::Keep,
        window,
        most_body: usize::MAX,
    };
    Ok(ResponseStream::new(alloc, &request, terms))
}

/// The client takes at most so many bytes.
fn take(stream: &mut ResponseStream, most: usize, taken: &mut Vec<u8>) -> Result<(), StreamFault> {
    let rest = stream.rest();
    let count = rest.len().min(most);
    if taken.extend_from_slice(&rest[..count]).is_err() {
        return Err(NO_MEMORY);
    }
    stream.took(count)
}

/// The next piece of the input comes, or its end. Gives the number of bytes that came.
fn give(
    stream: &mut ResponseStream,
    input: &[u8],
    came: usize,
    size: usize,
) -> Result<usize, StreamFault> {
    if !stream.wants_input() {
        return Ok(came);
    }
    let end = input.len().min(came.saturating_add(size));
    let piece = input.get(came..end).unwrap_or(&[]);
    if piece.is_empty() {
        stream.end_input()?;
    } else {
        stream.receive(piece)?;
    }
    Ok(end)
}

/// Passes the input on in pieces of a size, to a client that takes as many bytes at a time.
fn pass(
    stream: &mut ResponseStream,
    input: &[u8],
    size: usize,
    taken: &mut Vec<u8>,
) -> Result<(), StreamFault> {
    let mut came = 0;
    for _ in 0..MOST_TURNS {
        came = give(stream, input, came, size)?;
        take(stream, size, taken)?;
        if stream.is_whole() && stream.rest().is_empty() {
            return Ok(());
        }
    }
    Err(NO_MEMORY)
}

/// The bytes that come, the text that the client takes, and whether the connection goes back.
type Row<'a> = (&'a [u8], &'a [u8], bool);

static RESPONSES: [Row<'static>; 4] = [
    (
        b"HTTP/1.1 200 OK\r\nContent-Length: 10\r\n\r\n0123456789",
        b"HTTP/1.1 200 OK\r\nContent-Length: 10\r\n\r\n0123456789",
        true,
    ),
    (
        b"HTTP/1.1 100 Continue\r\n\r\nHTTP/1.1 200 OK\r\nTransfer-Encoding: chunked\r\n\r\n6;a=b\r\n012345\r\n4\r\n6789\r\n0\r\nA: b\r\n\r\n",
        b"HTTP/1.1 200 OK\r\nConnection: close\r\n\r\n0123456789",
        true,
    ),
    (
        b"HTTP/1.1 200 OK\r\n\r\n0123456789",
        b"HTTP/1.1 200 OK\r\nConnection: close\r\n\r\n0123456789",
        false,
    ),
    (
        b"HTTP/1.1 204 None\r\n\r\n",
        b"HTTP/1.1 204 None\r\n\r\n",
        true,
    ),
];

/// The text that the client takes, and whether the connection goes back afterwards.
fn passed(
    alloc: Global,
    input: &[u8],
    window: usize,
    size: usize,
) -> Result<(Vec<u8>, bool), Fail> {
    let mut stream = stream(alloc, window)?;
    let mut taken = Vec::new(alloc);
    pass(&mut stream, input, size, &mut taken)?;
    Ok((taken, stream.is_drained()))
}

/// Whether a response is passed on in pieces of each size, with each window.
fn is_passed(alloc: Global, row: &Row<'_>) -> Result<bool, Fail> {
    for window in [1, 4, 1000] {
        for size in [1, 3, 1000] {
            let (taken, is_drained) = passed(alloc, row.0, window, size)?;
            if taken.as_slice() != row.1 || is_drained != row.2 {
                return Ok(false);
            }
        }
    }
    Ok(true)
}

#[test]
fn a_client_may_take_a_byte_at_a_time(rt: HostRuntime) -> Result<(), Fail> {
    for row in &RESPONSES {
        assert!(rt; is_passed(rt.alloc(), row)?);
    }
    Ok(())
}

#[test]
fn a_full_window_stops_the_input_and_goes_on(rt: HostRuntime) -> Result<(), Fail> {
    let mut stream = stream(rt.alloc(), 4)?;
    stream.receive(b"HTTP/1.1 200 OK\r\nContent-Length: 12\r\n\r\n0123456789")?;
    assert!(rt; !stream.wants_input());
    stream.took(39)?;
    assert_eq!(rt; stream.rest(), b"0123".as_slice());
    stream.took(3)?;
    assert_eq!(rt; stream.rest(), b"3456".as_slice());
    assert!(rt; !stream.wants_input());
    stream.took(4)?;
    assert_eq!(rt; stream.rest(), b"789".as_slice());
    assert!(rt; stream.wants_input());
    stream.receive(b"abH")?;
    assert_eq!(rt; stream.rest(), b"789a".as_slice());
    stream.took(1)?;
    assert!(rt; stream.is_whole());
    assert!(rt; !stream.is_drained());
    Ok(())
}

/// What a malformed chunk gives after the client took so many bytes.
fn malformed_after(alloc: Global, count: usize) -> Result<Option<StreamFault>, Fail> {
    let mut stream = stream(alloc, 100)?;
    stream.receive(b"HTTP/1.1 200 OK\r\nTransfer-Encoding: chunked\r\n\r\n2")?;
    stream.took(count)?;
    Ok(stream.receive(b"x\r\nhe\r\n").err())
}

#[test]
fn a_malformed_chunk_is_a_refusal_until_a_byte_was_taken(rt: HostRuntime) -> Result<(), Fail> {
    assert_eq!(rt;
        malformed_after(rt.alloc(), 0)?,
        Some(StreamFault::Refused(ResponseFault::Bad))
    );
    assert_eq!(rt;
        malformed_after(rt.alloc(), 1)?,
        Some(StreamFault::Cut(RelayFault::Malformed))
    );
    Ok(())
}

/// What the end of the input gives after these bytes came and the client took so many.
fn ended_after(alloc: Global, input: &[u8], count: usize) -> Result<Option<StreamFault>, Fail> {
    let mut stream = stream(alloc, 4)?;
    stream.receive(input)?;
    stream.took(count)?;
    Ok(stream.end_input().err())
}

#[test]
fn an_end_in_the_middle_is_told(rt: HostRuntime) -> Result<(), Fail> {
    let closed = Some(StreamFault::Refused(ResponseFault::Closed));
    let cut = Some(StreamFault::Cut(RelayFault::Cut));
    let length = b"HTTP/1.1 200 OK\r\nContent-Length: 3\r\n\r\nhe";
    assert_eq!(rt; ended_after(rt.alloc(), b"HTTP/1.1 20", 0)?, closed);
    assert_eq!(rt; ended_after(rt.alloc(), length, 0)?, closed);
    assert_eq!(rt; ended_after(rt.alloc(), length, 1)?, cut);
    let short = b"HTTP/1.1 200 OK\r\n\r\n012";
    let long = b"HTTP/1.1 200 OK\r\n\r\n012345";
    assert_eq!(rt; ended_after(rt.alloc(), short, 1)?, None);
    assert_eq!(rt; ended_after(rt.alloc(), long, 0)?, closed);
    assert_eq!(rt; ended_after(rt.alloc(), long, 1)?, cut);
    Ok(())
}
