//! What a response that is passed on says: its text, its window, its head, its faults, and what is left of it.
use crate::pieces::Pieces;
use crate::way::{GET, HEAD, Way, pass, pass_all};
use bg_http::{Persistence, Request, ResponseFault};
use bg_http_read::request_in;
use bg_relay::RelayFault;
use bg_streams::{ResponseRelay, StreamFault};
use std::alloc::Global;
use std::test::Fail;

/// The text of a response that comes in one piece.
fn text_of(
    alloc: Global,
    request: &[u8],
    input: &[u8],
    reads_chunks: bool,
) -> Result<Vec<u8>, Fail> {
    let request = request_in(alloc, request)?;
    let way = Way {
        pieces: Pieces::Of(1000),
        window: 1000,
        reads_chunks,
    };
    Ok(pass_all(alloc, &request, input, way).written)
}

/// A request, a response, and its text for a client of HTTP/1.1 and for one of HTTP/1.0.
type TextRow<'a> = (&'a [u8], &'a [u8], &'a [u8], &'a [u8]);

static TEXTS: [TextRow<'static>; 6] = [
    (
        GET,
        b"HTTP/1.0 200 Fine\r\nContent-Length: 05\r\nConnection: x\r\nX: y\r\nKeep-Alive: z\r\nA: b\r\n\r\nhello",
        b"HTTP/1.1 200 Fine\r\nA: b\r\nContent-Length: 5\r\n\r\nhello",
        b"HTTP/1.1 200 Fine\r\nA: b\r\nContent-Length: 5\r\n\r\nhello",
    ),
    (
        GET,
        b"HTTP/1.1 200 OK\r\nTransfer-Encoding: chunked\r\nA: b\r\n\r\n5\r\nhello\r\n0\r\n\r\n",
        b"HTTP/1.1 200 OK\r\nA: b\r\nTransfer-Encoding: chunked\r\n\r\n5\r\nhello\r\n0\r\n\r\n",
        b"HTTP/1.1 200 OK\r\nA: b\r\nConnection: close\r\n\r\nhello",
    ),
    (
        GET,
        b"HTTP/1.1 200 OK\r\n\r\nhello",
        b"HTTP/1.1 200 OK\r\nTransfer-Encoding: chunked\r\n\r\n5\r\nhello\r\n0\r\n\r\n",
        b"HTTP/1.1 200 OK\r\nConnection: close\r\n\r\nhello",
    ),
    (
        HEAD,
        b"HTTP/1.1 200 OK\r\nContent-Length: 5000000\r\n\r\n",
        b"HTTP/1.1 200 OK\r\nContent-Length: 5000000\r\n\r\n",
        b"HTTP/1.1 200 OK\r\nContent-Length: 5000000\r\n\r\n",
    ),
    (
        HEAD,
        b"HTTP/1.1 200 OK\r\nTransfer-Encoding: chunked\r\n\r\n",
        b"HTTP/1.1 200 OK\r\n\r\n",
        b"HTTP/1.1 200 OK\r\n\r\n",
    ),
    (
        GET,
        b"HTTP/1.1 100 Continue\r\n\r\nHTTP/1.1 204 None\r\nContent-Length: 5\r\n\r\n",
        b"HTTP/1.1 204 None\r\n\r\n",
        b"HTTP/1.1 204 None\r\n\r\n",
    ),
];

#[test]
fn heads_tell_how_their_bodies_end(rt: HostRuntime) -> Result<(), Fail> {
    for row in &TEXTS {
        let chunks = text_of(rt.alloc(), row.0, row.1, true)?;
        assert_eq!(rt; chunks.as_slice(), row.2);
        let plain = text_of(rt.alloc(), row.0, row.1, false)?;
        assert_eq!(rt; plain.as_slice(), row.3);
    }
    Ok(())
}

/// A relay with such a window, which was fed this in one piece, and the number of bytes that it took.
fn fed_with(
    alloc: Global,
    request: &Request,
    window: usize,
    input: &[u8],
) -> Result<(ResponseRelay, usize), StreamFault> {
    let way = Way {
        pieces: Pieces::Uneven,
        window,
        reads_chunks: true,
    };
    let mut relay = ResponseRelay::new(alloc, request, way.terms());
    let taken = relay.feed(input)?;
    Ok((relay, taken))
}

/// A relay with a window of four bytes, which was fed a response of ten bytes.
fn fed(alloc: Global, request: &Request) -> Result<(ResponseRelay, usize), StreamFault> {
    let response = b"HTTP/1.1 200 OK\r\nContent-Length: 10\r\n\r\n0123456789";
    fed_with(alloc, request, 4, response)
}

#[test]
fn a_full_window_stops_the_input(rt: HostRuntime) -> Result<(), Fail> {
    let request = request_in(rt.alloc(), GET)?;
    let (mut relay, taken) = fed(rt.alloc(), &request)?;
    assert_eq!(rt; taken, 43);
    assert!(rt; !relay.wants_input());
    let head = relay.rest().len();
    assert_eq!(rt; head, 39);
    relay.wrote(head);
    assert!(rt; !relay.wants_input());
    assert_eq!(rt; relay.rest(), b"0123".as_slice());
    relay.wrote(3);
    assert!(rt; relay.wants_input());
    assert_eq!(rt; relay.feed(b"456789")?, 3);
    assert_eq!(rt; relay.rest(), b"3456".as_slice());
    Ok(())
}

#[test]
fn a_head_tells_the_code_and_the_fields(rt: HostRuntime) -> Result<(), Fail> {
    let request = request_in(rt.alloc(), GET)?;
    let (relay, _) = fed(rt.alloc(), &request)?;
    assert_eq!(rt; relay.response().map(|response| response.code), Some(200));
    assert_eq!(rt;
        relay.response().map(|response| response.fields.len()),
        Some(1)
    );
    Ok(())
}

/// What a relay gives after a response in one piece that is written: whether its connection is drained, and whether it would be
/// if a byte were left.
fn drained(alloc: Global, input: &[u8]) -> Result<(bool, bool), Fail> {
    let request = request_in(alloc, GET)?;
    let way = Way {
        pieces: Pieces::Of(1000),
        window: 1000,
        reads_chunks: true,
    };
    let mut relay = ResponseRelay::new(alloc, &request, way.terms());
    let mut written = Vec::new(alloc);
    pass(&mut relay, input, way.pieces, &mut written)?;
    Ok((relay.is_drained(b""), relay.is_drained(b"H")))
}

#[test]
fn a_connection_goes_back_after_a_whole_response_by_its_own_framing(
    rt: HostRuntime,
) -> Result<(), Fail> {
    let length = b"HTTP/1.1 200 OK\r\nContent-Length: 2\r\n\r\nhe";
    let chunks = b"HTTP/1.1 200 OK\r\nTransfer-Encoding: chunked\r\n\r\n2\r\nhe\r\n0\r\n\r\n";
    assert_eq!(rt; drained(rt.alloc(), length)?, (true, false));
    assert_eq!(rt; drained(rt.alloc(), chunks)?, (true, false));
    assert_eq!(rt;
        drained(rt.alloc(), b"HTTP/1.1 200 OK\r\n\r\nhe")?,
        (false, false)
    );
    Ok(())
}

/// The fault of a response of which so many bytes were written before its body failed, and what comes after it: of more bytes, and
/// of the end of the input.
fn after_a_fault(alloc: Global, written: usize) -> Result<[Option<StreamFault>; 3], Fail> {
    let request = request_in(alloc, GET)?;
    let head = b"HTTP/1.1 200 OK\r\nTransfer-Encoding: chunked\r\n\r\n";
    let (mut relay, _) = fed_with(alloc, &request, 100, head)?;
    relay.wrote(written);
    let first = relay.feed(b"x\r\n").err();
    let more = relay.feed(b"0\r\n\r\n").err();
    Ok([first, more, relay.end_input().err()])
}

#[test]
fn a_fault_is_a_refusal_until_a_byte_was_written(rt: HostRuntime) -> Result<(), Fail> {
    let refused = Some(StreamFault::Refused(ResponseFault::Bad));
    assert_eq!(rt;
        after_a_fault(rt.alloc(), 0)?.as_slice(),
        [refused, refused, refused].as_slice()
    );
    let cut = Some(StreamFault::Cut(RelayFault::Malformed));
    assert_eq!(rt;
        after_a_fault(rt.alloc(), 1)?.as_slice(),
        [cut, cut, cut].as_slice()
    );
    Ok(())
}

#[test]
fn what_is_left_is_what_was_not_written(rt: HostRuntime) -> Result<(), Fail> {
    let request = request_in(rt.alloc(), GET)?;
    let all = b"HTTP/1.1 200 OK\r\nContent-Length: 10\r\n\r\n0123".as_slice();
    for written in [0, 1, 38, 39] {
        let (mut relay, _) = fed(rt.alloc(), &request)?;
        relay.wrote(written);
        let left = relay.into_rest()?;
        assert_eq!(rt; Some(left.as_slice()), all.get(written..));
    }
    let (mut relay, _) = fed(rt.alloc(), &request)?;
    relay.wrote(39);
    relay.wrote(3);
    assert_eq!(rt; relay.into_rest()?.as_slice(), b"3".as_slice());
    Ok(())
}

/// Whether the head of a response keeps the connection of a client, once it came.
fn kept_by(alloc: Global, input: &[u8], reads_chunks: bool) -> Result<Option<Persistence>, Fail> {
    let request = request_in(alloc, GET)?;
    let way = Way {
        pieces: Pieces::Of(1000),
        window: 1000,
        reads_chunks,
    };
    let mut relay = ResponseRelay::new(alloc, &request, way.terms());
    relay.feed(input)?;
    Ok(relay.persistence())
}

#[test]
fn a_connection_is_kept_unless_the_body_goes_to_its_end(rt: HostRuntime) -> Result<(), Fail> {
    let to_the_end = b"HTTP/1.1 200 OK\r\n\r\nhe";
    let length = b"HTTP/1.1 200 OK\r\nContent-Length: 2\r\n\r\nhe";
    assert_eq!(rt;
        kept_by(rt.alloc(), to_the_end, true)?,
        Some(Persistence::Keep)
    );
    assert_eq!(rt;
        kept_by(rt.alloc(), to_the_end, false)?,
        Some(Persistence::Close)
    );
    assert_eq!(rt;
        kept_by(rt.alloc(), length, false)?,
        Some(Persistence::Keep)
    );
    assert_eq!(rt; kept_by(rt.alloc(), b"HTTP/1.1 200 OK\r\n", true)?, None);
    Ok(())
}
