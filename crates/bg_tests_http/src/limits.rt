//! Messages at each limit and one past it.
use crate::paced_stream::{Pace, PacedStream};
use crate::passing::{Kind, Message, read};
use bg_http::RequestFault;
use std::alloc::{AllocError, Global};

/// A text of several parts, each with its number of repetitions.
type Parts<'a> = &'a [(&'a [u8], usize)];

/// The message that is sent, and the size of its body or the fault.
type LimitRow<'a> = (Parts<'a>, Result<usize, RequestFault>);

fn text(alloc: Global, start: &[u8], parts: Parts<'_>) -> Result<Vec<u8>, AllocError> {
    let mut text = Vec::new(alloc);
    text.extend_from_slice(start)?;
    for (part, count) in parts {
        for _ in 0..*count {
            text.extend_from_slice(part)?;
        }
    }
    Ok(text)
}

/// The size of the body of a message that was read, or the fault.
fn size(read: &Result<Message, RequestFault>) -> Result<usize, RequestFault> {
    match read {
        Ok(message) => Ok(message.body_size()),
        Err(fault) => Err(*fault),
    }
}

/// Whether a message has its answer in pieces of up to `most` bytes.
fn is_answered_in_pieces(
    alloc: Global,
    kind: Kind<'_>,
    input: &[u8],
    most: usize,
    answer: Result<usize, RequestFault>,
) -> bool {
    let mut stream = PacedStream::new(alloc, input, Pace::UpTo(most));
    size(&read(alloc, kind, &mut stream)) == answer
}

/// Messages of one kind.
#[derive(Clone, Copy, Drop)]
struct Group {
    kind: Kind<'static>,
    /// The bytes with which each of them begins.
    start: &'static [u8],
    rows: &'static [LimitRow<'static>],
    /// The most bytes of a piece, in each of the readings.
    pieces: &'static [usize],
}

/// Whether a message of a group has its answer in pieces of each size.
fn is_answered(alloc: Global, group: &Group, row: &LimitRow<'_>) -> bool {
    let Ok(input) = text(alloc, group.start, row.0) else {
        return false;
    };
    for most in group.pieces {
        if !is_answered_in_pieces(alloc, group.kind, &input, *most, row.1) {
            return false;
        }
    }
    true
}

/// The place of the first row that has another answer, or for which an allocation fails.
fn first_wrong(alloc: Global, group: &Group) -> Option<usize> {
    for (place, row) in group.rows.iter().enumerate() {
        if !is_answered(alloc, group, row) {
            return Some(place);
        }
    }
    None
}

/// At once, and in pieces of 1,000 bytes.
const LARGE_PIECES: &[usize] = &[65_536, 1_000];

/// The same, and one byte at a time.
const ALL_PIECES: &[usize] = &[65_536, 1_000, 1];

const RESPONSE_TO_GET: Kind<'static> = Kind::ResponseTo(b"GET");

/// The beginning of a head, of 25 bytes and one field.
const REQUEST: &[u8] = b"PUT / HTTP/1.1\r\nHost: x\r\n";

const RESPONSE: &[u8] = b"HTTP/1.1 200 OK\r\nA: bcd\r\n";

/// The head of a chunked message.
const REQUEST_IN_CHUNKS: &[u8] = b"PUT / HTTP/1.1\r\nHost: x\r\nTransfer-Encoding: chunked\r\n\r\n";

const RESPONSE_IN_CHUNKS: &[u8] = b"HTTP/1.1 200 OK\r\nTransfer-Encoding: chunked\r\n\r\n";

const CLOSED: Result<usize, RequestFault> = Err(RequestFault::Closed);

const BAD: Result<usize, RequestFault> = Err(RequestFault::Bad);

const HEAD_TOO_LARGE: Result<usize, RequestFault> = Err(RequestFault::HeadTooLarge);

const TOO_LARGE: Result<usize, RequestFault> = Err(RequestFault::TooLarge);

/// After 25 bytes and one field of a head: it may have 16,384 bytes and 64 fields.
static HEADS: [LimitRow<'static>; 11] = [
    (&[(b"A:", 1), (b"a", 16_353), (b"\r\n\r\n", 1)], Ok(0)),
    (
        &[(b"A:", 1), (b"a", 16_354), (b"\r\n\r\n", 1)],
        HEAD_TOO_LARGE,
    ),
    (&[(b"A:", 1), (b"a", 16_356)], CLOSED),
    (&[(b"A:", 1), (b"a", 16_357)], HEAD_TOO_LARGE),
    (&[(b"A:", 1), (b"a", 16_356), (b"\0", 1)], BAD),
    (&[(b"A:", 1), (b"a", 16_357), (b"\0", 1)], HEAD_TOO_LARGE),
    (&[(b"A: b\r\n", 63), (b"\r\n", 1)], Ok(0)),
    (&[(b"A: b\r\n", 64), (b"\r\n", 1)], HEAD_TOO_LARGE),
    (&[(b"A: b\r\n", 64)], CLOSED),
    (&[(b"A: b\r\n", 64), (b": b\r\n", 1)], BAD),
    (&[(b"A:\n", 5_451), (b"A:bb\n\n", 1)], HEAD_TOO_LARGE),
];

/// A request's head, whose target may be as long as the head has room for.
static TARGETS: [LimitRow<'static>; 3] = [
    (
        &[
            (b"GET /", 1),
            (b"a", 16_357),
            (b" HTTP/1.1\r\nHost: x\r\n\r\n", 1),
        ],
        Ok(0),
    ),
    (
        &[
            (b"GET /", 1),
            (b"a", 16_358),
            (b" HTTP/1.1\r\nHost: x\r\n\r\n", 1),
        ],
        HEAD_TOO_LARGE,
    ),
    (&[(b"GET /", 1), (b"a", 16_384)], HEAD_TOO_LARGE),
];

/// After the head of a chunked message: the line of each chunk may have 1,024 bytes, including its
/// end.
static CHUNK_LINES: [LimitRow<'static>; 6] = [
    (
        &[(b"2;", 1), (b"a", 1_020), (b"\r\nhi\r\n0\r\n\r\n", 1)],
        Ok(2),
    ),
    (
        &[(b"2;", 1), (b"a", 1_021), (b"\r\nhi\r\n0\r\n\r\n", 1)],
        BAD,
    ),
    (
        &[(b"2\r\nhi\r\n0;", 1), (b"a", 1_020), (b"\r\n\r\n", 1)],
        Ok(2),
    ),
    (
        &[(b"2\r\nhi\r\n0;", 1), (b"a", 1_021), (b"\r\n\r\n", 1)],
        BAD,
    ),
    (&[(b"2;", 1), (b"a", 1_021)], CLOSED),
    (&[(b"2;", 1), (b"a", 1_022)], BAD),
];

/// After the head of a chunked message: trailers may have 16,384 bytes and 64 fields.
static TRAILERS: [LimitRow<'static>; 7] = [
    (&[(b"0\r\n", 1), (b"A: b\r\n", 64), (b"\r\n", 1)], Ok(0)),
    (&[(b"0\r\n", 1), (b"A: b\r\n", 65), (b"\r\n", 1)], BAD),
    (&[(b"0\r\n", 1), (b"A: b\r\n", 64)], CLOSED),
    (&[(b"0\r\nA:", 1), (b"a", 16_378), (b"\r\n\r\n", 1)], Ok(0)),
    (&[(b"0\r\nA:", 1), (b"a", 16_379), (b"\r\n\r\n", 1)], BAD),
    (&[(b"0\r\nA:", 1), (b"a", 16_381)], CLOSED),
    (&[(b"0\r\nA:", 1), (b"a", 16_382)], BAD),
];

/// After a request's head up to its first field: its body may have 1,048,576 bytes.
static REQUEST_BODIES: [LimitRow<'static>; 3] = [
    (
        &[
            (b"Content-Length: 1048576\r\n\r\n", 1),
            (b"0123456789abcdef", 65_536),
        ],
        Ok(1_048_576),
    ),
    (
        &[
            (b"Transfer-Encoding: chunked\r\n\r\n100000\r\n", 1),
            (b"0123456789abcdef", 65_536),
            (b"\r\n0\r\n\r\n", 1),
        ],
        Ok(1_048_576),
    ),
    (
        &[
            (b"Transfer-Encoding: chunked\r\n\r\n100000\r\n", 1),
            (b"0123456789abcdef", 65_536),
            (b"\r\n1\r\n", 1),
        ],
        TOO_LARGE,
    ),
];

/// After a response's head up to its first field: its body may have 4,194,304 bytes.
static RESPONSE_BODIES: [LimitRow<'static>; 5] = [
    (
        &[
            (b"Content-Length: 4194304\r\n\r\n", 1),
            (b"0123456789abcdef", 262_144),
        ],
        Ok(4_194_304),
    ),
    (
        &[
            (b"Transfer-Encoding: chunked\r\n\r\n400000\r\n", 1),
            (b"0123456789abcdef", 262_144),
            (b"\r\n0\r\n\r\n", 1),
        ],
        Ok(4_194_304),
    ),
    (
        &[
            (b"Transfer-Encoding: chunked\r\n\r\n400000\r\n", 1),
            (b"0123456789abcdef", 262_144),
            (b"\r\n1\r\n", 1),
        ],
        TOO_LARGE,
    ),
    (
        &[(b"\r\n", 1), (b"0123456789abcdef", 262_144)],
        Ok(4_194_304),
    ),
    (
        &[(b"\r\n", 1), (b"0123456789abcdef", 262_144), (b"a", 1)],
        TOO_LARGE,
    ),
];

/// 16 interim responses may come before a response, each with a head of 16,384 bytes.
static INTERIM: [LimitRow<'static>; 5] = [
    (
        &[
            (b"HTTP/1.1 102 a\r\n\r\n", 16),
            (b"HTTP/1.1 200 OK\r\n\r\nhi", 1),
        ],
        Ok(2),
    ),
    (
        &[
            (b"HTTP/1.1 102 a\r\n\r\n", 17),
            (b"HTTP/1.1 200 OK\r\n\r\nhi", 1),
        ],
        BAD,
    ),
    (&[(b"HTTP/1.1 102 a\r\n\r\n", 16)], CLOSED),
    (
        &[
            (b"HTTP/1.1 102 a\r\n", 1),
            (b"A:", 1),
            (b"a", 16_362),
            (b"\r\n\r\n", 1),
            (b"HTTP/1.1 200 OK\r\n\r\nhi", 1),
        ],
        Ok(2),
    ),
    (
        &[
            (b"HTTP/1.1 102 a\r\n", 1),
            (b"A:", 1),
            (b"a", 16_363),
            (b"\r\n\r\n", 1),
            (b"HTTP/1.1 200 OK\r\n\r\nhi", 1),
        ],
        HEAD_TOO_LARGE,
    ),
];

/// All messages.
fn groups() -> [Group; 10] {
    [
        Group {
            kind: Kind::Request,
            start: REQUEST,
            rows: &HEADS,
            pieces: LARGE_PIECES,
        },
        Group {
            kind: Kind::Request,
            start: b"",
            rows: &TARGETS,
            pieces: LARGE_PIECES,
        },
        Group {
            kind: Kind::Request,
            start: REQUEST,
            rows: &REQUEST_BODIES,
            pieces: LARGE_PIECES,
        },
        Group {
            kind: Kind::Request,
            start: REQUEST_IN_CHUNKS,
            rows: &CHUNK_LINES,
            pieces: LARGE_PIECES,
        },
        Group {
            kind: Kind::Request,
            start: REQUEST_IN_CHUNKS,
            rows: &TRAILERS,
            pieces: ALL_PIECES,
        },
        Group {
            kind: RESPONSE_TO_GET,
            start: RESPONSE,
            rows: &HEADS,
            pieces: LARGE_PIECES,
        },
        Group {
            kind: RESPONSE_TO_GET,
            start: b"",
            rows: &INTERIM,
            pieces: LARGE_PIECES,
        },
        Group {
            kind: RESPONSE_TO_GET,
            start: RESPONSE,
            rows: &RESPONSE_BODIES,
            pieces: LARGE_PIECES,
        },
        Group {
            kind: RESPONSE_TO_GET,
            start: RESPONSE_IN_CHUNKS,
            rows: &CHUNK_LINES,
            pieces: LARGE_PIECES,
        },
        Group {
            kind: RESPONSE_TO_GET,
            start: RESPONSE_IN_CHUNKS,
            rows: &TRAILERS,
            pieces: ALL_PIECES,
        },
    ]
}

#[test]
fn messages_at_their_limits(rt: HostRuntime) {
    for (place, group) in groups().iter().enumerate() {
        assert_eq!(rt; first_wrong(rt.alloc(), group), None, "group {place}");
    }
}
