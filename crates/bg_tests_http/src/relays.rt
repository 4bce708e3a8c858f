//! Bodies that are passed on as they come.
use crate::pieces::{PIECES, Pieces, WINDOWS};
use bg_http::{Request, ResponseFault};
use bg_http_read::{ResponseParser, request_in};
use bg_relay::{Framing, Relay, RelayFault, Sides};
use std::alloc::{AllocError, Global};
use std::test::Fail;

/// More turns than any row takes.
const MOST_TURNS: usize = 4096;

/// Feeds what came, and writes at most as many bytes. Gives the number of bytes that were taken.
fn turn(
    relay: &mut Relay,
    came: &[u8],
    most: usize,
    written: &mut Vec<u8>,
) -> Result<usize, RelayFault> {
    let taken = relay.feed(came);
    let rest = relay.rest();
    let count = rest.len().min(most);
    if written.extend_from_slice(&rest[..count]).is_err() {
        return Err(RelayFault::OutOfMemory);
    }
    relay.wrote(count);
    taken
}

/// Passes the input on in pieces, and writes each time at most as many bytes as came. Gives the number of bytes that were taken
/// once the body is whole.
fn pass(
    relay: &mut Relay,
    input: &[u8],
    pieces: Pieces,
    written: &mut Vec<u8>,
) -> Result<usize, RelayFault> {
    let mut taken: usize = 0;
    let mut came: usize = 0;
    for number in 0..MOST_TURNS {
        let size = pieces.size(number);
        came = input.len().min(came.saturating_add(size));
        let had_room = relay.wants_input();
        let count = turn(relay, input.get(taken..came).unwrap_or(&[]), size, written)?;
        taken = taken.saturating_add(count);
        if relay.is_whole() && relay.rest().is_empty() {
            return Ok(taken);
        }
        if had_room && count == 0 && came == input.len() {
            relay.end_input()?;
        }
    }
    Err(RelayFault::OutOfMemory)
}

/// What was written, and the result.
#[derive(Drop)]
struct Passed {
    written: Vec<u8>,
    result: Result<usize, RelayFault>,
}

fn pass_all(alloc: Global, sides: Sides, window: usize, input: &[u8], pieces: Pieces) -> Passed {
    let mut written = Vec::new(alloc);
    let result = match Relay::new(alloc, sides, window, usize::MAX) {
        Ok(mut relay) => pass(&mut relay, input, pieces, &mut written),
        Err(_) => Err(RelayFault::OutOfMemory),
    };
    Passed { written, result }
}

/// The head of a response in chunks.
const HEAD: &[u8] = b"HTTP/1.1 200 OK\r\nTransfer-Encoding: chunked\r\n\r\n";

/// Whether `bg_http_read` reads the chunks as this body. If the body is not whole, whether they are cut off.
fn are_chunks_of(
    alloc: Global,
    request: &Request,
    chunks: &[u8],
    body: Option<&[u8]>,
) -> Result<bool, Fail> {
    let mut parser = ResponseParser::new(alloc, request);
    let mut text = Vec::new(alloc);
    text.extend_from_slice(HEAD)?;
    text.extend_from_slice(chunks)?;
    match parser.receive(text.as_slice())? {
        Some(received) => Ok(received.is_drained && Some(received.response.body.get()) == body),
        None => Ok(body.is_none() && parser.end().err() == Some(ResponseFault::Closed)),
    }
}

/// The name of a body, the framing of the input, the input, the body so far, and how many bytes of the input are of the body, or
/// the fault.
type Row<'a> = (
    &'a str,
    Framing,
    &'a [u8],
    &'a [u8],
    Result<usize, RelayFault>,
);

static BODIES: [Row<'static>; 17] = [
    ("no byte of a length", Framing::Length(0), b"", b"", Ok(0)),
    (
        "a length, and bytes behind it",
        Framing::Length(5),
        b"helloGET",
        b"hello",
        Ok(5),
    ),
    (
        "a length that is cut off",
        Framing::Length(5),
        b"hell",
        b"hell",
        Err(RelayFault::Cut),
    ),
    (
        "the end of the input",
        Framing::ToTheEnd,
        b"hello",
        b"hello",
        Ok(5),
    ),
    ("no byte before the end", Framing::ToTheEnd, b"", b"", Ok(0)),
    ("no chunk", Framing::Chunks, b"0\r\n\r\n", b"", Ok(5)),
    (
        "chunks, extensions and trailers, and bytes behind them",
        Framing::Chunks,
        b"2;a=b\r\nhe\r\n003 \t\r\nllo\r\n0;x\r\nA: b\r\nC: d\n\r\nGET",
        b"hello",
        Ok(41),
    ),
    (
        "a size in hexadecimal digits",
        Framing::Chunks,
        b"1a\r\nabcdefghijklmnopqrstuvwxyz\r\nB\r\n0123456789a\r\n0\r\n\r\n",
        b"abcdefghijklmnopqrstuvwxyz0123456789a",
        Ok(53),
    ),
    (
        "chunks that are cut off in a line",
        Framing::Chunks,
        b"2\r\nhe\r\n3",
        b"he",
        Err(RelayFault::Cut),
    ),
    (
        "chunks that are cut off in data",
        Framing::Chunks,
        b"2\r\nhe\r\n3\r\nll",
        b"hell",
        Err(RelayFault::Cut),
    ),
    (
        "chunks that are cut off behind data",
        Framing::Chunks,
        b"2\r\nhe\r",
        b"he",
        Err(RelayFault::Cut),
    ),
    (
        "chunks that are cut off in trailers",
        Framing::Chunks,
        b"2\r\nhe\r\n0\r\nA: b\r\n",
        b"he",
        Err(RelayFault::Cut),
    ),
    (
        "a line without a size",
        Framing::Chunks,
        b"2\r\nhe\r\nx\r\n",
        b"he",
        Err(RelayFault::Malformed),
    ),
    (
        "a size of more than 16 digits",
        Framing::Chunks,
        b"00000000000000002\r\nhe\r\n",
        b"",
        Err(RelayFault::Malformed),
    ),
    (
        "a line that ends in LF alone",
        Framing::Chunks,
        b"2\nhe\r\n0\r\n\r\n",
        b"",
        Err(RelayFault::Malformed),
    ),
    (
        "data without CR LF",
        Framing::Chunks,
        b"2\r\nhello\r\n0\r\n\r\n",
        b"he",
        Err(RelayFault::Malformed),
    ),
    (
        "a trailer without a name",
        Framing::Chunks,
        b"2\r\nhe\r\n0\r\n: b\r\n\r\n",
        b"he",
        Err(RelayFault::Malformed),
    ),
];

/// Whether a row comes out as it says, in these pieces, with a window: the output that goes to the end of the connection, the one
/// in chunks, and the one with a length.
fn is_passed(
    alloc: Global,
    request: &Request,
    row: &Row<'_>,
    pieces: Pieces,
    window: usize,
) -> Result<bool, Fail> {
    let (_, incoming, input, body, result) = row;
    let plain = pass_all(alloc, Sides::ToTheEnd(*incoming), window, input, pieces);
    let chunks = pass_all(alloc, Sides::IntoChunks(*incoming), window, input, pieces);
    let whole = if result.is_ok() { Some(*body) } else { None };
    let with_length = match incoming {
        Framing::Length(size) => {
            let passed = pass_all(alloc, Sides::Length(*size), window, input, pieces);
            passed.written.as_slice() == *body && passed.result == *result
        }
        Framing::Chunks | Framing::ToTheEnd => true,
    };
    Ok(
        plain.written.as_slice() == *body
            && plain.result == *result
            && chunks.result == *result
            && with_length
            && are_chunks_of(alloc, request, chunks.written.as_slice(), whole)?,
    )
}

/// The first row, or limit, that does not come out as it says.
fn first_wrong(alloc: Global, request: &Request) -> Result<Option<&'static str>, Fail> {
    for row in &BODIES {
        for pieces in &PIECES {
            for window in &WINDOWS {
                if !is_passed(alloc, request, row, *pieces, *window)? {
                    return Ok(Some(row.0));
                }
            }
        }
    }
    Ok(None)
}

#[test]
fn bodies_are_passed_on_in_whatever_pieces_they_come(rt: HostRuntime) -> Result<(), Fail> {
    let request = request_in(rt.alloc(), b"GET / HTTP/1.1\r\nHost: x\r\n\r\n")?;
    assert_eq!(rt; first_wrong(rt.alloc(), &request)?, None);
    Ok(())
}

/// Feeds bytes of a body of ten bytes to a relay with a window of four, and writes some of what it gives. Gives the numbers of
/// bytes that were taken, whether more of the input was to be fed after each call, and what was written.
fn fill(alloc: Global, written: &mut Vec<u8>) -> Result<([usize; 4], [bool; 4]), RelayFault> {
    let made = Relay::new(alloc, Sides::Length(10), 4, usize::MAX);
    let Ok(mut relay) = made else {
        return Err(RelayFault::OutOfMemory);
    };
    let first = turn(&mut relay, b"0123456789", 0, written)?;
    let full = relay.wants_input();
    let none = turn(&mut relay, b"456789", 3, written)?;
    let room = relay.wants_input();
    let second = turn(&mut relay, b"456789", 4, written)?;
    let empty = relay.wants_input();
    let last = turn(&mut relay, b"789", 4, written)?;
    Ok((
        [first, none, second, last],
        [full, room, empty, relay.wants_input()],
    ))
}

#[test]
fn a_full_window_takes_nothing(rt: HostRuntime) -> Result<(), Fail> {
    let mut written = Vec::new(rt.alloc());
    let (taken, room) = fill(rt.alloc(), &mut written)?;
    assert_eq!(rt; taken.as_slice(), [4, 0, 3, 3].as_slice());
    assert_eq!(rt; room.as_slice(), [false, true, true, false].as_slice());
    assert_eq!(rt; written.as_slice(), b"0123456789".as_slice());
    Ok(())
}

/// The chunks of a body that comes in one piece, and then those of one that comes in two.
fn chunks_of(alloc: Global, pieces: Pieces) -> Passed {
    let body = b"0123456789abcdef0123456789";
    pass_all(
        alloc,
        Sides::IntoChunks(Framing::Length(26)),
        1000,
        body,
        pieces,
    )
}

#[test]
fn chunks_are_written_with_their_sizes(rt: HostRuntime) {
    let whole = chunks_of(rt.alloc(), Pieces::Of(1000));
    assert_eq!(rt;
        whole.written.as_slice(),
        b"1a\r\n0123456789abcdef0123456789\r\n0\r\n\r\n".as_slice()
    );
    let two = chunks_of(rt.alloc(), Pieces::Of(16));
    assert_eq!(rt;
        two.written.as_slice(),
        b"10\r\n0123456789abcdef\r\na\r\n0123456789\r\n0\r\n\r\n".as_slice()
    );
}

/// A line of so many bytes, with its end, and a chunk, as a result.
fn result_of_line(alloc: Global, length: usize) -> Result<usize, RelayFault> {
    let Ok(mut input) = Vec::<u8>::from_array(alloc, [b'0', b';']) else {
        return Err(RelayFault::OutOfMemory);
    };
    for _ in 0..length.saturating_sub(4) {
        if input.extend_from_slice(b"a").is_err() {
            return Err(RelayFault::OutOfMemory);
        }
    }
    if input.extend_from_slice(b"\r\n\r\n").is_err() {
        return Err(RelayFault::OutOfMemory);
    }
    pass_all(
        alloc,
        Sides::ToTheEnd(Framing::Chunks),
        16,
        input.as_slice(),
        Pieces::Of(100),
    )
    .result
}

#[test]
fn the_line_of_a_chunk_has_a_limit(rt: HostRuntime) {
    assert_eq!(rt; result_of_line(rt.alloc(), 1024), Ok(1026));
    assert_eq!(rt;
        result_of_line(rt.alloc(), 1025),
        Err(RelayFault::Malformed)
    );
}

/// A fault, and what a relay gives after it: of more bytes, and of the end of the input.
fn after_a_fault(alloc: Global) -> Result<[Option<RelayFault>; 3], AllocError> {
    let mut relay = Relay::new(alloc, Sides::IntoChunks(Framing::Chunks), 16, usize::MAX)?;
    let first = relay.feed(b"2\r\nhex").err();
    let more = relay.feed(b"0\r\n\r\n").err();
    Ok([first, more, relay.end_input().err()])
}

#[test]
fn a_fault_stays(rt: HostRuntime) -> Result<(), Fail> {
    let malformed = Some(RelayFault::Malformed);
    assert_eq!(rt;
        after_a_fault(rt.alloc())?.as_slice(),
        [malformed, malformed, malformed].as_slice()
    );
    Ok(())
}

/// A body of five bytes that comes byte by byte, in chunks.
const FIVE_CHUNKS: &[u8] = b"1\r\nh\r\n1\r\ne\r\n1\r\nl\r\n1\r\nl\r\n1\r\no\r\n0\r\n\r\n";

/// Whether a relay has the whole of this body to write. If an allocation of it fails: whether it has only complete chunks, and
/// gives the same fault again.
fn has_complete_chunks(alloc: Global) -> Result<bool, AllocError> {
    let mut relay = Relay::new(
        alloc,
        Sides::IntoChunks(Framing::Length(5)),
        100,
        usize::MAX,
    )?;
    let refused = Err(RelayFault::OutOfMemory);
    for piece in b"hello".chunks(1) {
        if relay.feed(piece) == refused {
            return Ok(
                !relay.is_whole()
                    && relay.feed(piece) == refused
                    && relay.rest().len() % 6 == 0
                    && FIVE_CHUNKS.starts_with(relay.rest()),
            );
        }
    }
    Ok(relay.is_whole() && relay.rest() == FIVE_CHUNKS)
}

#[test]
fn a_refused_piece_leaves_complete_chunks(rt: HostRuntime) {
    assert!(rt; has_complete_chunks(rt.alloc()).unwrap_or(true));
}
