//! The limit on the body of a response that is passed on.
use bg_http::{Persistence, ResponseFault};
use bg_http_read::request_in;
use bg_relay::RelayFault;
use bg_streams::{ResponseRelay, StreamFault, StreamTerms};
use std::alloc::Global;
use std::test::Fail;

const GET: &[u8] = b"GET / HTTP/1.1\r\nHost: x\r\n\r\n";

const TOO_LARGE: Result<usize, StreamFault> = Err(StreamFault::Refused(ResponseFault::TooLarge));

/// What comes of a response of 5,000,000,000 bytes, and what is written first.
const LONG: &[u8] = b"HTTP/1.1 200 OK\r\nContent-Length: 5000000000\r\n\r\nhello";

const LONG_HEAD: &[u8] = b"HTTP/1.1 200 OK\r\nContent-Length: 5000000000\r\n\r\n";

/// The most bytes that a length can name.
const LONGEST: &[u8] = b"HTTP/1.1 200 OK\r\nContent-Length: 18446744073709551615\r\n\r\n";

/// A length of 20 digits, and one of 21, that no `usize` holds.
const ONE_MORE: &[u8] = b"HTTP/1.1 200 OK\r\nContent-Length: 18446744073709551616\r\n\r\n";

const TENFOLD: &[u8] = b"HTTP/1.1 200 OK\r\nContent-Length: 184467440737095516150\r\n\r\n";

const CHUNKS: &[u8] = b"HTTP/1.1 200 OK\r\nTransfer-Encoding: chunked\r\n\r\n2\r\nhe\r\n";

const CHUNKS_HEAD: &[u8] = b"HTTP/1.1 200 OK\r\nTransfer-Encoding: chunked\r\n\r\n";

/// A body that goes to the end of the input.
const TO_THE_END: &[u8] = b"HTTP/1.1 200 OK\r\n\r\nhello";

/// Whole chunks, with 18 bytes of chunk lines, data and trailers, and bytes behind them.
const WHOLE_CHUNKS: &[u8] =
    b"HTTP/1.1 200 OK\r\nTransfer-Encoding: chunked\r\n\r\n2\r\nhe\r\n0\r\nA: b\r\n\r\nGET";

/// What comes, the most bytes that its body may have, the answer to it, and what is to be written first.
type LimitRow<'a> = (&'a [u8], usize, Result<usize, StreamFault>, &'a [u8]);

static ROWS: [LimitRow<'static>; 14] = [
    (LONG, usize::MAX, Ok(52), LONG_HEAD),
    (LONG, 5_000_000_000, Ok(52), LONG_HEAD),
    (LONG, 4_999_999_999, TOO_LARGE, b""),
    (LONG, 0, TOO_LARGE, b""),
    (LONGEST, usize::MAX, Ok(57), LONGEST),
    (ONE_MORE, usize::MAX, TOO_LARGE, b""),
    (TENFOLD, usize::MAX, TOO_LARGE, b""),
    (CHUNKS, usize::MAX, Ok(54), CHUNKS_HEAD),
    (CHUNKS, 7, Ok(54), CHUNKS_HEAD),
    (CHUNKS, 6, TOO_LARGE, b""),
    (WHOLE_CHUNKS, 21, Ok(65), CHUNKS_HEAD),
    (WHOLE_CHUNKS, 17, TOO_LARGE, b""),
    (TO_THE_END, 5, Ok(24), CHUNKS_HEAD),
    (TO_THE_END, 4, TOO_LARGE, b""),
];

/// A response to GET under a limit, before its first byte.
fn limited(alloc: Global, most_body: usize) -> Result<ResponseRelay, Fail> {
    let request = request_in(alloc, GET)?;
    let terms = StreamTerms {
        reads_chunks: true,
        persistence: Persistence::Keep,
        window: 1000,
        most_body,
    };
    Ok(ResponseRelay::new(alloc, &request, terms))
}

/// Whether a response is passed on, or refused, under a limit.
fn is_judged(alloc: Global, row: &LimitRow<'_>) -> Result<bool, Fail> {
    let mut relay = limited(alloc, row.1)?;
    let answer = relay.feed(row.0);
    Ok(answer == row.2 && relay.rest() == row.3)
}

/// The first row that is judged otherwise.
fn first_wrong(alloc: Global) -> Result<Option<usize>, Fail> {
    for (place, row) in ROWS.iter().enumerate() {
        if !is_judged(alloc, row)? {
            return Ok(Some(place));
        }
    }
    Ok(None)
}

#[test]
fn a_length_is_passed_on_up_to_its_limit(rt: HostRuntime) -> Result<(), Fail> {
    assert_eq!(rt; first_wrong(rt.alloc())?, None);
    Ok(())
}

/// A body whose length is not told has the fault once a byte above its limit comes: its response is cut off for ever, and what came
/// before is written.
#[test]
fn a_body_is_cut_off_above_its_limit(rt: HostRuntime) -> Result<(), Fail> {
    let mut relay = limited(rt.alloc(), 11)?;
    assert_eq!(rt; relay.feed(CHUNKS), Ok(54));
    relay.wrote(CHUNKS_HEAD.len());
    relay.wrote(2);
    assert_eq!(rt; relay.feed(b"0\r\n\r"), Ok(3));
    assert_eq!(rt;
        relay.feed(b"\r\n"),
        Err(StreamFault::Cut(RelayFault::TooLarge))
    );
    assert_eq!(rt;
        relay.feed(b""),
        Err(StreamFault::Cut(RelayFault::TooLarge))
    );
    assert_eq!(rt; relay.wants_input(), false);
    assert_eq!(rt; relay.is_whole(), false);
    assert_eq!(rt; relay.rest(), b"\nhe\r\n".as_slice());
    Ok(())
}
