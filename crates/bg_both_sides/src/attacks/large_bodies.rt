//! A request whose body its text does not copy.

use super::{ROUTE, SETTINGS};
use crate::both_sides::BothSides;
use std::alloc::{AllocError, Global};

const CAME: &[u8] = b"POST /large HTTP/1.1\r\nHost: a\r\nContent-Length: 70000\r\n\r\n";

const FORWARDED: &[u8] =
    b"POST /large HTTP/1.1\r\nHost: a\r\nVia: 1.1 bg-switch\r\nContent-Length: 70000\r\n\r\n";

/// The number of bytes of the body, the most that the endpoint takes at once, and more turns than it needs.
const SIZE: usize = 70_000;

const MOST_TAKEN: usize = 30_000;

const TURNS: usize = 10;

/// A body in which each byte differs from its neighbours.
fn large_body(alloc: Global) -> Result<Vec<u8>, AllocError> {
    let mut body = Vec::new(alloc);
    for place in 0..SIZE {
        body.push((place % 251) as u8)?;
    }
    Ok(body)
}

/// What is written to the endpoint of a request with this body, which takes it in pieces.
fn written_of(alloc: Global, body: &[u8]) -> Result<Vec<u8>, AllocError> {
    let mut sides = BothSides::new(alloc, SETTINGS, 0);
    sides.feed(CAME, 1);
    sides.feed(body, 2);
    sides.enter();
    sides.dial(ROUTE, 3);
    sides.connect(false, 4);
    let mut written = Vec::new(alloc);
    for _ in 0..TURNS {
        let piece = sides.piece_to_endpoint();
        let count = piece.len().min(MOST_TAKEN);
        written.extend_from_slice(&piece[..count])?;
        sides.endpoint_wrote(count, 5);
    }
    Ok(written)
}

/// Whether the head and then the body are written, and nothing else.
fn is_whole(alloc: Global) -> Result<bool, AllocError> {
    let body = large_body(alloc)?;
    let mut expected = Vec::from_slice(alloc, FORWARDED)?;
    expected.extend_from_slice(&body)?;
    Ok(written_of(alloc, &body)? == expected)
}

#[test]
fn a_large_body_is_written_behind_its_head(rt: HostRuntime) {
    assert_eq!(rt; is_whole(rt.alloc()), Ok(true));
}
