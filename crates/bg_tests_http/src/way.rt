//! How the tests pass a response on.
use crate::pieces::Pieces;
use bg_http::{MOST_RESPONSE_BODY, Persistence, Request, ResponseFault};
use bg_streams::{ResponseRelay, StreamFault, StreamTerms};
use std::alloc::Global;

/// More turns than any row takes.
const MOST_TURNS: usize = 4096;

const NO_MEMORY: StreamFault = StreamFault::Refused(ResponseFault::OutOfMemory);

pub(crate) const GET: &[u8] = b"GET / HTTP/1.1\r\nHost: x\r\n\r\n";

pub(crate) const HEAD: &[u8] = b"HEAD / HTTP/1.1\r\nHost: x\r\n\r\n";

/// Feeds what came, and writes at most as many bytes. Gives the number of bytes that were taken.
fn turn(
    relay: &mut ResponseRelay,
    came: &[u8],
    most: usize,
    written: &mut Vec<u8>,
) -> Result<usize, StreamFault> {
    let taken = relay.feed(came);
    let rest = relay.rest();
    let count = rest.len().min(most);
    if written.extend_from_slice(&rest[..count]).is_err() {
        return Err(NO_MEMORY);
    }
    relay.wrote(count);
    taken
}

/// Passes the input on in pieces, and writes each time at most as many bytes as came. Gives the number of bytes that were taken
/// once the response is whole.
pub(crate) fn pass(
    relay: &mut ResponseRelay,
    input: &[u8],
    pieces: Pieces,
    written: &mut Vec<u8>,
) -> Result<usize, StreamFault> {
    let mut taken: usize = 0;
    let mut came: usize = 0;
    for number in 0..MOST_TURNS {
        let size = pieces.size(number);
        came = input.len().min(came.saturating_add(size));
        let had_room = relay.wants_input();
        let count = turn(relay, input.get(taken..came).unwrap_or(&[]), size, written)?;
        taken = taken.saturating_add(count);
        if relay.is_whole() && relay.rest().is_empty() {
            return Ok(taken);
        }
        if had_room && count == 0 && came == input.len() {
            relay.end_input()?;
        }
    }
    Err(NO_MEMORY)
}

/// How a response is passed on.
#[derive(Clone, Copy, Drop)]
pub(crate) struct Way {
    pub(crate) pieces: Pieces,
    pub(crate) window: usize,
    pub(crate) reads_chunks: bool,
}

impl Way {
    pub(crate) fn terms(self) -> StreamTerms {
        StreamTerms {
            reads_chunks: self.reads_chunks,
            persistence: Persistence::Keep,
            window: self.window,
            most_body: MOST_RESPONSE_BODY,
        }
    }
}

/// What was written, and the result.
#[derive(Drop)]
pub(crate) struct Passed {
    pub(crate) written: Vec<u8>,
    pub(crate) result: Result<usize, StreamFault>,
}

pub(crate) fn pass_all(alloc: Global, request: &Request, input: &[u8], way: Way) -> Passed {
    let mut written = Vec::new(alloc);
    let mut relay = ResponseRelay::new(alloc, request, way.terms());
    let result = pass(&mut relay, input, way.pieces, &mut written);
    Passed { written, result }
}
