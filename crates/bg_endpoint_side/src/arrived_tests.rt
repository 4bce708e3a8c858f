//! The bytes that come while a request is forwarded, as far as they are kept.
ghost use Rattle.std.specs.Prelude.{◌≡◌, IfOk};

use crate::arrived_bytes::ArrivedBytes;
use crate::deadlines::Timeouts;
use crate::dialing_request::DialingRequest;
use crate::forwarded_request::{ForwardedRequest, Step};
use crate::streamed_request::StreamedRequest;
use crate::streamed_step::StreamedStep;
use crate::terms::Terms;
use bg_http::{Persistence, Request};
use bg_http_read::request_in;
use bg_streams::StreamTerms;
use std::alloc::{AllocError, Global};
use std::test::Fail;

const GET: &[u8] = b"GET / HTTP/1.1\r\nHost: x\r\n\r\n";

const TIMEOUTS: Timeouts = Timeouts {
    response: 60_000,
    idle: 30_000,
};

/// A fourth of the bytes that are kept.
const FOURTH: [u8; 4096] = [b'a'; 4096];

/// A response whose body is longer than all bytes that are kept.
const LONG: &[u8] = b"HTTP/1.1 200 OK\r\nContent-Length: 100000\r\n\r\n";

/// A response to a request that asked for an upgrade or did not, and what is kept of it.
struct Response {
    asks_for_upgrade: bool,
    pieces: &'static [&'static [u8]],
    kept: Option<&'static [u8]>,
}

static RESPONSES: [Response; 6] = [
    Response {
        asks_for_upgrade: true,
        pieces: &[],
        kept: Some(b""),
    },
    Response {
        asks_for_upgrade: true,
        pieces: &[b"HTTP/1.1 10", b"", b"1 Switching Protocols\r\nUp", b"g"],
        kept: Some(b"HTTP/1.1 101 Switching Protocols\r\nUpg"),
    },
    Response {
        asks_for_upgrade: false,
        pieces: &[b"HTTP/1.1 10", b"1 Switching Protocols\r\nUp"],
        kept: None,
    },
    Response {
        asks_for_upgrade: true,
        pieces: &[LONG, b"a", b"b"],
        kept: Some(b"HTTP/1.1 200 OK\r\nContent-Length: 100000\r\n\r\nab"),
    },
    Response {
        asks_for_upgrade: true,
        pieces: &[LONG, &FOURTH, &FOURTH, &FOURTH, &FOURTH],
        kept: None,
    },
    Response {
        asks_for_upgrade: true,
        pieces: &[LONG, &FOURTH, &FOURTH, &FOURTH, &FOURTH, b"a"],
        kept: None,
    },
];

fn outgoing(alloc: Global, asks_for_upgrade: bool) -> Result<(Vec<u8>, Terms), AllocError> {
    let terms = Terms {
        port: 8081,
        persistence: Persistence::Keep,
        is_idempotent: true,
        asks_for_upgrade,
    };
    Ok((Vec::from_slice(alloc, GET)?, terms))
}

fn dialing(
    alloc: Global,
    request: &Request,
    asks_for_upgrade: bool,
) -> Result<DialingRequest, AllocError>
    ensures { IfOk result (λ dialing. dialing.request ≡ request.now) }
{
    let outgoing = outgoing(alloc, asks_for_upgrade)?;
    DialingRequest::new(alloc, request, outgoing, TIMEOUTS, 0)
}

/// The request after these pieces came, if it goes on.
fn after(request: ForwardedRequest, pieces: &[&[u8]]) -> Option<ForwardedRequest> {
    let mut request = request;
    for piece in pieces {
        match request.receive(piece, 1) {
            Step::GoesOn(next) => request = next,
            Step::Again(_) | Step::Over(_) => return None,
        }
    }
    Some(request)
}

/// The same of a request whose response is passed on to a client, which takes nothing.
fn streamed_after(request: StreamedRequest, pieces: &[&[u8]]) -> Option<StreamedRequest> {
    let mut request = request;
    for piece in pieces {
        match request.receive(piece, 1) {
            StreamedStep::GoesOn(next) => request = next,
            StreamedStep::Again(_) | StreamedStep::Whole(_) => return None,
            StreamedStep::Refused(_, _) | StreamedStep::Cut(_, _) => return None,
        }
    }
    Some(request)
}

fn streamed(alloc: Global, request: &Request, asks_for_upgrade: bool) -> Option<StreamedRequest> {
    let client = StreamTerms {
        reads_chunks: true,
        persistence: Persistence::Keep,
        window: usize::MAX,
        most_body: usize::MAX,
    };
    let dialing = dialing(alloc, request, asks_for_upgrade).ok()?;
    dialing.streamed_on(alloc, false, (request, client), 0).ok()
}

fn are_alike(kept: Option<&[u8]>, expected: Option<&[u8]>) -> bool {
    match (kept, expected) {
        (Some(kept), Some(expected)) => kept == expected,
        (None, None) => true,
        _ => false,
    }
}

/// Whether a request keeps of a response what it should, read as one text and passed on.
fn is_kept(alloc: Global, response: &Response) -> Option<bool> {
    let request = request_in(alloc, GET).ok()?;
    let forwarded = dialing(alloc, &request, response.asks_for_upgrade).ok()?;
    let forwarded = after(forwarded.on_new(0), response.pieces)?;
    let streamed = streamed(alloc, &request, response.asks_for_upgrade)?;
    let streamed = streamed_after(streamed, response.pieces)?;
    let is_kept = are_alike(forwarded.arrived(), response.kept)
        && are_alike(streamed.arrived(), response.kept);
    Some(is_kept)
}

/// The place of the first response of which something else is kept.
fn first_wrong(alloc: Global, responses: &[Response]) -> Option<usize> {
    for (place, response) in responses.iter().enumerate() {
        if is_kept(alloc, response) != Some(true) {
            return Some(place);
        }
    }
    None
}

#[test]
fn what_came_is_kept_if_the_terms_ask_for_an_upgrade(rt: HostRuntime) {
    assert_eq!(rt; first_wrong(rt.alloc(), &RESPONSES), None);
}

/// What is kept of a response on a new connection, after a kept one that was ended.
fn kept_again(alloc: Global) -> Option<usize> {
    let request = request_in(alloc, GET).ok()?;
    let dialing = dialing(alloc, &request, true).ok()?;
    if !dialing.is_unsent() {
        return None;
    }
    let dialing = match dialing.on_kept(0).end(1) {
        Step::Again(dialing) => dialing,
        Step::GoesOn(_) | Step::Over(_) => return None,
    };
    let forwarded = after(dialing.on_new(2), &[b"HTTP", b"/1.1"])?;
    Some(forwarded.arrived()?.len())
}

/// What is kept of a response of another endpoint, of which other terms ask for an upgrade, or do not.
fn kept_elsewhere(alloc: Global, asks_for_upgrade: bool) -> Option<usize> {
    let request = request_in(alloc, GET).ok()?;
    let dialing = dialing(alloc, &request, !asks_for_upgrade).ok()?;
    if !dialing.is_unsent() {
        return None;
    }
    let outgoing = outgoing(alloc, asks_for_upgrade).ok()?;
    let forwarded = dialing.dial_elsewhere(outgoing, 1).on_new(2);
    let forwarded = after(forwarded, &[b"HTTP", b"/1.1"])?;
    Some(forwarded.arrived()?.len())
}

#[test]
fn bytes_are_kept_anew_on_another_connection(rt: HostRuntime) {
    assert_eq!(rt; kept_again(rt.alloc()), Some(8));
    assert_eq!(rt; kept_elsewhere(rt.alloc(), true), Some(8));
    assert_eq!(rt; kept_elsewhere(rt.alloc(), false), None);
}

/// How many bytes are kept once this many fourths and these bytes came, on a connection after another one.
fn kept_after(alloc: Global, fourths: usize, more: &[u8]) -> Option<usize> {
    let mut arrived = ArrivedBytes::none(alloc);
    arrived.begin(true);
    arrived.add(b"another connection");
    arrived.begin(true);
    for _ in 0..fourths {
        arrived.add(&FOURTH);
    }
    arrived.add(more);
    Some(arrived.get()?.len())
}

#[test]
fn at_most_16384_bytes_are_kept(rt: HostRuntime) {
    assert_eq!(rt; kept_after(rt.alloc(), 0, b"ab"), Some(2));
    assert_eq!(rt; kept_after(rt.alloc(), 4, b""), Some(16_384));
    assert_eq!(rt; kept_after(rt.alloc(), 4, b"a"), None);
    assert_eq!(rt; kept_after(rt.alloc(), 9, b"a"), None);
}
