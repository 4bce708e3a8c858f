//! The requests of a connection that is kept, in whatever pieces its bytes come.
ghost use Rattle.std.specs.Prelude.{IsTrue};
ghost use Rattle.bg_http_read.specs.RequestStreams.{StreamState};

use bg_http::{Persistence, Request, RequestFault, write_request};
use bg_http_read::{RequestStep, RequestStream};
use std::alloc::Global;
use std::marker::Model;

/// The port of the server to which requests are forwarded.
const PORT: u16 = 9001;

/// More steps than any piece of a row leads to.
const MOST_STEPS: u32 = 64;

/// A stream that has given no fault.
struct OpenStream {
    stream: RequestStream,
}

impl Drop for OpenStream {
    /// Drops the field by one call, so that the proofs of what owns a value are short (CONTRIBUTING.md, "What a check costs").
    fn drop(self) {
        let OpenStream { stream: _ } = self;
    }
}

impl Model for OpenStream {
    ghost Value = { StreamState };

    ghost view = { λ requests. requests.stream };

    ghost invariant = { λ requests. IsTrue requests.stream.is_open };
}

/// A step of a stream, and the stream after it.
#[derive(Drop)]
struct Fed {
    stream: OpenStream,
    step: RequestStep,
}

impl OpenStream {
    fn new(alloc: Global) -> OpenStream {
        OpenStream {
            stream: RequestStream::new(alloc),
        }
    }

    /// [`RequestStream::feed`].
    fn feed(self, bytes: &[u8]) -> Result<Fed, RequestFault> {
        let OpenStream { mut stream } = self;
        let step = stream.feed(bytes)?;
        Ok(Fed {
            stream: OpenStream { stream },
            step,
        })
    }

    /// [`RequestStream::end`].
    fn end(self) -> Result<Option<Request>, RequestFault> {
        let OpenStream { stream } = self;
        stream.end()
    }
}

/// What a connection has given: its requests as they are forwarded on one kept connection, one after the other, and how
/// often `100 Continue` was owed.
#[derive(Drop)]
struct Given {
    text: Vec<u8>,
    continues: u32,
}

impl Given {
    fn add(&mut self, request: &Request) -> Result<(), RequestFault> {
        write_request(request, PORT, Persistence::Keep, &mut self.text).map_err(
            |_| RequestFault::OutOfMemory,
        )
    }
}

/// Feeds a piece, and adds the requests that it completes.
fn feed_piece(
    stream: OpenStream,
    piece: &[u8],
    given: &mut Given,
) -> Result<OpenStream, RequestFault> {
    let mut stream = stream;
    let mut fed = piece;
    for _ in 0..MOST_STEPS {
        let Fed { stream: next, step } = stream.feed(fed)?;
        stream = next;
        fed = b"";
        match step {
            RequestStep::More => return Ok(stream),
            RequestStep::Continue => given.continues = given.continues.saturating_add(1),
            RequestStep::Whole(request) => given.add(&request)?,
        }
    }
    Err(RequestFault::ReadFailed)
}

/// Feeds all bytes in pieces of a size, at least one byte each, and ends the stream. Its fault, if it gives one.
fn feed_all(
    alloc: Global,
    input: &[u8],
    size: usize,
    given: &mut Given,
) -> Result<(), RequestFault> {
    let mut stream = OpenStream::new(alloc);
    for piece in input.chunks(size.max(1)) {
        stream = feed_piece(stream, piece, given)?;
    }
    match stream.end()? {
        Some(request) => given.add(&request),
        None => Ok(()),
    }
}

/// The name of a connection, its bytes, its requests as they are forwarded, how often `100 Continue` is owed, and its
/// fault.
type Row<'a> = (&'a str, &'a [u8], &'a [u8], u32, Option<RequestFault>);

static CONNECTIONS: [Row<'static>; 9] = [
    ("no byte", b"", b"", 0, None),
    (
        "two requests",
        b"GET /a HTTP/1.1\r\nHost: x\r\n\r\nGET /b HTTP/1.1\r\nHost: y\r\n\r\n",
        b"GET /a HTTP/1.1\r\nHost: x\r\nVia: 1.1 bg-switch\r\n\r\nGET /b HTTP/1.1\r\nHost: y\r\nVia: 1.1 bg-switch\r\n\r\n",
        0,
        None,
    ),
    (
        "a body that reads as a request",
        b"POST /a HTTP/1.1\r\nHost: x\r\nContent-Length: 19\r\n\r\nGET /c HTTP/1.1\r\n\r\nGET /b HTTP/1.1\r\nHost: x\r\n\r\n",
        b"POST /a HTTP/1.1\r\nHost: x\r\nVia: 1.1 bg-switch\r\nContent-Length: 19\r\n\r\nGET /c HTTP/1.1\r\n\r\nGET /b HTTP/1.1\r\nHost: x\r\nVia: 1.1 bg-switch\r\n\r\n",
        0,
        None,
    ),
    (
        "a chunked body with a trailer, and a request behind it",
        b"POST /a HTTP/1.1\r\nHost: x\r\nTransfer-Encoding: chunked\r\n\r\n2\r\nhi\r\n0\r\nA: b\r\n\r\nGET /b HTTP/1.1\r\nHost: x\r\n\r\n",
        b"POST /a HTTP/1.1\r\nHost: x\r\nVia: 1.1 bg-switch\r\nContent-Length: 2\r\n\r\nhiGET /b HTTP/1.1\r\nHost: x\r\nVia: 1.1 bg-switch\r\n\r\n",
        0,
        None,
    ),
    (
        "an expectation at each of two requests",
        b"PUT /a HTTP/1.1\r\nHost: x\r\nExpect: 100-continue\r\nContent-Length: 1\r\n\r\n1PUT /b HTTP/1.1\r\nHost: x\r\nExpect: 100-continue\r\nContent-Length: 1\r\n\r\n2",
        b"PUT /a HTTP/1.1\r\nHost: x\r\nVia: 1.1 bg-switch\r\nContent-Length: 1\r\n\r\n1PUT /b HTTP/1.1\r\nHost: x\r\nVia: 1.1 bg-switch\r\nContent-Length: 1\r\n\r\n2",
        2,
        None,
    ),
    (
        "a request whose end does not come",
        b"GET /a HTTP/1.1\r\nHost: x\r\n\r\nPOST /b HTTP/1.1\r\nHost: x\r\nContent-Length: 3\r\n\r\nhi",
        b"GET /a HTTP/1.1\r\nHost: x\r\nVia: 1.1 bg-switch\r\n\r\n",
        0,
        Some(RequestFault::Closed),
    ),
    (
        "a request that ends within its head",
        b"GET /a HTTP/1.1\r\nHost: x\r\n\r\nGET /b HTTP/1.1\r\nHo",
        b"GET /a HTTP/1.1\r\nHost: x\r\nVia: 1.1 bg-switch\r\n\r\n",
        0,
        Some(RequestFault::Closed),
    ),
    (
        "a fault behind a request",
        b"GET /a HTTP/1.1\r\nHost: x\r\n\r\nno request\r\n\r\n",
        b"GET /a HTTP/1.1\r\nHost: x\r\nVia: 1.1 bg-switch\r\n\r\n",
        0,
        Some(RequestFault::Bad),
    ),
    (
        "a length and chunks, as smugglers send them",
        b"GET /a HTTP/1.1\r\nHost: x\r\n\r\nPOST /b HTTP/1.1\r\nHost: x\r\nContent-Length: 5\r\nTransfer-Encoding: chunked\r\n\r\n0\r\n\r\nGET /c HTTP/1.1\r\nHost: x\r\n\r\n",
        b"GET /a HTTP/1.1\r\nHost: x\r\nVia: 1.1 bg-switch\r\n\r\n",
        0,
        Some(RequestFault::Bad),
    ),
];

/// The sizes of the pieces in which each connection's bytes come.
static SIZES: [usize; 4] = [1, 2, 7, 65_536];

/// Whether a connection whose bytes come in pieces of this size gives what its row says.
fn is_given(alloc: Global, row: &Row<'_>, size: usize) -> bool {
    let mut given = Given {
        text: Vec::new(alloc),
        continues: 0,
    };
    let fault = feed_all(alloc, row.1, size, &mut given).err();
    given.text.as_slice() == row.2 && given.continues == row.3 && fault == row.4
}

#[test]
fn a_stream_gives_the_requests_of_its_connection(rt: HostRuntime) {
    for row in &CONNECTIONS {
        for size in &SIZES {
            assert!(rt;
                is_given(rt.alloc(), row, *size),
                "{} in pieces of {}",
                row.0,
                size
            );
        }
    }
}
