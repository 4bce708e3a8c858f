//! The outcome of a message, which is read from a stream and written as it is forwarded.
use crate::paced_stream::{Pace, PacedStream};
use bg_http::{
    Bytes, Fields, Persistence, Request, RequestFault, Response, ResponseFault, write_request,
    write_response,
};
use bg_http_read::{read_request, read_response};
use std::alloc::{AllocError, Global};
use std::io;

/// The port of the server to which requests are forwarded.
const PORT: u16 = 9001;

/// The kind of message as which an input is read.
#[derive(Clone, Copy, Drop)]
pub enum Kind<'a> {
    Request,
    /// The response to a request of this method.
    ResponseTo(&'a [u8]),
}

/// A message that was read.
#[derive(Drop)]
pub enum Message {
    Request(Request),
    /// A response, and its request.
    Response(Request, Response),
}

impl Message {
    /// The number of bytes of the body, 0 if there is none.
    pub fn body_size(&self) -> usize {
        match self {
            Message::Request(request) => match &request.body {
                Some(body) => body.get().len(),
                None => 0,
            },
            Message::Response(_, response) => response.body.get().len(),
        }
    }

    /// The bytes in which the message is forwarded.
    fn text(&self, alloc: Global) -> io::Result<Vec<u8>> {
        let mut text = Vec::new(alloc);
        match self {
            Message::Request(request) => write_request(
                request,
                PORT,
                Persistence::Close,
                &mut text,
            )?,
            Message::Response(request, response) => write_response(
                request,
                response,
                Persistence::Close,
                &mut text,
            )?,
        }
        Ok(text)
    }

    /// Whether the message is forwarded in these bytes.
    fn goes_on_in(&self, alloc: Global, bytes: &[u8]) -> bool {
        match self.text(alloc) {
            Ok(text) => text.as_slice() == bytes,
            Err(_) => false,
        }
    }
}

/// A fault of a response, as the same fault of a request.
fn as_request(fault: ResponseFault) -> RequestFault {
    match fault {
        ResponseFault::ReadFailed => RequestFault::ReadFailed,
        ResponseFault::HeadTooLarge => RequestFault::HeadTooLarge,
        ResponseFault::Bad => RequestFault::Bad,
        ResponseFault::TooLarge => RequestFault::TooLarge,
        ResponseFault::Closed => RequestFault::Closed,
        ResponseFault::OutOfMemory => RequestFault::OutOfMemory,
    }
}

/// A request of this method.
fn asked(alloc: Global, method: &[u8]) -> Result<Request, AllocError> {
    Ok(Request {
        method: Bytes::new(alloc, method)?,
        target: Bytes::new(alloc, b"/")?,
        minor: 1,
        fields: Fields::new(alloc, &[(b"Host", b"x")])?,
        body: None,
    })
}

fn read_answer(
    alloc: Global,
    method: &[u8],
    stream: &mut PacedStream<'_>,
) -> Result<Message, RequestFault> {
    let Ok(request) = asked(alloc, method) else {
        return Err(RequestFault::OutOfMemory);
    };
    match read_response(alloc, &request, stream) {
        Ok(response) => Ok(Message::Response(request, response)),
        Err(fault) => Err(as_request(fault)),
    }
}

/// Reads a message.
pub fn read(
    alloc: Global,
    kind: Kind<'_>,
    stream: &mut PacedStream<'_>,
) -> Result<Message, RequestFault> {
    match kind {
        Kind::Request => match read_request(alloc, stream) {
            Ok(request) => Ok(Message::Request(request)),
            Err(fault) => Err(fault),
        },
        Kind::ResponseTo(method) => read_answer(alloc, method, stream),
    }
}

/// The outcome of a message.
#[derive(Clone, Copy, Drop)]
pub enum Outcome<'a> {
    /// It is forwarded in these bytes: a request to the server, a response to the client.
    GoesOn(&'a [u8]),
    Refused(RequestFault),
}

/// The answer for a request is 400, for a response 502.
pub const BAD: Outcome<'static> = Outcome::Refused(RequestFault::Bad);

/// The answer for a request is 413, for a response 502.
pub const TOO_LARGE: Outcome<'static> = Outcome::Refused(RequestFault::TooLarge);

/// The answer for a request is 501.
pub const NOT_DONE: Outcome<'static> = Outcome::Refused(RequestFault::NotDone);

/// The input ended: there is no answer for a request, and 502 for a response.
pub const CLOSED: Outcome<'static> = Outcome::Refused(RequestFault::Closed);

/// The name of a message, its bytes, and its outcome.
pub type Row<'a> = (&'a str, &'a [u8], Outcome<'a>);

/// The name of a message that is malformed, and its bytes.
pub type BadRow<'a> = (&'a str, &'a [u8]);

/// Whether the message that was read has this outcome.
fn is_outcome(alloc: Global, read: &Result<Message, RequestFault>, outcome: Outcome<'_>) -> bool {
    match read {
        Ok(message) => match outcome {
            Outcome::GoesOn(bytes) => message.goes_on_in(alloc, bytes),
            Outcome::Refused(_) => false,
        },
        Err(fault) => match outcome {
            Outcome::GoesOn(_) => false,
            Outcome::Refused(other) => *fault == other,
        },
    }
}

/// The paces at which each message is read.
static PACES: [Pace; 4] = [
    Pace::UpTo(65_536),
    Pace::UpTo(7),
    Pace::UpTo(1),
    Pace::InterruptedOnce,
];

/// Whether the input has this outcome at a pace, and nothing is written in the meantime.
fn comes_at(alloc: Global, kind: Kind<'_>, input: &[u8], outcome: Outcome<'_>, pace: Pace) -> bool {
    let mut stream = PacedStream::new(alloc, input, pace);
    let read = read(alloc, kind, &mut stream);
    is_outcome(alloc, &read, outcome) && stream.written().is_empty()
}

/// Whether the input has this outcome at every pace.
fn comes_of(alloc: Global, kind: Kind<'_>, input: &[u8], outcome: Outcome<'_>) -> bool {
    for pace in &PACES {
        if !comes_at(alloc, kind, input, outcome, *pace) {
            return false;
        }
    }
    true
}

/// The name of the first message with another outcome.
pub fn first_wrong<'a>(alloc: Global, kind: Kind<'_>, rows: &[Row<'a>]) -> Option<&'a str> {
    for (name, input, outcome) in rows {
        if !comes_of(alloc, kind, input, *outcome) {
            return Some(*name);
        }
    }
    None
}

/// The name of the first message that is not refused as malformed.
pub fn first_not_bad<'a>(alloc: Global, kind: Kind<'_>, rows: &[BadRow<'a>]) -> Option<&'a str> {
    for (name, input) in rows {
        if !comes_of(alloc, kind, input, BAD) {
            return Some(*name);
        }
    }
    None
}
