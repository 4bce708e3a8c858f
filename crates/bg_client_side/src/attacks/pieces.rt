//! Clients whose bytes come in pieces of several sizes.

use super::{SETTINGS, Where, where_of};
use crate::client_connection::ClientConnection;
use crate::facts::ClientSettings;
use crate::reading::Fed;
use bg_http::Persistence;
use std::alloc::{AllocError, Global};

/// No connection is kept.
const UNKEPT: ClientSettings = ClientSettings {
    persistence: Persistence::Close,
    ..SETTINGS
};

/// Bytes of a client, what it gets, and where its connection is then. It gets `100 ` for `100 Continue`, and for a request
/// its target, with `+` if the connection goes on and `!` if it does not; for what is no request, `?!`.
struct Sent {
    name: &'static str,
    settings: ClientSettings,
    bytes: &'static [u8],
    gets: &'static [u8],
    ends: Where,
}

/// Gives an answer, and writes it byte by byte.
fn answer(
    connection: &mut ClientConnection,
    target: &[u8],
    alloc: Global,
    written: &mut Vec<u8>,
) -> Result<Fed, AllocError> {
    let persistence = connection.persistence();
    let mut text = Vec::from_slice(alloc, target)?;
    text.push(if persistence == Persistence::Keep {
        b'+'
    } else {
        b'!'
    })?;
    connection.answer(text, persistence, 0);
    let mut fed = Fed::NotReading;
    for _ in 0..64 {
        let byte = match connection.rest() {
            [first, ..] => *first,
            [] => return Ok(fed),
        };
        written.push(byte)?;
        fed = connection.wrote(1, 0);
    }
    Ok(fed)
}

/// Does what is to be done once bytes were fed.
fn go_on(
    connection: &mut ClientConnection,
    fed: Fed,
    alloc: Global,
    written: &mut Vec<u8>,
) -> Result<Fed, AllocError> {
    match fed {
        Fed::OwesContinue => {
            written.extend_from_slice(b"100 ")?;
            Ok(connection.note_continued())
        }
        Fed::Whole => match connection.take() {
            Some(request) => answer(connection, request.target.get(), alloc, written),
            None => Ok(Fed::NotReading),
        },
        Fed::Refused(_) => answer(connection, b"?", alloc, written),
        Fed::More | Fed::NotReading => Ok(fed),
    }
}

/// What a client gets whose bytes come in pieces of this size, and where its connection is then.
fn served(alloc: Global, sent: &Sent, size: usize) -> Result<(Vec<u8>, Where), AllocError> {
    let mut connection = ClientConnection::new(alloc, sent.settings, 0);
    let mut written = Vec::new(alloc);
    for piece in sent.bytes.chunks(size.max(1)) {
        let mut fed = connection.feed(piece, 0);
        for _ in 0..8 {
            fed = go_on(&mut connection, fed, alloc, &mut written)?;
        }
    }
    Ok((written, where_of(&connection)))
}

/// The name of the first client that does not get what it should, with the size of the pieces.
fn first_unserved(alloc: Global, all: &[Sent]) -> Option<(&'static str, usize)> {
    for sent in all {
        for size in [1, 2, 7, 4096] {
            match served(alloc, sent, size) {
                Ok((written, ends)) if written.as_slice() == sent.gets && ends == sent.ends => {}
                _ => return Some((sent.name, size)),
            }
        }
    }
    None
}

static SENT: [Sent; 9] = [
    Sent {
        name: "pipelined requests, of which one has a body that looks like a request",
        settings: SETTINGS,
        bytes: b"GET /1 HTTP/1.1\r\nHost: x\r\n\r\nPOST /2 HTTP/1.1\r\nHost: x\r\nContent-Length: 18\r\n\r\nGET /x HTTP/1.1\r\n\r",
        gets: b"/1+/2+",
        ends: Where::Idle,
    },
    Sent {
        name: "as many requests as there may be, and one more",
        settings: SETTINGS,
        bytes: b"GET /1 HTTP/1.1\r\nHost: x\r\n\r\nGET /2 HTTP/1.1\r\nHost: x\r\n\r\nGET /3 HTTP/1.1\r\nHost: x\r\n\r\nGET /4 HTTP/1.1\r\nHost: x\r\n\r\n",
        gets: b"/1+/2+/3!",
        ends: Where::Lingering,
    },
    Sent {
        name: "a fault behind a good request",
        settings: SETTINGS,
        bytes: b"GET /1 HTTP/1.1\r\nHost: x\r\n\r\nGET /2 HTTP/1.1\r\nHost : x\r\n\r\nGET /3 HTTP/1.1\r\nHost: x\r\n\r\n",
        gets: b"/1+?!",
        ends: Where::Lingering,
    },
    Sent {
        name: "a request that closes its connection, in a list and in capital letters",
        settings: SETTINGS,
        bytes: b"GET /1 HTTP/1.1\r\nHost: x\r\nConnection: CLOSE , x\r\n\r\nGET /2 HTTP/1.1\r\nHost: x\r\n\r\n",
        gets: b"/1!",
        ends: Where::Lingering,
    },
    Sent {
        name: "a request that closes its connection in its second Connection field",
        settings: SETTINGS,
        bytes: b"GET /1 HTTP/1.1\r\nHost: x\r\nConnection: x\r\nConnection:close\r\n\r\n",
        gets: b"/1!",
        ends: Where::Lingering,
    },
    Sent {
        name: "a request that names another element",
        settings: SETTINGS,
        bytes: b"GET /1 HTTP/1.1\r\nHost: x\r\nConnection: closed\r\n\r\n",
        gets: b"/1+",
        ends: Where::Idle,
    },
    Sent {
        name: "a request of version 1.0 that asks for a connection that is kept",
        settings: SETTINGS,
        bytes: b"GET /1 HTTP/1.0\r\nHost: x\r\nConnection: keep-alive\r\n\r\n",
        gets: b"/1!",
        ends: Where::Lingering,
    },
    Sent {
        name: "requests to a switch that keeps no connection",
        settings: UNKEPT,
        bytes: b"GET /1 HTTP/1.1\r\nHost: x\r\n\r\nGET /2 HTTP/1.1\r\nHost: x\r\n\r\n",
        gets: b"/1!",
        ends: Where::Lingering,
    },
    Sent {
        name: "a request that is owed 100 Continue, behind another one",
        settings: SETTINGS,
        bytes: b"GET /1 HTTP/1.1\r\nHost: x\r\n\r\nPOST /2 HTTP/1.1\r\nHost: x\r\nExpect: 100-continue\r\nContent-Length: 2\r\n\r\nab",
        gets: b"/1+100 /2+",
        ends: Where::Idle,
    },
];

#[test]
fn requests_in_pieces_are_answered_in_turn(rt: HostRuntime) {
    assert_eq!(rt; first_unserved(rt.alloc(), &SENT), None);
}
