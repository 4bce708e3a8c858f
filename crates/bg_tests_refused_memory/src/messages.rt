//! The calls of `bg_http` and `bg_http_read`.

use crate::asking::{Subject, change, made, show};
use crate::input_stream::InputStream;
use crate::stop::Stop;
use bg_http::{Bytes, Fields, Request, Response};
use bg_http_read::{read_request, read_response};
use std::alloc::Global;
use std::fmt;

/// Requests, each with its response.
const MESSAGES: [(&str, &str); 2] = [
    (
        "POST /a HTTP/1.1\r\nHost: x\r\nA: b\r\nTransfer-Encoding: chunked\r\n\r\n3\r\none\r\n4\r\nlast\r\n0\r\nT: u\r\n\r\n",
        "HTTP/1.1 103 Early Hints\r\nA: b\r\n\r\nHTTP/1.1 200 OK\r\nB: c\r\nContent-Length: 3\r\n\r\none",
    ),
    (
        "GET /a HTTP/1.1\r\nHost: x\r\nConnection: keep-alive, X-Drop\r\nX-Drop: 1\r\n\r\n",
        "HTTP/1.1 200 OK\r\nTransfer-Encoding: chunked\r\n\r\n3\r\nabc\r\n0\r\n\r\n",
    ),
];

/// Fields, whose display shows all of them.
#[derive(Drop)]
struct Head {
    fields: Fields,
}

impl fmt::Display for Head {
    fn fmt<W: fmt::Write>(&self, f: &mut fmt::Formatter<W>) -> fmt::Result {
        writeln!(f, "{:?}", self.fields)
    }
}

impl Subject for Head {
    type Call = u8;

    /// Adds a field with this name.
    fn make(&mut self, name: &u8) -> Result<(), Stop> {
        self.fields.add(&[*name], b"value")?;
        Ok(())
    }
}

pub fn make_calls<R: AllocGlobal + Print + Eprint>(rt: &R) -> Result<(), Stop> {
    let bytes = make_bytes(rt)?;
    println!(rt; "{bytes:?}")?;
    make_fields(rt)?;
    for (request, response) in &MESSAGES {
        let request = make_request(rt, request)?;
        println!(rt; "{request:?}")?;
        let response = make_response(rt, response, &request)?;
        println!(rt; "{response:?}")?;
    }
    Ok(())
}

fn make_bytes<R: AllocGlobal + Print + Eprint>(rt: &R) -> Result<Bytes, Stop> {
    made(rt, "Bytes::new", || new_bytes(rt.alloc()))
}

fn new_bytes(alloc: Global) -> Result<Bytes, Stop> {
    Ok(Bytes::new(alloc, b"bytes")?)
}

fn make_fields<R: AllocGlobal + Print + Eprint>(rt: &R) -> Result<(), Stop> {
    let mut head = made(rt, "Fields::new", || new_head(rt.alloc()))?;
    change(rt, "Fields::add", &mut head, b"abcdef")?;
    show(rt, &head)
}

fn new_head(alloc: Global) -> Result<Head, Stop> {
    Ok(Head {
        fields: Fields::new(alloc, &[(b"Host", b"x"), (b"A", b"")])?,
    })
}

fn make_request<R: AllocGlobal + Print + Eprint>(rt: &R, text: &str) -> Result<Request, Stop> {
    made(rt, "read_request", || new_request(rt.alloc(), text))
}

pub fn new_request(alloc: Global, text: &str) -> Result<Request, Stop> {
    let mut client = InputStream {
        input: text.as_bytes(),
    };
    Ok(read_request(alloc, &mut client)?)
}

fn make_response<R: AllocGlobal + Print + Eprint>(
    rt: &R,
    text: &str,
    request: &Request,
) -> Result<Response, Stop> {
    made(
        rt,
        "read_response",
        || new_response(rt.alloc(), text, request),
    )
}

fn new_response(alloc: Global, text: &str, request: &Request) -> Result<Response, Stop> {
    let mut endpoint = text.as_bytes();
    Ok(read_response(alloc, request, &mut endpoint)?)
}
