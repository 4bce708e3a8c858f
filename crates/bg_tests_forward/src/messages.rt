//! Messages that are forwarded, and what is expected of each connection.

use crate::connections::{Outcome, Setting, serve};
use bg_forward::End;
use std::alloc::Global;
use std::process::Abort;
use std::sync::Wait;
use std::test::Fail;

/// A request without a body.
pub const GET: &str =
    "GET /a HTTP/1.1\r\nHost: x\r\nConnection: keep-alive, X-Drop\r\nX-Drop: 1\r\n\r\n";
/// The same message, as it is forwarded.
pub const GET_ON: &str =
    "GET /a HTTP/1.1\r\nHost: x\r\nVia: 1.1 bg-switch\r\nConnection: close\r\n\r\n";
/// A chunked response.
pub const CHUNKS: &str =
    "HTTP/1.1 200 OK\r\nTransfer-Encoding: chunked\r\n\r\n3\r\nabc\r\n0\r\n\r\n";
/// The same message, as it is forwarded.
pub const CHUNKS_ON: &str = "HTTP/1.1 200 OK\r\nContent-Length: 3\r\nConnection: close\r\n\r\nabc";
/// A request that waits for `100 Continue`.
pub const EXPECTS: &str =
    "POST /p HTTP/1.1\r\nHost: x\r\nExpect: 100-continue\r\nTransfer-Encoding: chunked\r\n\r\n2\r\nhi\r\n0\r\nT: 1\r\n\r\n";
/// The same message, as it is forwarded.
pub const EXPECTS_ON: &str =
    "POST /p HTTP/1.1\r\nHost: x\r\nVia: 1.1 bg-switch\r\nContent-Length: 2\r\nConnection: close\r\n\r\nhi";
/// The bytes that are written to its client if the response is the chunked one.
pub const EXPECTS_ANSWERED: &str =
    "HTTP/1.1 100 Continue\r\n\r\nHTTP/1.1 200 OK\r\nContent-Length: 3\r\nConnection: close\r\n\r\nabc";

/// The bytes that are written to it if the endpoint fails.
pub const EXPECTS_REFUSED: &str =
    "HTTP/1.1 100 Continue\r\n\r\nHTTP/1.1 502 Bad Gateway\r\nContent-Length: 0\r\nConnection: close\r\n\r\n";

/// The refusal with a status.
pub fn refusal(status: u16) -> &'static str {
    match status {
        400 => "HTTP/1.1 400 Bad Request\r\nContent-Length: 0\r\nConnection: close\r\n\r\n",
        413 => "HTTP/1.1 413 Content Too Large\r\nContent-Length: 0\r\nConnection: close\r\n\r\n",
        431 => {
            "HTTP/1.1 431 Request Header Fields Too Large\r\nContent-Length: 0\r\nConnection: close\r\n\r\n"
        }
        501 => "HTTP/1.1 501 Not Implemented\r\nContent-Length: 0\r\nConnection: close\r\n\r\n",
        502 => "HTTP/1.1 502 Bad Gateway\r\nContent-Length: 0\r\nConnection: close\r\n\r\n",
        _ => "HTTP/1.1 503 Service Unavailable\r\nContent-Length: 0\r\nConnection: close\r\n\r\n",
    }
}

/// How a connection should end.
#[derive(Clone, Copy, Drop)]
pub struct Expected<'a> {
    pub end: End,
    /// The bytes that should be written to its client.
    pub written: &'a str,
    /// The number of calls that its seat should make: 2 if the request enters, else 0.
    pub calls: u64,
}

impl<'a> Expected<'a> {
    /// The end of a connection whose request enters.
    pub fn entered(end: End, written: &'a str) -> Expected<'a> {
        Expected {
            end,
            written,
            calls: 2,
        }
    }

    /// The end of a connection whose request does not enter.
    pub fn outside(end: End, written: &'a str) -> Expected<'a> {
        Expected {
            end,
            written,
            calls: 0,
        }
    }
}

/// The outcome of a connection with this end, to whose client this answer was written, or a front of it. Its seat made
/// two calls if it entered, and is out, no request is open, and the history is legal.
pub fn ends<R: Abort + Wait>(
    rt: &R,
    alloc: Global,
    setting: &Setting,
    end: End,
    answer: &str,
) -> Result<Outcome, Fail> {
    let Some(outcome) = serve(rt, alloc, setting, answer)? else {
        panic!(rt; "no seat: {}", setting.name);
    };
    assert_eq!(rt; outcome.end, end, "{}", setting.name);
    assert!(rt; outcome.is_of_answer, "{}", setting.name);
    assert_eq!(rt;
        outcome.calls,
        if outcome.entered { 2 } else { 0 },
        "{}",
        setting.name
    );
    assert!(rt;
        outcome.is_out && outcome.open == 0 && outcome.is_legal,
        "{}",
        setting.name
    );
    Ok(outcome)
}

/// The outcome of a connection that ends as expected, to whose client all of the expected bytes were written.
pub fn expect<R: Abort + Wait>(
    rt: &R,
    alloc: Global,
    setting: &Setting,
    expected: Expected,
) -> Result<Outcome, Fail> {
    let outcome = ends(rt, alloc, setting, expected.end, expected.written)?;
    assert_eq!(rt; outcome.written, expected.written.len(), "{}", setting.name);
    assert_eq!(rt; outcome.calls, expected.calls, "{}", setting.name);
    Ok(outcome)
}
