//! Requests that are forwarded to endpoints that answer well, badly or not at all, as lists of events at given moments.

use crate::deadlines::Timeouts;
use crate::dialing_request::DialingRequest;
use crate::forwarded_request::{ForwardedRequest, Step};
use crate::outcome::{ForwardFault, Health, Outcome};
use crate::terms::{Terms, is_idempotent};
use bg_http::{Persistence, Request, ResponseFault};
use bg_http_read::request_in;
use std::alloc::Global;

const GET: &[u8] = b"GET / HTTP/1.1\r\nHost: x\r\n\r\n";

const POST: &[u8] = b"POST / HTTP/1.1\r\nHost: x\r\nContent-Length: 2\r\n\r\nab";

/// The text that is written to the endpoint: ten bytes.
const TEXT: &[u8] = b"0123456789";

const TIMEOUTS: Timeouts = Timeouts {
    response: 60_000,
    idle: 30_000,
};

/// What happens on a connection.
enum Event {
    Wrote(usize, u64),
    Unread(u64),
    Ending,
    Came(&'static [u8], u64),
    End(u64),
    Fail(u64),
    Look(u64),
}

/// Where a request is after its events.
#[derive(Clone, Copy, PartialEq, Eq, Debug, Drop)]
enum Where {
    GoesOn,
    Again,
    /// It has a response of this status; whether its connection goes back.
    Response(u16, bool),
    Refused(ForwardFault, Health),
    /// The request of the test is no request.
    Invalid,
}

struct Attack {
    name: &'static str,
    request: &'static [u8],
    is_kept: bool,
    events: &'static [Event],
    ends: Where,
}

fn where_of(outcome: Outcome) -> Where {
    let (answer, goes_back, health) = outcome.into_parts();
    match answer {
        Ok(response) => Where::Response(response.code, goes_back),
        Err(fault) => Where::Refused(fault, health),
    }
}

fn carry_out(mut request: ForwardedRequest, event: &Event) -> Step {
    match event {
        Event::Wrote(count, now) => request.wrote(*count, *now),
        Event::Unread(now) => request.note_unread(*now),
        Event::Ending => request.note_ending(),
        Event::Came(bytes, now) => return request.receive(bytes, *now),
        Event::End(now) => return request.end(*now),
        Event::Fail(now) => return request.fail(*now),
        Event::Look(now) => return request.look(*now),
    }
    Step::GoesOn(request)
}

fn after(request: ForwardedRequest, events: &[Event]) -> Where {
    let mut now = request;
    for event in events {
        match carry_out(now, event) {
            Step::GoesOn(next) => now = next,
            Step::Again(_) => return Where::Again,
            Step::Over(outcome) => return where_of(outcome),
        }
    }
    Where::GoesOn
}

fn begin(alloc: Global, request: &Request, is_kept: bool) -> Option<ForwardedRequest> {
    let terms = Terms {
        port: 8081,
        persistence: Persistence::Keep,
        is_idempotent: is_idempotent(request),
        asks_for_upgrade: false,
    };
    let text = Vec::from_slice(alloc, TEXT).ok()?;
    let dialing = DialingRequest::new(alloc, request, (text, terms), TIMEOUTS, 0).ok()?;
    if is_kept && dialing.is_unsent() {
        return Some(dialing.on_kept(0));
    }
    Some(dialing.on_new(0))
}

fn end_of(alloc: Global, attack: &Attack) -> Where {
    let Ok(request) = request_in(alloc, attack.request) else {
        return Where::Invalid;
    };
    match begin(alloc, &request, attack.is_kept) {
        Some(forwarded) => after(forwarded, attack.events),
        None => Where::Invalid,
    }
}

/// The name of the first attack that does not end as it should, and where it ends.
fn first_wrong(alloc: Global, attacks: &[Attack]) -> Option<(&'static str, Where)> {
    for attack in attacks {
        let end = end_of(alloc, attack);
        if end != attack.ends {
            return Some((attack.name, end));
        }
    }
    None
}

const OK: &[u8] = b"HTTP/1.1 200 OK\r\nContent-Length: 2\r\n\r\nok";

static ATTACKS: [Attack; 16] = [
    Attack {
        name: "an answer in pieces, after the whole text",
        request: POST,
        is_kept: false,
        events: &[
            Event::Wrote(4, 1),
            Event::Wrote(6, 2),
            Event::Came(b"HTTP/1.1 200 OK\r\nContent-", 3),
            Event::Came(b"Length: 2\r\n\r\no", 4),
            Event::Came(b"k", 5),
        ],
        ends: Where::Response(200, true),
    },
    Attack {
        name: "an answer before the whole text was written",
        request: POST,
        is_kept: false,
        events: &[Event::Wrote(9, 1), Event::Came(OK, 2)],
        ends: Where::Response(200, false),
    },
    Attack {
        name: "bytes behind the answer",
        request: GET,
        is_kept: false,
        events: &[
            Event::Wrote(10, 1),
            Event::Came(b"HTTP/1.1 204 No Content\r\n\r\nH", 2),
        ],
        ends: Where::Response(204, false),
    },
    Attack {
        name: "an answer that closes its connection, in a list",
        request: GET,
        is_kept: false,
        events: &[
            Event::Wrote(10, 1),
            Event::Came(
                b"HTTP/1.1 204 No Content\r\nConnection: keep-alive, Close\r\n\r\n",
                2,
            ),
        ],
        ends: Where::Response(204, false),
    },
    Attack {
        name: "an answer of version 1.0",
        request: GET,
        is_kept: false,
        events: &[
            Event::Wrote(10, 1),
            Event::Came(b"HTTP/1.0 200 OK\r\nContent-Length: 0\r\n\r\n", 2),
        ],
        ends: Where::Response(200, false),
    },
    Attack {
        name: "an answer after which the end was announced",
        request: GET,
        is_kept: false,
        events: &[Event::Wrote(10, 1), Event::Ending, Event::Came(OK, 2)],
        ends: Where::Response(200, false),
    },
    Attack {
        name: "an answer that goes to the end",
        request: GET,
        is_kept: false,
        events: &[
            Event::Wrote(10, 1),
            Event::Came(b"HTTP/1.1 200 OK\r\n\r\nall", 2),
            Event::End(3),
        ],
        ends: Where::Response(200, false),
    },
    Attack {
        name: "a kept connection that ends as it is used, idempotent",
        request: GET,
        is_kept: true,
        events: &[Event::Wrote(10, 1), Event::End(2)],
        ends: Where::Again,
    },
    Attack {
        name: "a kept connection that ends as it is used, not idempotent",
        request: POST,
        is_kept: true,
        events: &[Event::Wrote(1, 1), Event::End(2)],
        ends: Where::Refused(
            ForwardFault::Response(ResponseFault::Closed),
            Health::Unknown,
        ),
    },
    Attack {
        name: "a kept connection that takes nothing, not idempotent",
        request: POST,
        is_kept: true,
        events: &[Event::Unread(1), Event::Fail(2)],
        ends: Where::Again,
    },
    Attack {
        name: "a kept connection that is reset within an answer",
        request: GET,
        is_kept: true,
        events: &[Event::Wrote(10, 1), Event::Came(b"H", 2), Event::Fail(3)],
        ends: Where::Refused(ForwardFault::ConnectFailed, Health::Answers),
    },
    Attack {
        name: "a new connection that is reset",
        request: GET,
        is_kept: false,
        events: &[Event::Wrote(10, 1), Event::Fail(2)],
        ends: Where::Refused(ForwardFault::ConnectFailed, Health::Unknown),
    },
    Attack {
        name: "an endpoint that is silent, a moment before its timeout",
        request: GET,
        is_kept: true,
        events: &[Event::Wrote(10, 1), Event::Look(30_000)],
        ends: Where::GoesOn,
    },
    Attack {
        name: "an endpoint that is silent, at its timeout",
        request: GET,
        is_kept: true,
        events: &[Event::Wrote(10, 1), Event::Look(30_001)],
        ends: Where::Refused(ForwardFault::ResponseTimeout, Health::Fails),
    },
    Attack {
        name: "an endpoint that sends a byte now and then, at the timeout of the response",
        request: GET,
        is_kept: false,
        events: &[
            Event::Wrote(10, 1),
            Event::Came(b"HTTP", 29_000),
            Event::Came(b"/1.1", 58_000),
            Event::Look(60_000),
        ],
        ends: Where::Refused(ForwardFault::ResponseTimeout, Health::Answers),
    },
    Attack {
        name: "an endpoint that reads no more and ends without an answer",
        request: GET,
        is_kept: false,
        events: &[Event::Wrote(3, 1), Event::Unread(2), Event::End(3)],
        ends: Where::Refused(ForwardFault::ConnectFailed, Health::Unknown),
    },
];

#[test]
fn endpoints_that_answer_well_badly_or_not(rt: HostRuntime) {
    assert_eq!(rt; first_wrong(rt.alloc(), &ATTACKS), None);
}
