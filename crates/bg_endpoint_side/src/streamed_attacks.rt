//! Requests whose responses are passed on as they come, at endpoints and clients that are fast, slow or gone.

use crate::deadlines::Timeouts;
use crate::dialing_request::DialingRequest;
use crate::outcome::{ForwardFault, GivingUp, Health};
use crate::streamed_request::StreamedRequest;
use crate::streamed_step::StreamedStep;
use crate::terms::{Terms, is_idempotent};
use bg_http::{Persistence, Request, ResponseFault};
use bg_http_read::request_in;
use bg_streams::StreamTerms;
use std::alloc::Global;

const GET: &[u8] = b"GET / HTTP/1.1\r\nHost: x\r\n\r\n";

/// The text that is written to the endpoint: ten bytes.
const TEXT: &[u8] = b"0123456789";

const TIMEOUTS: Timeouts = Timeouts {
    response: 600_000,
    idle: 30_000,
};

/// What happens on the two connections, at a moment in milliseconds.
enum Event {
    Wrote(usize, u64),
    Came(&'static [u8], u64),
    Took(usize, u64),
    /// A write failed since the endpoint reads no more.
    ReadsNoMore(u64),
    End(u64),
    Reset(u64),
    Look(u64),
    GiveUp(GivingUp),
}

/// Where a request is after its events.
#[derive(Clone, Copy, PartialEq, Eq, Debug, Drop)]
enum Where {
    /// Its response is not whole.
    GoesOn(Health),
    /// Its response is whole; how many bytes of it the client is still to take, and whether the connection goes back.
    Whole(usize, bool),
    Again,
    Refused(ForwardFault, Health),
    Cut(ForwardFault, Health),
    /// The request of the test is no request.
    Invalid,
}

struct Attack {
    name: &'static str,
    is_kept: bool,
    events: &'static [Event],
    ends: Where,
}

fn happens(request: StreamedRequest, event: &Event) -> StreamedStep {
    let mut request = request;
    match event {
        Event::Wrote(count, now) => request.wrote(*count, *now),
        Event::ReadsNoMore(now) => request.note_unread(*now),
        Event::Came(bytes, now) => return request.receive(bytes, *now),
        Event::Took(count, now) => return request.took(*count, *now),
        Event::End(now) => return request.end(*now),
        Event::Reset(now) => return request.fail(*now),
        Event::Look(now) => return request.look(*now),
        Event::GiveUp(why) => return request.give_up(*why),
    }
    StreamedStep::GoesOn(request)
}

/// Where a request is after a step that is its last one, or the request, if it goes on.
fn followed(step: StreamedStep) -> Result<StreamedRequest, Where> {
    match step {
        StreamedStep::GoesOn(request) => Ok(request),
        StreamedStep::Again(dialing) if dialing.is_unsent() => Err(Where::Invalid),
        StreamedStep::Again(_) => Err(Where::Again),
        StreamedStep::Whole(answer) => Err(Where::Whole(answer.rest.len(), answer.goes_back)),
        StreamedStep::Refused(why, health) => Err(Where::Refused(why, health)),
        StreamedStep::Cut(why, health) => Err(Where::Cut(why, health)),
    }
}

fn all_happen(request: StreamedRequest, events: &[Event]) -> Where {
    let mut request = request;
    for event in events {
        match followed(happens(request, event)) {
            Ok(next) => request = next,
            Err(end) => return end,
        }
    }
    Where::GoesOn(request.health())
}

fn begin(alloc: Global, request: &Request, is_kept: bool) -> Option<StreamedRequest> {
    let terms = Terms {
        port: 8081,
        persistence: Persistence::Keep,
        is_idempotent: is_idempotent(request),
        asks_for_upgrade: false,
    };
    let text = Vec::from_slice(alloc, TEXT).ok()?;
    let dialing = DialingRequest::new(alloc, request, (text, terms), TIMEOUTS, 0).ok()?;
    let client = StreamTerms {
        reads_chunks: true,
        persistence: Persistence::Keep,
        window: 4,
        most_body: usize::MAX,
    };
    dialing
        .streamed_on(alloc, is_kept, (request, client), 0)
        .ok()
}

fn end_of(alloc: Global, attack: &Attack) -> Where {
    let Ok(request) = request_in(alloc, GET) else {
        return Where::Invalid;
    };
    match begin(alloc, &request, attack.is_kept) {
        Some(streamed) => all_happen(streamed, attack.events),
        None => Where::Invalid,
    }
}

/// The name of the first attack that does not end as it should, and where it ends.
fn first_wrong(alloc: Global, attacks: &[Attack]) -> Option<(&'static str, Where)> {
    for attack in attacks {
        let end = end_of(alloc, attack);
        if end != attack.ends {
            return Some((attack.name, end));
        }
    }
    None
}

const OK: &[u8] = b"HTTP/1.1 200 OK\r\nContent-Length: 2\r\n\r\nok";

/// More bytes of a body than are held at a time.
const LONG: &[u8] = b"HTTP/1.1 200 OK\r\nContent-Length: 12\r\n\r\n0123456789";

static ATTACKS: [Attack; 20] = [
    Attack {
        name: "a response at once, after the whole text",
        is_kept: false,
        events: &[Event::Wrote(10, 1), Event::Came(OK, 2)],
        ends: Where::Whole(40, true),
    },
    Attack {
        name: "a response in pieces",
        is_kept: false,
        events: &[
            Event::Wrote(4, 1),
            Event::Wrote(6, 2),
            Event::Came(b"HTTP", 3),
            Event::Came(b"/1.1 200 OK\r\nContent-Length: 2\r\n\r\no", 4),
            Event::Took(38, 5),
            Event::Came(b"k", 6),
        ],
        ends: Where::Whole(2, true),
    },
    Attack {
        name: "a response that is taken to its end",
        is_kept: false,
        events: &[
            Event::Wrote(10, 1),
            Event::Came(LONG, 2),
            Event::Took(39, 3),
            Event::Took(4, 4),
            Event::Took(4, 5),
            Event::Took(2, 6),
            Event::Came(b"ab", 7),
        ],
        ends: Where::Whole(2, true),
    },
    Attack {
        name: "a response before the whole text was written",
        is_kept: false,
        events: &[Event::Wrote(9, 1), Event::Came(OK, 2)],
        ends: Where::Whole(40, false),
    },
    Attack {
        name: "a byte behind the response",
        is_kept: false,
        events: &[
            Event::Wrote(10, 1),
            Event::Came(b"HTTP/1.1 200 OK\r\nContent-Length: 2\r\n\r\nokH", 2),
        ],
        ends: Where::Whole(40, false),
    },
    Attack {
        name: "an endpoint that is silent, a moment before its timeout",
        is_kept: false,
        events: &[
            Event::Wrote(10, 1),
            Event::Came(b"HTTP", 20_000),
            Event::Look(49_999),
        ],
        ends: Where::GoesOn(Health::Answers),
    },
    Attack {
        name: "an endpoint that is silent, at its timeout",
        is_kept: false,
        events: &[
            Event::Wrote(10, 1),
            Event::Came(b"HTTP", 20_000),
            Event::Look(50_000),
        ],
        ends: Where::Refused(ForwardFault::ResponseTimeout, Health::Fails),
    },
    Attack {
        name: "a client that takes nothing",
        is_kept: false,
        events: &[
            Event::Wrote(10, 1),
            Event::Came(LONG, 2),
            Event::Look(500_000),
        ],
        ends: Where::GoesOn(Health::Answers),
    },
    Attack {
        name: "a client that takes late, a moment before the timeout of the endpoint",
        is_kept: false,
        events: &[
            Event::Wrote(10, 1),
            Event::Came(LONG, 2),
            Event::Took(39, 100_000),
            Event::Took(4, 200_000),
            Event::Took(4, 300_000),
            Event::Look(329_999),
        ],
        ends: Where::GoesOn(Health::Answers),
    },
    Attack {
        name: "a client that takes late, at the timeout of the endpoint",
        is_kept: false,
        events: &[
            Event::Wrote(10, 1),
            Event::Came(LONG, 2),
            Event::Took(39, 100_000),
            Event::Took(4, 200_000),
            Event::Took(4, 300_000),
            Event::Look(330_000),
        ],
        ends: Where::Cut(ForwardFault::ResponseTimeout, Health::Fails),
    },
    Attack {
        name: "a kept connection that is reset as it is used",
        is_kept: true,
        events: &[Event::Wrote(10, 1), Event::Reset(2)],
        ends: Where::Again,
    },
    Attack {
        name: "a kept connection that ends as it is used",
        is_kept: true,
        events: &[Event::Wrote(10, 1), Event::End(2)],
        ends: Where::Again,
    },
    Attack {
        name: "a kept connection that is reset within a response",
        is_kept: true,
        events: &[
            Event::Wrote(10, 1),
            Event::Came(LONG, 2),
            Event::Took(1, 3),
            Event::Reset(4),
        ],
        ends: Where::Cut(ForwardFault::ConnectFailed, Health::Answers),
    },
    Attack {
        name: "a connection that is reset before the client took a byte",
        is_kept: true,
        events: &[Event::Wrote(10, 1), Event::Came(LONG, 2), Event::Reset(4)],
        ends: Where::Refused(ForwardFault::ConnectFailed, Health::Answers),
    },
    Attack {
        name: "an endpoint that ends within the head",
        is_kept: false,
        events: &[
            Event::Wrote(10, 1),
            Event::Came(b"HTTP/1.1 200 OK\r\n", 2),
            Event::End(3),
        ],
        ends: Where::Refused(
            ForwardFault::Response(ResponseFault::Closed),
            Health::Answers,
        ),
    },
    Attack {
        name: "an endpoint that ends within the body",
        is_kept: false,
        events: &[
            Event::Wrote(10, 1),
            Event::Came(b"HTTP/1.1 200 OK\r\nContent-Length: 12\r\n\r\n0", 2),
            Event::Took(1, 3),
            Event::End(4),
        ],
        ends: Where::Cut(
            ForwardFault::Response(ResponseFault::Closed),
            Health::Answers,
        ),
    },
    Attack {
        name: "an endpoint that reads no more and ends",
        is_kept: false,
        events: &[
            Event::ReadsNoMore(1),
            Event::Came(b"HTTP/1.1 200 OK\r\n\r\n0", 2),
            Event::End(4),
        ],
        ends: Where::Refused(ForwardFault::ConnectFailed, Health::Answers),
    },
    Attack {
        name: "a body that goes to the end of the connection",
        is_kept: false,
        events: &[
            Event::Wrote(10, 1),
            Event::Came(b"HTTP/1.1 200 OK\r\n\r\n012", 2),
            Event::End(4),
        ],
        ends: Where::Whole(60, false),
    },
    Attack {
        name: "a client that goes before it took a byte",
        is_kept: false,
        events: &[
            Event::Wrote(10, 1),
            Event::Came(LONG, 2),
            Event::GiveUp(GivingUp::ClientGone),
        ],
        ends: Where::Refused(ForwardFault::ClientGone, Health::Answers),
    },
    Attack {
        name: "a client that goes",
        is_kept: false,
        events: &[
            Event::Wrote(10, 1),
            Event::Came(LONG, 2),
            Event::Took(1, 3),
            Event::GiveUp(GivingUp::ClientGone),
        ],
        ends: Where::Cut(ForwardFault::ClientGone, Health::Answers),
    },
];

#[test]
fn endpoints_and_clients_that_are_fast_slow_or_gone(rt: HostRuntime) {
    assert_eq!(rt; first_wrong(rt.alloc(), &ATTACKS), None);
}
