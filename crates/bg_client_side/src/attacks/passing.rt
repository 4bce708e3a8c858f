//! Responses that are passed on as they come, to clients that take them, stop, or are gone.

use super::Where;
use super::events::{Attack, Event, GET, TWO, first_wrong};
use bg_http::Persistence;

static ATTACKS: [Attack; 22] = [
    Attack {
        name: "a response that is passed on in pieces, on a connection that is kept",
        events: &[
            Event::Came(GET, 1),
            Event::Take,
            Event::Begin(Persistence::Keep, 2),
            Event::Passed(3, true, 3),
            Event::Passed(5, false, 4),
            Event::Rest(b"ok", 5),
            Event::Wrote(2, 6),
        ],
        ends: Where::Idle,
    },
    Attack {
        name: "a response of which all was passed on before its end",
        events: &[
            Event::Came(GET, 1),
            Event::Take,
            Event::Begin(Persistence::Keep, 2),
            Event::Passed(8, false, 3),
            Event::Rest(b"", 4),
            Event::Wrote(0, 5),
        ],
        ends: Where::Idle,
    },
    Attack {
        name: "a response whose head said close, and its rest does not",
        events: &[
            Event::Came(GET, 1),
            Event::Take,
            Event::Begin(Persistence::Close, 2),
            Event::Passed(3, true, 3),
            Event::Rest(b"ok", 4),
            Event::Wrote(2, 5),
        ],
        ends: Where::Lingering,
    },
    Attack {
        name: "a response whose head kept a connection that is not kept",
        events: &[
            Event::Came(b"GET / HTTP/1.0\r\n\r\n", 1),
            Event::Take,
            Event::Begin(Persistence::Keep, 2),
            Event::Rest(b"ok", 3),
            Event::Wrote(2, 4),
        ],
        ends: Where::Lingering,
    },
    Attack {
        name: "a response that is cut",
        events: &[
            Event::Came(GET, 1),
            Event::Take,
            Event::Begin(Persistence::Keep, 2),
            Event::Passed(3, true, 3),
            Event::Cut,
        ],
        ends: Where::Left,
    },
    Attack {
        name: "a client that takes nothing, a moment before its timeout",
        events: &[
            Event::Came(GET, 1),
            Event::Take,
            Event::Begin(Persistence::Keep, 2),
            Event::Passed(1, true, 1_000),
            Event::Passed(0, true, 20_000),
            Event::Look(30_999),
            Event::Rest(b"ok", 31_000),
        ],
        ends: Where::Answering,
    },
    Attack {
        name: "a client that takes nothing, at its timeout: its request is inside still",
        events: &[
            Event::Came(GET, 1),
            Event::Take,
            Event::Begin(Persistence::Keep, 2),
            Event::Passed(1, true, 1_000),
            Event::Passed(0, true, 20_000),
            Event::Look(31_000),
        ],
        ends: Where::PassingOn,
    },
    Attack {
        name: "a client that takes nothing, at its timeout, with the rest",
        events: &[
            Event::Came(GET, 1),
            Event::Take,
            Event::Begin(Persistence::Keep, 2),
            Event::Passed(1, true, 1_000),
            Event::Passed(0, true, 20_000),
            Event::Look(31_000),
            Event::Rest(b"ok", 31_001),
        ],
        ends: Where::Left,
    },
    Attack {
        name: "a response of which nothing waits for an hour",
        events: &[
            Event::Came(GET, 1),
            Event::Take,
            Event::Begin(Persistence::Keep, 2),
            Event::Passed(8, false, 3),
            Event::Look(3_600_003),
            Event::Rest(b"ok", 3_600_004),
        ],
        ends: Where::Answering,
    },
    Attack {
        name: "a response of which bytes wait after an hour, a moment before the timeout",
        events: &[
            Event::Came(GET, 1),
            Event::Take,
            Event::Begin(Persistence::Keep, 2),
            Event::Passed(8, false, 3),
            Event::Passed(0, true, 3_600_003),
            Event::Look(3_630_002),
            Event::Rest(b"ok", 3_630_003),
        ],
        ends: Where::Answering,
    },
    Attack {
        name: "a response of which bytes wait after an hour, at the timeout",
        events: &[
            Event::Came(GET, 1),
            Event::Take,
            Event::Begin(Persistence::Keep, 2),
            Event::Passed(8, false, 3),
            Event::Passed(0, true, 3_600_003),
            Event::Look(3_630_003),
            Event::Rest(b"ok", 3_630_004),
        ],
        ends: Where::Left,
    },
    Attack {
        name: "a response of a day, of which the client takes a byte now and then",
        events: &[
            Event::Came(GET, 1),
            Event::Take,
            Event::Begin(Persistence::Keep, 2),
            Event::Passed(8, false, 3),
            Event::Passed(1, true, 86_400_000),
            Event::Passed(1, true, 86_429_999),
            Event::Look(86_459_998),
            Event::Rest(b"ok", 86_459_999),
            Event::Wrote(2, 86_460_000),
        ],
        ends: Where::Idle,
    },
    Attack {
        name: "a client that resets its connection: its request is inside still",
        events: &[
            Event::Came(GET, 1),
            Event::Take,
            Event::Begin(Persistence::Keep, 2),
            Event::Fail,
            Event::Passed(0, true, 3),
        ],
        ends: Where::PassingOn,
    },
    Attack {
        name: "a client that resets its connection, and the response is cut",
        events: &[
            Event::Came(GET, 1),
            Event::Take,
            Event::Begin(Persistence::Keep, 2),
            Event::Fail,
            Event::Cut,
        ],
        ends: Where::Left,
    },
    Attack {
        name: "a client that ends its input, and takes the response",
        events: &[
            Event::Came(GET, 1),
            Event::Take,
            Event::Begin(Persistence::Keep, 2),
            Event::End,
            Event::Passed(8, false, 3),
        ],
        ends: Where::PassingOn,
    },
    Attack {
        name: "a client that ends its input, after the response",
        events: &[
            Event::Came(GET, 1),
            Event::Take,
            Event::Begin(Persistence::Keep, 2),
            Event::End,
            Event::Rest(b"ok", 3),
            Event::Wrote(2, 4),
        ],
        ends: Where::Left,
    },
    Attack {
        name: "a shutdown while a response is passed on",
        events: &[
            Event::Came(TWO, 1),
            Event::Take,
            Event::Begin(Persistence::Keep, 2),
            Event::Closing,
            Event::Passed(8, false, 3),
            Event::Rest(b"ok", 4),
            Event::Wrote(2, 5),
        ],
        ends: Where::Lingering,
    },
    Attack {
        name: "a request behind a response that is passed on, before the rest was written",
        events: &[
            Event::Came(TWO, 1),
            Event::Take,
            Event::Begin(Persistence::Keep, 2),
            Event::Came(GET, 3),
            Event::Passed(8, false, 4),
            Event::Wrote(9, 5),
            Event::Rest(b"ok", 6),
            Event::Wrote(1, 7),
        ],
        ends: Where::Answering,
    },
    Attack {
        name: "a request behind a response that is passed on, once the rest was written",
        events: &[
            Event::Came(TWO, 1),
            Event::Take,
            Event::Begin(Persistence::Keep, 2),
            Event::Passed(8, false, 3),
            Event::Rest(b"ok", 4),
            Event::Wrote(1, 5),
            Event::Wrote(1, 6),
        ],
        ends: Where::Waiting,
    },
    Attack {
        name: "a response that begins while its request waits",
        events: &[
            Event::Came(GET, 1),
            Event::Begin(Persistence::Keep, 2),
            Event::Passed(8, true, 3),
            Event::Cut,
        ],
        ends: Where::Waiting,
    },
    Attack {
        name: "a response that begins after its connection failed",
        events: &[
            Event::Came(GET, 1),
            Event::Take,
            Event::Fail,
            Event::Begin(Persistence::Keep, 2),
            Event::Passed(8, true, 3),
            Event::Cut,
        ],
        ends: Where::Inside,
    },
    Attack {
        name: "a response that begins again, by a head that says close",
        events: &[
            Event::Came(GET, 1),
            Event::Take,
            Event::Begin(Persistence::Keep, 2),
            Event::Begin(Persistence::Close, 3),
            Event::Rest(b"ok", 4),
            Event::Wrote(2, 5),
        ],
        ends: Where::Idle,
    },
];

#[test]
fn responses_are_passed_on_as_they_come(rt: HostRuntime) {
    assert_eq!(rt; first_wrong(rt.alloc(), &ATTACKS), None);
}
