//! Requests that go to another endpoint, since their own cannot be dialled.

use super::{ALL, Attack, Event, OK, REFUSED_502, SETTINGS, Where, first_wrong};
use bg_endpoint_side::DialFault;

/// A request without a Host, so that the text for an endpoint names its port.
const OLD: &[u8] = b"GET /a HTTP/1.0\r\n\r\n";

static ATTACKS: [Attack; 6] = [
    Attack {
        name: "a request whose endpoint cannot be dialled, and which another one answers",
        events: &[
            Event::Came(OLD, 1),
            Event::Enter,
            Event::Dial(2),
            Event::DialElsewhere(8082, 3),
            Event::OnNew(4),
            Event::EndpointTook(ALL, 5),
            Event::Gave(OK, 6),
            Event::Took(ALL, 7),
        ],
        to_client: b"HTTP/1.1 200 OK\r\nContent-Length: 2\r\nConnection: close\r\n\r\nok",
        to_endpoint: b"[new]GET /a HTTP/1.1\r\nHost: 127.0.0.1:8082\r\nVia: 1.0 bg-switch\r\n\r\n[back]",
        ends: Where::Elsewhere,
    },
    Attack {
        name: "a request that goes to a third endpoint, by a connection that was kept",
        events: &[
            Event::Came(OLD, 1),
            Event::Enter,
            Event::Dial(2),
            Event::DialElsewhere(8082, 3),
            Event::DialElsewhere(8083, 4),
            Event::OnKept(5),
            Event::EndpointTook(ALL, 6),
        ],
        to_client: b"",
        to_endpoint: b"[kept]GET /a HTTP/1.1\r\nHost: 127.0.0.1:8083\r\nVia: 1.0 bg-switch\r\n\r\n",
        ends: Where::AtEndpoint,
    },
    Attack {
        name: "a request of which all dials fail",
        events: &[
            Event::Came(OLD, 1),
            Event::Enter,
            Event::Dial(2),
            Event::DialElsewhere(8082, 3),
            Event::DialFailed(DialFault::Failed, 4),
            Event::Took(ALL, 5),
        ],
        to_client: REFUSED_502,
        to_endpoint: b"",
        ends: Where::Elsewhere,
    },
    Attack {
        name: "a dial elsewhere has five seconds of its own, within the timeout of the response",
        events: &[
            Event::Came(OLD, 1),
            Event::Enter,
            Event::Dial(2),
            Event::DialElsewhere(8082, 5_002),
            Event::Late(10_001),
            Event::DialElsewhere(8083, 59_000),
            Event::Late(60_001),
            Event::OnNew(60_001),
            Event::EndpointTook(ALL, 60_001),
            Event::Late(60_002),
            Event::Took(ALL, 60_003),
        ],
        to_client: REFUSED_502,
        to_endpoint: b"[new]GET /a HTTP/1.1\r\nHost: 127.0.0.1:8083\r\nVia: 1.0 bg-switch\r\n\r\n[closed]",
        ends: Where::Elsewhere,
    },
    Attack {
        name: "a request that was sent on a connection that was kept",
        events: &[
            Event::Came(OLD, 1),
            Event::Enter,
            Event::Dial(2),
            Event::OnKept(3),
            Event::EndpointTook(ALL, 4),
            Event::EndpointEnded(5),
            Event::DialElsewhere(8082, 6),
            Event::OnNew(7),
            Event::EndpointTook(ALL, 8),
        ],
        to_client: b"",
        to_endpoint: b"[kept]GET /a HTTP/1.1\r\nHost: 127.0.0.1:8081\r\nVia: 1.0 bg-switch\r\n\r\n[again][new]GET /a HTTP/1.1\r\nHost: 127.0.0.1:8081\r\nVia: 1.0 bg-switch\r\n\r\n",
        ends: Where::AtEndpoint,
    },
    Attack {
        name: "a request that is forwarded",
        events: &[
            Event::Came(OLD, 1),
            Event::Enter,
            Event::Dial(2),
            Event::OnNew(3),
            Event::DialElsewhere(8082, 4),
            Event::EndpointTook(ALL, 5),
        ],
        to_client: b"",
        to_endpoint: b"[new]GET /a HTTP/1.1\r\nHost: 127.0.0.1:8081\r\nVia: 1.0 bg-switch\r\n\r\n",
        ends: Where::AtEndpoint,
    },
];

#[test]
fn requests_that_go_elsewhere(rt: HostRuntime) {
    assert_eq!(rt; first_wrong(rt.alloc(), SETTINGS, &ATTACKS), Ok(None));
}
