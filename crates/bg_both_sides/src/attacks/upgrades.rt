//! Requests that ask for an upgrade, and endpoints that accept it, or do not.

use super::{ALL, Attack, Event, GET, OK, REFUSED_502, SETTINGS, Where, first_wrong};

const ASKS: &[u8] =
    b"GET /c HTTP/1.1\r\nHost: x\r\nConnection: Upgrade\r\nUpgrade: websocket\r\n\r\n";

/// The same, and bytes behind it.
const ASKS_AND_GOES_ON: &[u8] =
    b"GET /c HTTP/1.1\r\nHost: x\r\nConnection: Upgrade\r\nUpgrade: websocket\r\n\r\nframe";

const ACCEPTS: &[u8] =
    b"HTTP/1.1 101 Switching Protocols\r\nUpgrade: websocket\r\nConnection: Upgrade\r\n\r\n";

static ATTACKS: [Attack; 10] = [
    Attack {
        name: "an upgrade that is accepted in pieces, with bytes behind both heads",
        events: &[
            Event::Came(ASKS_AND_GOES_ON, 1),
            Event::Enter,
            Event::DialToUpgrade(2),
            Event::OnNew(3),
            Event::EndpointTook(ALL, 4),
            Event::Gave(b"HTTP/1.1 101 A\r\nUpgrade: WebSocket\r\nConn", 5),
            Event::Gave(b"ection: Upgrade\r\n\r\nhello", 6),
        ],
        to_client: b"HTTP/1.1 101 A\r\nUpgrade: WebSocket\r\nConnection: upgrade\r\n\r\nhello",
        to_endpoint: b"[new]GET /c HTTP/1.1\r\nHost: x\r\nVia: 1.1 bg-switch\r\nUpgrade: websocket\r\nConnection: upgrade\r\n\r\n[tunnel]frame",
        ends: Where::Left,
    },
    Attack {
        name: "an upgrade that is accepted while responses are passed on as they come",
        events: &[
            Event::Came(ASKS, 1),
            Event::Enter,
            Event::DialToUpgrade(2),
            Event::Streamed(false, 3),
            Event::EndpointTook(ALL, 4),
            Event::Gave(ACCEPTS, 5),
        ],
        to_client: b"HTTP/1.1 101 Switching Protocols\r\nUpgrade: websocket\r\nConnection: upgrade\r\n\r\n",
        to_endpoint: b"[streamed]GET /c HTTP/1.1\r\nHost: x\r\nVia: 1.1 bg-switch\r\nUpgrade: websocket\r\nConnection: upgrade\r\n\r\n[tunnel]",
        ends: Where::Left,
    },
    Attack {
        name: "an upgrade that is not accepted, after which both connections are kept",
        events: &[
            Event::Came(ASKS, 1),
            Event::Enter,
            Event::DialToUpgrade(2),
            Event::OnNew(3),
            Event::EndpointTook(ALL, 4),
            Event::Gave(OK, 5),
            Event::Took(ALL, 6),
        ],
        to_client: b"HTTP/1.1 200 OK\r\nContent-Length: 2\r\n\r\nok",
        to_endpoint: b"[new]GET /c HTTP/1.1\r\nHost: x\r\nVia: 1.1 bg-switch\r\nUpgrade: websocket\r\nConnection: upgrade\r\n\r\n[back]",
        ends: Where::Idle,
    },
    Attack {
        name: "an upgrade that is not passed on, and is accepted",
        events: &[
            Event::Came(ASKS, 1),
            Event::Enter,
            Event::Dial(2),
            Event::OnNew(3),
            Event::EndpointTook(ALL, 4),
            Event::Gave(ACCEPTS, 5),
            Event::Took(ALL, 6),
        ],
        to_client: REFUSED_502,
        to_endpoint: b"[new]GET /c HTTP/1.1\r\nHost: x\r\nVia: 1.1 bg-switch\r\n\r\n[closed]",
        ends: Where::Elsewhere,
    },
    Attack {
        name: "a request that asks for no upgrade, and gets a 101",
        events: &[
            Event::Came(GET, 1),
            Event::Enter,
            Event::DialToUpgrade(2),
            Event::OnNew(3),
            Event::EndpointTook(ALL, 4),
            Event::Gave(ACCEPTS, 5),
            Event::Took(ALL, 6),
        ],
        to_client: REFUSED_502,
        to_endpoint: b"[new]GET /a HTTP/1.1\r\nHost: x\r\nVia: 1.1 bg-switch\r\n\r\n[closed]",
        ends: Where::Elsewhere,
    },
    Attack {
        name: "a 101 before the request is written",
        events: &[
            Event::Came(ASKS, 1),
            Event::Enter,
            Event::DialToUpgrade(2),
            Event::OnNew(3),
            Event::EndpointTook(3, 4),
            Event::Gave(ACCEPTS, 5),
            Event::Took(ALL, 6),
        ],
        to_client: REFUSED_502,
        to_endpoint: b"[new]GET[closed]",
        ends: Where::Elsewhere,
    },
    Attack {
        name: "a 101 to another protocol",
        events: &[
            Event::Came(ASKS, 1),
            Event::Enter,
            Event::DialToUpgrade(2),
            Event::OnNew(3),
            Event::EndpointTook(ALL, 4),
            Event::Gave(
                b"HTTP/1.1 101 A\r\nUpgrade: h2c\r\nConnection: Upgrade\r\n\r\n",
                5,
            ),
            Event::Took(ALL, 6),
        ],
        to_client: REFUSED_502,
        to_endpoint: b"[new]GET /c HTTP/1.1\r\nHost: x\r\nVia: 1.1 bg-switch\r\nUpgrade: websocket\r\nConnection: upgrade\r\n\r\n[closed]",
        ends: Where::Elsewhere,
    },
    Attack {
        name: "a 101 behind an interim response",
        events: &[
            Event::Came(ASKS, 1),
            Event::Enter,
            Event::DialToUpgrade(2),
            Event::OnNew(3),
            Event::EndpointTook(ALL, 4),
            Event::Gave(b"HTTP/1.1 103 Early\r\n\r\n", 5),
            Event::Gave(ACCEPTS, 6),
            Event::Took(ALL, 7),
        ],
        to_client: REFUSED_502,
        to_endpoint: b"[new]GET /c HTTP/1.1\r\nHost: x\r\nVia: 1.1 bg-switch\r\nUpgrade: websocket\r\nConnection: upgrade\r\n\r\n[closed]",
        ends: Where::Elsewhere,
    },
    Attack {
        name: "an upgrade that is sent again, and is accepted there",
        events: &[
            Event::Came(ASKS, 1),
            Event::Enter,
            Event::DialToUpgrade(2),
            Event::OnKept(3),
            Event::EndpointTook(2, 4),
            Event::EndpointEnded(5),
            Event::OnNew(6),
            Event::EndpointTook(ALL, 7),
            Event::Gave(ACCEPTS, 8),
        ],
        to_client: b"HTTP/1.1 101 Switching Protocols\r\nUpgrade: websocket\r\nConnection: upgrade\r\n\r\n",
        to_endpoint: b"[kept]GE[again][new]GET /c HTTP/1.1\r\nHost: x\r\nVia: 1.1 bg-switch\r\nUpgrade: websocket\r\nConnection: upgrade\r\n\r\n[tunnel]",
        ends: Where::Left,
    },
    Attack {
        name: "a head of an acceptance that is cut off",
        events: &[
            Event::Came(ASKS, 1),
            Event::Enter,
            Event::DialToUpgrade(2),
            Event::OnNew(3),
            Event::EndpointTook(ALL, 4),
            Event::Gave(b"HTTP/1.1 101 A\r\nUpgrade: websocket\r\n", 5),
            Event::EndpointEnded(6),
            Event::Took(ALL, 7),
        ],
        to_client: REFUSED_502,
        to_endpoint: b"[new]GET /c HTTP/1.1\r\nHost: x\r\nVia: 1.1 bg-switch\r\nUpgrade: websocket\r\nConnection: upgrade\r\n\r\n[closed]",
        ends: Where::Elsewhere,
    },
];

#[test]
fn upgrades_that_are_accepted_or_not(rt: HostRuntime) {
    assert_eq!(rt; first_wrong(rt.alloc(), SETTINGS, &ATTACKS), Ok(None));
}
