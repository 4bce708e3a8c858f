//! Clients that get pages with their refusals.

use super::{ALL, Attack, Event, GET, SETTINGS, Where, first_wrong};
use bg_client_side::ClientSettings;
use bg_endpoint_side::DialFault;
use bg_http::RefusalBody;

const PAGES: ClientSettings = ClientSettings {
    refusal_body: RefusalBody::Page,
    ..SETTINGS
};

static ATTACKS: [Attack; 4] = [
    Attack {
        name: "a browser whose request gets no seat",
        events: &[
            Event::Came(
                b"GET /a HTTP/1.1\r\nHost: x\r\nAccept: text/html,*/*;q=0.8\r\n\r\n",
                1,
            ),
            Event::Enter,
            Event::Refuse(2),
            Event::Took(ALL, 3),
        ],
        to_client: b"HTTP/1.1 503 Service Unavailable\r\nContent-Type: text/html; charset=utf-8\r\nContent-Length: 88\r\nConnection: close\r\n\r\n<!DOCTYPE html>\n<title>503 Service Unavailable</title>\n<h1>503 Service Unavailable</h1>\n",
        to_endpoint: b"",
        ends: Where::Elsewhere,
    },
    Attack {
        name: "a client that does not name HTML, whose endpoint cannot be dialled",
        events: &[
            Event::Came(GET, 1),
            Event::Enter,
            Event::Dial(2),
            Event::DialFailed(DialFault::Failed, 3),
            Event::Took(ALL, 4),
        ],
        to_client: b"HTTP/1.1 502 Bad Gateway\r\nContent-Type: text/plain; charset=utf-8\r\nContent-Length: 16\r\nConnection: close\r\n\r\n502 Bad Gateway\n",
        to_endpoint: b"",
        ends: Where::Elsewhere,
    },
    Attack {
        name: "a HEAD, whose endpoint answers what is no response",
        events: &[
            Event::Came(
                b"HEAD /a HTTP/1.1\r\nHost: x\r\nAccept: text/html\r\n\r\n",
                1,
            ),
            Event::Enter,
            Event::Dial(2),
            Event::OnNew(3),
            Event::EndpointTook(ALL, 4),
            Event::Gave(b"SMTP ready\r\n\r\n", 5),
            Event::Took(ALL, 6),
        ],
        to_client: b"HTTP/1.1 502 Bad Gateway\r\nContent-Type: text/html; charset=utf-8\r\nContent-Length: 72\r\nConnection: close\r\n\r\n",
        to_endpoint: b"[new]HEAD /a HTTP/1.1\r\nHost: x\r\nAccept: text/html\r\nVia: 1.1 bg-switch\r\n\r\n[closed]",
        ends: Where::Elsewhere,
    },
    Attack {
        name: "what is no request",
        events: &[
            Event::Came(b"GET /a HTTP/1.1\r\nAccept: text/html\r\n\r\n", 1),
            Event::Took(ALL, 2),
        ],
        to_client: b"HTTP/1.1 400 Bad Request\r\nContent-Type: text/plain; charset=utf-8\r\nContent-Length: 16\r\nConnection: close\r\n\r\n400 Bad Request\n",
        to_endpoint: b"",
        ends: Where::Elsewhere,
    },
];

#[test]
fn refusals_with_pages(rt: HostRuntime) {
    assert_eq!(rt; first_wrong(rt.alloc(), PAGES, &ATTACKS), Ok(None));
}
