//! Refusals with pages: the page is the one for the request that was received, and a text if none was.

use crate::connections::{Receiving, SOUND, Setting};
use crate::messages::{CHUNKS_ON, Expected, expect, refusal};
use bg_forward::{End, RefusalBody};
use bg_http::RequestFault;
use std::test::Fail;

/// A request as a browser sends it.
const OF_BROWSER: &str = "GET /a HTTP/1.1\r\nHost: x\r\nAccept: text/html,*/*;q=0.8\r\n\r\n";

/// The head of a browser that asks for a head alone.
const HEAD_OF_BROWSER: &str = "HEAD /a HTTP/1.1\r\nHost: x\r\nAccept: text/html\r\n\r\n";

/// Pages of the statuses 502 and 503.
const TEXT_502: &str =
    "HTTP/1.1 502 Bad Gateway\r\nContent-Type: text/plain; charset=utf-8\r\nContent-Length: 16\r\nConnection: close\r\n\r\n502 Bad Gateway\n";

const HTML_502: &str =
    "HTTP/1.1 502 Bad Gateway\r\nContent-Type: text/html; charset=utf-8\r\nContent-Length: 72\r\nConnection: close\r\n\r\n<!DOCTYPE html>\n<title>502 Bad Gateway</title>\n<h1>502 Bad Gateway</h1>\n";

const HEAD_502: &str =
    "HTTP/1.1 502 Bad Gateway\r\nContent-Type: text/html; charset=utf-8\r\nContent-Length: 72\r\nConnection: close\r\n\r\n";

const TEXT_503: &str =
    "HTTP/1.1 503 Service Unavailable\r\nContent-Type: text/plain; charset=utf-8\r\nContent-Length: 24\r\nConnection: close\r\n\r\n503 Service Unavailable\n";

const HTML_503: &str =
    "HTTP/1.1 503 Service Unavailable\r\nContent-Type: text/html; charset=utf-8\r\nContent-Length: 88\r\nConnection: close\r\n\r\n<!DOCTYPE html>\n<title>503 Service Unavailable</title>\n<h1>503 Service Unavailable</h1>\n";

/// A request, and the pages of its refusals by an endpoint that gives no response and by a gate that is shut.
const PAGES: [(&str, &str, &str); 3] = [
    (
        "GET /a HTTP/1.1\r\nHost: x\r\nAccept: text/html;q=0\r\n\r\n",
        TEXT_502,
        TEXT_503,
    ),
    (OF_BROWSER, HTML_502, HTML_503),
    (
        "GET /a HTTP/1.1\r\nHost: x\r\nAccept: text/css\r\naccept: TEXT/HTML\r\n\r\n",
        HTML_502,
        HTML_503,
    ),
];

/// A connection whose refusals have pages. Nothing is expected of what goes to its endpoint.
fn paged(request: &str) -> Setting<'_> {
    Setting {
        name: request,
        request,
        receiving: Receiving::Before,
        refusal_body: RefusalBody::Page,
        ..SOUND
    }
}

/// The same, where the endpoint gives no response.
fn broken(request: &str) -> Setting<'_> {
    Setting {
        response: "",
        ..paged(request)
    }
}

/// A refusal with this page. Only a request to which the endpoint gives no response has entered.
fn refused(status: u16, page: &str) -> Expected<'_> {
    let end = End::Refused(status);
    match status {
        502 => Expected::entered(end, page),
        _ => Expected::outside(end, page),
    }
}

#[test]
fn refused_requests_have_pages(rt: HostRuntime) -> Result<(), Fail> {
    for (request, bad_gateway, unavailable) in PAGES {
        expect(&rt, rt.alloc(), &broken(request), refused(502, bad_gateway))?;
        let shut = Setting {
            shut: true,
            ..paged(request)
        };
        expect(&rt, rt.alloc(), &shut, refused(503, unavailable))?;
    }
    Ok(())
}

#[test]
fn a_head_request_gets_the_head_alone(rt: HostRuntime) -> Result<(), Fail> {
    expect(
        &rt,
        rt.alloc(),
        &broken(HEAD_OF_BROWSER),
        refused(502, HEAD_502),
    )?;
    Ok(())
}

#[test]
fn responses_have_no_pages(rt: HostRuntime) -> Result<(), Fail> {
    let expected = Expected::entered(End::Answered(200), CHUNKS_ON);
    expect(&rt, rt.alloc(), &paged(OF_BROWSER), expected)?;
    Ok(())
}

#[test]
fn faults_have_texts(rt: HostRuntime) -> Result<(), Fail> {
    let fault = Setting {
        receiving: Receiving::Fault(RequestFault::OutOfMemory),
        ..paged(OF_BROWSER)
    };
    expect(&rt, rt.alloc(), &fault, refused(503, TEXT_503))?;
    Ok(())
}

#[test]
fn refusals_without_pages_stay(rt: HostRuntime) -> Result<(), Fail> {
    let without_page = Setting {
        refusal_body: RefusalBody::Empty,
        ..broken(OF_BROWSER)
    };
    expect(&rt, rt.alloc(), &without_page, refused(502, refusal(502)))?;
    Ok(())
}
