//! The pages of refusals: which page a request gets, and how a client reads a page.
use bg_http::{ErrorPage, MemoryStream, Request, page_for, write_error_page};
use bg_http_read::{read_request, read_response};
use std::alloc::Global;

/// A request, and its page.
type Row<'a> = (&'a [u8], ErrorPage);

/// The fields of browsers and programs, as they send them.
static ASKED: [Row<'static>; 6] = [
    (
        b"GET / HTTP/1.1\r\nHost: x\r\nUser-Agent: Firefox\r\nAccept: text/html,application/xhtml+xml,application/xml;q=0.9,*/*;q=0.8\r\n\r\n",
        ErrorPage::Html,
    ),
    (
        b"GET / HTTP/1.1\r\nHost: x\r\nAccept: application/json\r\nACCEPT:\ttext/HTML\t; level=1\r\n\r\n",
        ErrorPage::Html,
    ),
    (
        b"GET / HTTP/1.1\r\nHost: x\r\nUser-Agent: curl/7.88.1\r\nAccept: */*\r\n\r\n",
        ErrorPage::Text,
    ),
    (
        b"GET / HTTP/1.1\r\nHost: x\r\nAccept: text/html;level=2;Q=0.00\r\n\r\n",
        ErrorPage::Text,
    ),
    (
        b"GET / HTTP/1.1\r\nHost: x\r\nAccept-Language: text/html\r\nAccept: text/html5\r\n\r\n",
        ErrorPage::Text,
    ),
    (b"GET / HTTP/1.0\r\n\r\n", ErrorPage::Text),
];

/// The request of a text.
fn request_of(alloc: Global, text: &[u8]) -> Option<Request> {
    let mut stream = MemoryStream::new(alloc, text);
    read_request(alloc, &mut stream).ok()
}

/// Whether a request gets the page of its row.
fn is_asked(alloc: Global, row: &Row<'_>) -> bool {
    match request_of(alloc, row.0) {
        Some(request) => page_for(&request.fields) == row.1,
        None => false,
    }
}

/// Whether the page of a 502 is read as one response with this body, if the request has this text.
fn is_read(alloc: Global, text: &[u8], to_head: bool, body: &[u8]) -> bool {
    let mut written = Vec::new(alloc);
    if write_error_page(502, ErrorPage::Html, to_head, &mut written).is_err() {
        return false;
    }
    let Some(request) = request_of(alloc, text) else {
        return false;
    };
    match read_response(alloc, &request, &mut written.as_slice()) {
        Ok(response) => response.code == 502 && response.body.get() == body,
        Err(_) => false,
    }
}

#[test]
fn a_request_gets_the_page_that_it_accepts(rt: HostRuntime) {
    for row in &ASKED {
        assert!(rt; is_asked(rt.alloc(), row), "{}", row.0.escape_ascii());
    }
}

#[test]
fn a_page_is_read_as_one_response(rt: HostRuntime) {
    let alloc = rt.alloc();
    let body = b"<!DOCTYPE html>\n<title>502 Bad Gateway</title>\n<h1>502 Bad Gateway</h1>\n";
    assert!(rt; is_read(alloc, b"GET / HTTP/1.1\r\nHost: x\r\n\r\n", false, body));
    assert!(rt; is_read(alloc, b"HEAD / HTTP/1.1\r\nHost: x\r\n\r\n", true, b""));
}
