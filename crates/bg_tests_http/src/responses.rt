//! Responses as servers send them, each with the bytes that are forwarded to the client or the
//! refusal. Each answer is worked out by hand from RFC 9110, RFC 9112 and docs/HTTP.md.
mod answers;
mod refused;
mod to_head;

use crate::passing::{Kind, Outcome, first_not_bad, first_wrong};

/// A response whose body is `hi`.
const HI: Outcome<'static> = Outcome::GoesOn(
    b"HTTP/1.1 200 OK\r\nContent-Length: 2\r\nConnection: close\r\n\r\nhi",
);

#[test]
fn responses(rt: HostRuntime) {
    let alloc = rt.alloc();
    let get = Kind::ResponseTo(b"GET");
    let head_in_small_letters = Kind::ResponseTo(b"head");
    let head = Kind::ResponseTo(b"HEAD");
    assert_eq!(rt; first_wrong(alloc, get, answers::rows()), None);
    assert_eq!(rt; first_wrong(alloc, get, refused::rows()), None);
    assert_eq!(rt; first_not_bad(alloc, get, refused::bad_rows()), None);
    assert_eq!(rt;
        first_wrong(alloc, head_in_small_letters, answers::rows()),
        None
    );
    assert_eq!(rt; first_wrong(alloc, head, to_head::rows()), None);
}
