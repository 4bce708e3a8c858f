//! Worked heads, and the bytes of endpoints.

use crate::{Acceptance, acceptance_text, asks_for_upgrade, find_acceptance, upgrade_text};
use bg_http::{Bytes, Fields, Request};
use std::alloc::{AllocError, Global};
use std::test::Fail;

/// A GET in version 1.1 with these fields and no body.
fn request(alloc: Global, fields: &[(&[u8], &[u8])]) -> Result<Request, AllocError> {
    Ok(Request {
        method: Bytes::new(alloc, b"GET")?,
        target: Bytes::new(alloc, b"/chat")?,
        minor: 1,
        fields: Fields::new(alloc, fields)?,
        body: None,
    })
}

/// A request that asks for the protocols `websocket` and `h2c`.
fn asking(alloc: Global) -> Result<Request, AllocError> {
    request(
        alloc,
        &[
            (b"Host", b"x"),
            (b"Upgrade", b"websocket"),
            (b"Connection", b"keep-alive, Upgrade"),
            (b"Sec-WebSocket-Version", b"13"),
            (b"upgrade", b"h2c"),
        ],
    )
}

const ACCEPTED: &[u8] =
    b"HTTP/1.1 101 Switching Protocols\r\nUpgrade: WebSocket\r\nContent-Length: 3\r\nConnection: upgrade\r\nSec-WebSocket-Accept: a\r\n\r\n";

/// The text that the client gets and the bytes that are left behind the head, or a word.
fn answer(alloc: Global, bytes: &[u8]) -> Result<Vec<u8>, Fail> {
    let asked = asking(alloc)?;
    match find_acceptance(alloc, &asked, bytes)? {
        Acceptance::More => Ok(Vec::from_slice(alloc, b"more")?),
        Acceptance::Other => Ok(Vec::from_slice(alloc, b"other")?),
        Acceptance::Accepts { head, taken } => {
            let mut text = acceptance_text(alloc, head)?;
            text.extend_from_slice(bytes.get(taken..).unwrap_or(b"beyond"))?;
            Ok(text)
        }
    }
}

#[test]
fn forwards_an_upgrade(rt: HostRuntime) -> Result<(), Fail> {
    let alloc = rt.alloc();
    let asked = asking(alloc)?;
    let asks = asks_for_upgrade(&asked);
    assert!(rt; asks);
    let text = upgrade_text(alloc, &asked)?.ok_or("no text")?;
    let expected =
        b"GET /chat HTTP/1.1\r\nHost: x\r\nSec-WebSocket-Version: 13\r\nVia: 1.1 bg-switch\r\nUpgrade: websocket\r\nupgrade: h2c\r\nConnection: upgrade\r\n\r\n";
    assert_eq!(rt; text.as_slice(), expected.as_slice());
    Ok(())
}

#[test]
fn forwards_no_other_request(rt: HostRuntime) -> Result<(), Fail> {
    let alloc = rt.alloc();
    let plain = request(alloc, &[(b"Host", b"x"), (b"Upgrade", b"websocket")])?;
    let text = upgrade_text(alloc, &plain)?;
    assert!(rt; text.is_none());
    Ok(())
}

#[test]
fn reads_what_an_endpoint_sends(rt: HostRuntime) -> Result<(), Fail> {
    let alloc = rt.alloc();
    let rows: [(&[u8], &[u8]); 9] = [
        (b"", b"more"),
        (b"HTTP/1.1 101 Switching", b"more"),
        (
            b"HTTP/1.1 101 A\r\nUpgrade: h2c\r\nConnection: upgrade\r\n\r\n\r\nbytes",
            b"HTTP/1.1 101 A\r\nUpgrade: h2c\r\nConnection: upgrade\r\n\r\n\r\nbytes",
        ),
        (
            b"HTTP/1.1 101 A\r\nUpgrade: h3\r\nConnection: upgrade\r\n\r\n",
            b"other",
        ),
        (
            b"HTTP/1.0 101 A\r\nUpgrade: h2c\r\nConnection: upgrade\r\n\r\n",
            b"other",
        ),
        (
            b"HTTP/1.1 200 OK\r\nUpgrade: h2c\r\nConnection: upgrade\r\n\r\n",
            b"other",
        ),
        (
            b"HTTP/1.1 100 Continue\r\n\r\nHTTP/1.1 101 A\r\nUpgrade: h2c\r\nConnection: upgrade\r\n\r\n",
            b"other",
        ),
        (b"\x16\x03\x01", b"other"),
        (
            ACCEPTED,
            b"HTTP/1.1 101 Switching Protocols\r\nSec-WebSocket-Accept: a\r\nUpgrade: WebSocket\r\nConnection: upgrade\r\n\r\n",
        ),
    ];
    for (bytes, expected) in rows {
        let given = answer(alloc, bytes)?;
        assert_eq!(rt; given.as_slice(), expected);
    }
    Ok(())
}

#[test]
fn waits_for_each_byte_of_a_head(rt: HostRuntime) -> Result<(), Fail> {
    let alloc = rt.alloc();
    for end in 0..ACCEPTED.len() {
        let given = answer(alloc, &ACCEPTED[..end])?;
        assert_eq!(rt; given.as_slice(), b"more".as_slice());
    }
    Ok(())
}

#[test]
fn takes_no_head_beyond_the_limits(rt: HostRuntime) -> Result<(), Fail> {
    let alloc = rt.alloc();
    let mut crowded = Vec::from_slice(
        alloc,
        b"HTTP/1.1 101 A\r\nUpgrade: h2c\r\nConnection: upgrade\r\n",
    )?;
    for _ in 0..63 {
        crowded.extend_from_slice(b"a: b\r\n")?;
    }
    crowded.extend_from_slice(b"\r\n")?;
    let given = answer(alloc, crowded.as_slice())?;
    assert_eq!(rt; given.as_slice(), b"other".as_slice());
    let mut large = Vec::from_slice(alloc, b"HTTP/1.1 101 A\r\nA: ")?;
    for _ in 0..16_384 {
        large.push(b'a')?;
    }
    let given = answer(alloc, large.as_slice())?;
    assert_eq!(rt; given.as_slice(), b"other".as_slice());
    Ok(())
}
