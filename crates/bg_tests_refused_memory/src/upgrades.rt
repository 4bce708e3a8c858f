//! The calls of `bg_origin`, `bg_upgrade` and `bg_tunnel`.

use crate::asking::{Subject, change, made, show};
use crate::messages::new_request;
use crate::stop::Stop;
use bg_http::{Fields, Request};
use bg_origin::{Origin, origin_fields, request_id};
use bg_tunnel::{Peer, Tunnel};
use bg_upgrade::{Acceptance, acceptance_text, find_acceptance, upgrade_text};
use std::alloc::Global;
use std::net::{IpAddr, Ipv4Addr};
use std::{fmt, str};

const ASKS: &str =
    "GET /a HTTP/1.1\r\nHost: x\r\nConnection: Upgrade\r\nUpgrade: websocket\r\nX-Forwarded-For: y\r\n\r\n";

const ACCEPTS: &[u8] =
    b"HTTP/1.1 101 A\r\nUpgrade: websocket\r\nConnection: Upgrade\r\nContent-Length: 3\r\nB: c\r\n\r\nbytes";

/// A tunnel, whose display shows the bytes that wait for both peers.
#[derive(Drop)]
struct Waiting {
    tunnel: Tunnel,
}

impl fmt::Display for Waiting {
    fn fmt<W: fmt::Write>(&self, f: &mut fmt::Formatter<W>) -> fmt::Result {
        writeln!(
            f,
            "{:?} {:?}",
            self.tunnel.rest(Peer::Client),
            self.tunnel.rest(Peer::Endpoint)
        )
    }
}

impl Subject for Waiting {
    type Call = &'static [u8];

    /// Bytes come from the client.
    fn make(&mut self, bytes: &&'static [u8]) -> Result<(), Stop> {
        self.tunnel.feed(Peer::Client, bytes, 1)?;
        Ok(())
    }
}

pub fn make_calls<R: AllocGlobal + Print + Eprint>(rt: &R) -> Result<(), Stop> {
    let asks = made(rt, "read_request", || new_request(rt.alloc(), ASKS))?;
    let id = made(rt, "request_id", || new_id(rt.alloc()))?;
    let fields = made(rt, "origin_fields", || new_fields(rt.alloc(), &asks, &id))?;
    println!(rt; "{fields:?}")?;
    let text = made(rt, "upgrade_text", || Ok(upgrade_text(rt.alloc(), &asks)?))?;
    show_text(rt, text)?;
    let accepted = made(rt, "acceptance_text", || new_acceptance(rt.alloc(), &asks))?;
    show_text(rt, accepted)?;
    let mut waiting = made(rt, "Tunnel::new", || new_tunnel(rt.alloc()))?;
    change(
        rt,
        "Tunnel::feed",
        &mut waiting,
        &[b"more", b"and more than before"],
    )?;
    show(rt, &waiting)
}

fn new_id(alloc: Global) -> Result<Vec<u8>, Stop> {
    // its only error is an allocation failure
    match request_id(alloc, 1, 2) {
        Ok(id) => Ok(id),
        Err(_) => Err(Stop::OutOfMemory),
    }
}

fn new_fields(alloc: Global, request: &Request, id: &[u8]) -> Result<Fields, Stop> {
    let origin = Origin {
        client: Some(IpAddr::V4(Ipv4Addr::LOCALHOST)),
        request_id: id,
        trusts_client: false,
    };
    // its only error is an allocation failure
    match origin_fields(alloc, &request.fields, &origin) {
        Ok(fields) => Ok(fields),
        Err(_) => Err(Stop::OutOfMemory),
    }
}

/// The text of the acceptance.
fn new_acceptance(alloc: Global, request: &Request) -> Result<Option<Vec<u8>>, Stop> {
    match find_acceptance(alloc, request, ACCEPTS)? {
        Acceptance::Accepts { head, .. } => Ok(Some(acceptance_text(alloc, head)?)),
        Acceptance::More | Acceptance::Other => Ok(None),
    }
}

fn new_tunnel(alloc: Global) -> Result<Waiting, Stop> {
    let for_endpoint = Vec::from_slice(alloc, b"first")?;
    let for_client = Vec::from_slice(alloc, b"head")?;
    Ok(Waiting {
        tunnel: Tunnel::new(alloc, for_endpoint, for_client, 1_000, 0),
    })
}

fn show_text<R: Print>(rt: &R, text: Option<Vec<u8>>) -> Result<(), Stop> {
    match text {
        Some(text) => match str::from_utf8(&text) {
            Ok(text) => println!(rt; "{text:?}")?,
            Err(_) => println!(rt; "no text")?,
        },
        None => println!(rt; "none")?,
    }
    Ok(())
}
