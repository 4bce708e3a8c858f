//! Runs an event loop, for checks over sockets.
//!
//! `tests/live/live_event_loop.py` runs it. Its words are PORT close|keep empty|pages slot|redispatch LOG NEXT ENDPOINT [ENDPOINT]:
//! the port of its clients; whether connections of both sides are kept; what refusals have as their bodies; whether a request is
//! dialled at the port of its ticket alone; the file of its access log; the port of a second revision; and the ports of the first
//! revision, whose endpoints are all available. Its book has four seats. It writes `listening` once its port is open, and the access
//! log at its end.
//!
//! The bytes of standard input are orders. `s` lets the second revision take the place of the first one, which is scaled down. `d`
//! says that the first endpoint is down, and `u` that none is. Any other byte and the end of the input begin a shutdown. The program
//! ends when the clients have left, and then writes how many requests entered.
#![tactic(auto)]

mod orders;
mod serving;
mod stop;
mod words;

use crate::serving::serve;
use crate::stop::Stop;
use crate::words::Words;
use std::alloc::AllocError;
use std::env;
use std::net::{IpAddr, Ipv4Addr, SocketAddr, TcpListener};

/// The exit status is 0 after a shutdown, and else 1.
fn main(rt: HostRuntime) -> Result<(), Stop> {
    let words = words_of(&rt)?;
    let listener = listen(&rt, words.port)?;
    println!(rt; "listening")?;
    let entered = serve(&rt, listener, &words)?;
    println!(rt; "entered {entered}")?;
    Ok(())
}

/// What the words of the command line say.
fn words_of(rt: &HostRuntime) -> Result<Words, Stop> {
    let texts: Result<Vec<String>, AllocError> = env::args(rt)?.collect(rt.alloc());
    Words::of(rt.alloc(), &texts?)
}

/// A listener at a port of 127.0.0.1.
fn listen(rt: &HostRuntime, port: u16) -> Result<TcpListener, Stop> {
    let address = SocketAddr::new(IpAddr::V4(Ipv4Addr::LOCALHOST), port);
    Ok(TcpListener::bind(rt, address)?)
}
