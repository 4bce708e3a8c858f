//! The events of an epoll set.
ghost use Rattle.std.specs.Prelude.{◌≡◌};
ghost use Rattle.bg_event_loop.specs.Sources.{number_of, numbered, source_of};

use bg_sockets::{EpollSet, Watched};
use libc::net::{EPOLLERR, EPOLLET, EPOLLHUP, EPOLLIN, EPOLLOUT, EPOLLRDHUP};
use std::io;
use std::net::TcpStream;
use std::os::fd::AsRawFd;

/// Who an event belongs to: the listener of this number, a signal (that of the port, or that of the loop), or the connection of
/// this key.
#[derive(Clone, Copy, PartialEq, Eq, Debug, Drop)]
pub(crate) enum Source {
    Signal,
    Listener(usize),
    Client(usize),
    Endpoint(usize),
}

/// The kinds of sources: the rest of a number by four.
const SIGNAL: u64 = 0;

const LISTENER: u64 = 1;

const CLIENT: u64 = 2;

const ENDPOINT: u64 = 3;

impl Source {
    /// The number that its events have.
    pub(crate) fn number(self) -> u64
        ensures { result ≡ number_of self }
    {
        match self {
            Source::Signal => SIGNAL,
            Source::Listener(number) => numbered(number, LISTENER),
            Source::Client(key) => numbered(key, CLIENT),
            Source::Endpoint(key) => numbered(key, ENDPOINT),
        }
    }

    /// Who the events of a number belong to.
    pub(crate) fn of(number: u64) -> Source
        ensures { result ≡ source_of number }
    {
        let key = (number / 4) as usize;
        match number % 4 {
            SIGNAL => Source::Signal,
            LISTENER => Source::Listener(key),
            CLIENT => Source::Client(key),
            _ => Source::Endpoint(key),
        }
    }
}

/// The number of a source of this kind.
fn numbered(key: usize, kind: u64) -> u64
    ensures { result ≡ numbered key kind }
{
    (key as u64).saturating_mul(4).saturating_add(kind)
}

/// What an event says of a connection.
#[derive(Clone, Copy, PartialEq, Eq, Debug, Drop)]
pub(crate) struct Told {
    pub(crate) input: bool,
    pub(crate) output: bool,
    /// The other end has ended its input, or the connection is over.
    pub(crate) end: bool,
    /// The connection is over: it failed, was reset, or both sides have ended.
    pub(crate) reset: bool,
}

impl Told {
    pub(crate) fn of(events: u32) -> Told {
        Told {
            input: events & EPOLLIN != 0,
            output: events & EPOLLOUT != 0,
            end: events & (EPOLLRDHUP | EPOLLHUP | EPOLLERR) != 0,
            reset: events & (EPOLLHUP | EPOLLERR) != 0,
        }
    }
}

/// Watches a connection for all changes, once for as long as it is open (edge-triggered).
pub(crate) fn watch(set: &EpollSet, stream: &TcpStream, source: Source) -> io::Result<()> {
    set.add(Watched {
        descriptor: stream.as_raw_fd(),
        events: EPOLLIN | EPOLLOUT | EPOLLRDHUP | EPOLLET,
        number: source.number(),
    })
}
