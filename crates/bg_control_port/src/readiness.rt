//! Which sockets of the port are ready.
ghost use Rattle.std.specs.Prelude.{◌≤◌, length};

use crate::listener::Entrance;
use bg_sockets::{EpollSet, Watched};
use libc::net::{EPOLLERR, EPOLLET, EPOLLHUP, EPOLLIN, EPOLLOUT, EPOLLRDHUP};
use os::EpollEvent;
use std::io;
use std::os::fd::{AsRawFd, OwnedFd};

/// The numbers of the events of the listeners. The key of a connection is smaller.
const PORT: u64 = u64::MAX;

const SOCKET: u64 = u64::MAX - 1;

/// The maximum number of sockets that a wait reports.
pub const MOST_READY: usize = 64;

/// What is ready.
#[derive(Clone, Copy, Drop, PartialEq, Eq)]
pub enum Ready {
    /// Connections may be accepted.
    Listener(Entrance),
    /// The connection with this key can be read or written, or its input has ended.
    Connection { key: usize, has_ended: bool },
}

/// The sockets of the port, in one epoll set. Each is watched for changes only (edge-triggered), so a
/// line that is not complete yet is reported once. A socket that is watched again is reported if it is ready.
#[derive(Drop)]
pub struct Readiness {
    set: EpollSet,
}

impl Readiness {
    /// Watches nothing. An error if the system call fails.
    pub fn new() -> io::Result<Readiness> {
        Ok(Readiness {
            set: EpollSet::new()?,
        })
    }

    /// Watches a listener. An error if the system call fails.
    pub fn watch_listener<L: AsRawFd>(&self, listener: &L, entrance: Entrance) -> io::Result<()> {
        self.set.add(Watched {
            descriptor: listener.as_raw_fd(),
            events: EPOLLIN | EPOLLET,
            number: match entrance {
                Entrance::Port => PORT,
                Entrance::Socket => SOCKET,
            },
        })
    }

    /// Watches the input of a new connection. An error if the system call fails.
    pub fn watch(&self, stream: &OwnedFd, key: usize) -> io::Result<()> {
        self.set.add(watched(stream, EPOLLIN | EPOLLRDHUP, key))
    }

    /// Watches the input of a connection again. What has arrived already is reported. An error if the system call fails.
    pub fn watch_input(&self, stream: &OwnedFd, key: usize) -> io::Result<()> {
        self.set.change(watched(stream, EPOLLIN | EPOLLRDHUP, key))
    }

    /// Watches whether a connection takes bytes, and not its input. An error if the system call fails.
    pub fn watch_output(&self, stream: &OwnedFd, key: usize) -> io::Result<()> {
        self.set.change(watched(stream, EPOLLOUT, key))
    }

    /// Waits until a socket is ready, for at most `millis` milliseconds, and puts what is ready at the front of
    /// `ready`, in the order in which it became ready. Returns their number.
    pub fn wait(&self, millis: i32, ready: &mut [Ready; MOST_READY]) -> usize
        ensures { result ≤ 64 }
    {
        let mut events = [EpollEvent { events: 0, data: 0 }; MOST_READY];
        let count = self.set.wait(&mut events, millis);
        for (place, event) in ready.iter_mut().zip(events.iter()) {
            *place = ready_of(*event);
        }
        count
    }
}

fn watched(stream: &OwnedFd, events: u32, key: usize) -> Watched {
    Watched {
        descriptor: stream.as_raw_fd(),
        events: events | EPOLLET,
        number: key as u64,
    }
}

fn ready_of(event: EpollEvent) -> Ready {
    match event.data {
        PORT => Ready::Listener(Entrance::Port),
        SOCKET => Ready::Listener(Entrance::Socket),
        key => Ready::Connection {
            key: key as usize,
            has_ended: event.events & (EPOLLRDHUP | EPOLLHUP | EPOLLERR) != 0,
        },
    }
}
