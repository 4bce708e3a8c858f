//! The connections of operators with their sockets.

use crate::bounds::MOST_CONNECTIONS;
use crate::connection::Interest;
use crate::connections::{Asked, Connections, is_long};
use crate::peer::Peer;
use crate::readiness::Readiness;
use crate::reading::ReadsLines;
use crate::reply::Reply;
use crate::turn::Precedence;
use crate::writing::write_reply;
use bg_sockets::receive_now;
use std::alloc::{AllocError, Global};
use std::io;
use std::io::ErrorKind;
use std::os::fd::OwnedFd;

/// The number of bytes that a read asks for.
const PIECE: usize = 8_192;

/// What the handling of connections needs.
#[derive(Drop)]
pub struct PortContext<'a, P> {
    /// The moment, in milliseconds from the start of the port.
    pub now: u64,
    pub readiness: &'a Readiness,
    /// Reads the lines, and says which are urgent.
    pub reader: &'a P,
}

/// The connections of operators with their sockets, whose lines are read as `L`.
#[derive(Drop)]
pub struct Operators<L: Drop> {
    connections: Connections<L>,
    /// The socket of each connection, at its key.
    streams: Vec<Option<OwnedFd>>,
}

impl<L: Drop> Operators<L> {
    /// No connections. Allocates the memory for 1,024. The only error is an allocation failure.
    pub fn new(alloc: Global) -> Result<Operators<L>, AllocError> {
        let mut streams = Vec::with_capacity(alloc, MOST_CONNECTIONS)?;
        for _ in 0..MOST_CONNECTIONS {
            streams.push(None)?;
        }
        Ok(Operators {
            connections: Connections::new(alloc)?,
            streams,
        })
    }

    /// Their state.
    pub fn connections(&self) -> &Connections<L> {
        &self.connections
    }

    /// Adds a connection of this peer. The next wait reports what has already arrived on it. A connection that cannot be
    /// watched is closed.
    pub fn add(&mut self, stream: OwnedFd, peer: Peer, readiness: &Readiness, now: u64) {
        let Some(key) = self.connections.add(peer, now) else {
            return;
        };
        if readiness.watch(&stream, key).is_err() {
            self.connections.end(key);
            return;
        }
        if let Some(place) = self.streams.get_mut(key) {
            *place = Some(stream);
        }
    }

    /// The socket of a connection.
    fn stream(&self, key: usize) -> Option<&OwnedFd> {
        self.streams.get(key)?.as_ref()
    }

    /// Handles that a connection is ready.
    pub fn attend<P: ReadsLines<L>>(&mut self, key: usize, has_ended: bool, port: &PortContext<P>) {
        let Some(connection) = self.connections.get(key) else {
            return;
        };
        match connection.interest() {
            Some(Interest::Input) => self.read(key, has_ended, port),
            Some(Interest::Output) => self.write(key, port),
            None => {}
        }
    }

    /// Reads what has arrived.
    fn read<P: ReadsLines<L>>(&mut self, key: usize, has_ended: bool, port: &PortContext<P>) {
        let mut piece = [0u8; PIECE];
        let Some(stream) = self.stream(key) else {
            return;
        };
        match receive_now(stream, &mut piece) {
            Ok(0) => {
                self.connections.end_input(key, port.now);
                self.go_on(key, false, port);
            }
            Ok(count) => {
                // after an allocation failure, the connection has left
                drop(self.connections.came(key, &piece[..count], port.now));
                // more may have arrived if the piece was filled
                self.go_on(key, count >= PIECE || has_ended, port);
            }
            Err(error) if is_nothing(&error) => {}
            Err(_) => self.end(key),
        }
    }

    /// Writes more of the reply that was not taken whole.
    fn write<P: ReadsLines<L>>(&mut self, key: usize, port: &PortContext<P>) {
        match self.write_rest(key) {
            Some(Ok(count)) => {
                self.connections.wrote(key, count, port.now);
                self.go_on(key, true, port);
            }
            Some(Err(_)) => self.end(key),
            None => {}
        }
    }

    /// Writes what fits of the reply that was not taken whole, and gives the number of these bytes; `None` if there is no such
    /// reply.
    fn write_rest(&self, key: usize) -> Option<io::Result<usize>> {
        let stream = self.stream(key)?;
        let rest = self.connections.get(key)?.rest()?;
        Some(write_reply(stream, rest))
    }

    /// Gives the reply to the line that was taken from a connection. What its socket does not take is kept.
    pub fn reply<P: ReadsLines<L>>(&mut self, key: usize, reply: Reply, port: &PortContext<P>) {
        let Some(stream) = self.stream(key) else {
            return;
        };
        match write_reply(stream, reply) {
            Ok(count) => {
                // after an allocation failure, the connection has left
                drop(self.connections.replied(key, reply, count, port.now));
                self.go_on(key, true, port);
            }
            Err(_) => self.end(key),
        }
    }

    /// Goes on with a connection after a step: watches what it waits for again if `may_be_ready`, and reads its next line if
    /// that is whole. What is ready already is reported after what is ready elsewhere. The socket of a connection that has
    /// left is closed, and so is a connection that cannot be watched, or without memory for its line.
    fn go_on<P: ReadsLines<L>>(&mut self, key: usize, may_be_ready: bool, port: &PortContext<P>) {
        let is_watched = self.is_watched(key, may_be_ready, port.readiness);
        let read = self.connections.read(port.reader, key, port.now);
        if !is_watched || read.is_err() {
            self.end(key);
        }
    }

    /// Watches what a connection waits for again if `may_be_ready`. False if the connection has left or cannot be watched.
    fn is_watched(&self, key: usize, may_be_ready: bool, readiness: &Readiness) -> bool {
        let Some(stream) = self.stream(key) else {
            return false;
        };
        let Some(connection) = self.connections.get(key) else {
            return false;
        };
        let watched = match connection.interest() {
            Some(Interest::Input) if may_be_ready => readiness.watch_input(stream, key),
            Some(Interest::Output) if may_be_ready => readiness.watch_output(stream, key),
            _ => Ok(()),
        };
        watched.is_ok()
    }

    /// Takes the next line; `None` if no line waits.
    pub fn take_line(&mut self) -> Option<Asked<L>> {
        self.connections.take_line()
    }

    /// Closes a connection.
    pub fn end(&mut self, key: usize) {
        self.connections.end(key);
        if let Some(place) = self.streams.get_mut(key) {
            *place = None;
        }
    }

    /// Closes each connection that has taken nothing of a reply for ten seconds.
    pub fn end_given_up(&mut self, now: u64) {
        for key in 0..MOST_CONNECTIONS {
            if self.connections.give_up(key, now) {
                self.end(key);
            }
        }
    }

    /// Closes the connection that has been silent for the longest time, so that another one has room.
    pub fn make_room(&mut self) {
        if let Some((key, _silence)) = self.connections.first(Precedence::Silence) {
            self.end(key);
        }
    }

    /// Closes the connection that has been silent for the longest time, if that is at least two seconds and
    /// no whole line of it waits.
    pub fn close_silent(&mut self, now: u64) {
        if let Some((key, silence)) = self.connections.first(Precedence::Silence)
            && is_long(silence, now)
        {
            self.end(key);
        }
    }

    /// Closes all connections.
    pub fn close(&mut self) {
        for key in 0..MOST_CONNECTIONS {
            self.end(key);
        }
    }
}

/// Whether nothing could be read since nothing has arrived yet, and not since the connection failed.
fn is_nothing(error: &io::Error) -> bool {
    matches!(error.kind(), ErrorKind::WouldBlock | ErrorKind::Interrupted)
}
