//! How connections are accepted.

use crate::listener::Listener;
use bg_sockets::set_backlog;
use std::io;
use std::io::ErrorKind;

/// The number of milliseconds before an accept that failed, or that had no room, is tried again.
const PAUSE_MILLIS: u64 = 100;

/// A listener. Its accepts do not wait. Moments are milliseconds from the start of the port.
#[derive(Drop)]
pub struct Acceptor<L> {
    listener: L,
    /// From when on connections may be accepted; `None` stands for when the listener is ready.
    due: Option<u64>,
    /// Whether the last accept failed.
    is_failing: bool,
}

impl<L: Listener + Drop> Acceptor<L> {
    /// An acceptor over this listener, which gets the backlog of the ports. An error if it cannot be made non-blocking.
    pub fn new(listener: L) -> io::Result<Acceptor<L>> {
        listener.wait_never()?;
        set_backlog(&listener);
        Ok(Acceptor {
            listener,
            due: None,
            is_failing: false,
        })
    }

    pub fn listener(&self) -> &L {
        &self.listener
    }

    /// Notes that the listener is ready. A pause after a failure continues.
    pub fn note_ready(&mut self, now: u64) {
        self.due = self.due.or(Some(now));
    }

    /// Delays the next accept by a pause.
    pub fn put_off(&mut self, now: u64) {
        self.due = Some(now.saturating_add(PAUSE_MILLIS));
    }

    /// The number of milliseconds until connections may be accepted; `None` if that depends on the
    /// listener.
    pub fn millis_to_wait(&self, now: u64) -> Option<u64> {
        Some(self.due?.saturating_sub(now))
    }

    /// Accepts a connection; `None` if none waits, or if its peer has given it up. If the accept fails, it is tried again
    /// after a pause.
    pub fn accept(&mut self, now: u64) -> io::Result<Option<L::Stream>> {
        match self.listener.accept_next() {
            Ok(stream) => {
                self.is_failing = false;
                self.due = Some(now);
                Ok(Some(stream))
            }
            Err(error) => self.not_accepted(error, now),
        }
    }

    /// The result of a failed accept. If the peer has already given its connection up, the
    /// connection is skipped, and another one may wait.
    fn not_accepted(&mut self, error: io::Error, now: u64) -> io::Result<Option<L::Stream>> {
        match error.kind() {
            ErrorKind::WouldBlock => self.due = None,
            ErrorKind::Interrupted | ErrorKind::ConnectionAborted => self.due = Some(now),
            _ => {
                self.put_off(now);
                return Err(error);
            }
        }
        Ok(None)
    }

    /// Whether a failure is the first since the last accept that succeeded.
    pub fn is_first_failure(&mut self) -> bool {
        let is_first = !self.is_failing;
        self.is_failing = true;
        is_first
    }
}
