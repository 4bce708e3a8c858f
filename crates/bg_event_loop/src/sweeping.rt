//! Timeouts, and the end of a loop.

use crate::endpoint_ports::EndpointPorts;
use crate::event_loop::EventLoop;
use crate::moments::has_come;
use crate::request_log::RequestLog;

/// The longest wait for events, in milliseconds.
const LONGEST_WAIT_MILLIS: i32 = 500;

/// The same while there are no connections. Nothing times out then, and an event ends the wait.
const LONGEST_WAIT_ALONE_MILLIS: i32 = 5_000;

/// The same while no client is accepted, or while a request is paused: other loops may make room.
const LONGEST_WAIT_IN_PAUSE_MILLIS: i32 = 20;

impl<'a, P: EndpointPorts, L: RequestLog> EventLoop<'a, P, L> {
    /// The longest wait for events: none if a client is to be served, or may enter.
    pub(crate) fn longest_wait(&self) -> i32 {
        if !self.due.is_empty() || self.may_enter() {
            0
        } else if self.accepts_at.is_some() || self.loads.has_paused() {
            LONGEST_WAIT_IN_PAUSE_MILLIS
        } else if self.clients.is_empty() && self.endpoints.is_empty() {
            LONGEST_WAIT_ALONE_MILLIS
        } else {
            LONGEST_WAIT_MILLIS
        }
    }

    /// Ends what has timed out. Each client is served, so that its request ends if it is given up, and watched from now on,
    /// so that it is found if it has gone.
    pub(crate) fn sweep(&mut self) {
        for key in 0..self.clients.bound() {
            self.look(key);
        }
        self.keep_bounds();
        self.endpoints.close_idle(self.now);
        self.endpoints.close_scaled_down();
    }

    fn look(&mut self, key: usize) {
        let is_over = has_come(self.closes_at, self.now);
        let is_grace_over = has_come(self.grace_until, self.now);
        if self.has_sent(key) {
            self.step_once_more(key);
        }
        let Some(client) = self.clients.get_mut(key) else {
            return;
        };
        client.sides.look(self.now);
        if is_over {
            client.end_by_shutdown();
        } else if is_grace_over {
            self.end_if_silent(key);
        }
        self.watch(key);
        self.make_due(key);
    }

    /// Begins a shutdown: the clients of the backlogs are accepted, and no others; no connection is kept, and idle ones are
    /// closed.
    pub(crate) fn begin_closing(&mut self) {
        if self.closes_at.is_some() {
            return;
        }
        self.accept_backlogs();
        self.unwatch_listeners();
        self.port.close();
        self.endpoints.keep_none();
        self.grace_until = Some(self.now.saturating_add(self.settings.grace_millis));
        self.closes_at = Some(self.now.saturating_add(self.settings.closing_millis));
        for key in 0..self.clients.bound() {
            if self.is_idle(key) {
                self.step_once_more(key);
            }
            if let Some(client) = self.clients.get_mut(key) {
                client.sides.begin_closing();
                self.make_due(key);
            }
        }
    }

    /// Whether the client of an idle connection has sent something, as far as events have told.
    fn has_sent(&self, key: usize) -> bool {
        match self.clients.get(key) {
            Some(client) => client.sides.client().is_idle() && client.is_due(),
            None => false,
        }
    }

    /// Whether no further client is accepted, and none is left.
    pub(crate) fn is_over(&self) -> bool {
        self.port.is_closed() && self.clients.is_empty()
    }

    /// Lets the keys of closed connections be given again.
    pub(crate) fn reuse_keys(&mut self) {
        self.clients.reuse_keys();
        self.endpoints.reuse_keys();
    }
}
