//! How clients are accepted.

use crate::client::Client;
use crate::endpoint_ports::EndpointPorts;
use crate::event_loop::EventLoop;
use crate::events::Source;
use crate::fair_share::is_above_mean;
use crate::moments::has_come;
use crate::request_log::RequestLog;
use bg_both_sides::BothSides;
use bg_loop_port::Accepted;
use bg_sockets::Watched;
use libc::net::EPOLLIN;
use std::net::TcpStream;

/// An event wakes at least one of the waiting sets, and not always all (`EPOLLEXCLUSIVE` of epoll_ctl(2)).
const EXCLUSIVE: u32 = 1 << 28;

/// The maximum number of clients of the backlog of a listener that a loop accepts at a shutdown.
const MOST_OF_BACKLOG: u32 = 2_048;

/// The time, in milliseconds, for which no loop accepts a client after an accept has failed, for example because no descriptor
/// is free. Each loop of the port tries again after as many times this as there are loops.
const PAUSE_MILLIS: u64 = 100;

/// The same, if the loop has no room.
const FULL_PAUSE_MILLIS: u64 = 20;

impl<'a, P: EndpointPorts, L: RequestLog> EventLoop<'a, P, L> {
    /// Watches the listeners: an event comes as long as clients wait. Gives whether that succeeded.
    pub(crate) fn watch_listeners(&mut self) -> bool {
        self.watches_listeners = true;
        for listener in 0..self.port.listeners() {
            if !self.watch_listener(listener) {
                self.unwatch_listeners();
                break;
            }
        }
        self.watches_listeners
    }

    /// Watches the listener of this number. Gives whether that succeeded.
    fn watch_listener(&self, listener: usize) -> bool {
        match self.port.descriptor(listener) {
            Some(descriptor) => {
                let watched = self.set.add(Watched {
                    descriptor,
                    events: EPOLLIN | EXCLUSIVE,
                    number: Source::Listener(listener).number(),
                });
                watched.is_ok()
            }
            None => false,
        }
    }

    /// Watches the listeners no longer. A closed listener would be ready all the time.
    pub(crate) fn unwatch_listeners(&mut self) {
        if self.watches_listeners {
            self.watches_listeners = false;
            for listener in 0..self.port.listeners() {
                if let Some(descriptor) = self.port.descriptor(listener) {
                    self.set.remove(descriptor);
                }
            }
        }
    }

    /// Watches the listeners anew, if they are watched: an event comes if clients wait, also if their event went to another loop.
    pub(crate) fn watch_listeners_anew(&mut self) {
        if self.watches_listeners {
            self.unwatch_listeners();
            if !self.watch_listeners() {
                self.pause_accepts(PAUSE_MILLIS);
            }
        }
    }

    /// Accepts clients that wait at a listener, as far as there is room. It has an event in the next round too if more wait.
    pub(crate) fn accept_some(&mut self, listener: usize) {
        if self.accepts_at.is_some() {
            // an event before this one has begun a pause
            return;
        }
        let is_backlog_left = self.port.is_backlog_left();
        for _ in 0..self.accept_rounds.most_in_a_row(is_backlog_left) {
            if !self.accept_one(listener) {
                break;
            }
            self.let_others_accept(listener);
        }
    }

    /// Lets the other loops accept the next clients of a listener if this one has more connections than the mean of the others. An
    /// event of a listener wakes the loop that has watched it longest, of those that wait, so this one watches it anew (as nginx
    /// does, in `ngx_reorder_accept_events`).
    fn let_others_accept(&mut self, listener: usize) {
        let own = self.loads.totals().connections;
        let others = self.port.others(self.shared).connections;
        if self.watches_listeners && is_above_mean(own, others, self.settings.loads.loops) {
            self.watch_listener_anew(listener);
        }
    }

    /// Watches a listener anew that is watched. If that fails, no client is accepted for a while.
    fn watch_listener_anew(&mut self, listener: usize) {
        if let Some(descriptor) = self.port.descriptor(listener) {
            self.set.remove(descriptor);
        }
        if !self.watch_listener(listener) {
            self.pause_accepts(PAUSE_MILLIS);
        }
    }

    /// Accepts the clients of the backlogs, as far as there is room: their requests may have come before a shutdown.
    pub(crate) fn accept_backlogs(&mut self) {
        for listener in 0..self.port.listeners() {
            self.accept_backlog(listener);
        }
    }

    /// Accepts the clients of the backlog of a listener.
    fn accept_backlog(&mut self, listener: usize) {
        for _ in 0..MOST_OF_BACKLOG {
            if !self.accept_one(listener) {
                return;
            }
        }
    }

    /// Accepts a client of a listener. Gives whether one was accepted. Without room, or after a failure, no client is accepted for
    /// a while.
    fn accept_one(&mut self, listener: usize) -> bool {
        if !self.has_room() {
            self.leave_backlog();
            return false;
        }
        match self.port.accept(listener) {
            Accepted::Stream(stream) => {
                self.accept_rounds.note();
                self.begin_client(stream);
                true
            }
            Accepted::Nothing => false,
            Accepted::Failed => {
                self.pause_accepts(PAUSE_MILLIS.saturating_mul(self.settings.loads.loops));
                false
            }
        }
    }

    fn begin_client(&mut self, stream: TcpStream) {
        let sides = BothSides::new(self.alloc, self.settings.clients, self.now);
        let mut client = Client::new(stream, sides, self.now);
        if self.settings.origin.is_some() {
            client.note_address();
        }
        // without memory, the connection is closed
        if let Ok(key) = self.clients.put(client) {
            if self.loads.accept(key, self.now).is_ok() {
                self.make_due(key);
            } else {
                self.clients.remove(key);
            }
        }
    }

    /// Accepts no client for a while, since this loop has no room. Another one may have.
    fn leave_backlog(&mut self) {
        if self.watches_listeners {
            self.port.leave_backlog();
        }
        self.pause_accepts(FULL_PAUSE_MILLIS);
    }

    /// Accepts no client for so many milliseconds. A listener would be ready all the time.
    fn pause_accepts(&mut self, millis: u64) {
        self.unwatch_listeners();
        self.accepts_at = Some(self.now.saturating_add(millis));
    }

    /// Accepts clients again once the pause is over.
    pub(crate) fn end_pause(&mut self) {
        if self.port.is_closed() || !has_come(self.accepts_at, self.now) {
            return;
        }
        if self.has_room() && self.watch_listeners() {
            self.accepts_at = None;
        } else {
            self.pause_accepts(FULL_PAUSE_MILLIS);
        }
    }
}
