//! The clients whose requests wait to enter.

use crate::endpoint_ports::EndpointPorts;
use crate::event_loop::EventLoop;
use crate::events::Source;
use crate::request_log::RequestLog;
use bg_client_side::Entered;
use bg_sockets::Watched;
use libc::net::{EPOLLET, EPOLLIN};
use std::alloc::Global;
use std::collections::VecDeque;
use std::io;
use std::io::ErrorKind;
use std::os::fd::RawFd;

/// Since when the requests of a loop wait, and what the other loops know of that.
#[derive(Drop)]
pub(crate) struct Waiting {
    /// The number of the loop.
    number: usize,
    /// The moments at which requests began to wait, the earliest first: one for each that waits. There are more if clients have
    /// gone while they waited.
    since: VecDeque<u64>,
    /// The moment that the other loops know.
    known: Option<u64>,
    /// Whether a request has entered or left, or waits no more, since the other loops were told.
    has_changed: bool,
    /// Whether the other loops know that this one is asleep.
    is_asleep: bool,
}

impl Waiting {
    /// No request waits.
    pub(crate) fn new(alloc: Global, number: usize) -> Waiting {
        Waiting {
            number,
            since: VecDeque::new(alloc),
            known: None,
            has_changed: false,
            is_asleep: false,
        }
    }
}

impl<'a, P: EndpointPorts, L: RequestLog> EventLoop<'a, P, L> {
    /// Lets the request of a client, which is whole, wait for a seat. Gives whether it waits; it does not if the most requests
    /// wait, or without memory.
    pub(crate) fn begin_to_wait(&mut self, key: usize) -> bool {
        self.waiting.since.truncate(self.queue.waiting());
        if self.waiting.since.reserve(1).is_err() || !self.queue.wait(key) {
            return false;
        }
        self.waiting.since.push_back_reserved(self.now);
        true
    }

    /// Since when the request waits that has waited longest; `None` if none waits, or no seat is free.
    fn waits_since(&self) -> Option<u64> {
        if self.queue.waiting() == 0 || self.queue.free() == 0 {
            return None;
        }
        self.waiting.since.front().copied()
    }

    /// Whether a request may enter now.
    pub(crate) fn may_enter(&self) -> bool {
        match self.waits_since() {
            Some(since) => self.port.may_enter(self.waiting.number, since),
            None => false,
        }
    }

    /// The client whose request enters next: it has waited longest, and the port has a place for it. `None` if there is none, or
    /// no seat is free.
    pub(crate) fn next_to_enter(&mut self) -> Option<Entered> {
        self.tell_waiting();
        let since = self.waits_since()?;
        if !self.port.enters(self.waiting.number, since) {
            return None;
        }
        self.waiting.since.pop_front();
        self.waiting.has_changed = true;
        self.queue.enter()
    }

    /// Notes that the request of a seat has left, if there is one.
    pub(crate) fn note_left(&mut self, seat: Option<usize>) {
        if seat.is_some() {
            self.port.note_left(self.waiting.number);
            self.waiting.has_changed = true;
        }
    }

    /// Tells the other loops since when a request waits here.
    fn tell_waiting(&mut self) {
        let since = self.waits_since();
        if since != self.waiting.known {
            self.waiting.has_changed = self.waiting.has_changed || self.waiting.known.is_some();
            self.waiting.known = since;
            self.port.note_waiting(self.waiting.number, since);
        }
    }

    /// Watches what ends a wait for events: the signal of the port, and that of this loop. An error if a system call fails, or if
    /// the port has no loop of this number.
    pub(crate) fn watch_signals(&self) -> io::Result<()> {
        let Some(own) = self.port.signal_descriptor_of(self.waiting.number) else {
            return Err(io::Error::from(ErrorKind::Other));
        };
        self.watch_signal(own)?;
        self.watch_signal(self.port.signal_descriptor())
    }

    fn watch_signal(&self, descriptor: RawFd) -> io::Result<()> {
        self.set.add(Watched {
            descriptor,
            events: EPOLLIN | EPOLLET,
            number: Source::Signal.number(),
        })
    }

    /// Begins a round: begins to wait for events, and gives the longest wait in milliseconds. If a request waits here, the other
    /// loops know from then on that this loop is asleep, and wake it as soon as the request may enter.
    pub(crate) fn begin_wait(&mut self) -> i32 {
        self.accept_rounds.begin();
        self.tell_waiting();
        let longest = self.longest_wait();
        if longest == 0 || self.waiting.has_changed {
            return 0;
        }
        if let Some(since) = self.waiting.known {
            if !self.port.falls_asleep(self.waiting.number, since) {
                return 0;
            }
            self.waiting.is_asleep = true;
        }
        longest
    }

    /// Notes that a wait for events is over.
    pub(crate) fn end_wait(&mut self) {
        if self.waiting.is_asleep {
            self.waiting.is_asleep = false;
            self.port.note_awake(self.waiting.number);
        }
    }

    /// Wakes another loop if a request may enter there now, since one has entered or left here, or waits no more.
    pub(crate) fn pass_on(&mut self) {
        self.tell_waiting();
        if self.waiting.has_changed {
            self.waiting.has_changed = false;
            self.port.pass_on(self.waiting.number);
        }
    }
}
