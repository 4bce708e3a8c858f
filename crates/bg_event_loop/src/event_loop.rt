//! The connections of a loop, and how its clients are served.

use crate::accept_rounds::AcceptRounds;
use crate::client::Client;
use crate::endpoint_ports::EndpointPorts;
use crate::endpoints::Endpoints;
use crate::events::{Source, Told, watch};
use crate::outcome::Cause;
use crate::request_log::RequestLog;
use crate::settings::LoopSettings;
use crate::slots::Slots;
use crate::waiting::Waiting;
use bg_client_side::{Fed, Seats};
use bg_forward::Reason;
use bg_load::{Loads, Totals};
use bg_loop_port::LoopPort;
use bg_sockets::EpollSet;
use os::EpollEvent;
use std::alloc::Global;
use std::collections::VecDeque;
use std::io;

/// The number of steps of a client in a row.
const STEPS_A_TURN: u32 = 64;

/// The number of bytes that one read of an endpoint asks for.
const PIECE: usize = 65_536;

/// The number of bytes that one read of a client asks for: so many that a request is large, and may be paused before the next
/// read.
const CLIENT_PIECE: usize = 32_768;

/// What a loop begins with.
#[derive(Clone, Copy, Drop)]
pub(crate) struct LoopTerms {
    pub(crate) alloc: Global,
    pub(crate) settings: LoopSettings,
    /// The number of its seats.
    pub(crate) seats: usize,
    /// Its number among the loops of the port.
    pub(crate) number: usize,
}

/// The connections of a loop.
#[derive(Drop)]
pub(crate) struct EventLoop<'a, P, L> {
    pub(crate) alloc: Global,
    pub(crate) settings: LoopSettings,
    pub(crate) set: &'a EpollSet,
    pub(crate) port: &'a LoopPort,
    pub(crate) clients: Slots<Client>,
    /// What they take, and what of that the port counts.
    pub(crate) loads: Loads,
    pub(crate) shared: Totals,
    pub(crate) endpoints: Endpoints<'a, P>,
    /// Where the ends of requests are logged.
    pub(crate) log: &'a L,
    /// The seats, and the clients whose requests wait for one.
    pub(crate) queue: Seats,
    /// The keys of the clients that are to be served.
    pub(crate) due: VecDeque<usize>,
    /// What the last read gave.
    pub(crate) piece: Vec<u8>,
    /// Whether the listeners are watched.
    pub(crate) watches_listeners: bool,
    /// In which rounds clients were accepted.
    pub(crate) accept_rounds: AcceptRounds,
    /// Since when its requests wait, and what the other loops know of that.
    pub(crate) waiting: Waiting,
    /// The moment of the last events, in milliseconds from the start of the loop.
    pub(crate) now: u64,
    /// When clients are accepted again, if none are accepted now.
    pub(crate) accepts_at: Option<u64>,
    /// When the connections that are left are closed, if a shutdown has begun.
    pub(crate) closes_at: Option<u64>,
    /// When the connections are closed of which no byte came, if a shutdown has begun.
    pub(crate) grace_until: Option<u64>,
}

impl<'a, P: EndpointPorts, L: RequestLog> EventLoop<'a, P, L> {
    /// A loop without connections.
    pub(crate) fn new(
        terms: LoopTerms,
        set: &'a EpollSet,
        port: &'a LoopPort,
        ports: &'a P,
        log: &'a L,
    ) -> io::Result<EventLoop<'a, P, L>> {
        let LoopTerms {
            alloc,
            settings,
            seats,
            number,
        } = terms;
        Ok(EventLoop {
            alloc,
            settings,
            set,
            port,
            clients: Slots::new(alloc),
            loads: Loads::new(alloc, settings.loads),
            shared: Totals::NONE,
            endpoints: Endpoints::new(alloc, set, ports, settings.endpoints)?,
            log,
            queue: Seats::new(alloc, seats, settings.most_waiting)?,
            due: VecDeque::new(alloc),
            piece: vec![in alloc; 0; PIECE]?,
            watches_listeners: false,
            accept_rounds: AcceptRounds::NONE,
            waiting: Waiting::new(alloc, number),
            now: 0,
            accepts_at: None,
            closes_at: None,
            grace_until: None,
        })
    }

    /// Notes an event. The client that it belongs to is to be served.
    pub(crate) fn note(&mut self, event: &EpollEvent) {
        let told = Told::of(event.events);
        match Source::of(event.data) {
            Source::Signal => self.note_signal(),
            Source::Listener(listener) => self.accept_some(listener),
            Source::Client(key) => {
                if let Some(client) = self.clients.get_mut(key) {
                    client.note(told);
                    self.make_due(key);
                }
            }
            Source::Endpoint(key) => {
                if let Some(client) = self.endpoints.note(key, told) {
                    self.make_due(client);
                }
            }
        }
    }

    /// Notes the signal of the port, or that of this loop. Whether a request may enter is looked at in each round anyway.
    fn note_signal(&mut self) {
        if self.port.is_backlog_left() {
            self.watch_listeners_anew();
        }
    }

    /// Has a client served. Without memory for that, it is served with the next look at timeouts.
    pub(crate) fn make_due(&mut self, key: usize) {
        let _ = self.due.push_back(key);
    }

    /// Makes the steps of a client that are due. If the request that it has inside is given up, that request ends. Gives the
    /// seat of a request that is over.
    pub(crate) fn serve(&mut self, key: usize, is_given_up: bool) -> Option<usize> {
        let seat = self.serve_inside(key, is_given_up);
        self.serve_client(key);
        self.observe(key);
        if self.loads.is_large(key) {
            // others may have to be paused before they are read
            self.regulate();
        }
        seat
    }

    /// Reads from a client, and writes to it.
    fn serve_client(&mut self, key: usize) {
        for _ in 0..STEPS_A_TURN {
            if !self.step(key) {
                self.rest(key);
                return;
            }
            if self.is_uploading(key) {
                break;
            }
        }
        // others have their turn
        self.make_due(key);
    }

    /// Whether more of a large request is to come.
    fn is_uploading(&self, key: usize) -> bool {
        match self.clients.get(key) {
            Some(client) => {
                client.record.bytes() >= CLIENT_PIECE as u64 && !client.record.is_whole()
            }
            None => false,
        }
    }

    /// Makes a step of a client. Gives whether one was due.
    fn step(&mut self, key: usize) -> bool {
        let Some(client) = self.clients.get_mut(key) else {
            return false;
        };
        if !client.is_due() {
            return false;
        }
        let fed = client.step(client_piece(self.piece.as_mut_slice()), self.now);
        self.note_fed(key, fed);
        true
    }

    /// Makes a step of a connection of which no event told: its client may have sent a request meanwhile, or taken bytes.
    pub(crate) fn step_once_more(&mut self, key: usize) {
        if let Some(client) = self.clients.get_mut(key) {
            let fed = client.step(client_piece(self.piece.as_mut_slice()), self.now);
            self.note_fed(key, fed);
        }
    }

    /// Whether a connection is idle.
    pub(crate) fn is_idle(&self, key: usize) -> bool {
        match self.clients.get(key) {
            Some(client) => client.sides.client().is_idle(),
            None => false,
        }
    }

    /// Ends a connection if no byte came on it. It is read once more before.
    pub(crate) fn end_if_silent(&mut self, key: usize) {
        if !self.is_silent(key) {
            return;
        }
        self.step_once_more(key);
        if self.is_silent(key)
            && let Some(client) = self.clients.get_mut(key)
        {
            client.sides.fail();
        }
    }

    /// Whether no byte came on a connection.
    fn is_silent(&self, key: usize) -> bool {
        match self.clients.get(key) {
            Some(client) => client.record.is_silent(),
            None => false,
        }
    }

    /// Lets a request wait for a seat that has become whole, or is large. It is refused if the most requests wait. What is no request is
    /// over.
    pub(crate) fn note_fed(&mut self, key: usize, fed: Fed) {
        let Some(client) = self.clients.get_mut(key) else {
            return;
        };
        let fed = client.hold_large(self.alloc, &self.settings, fed, self.now);
        match fed {
            Fed::Whole => {
                client.record.note_whole(self.now);
                client.keep_line(self.alloc, self.log);
                if client.ready.reset {
                    client.sides.fail();
                } else if !self.begin_to_wait(key) {
                    self.refuse_waiting(key);
                }
            }
            Fed::Refused(fault) => {
                client.end_request(self.log, Cause::Fault(fault), self.now);
            }
            Fed::NotReading | Fed::More | Fed::OwesContinue => {}
        }
    }

    /// Refuses the request of a client, which is whole, with 503.
    fn refuse_waiting(&mut self, key: usize) {
        if let Some(client) = self.clients.get_mut(key) {
            client.refuse_waiting(self.now);
            client.end_request(self.log, Cause::Refused(Reason::Memory), self.now);
        }
    }

    /// A client has no step that is due: it is watched, or it has left.
    fn rest(&mut self, key: usize) {
        let Some(client) = self.clients.get_mut(key) else {
            return;
        };
        if client.waits_for_client() {
            self.watch(key);
        }
        self.remove_if_left(key);
    }

    /// Watches a client from now on.
    pub(crate) fn watch(&mut self, key: usize) {
        let Some(client) = self.clients.get_mut(key) else {
            return;
        };
        if client.is_watched {
            return;
        }
        client.is_watched = true;
        if watch(self.set, &client.stream, Source::Client(key)).is_err() {
            client.sides.fail();
        }
    }

    /// Closes the connection of a client that has left.
    pub(crate) fn remove_if_left(&mut self, key: usize) {
        if let Some(client) = self.clients.get_mut(key)
            && client.has_left()
        {
            client.end_connection(self.log, self.now);
            self.port.note_unwritten(client.answer.unwritten);
            self.queue.withdraw(key);
            self.loads.leave(key);
            self.clients.remove(key);
        }
    }
}

/// What a read of a client may fill.
fn client_piece(piece: &mut [u8]) -> &mut [u8] {
    let most = piece.len().min(CLIENT_PIECE);
    &mut piece[..most]
}
