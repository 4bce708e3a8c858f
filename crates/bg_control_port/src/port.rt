//! The control port, and the control socket.

use crate::acceptor::Acceptor;
use crate::admission::{Admission, Admitted};
use crate::bounds::most_connections;
use crate::connections::{Asked, Asker};
use crate::events::ControlEvents;
use crate::listener::{ControlListeners, Entrance, Listener};
use crate::operators::{Operators, PortContext};
use crate::peer::Peer;
use crate::readiness::{MOST_READY, Readiness, Ready};
use crate::reading::ReadsLines;
use crate::reply::Reply;
use crate::turn::Precedence;
use bg_peers::{SystemLookup, Users};
use bg_sockets::{PortClock, descriptor_limits};
use std::alloc::Global;
use std::io;
use std::net::{TcpListener, TcpStream};
use std::os::fd::OwnedFd;
use std::os::unix::net::{UnixListener, UnixStream};
use std::sync::{Mutex, Wait};
use std::time::Clock;

/// The number of accepts in a row before other events are handled.
const MOST_ACCEPTS: usize = 64;

/// The number of milliseconds between two calls of [`ControlEvents::second_passed`].
const SECOND: u64 = 1_000;

/// The port and the socket at which operators connect, whose lines are read as `L`. One thread answers their lines; other
/// threads may share it.
#[derive(Drop)]
pub struct ControlPort<L: Drop> {
    readiness: Readiness,
    state: Mutex<State<L>>,
    clock: PortClock,
}

/// The state that changes.
#[derive(Drop)]
struct State<L: Drop> {
    alloc: Global,
    /// `None` if there is no port, and after it was closed.
    port: Option<Acceptor<TcpListener>>,
    /// `None` if there is no socket, and after it was closed.
    socket: Option<Acceptor<UnixListener>>,
    admission: Admission,
    operators: Operators<L>,
    /// When the next call of `second_passed` is due.
    next_second: u64,
}

/// The calls that are due to the events.
#[derive(Drop)]
struct News {
    /// Why an accept of the port failed.
    port_failure: Option<io::Error>,
    /// Why an accept of the socket failed.
    socket_failure: Option<io::Error>,
    /// The number of connections of the port that were refused.
    refused: u64,
    second_passed: bool,
}

impl<L: Drop> ControlPort<L> {
    /// The port and the socket of these listeners. The port is for these users; `None` stands for all users. Allocates the
    /// memory for 1,024 connections. An error if this allocation or the clock fails, if the system cannot create an epoll
    /// set or watch a listener, or if a listener cannot be made non-blocking.
    ///
    /// A connection of the port of another user, and one whose user two reads of the system's list of sockets do not
    /// confirm ([`Users::confirmed`]), is sent `refused NotAllowed` and closed. No line of it is given. A connection of the
    /// socket is served whoever has made it.
    pub fn new<R: Clock>(
        rt: &R,
        alloc: Global,
        listeners: ControlListeners,
        operators: Option<Users>,
    ) -> io::Result<ControlPort<L>> {
        let readiness = Readiness::new()?;
        let state = State {
            alloc,
            port: watched(&readiness, listeners.port, Entrance::Port)?,
            socket: watched(&readiness, listeners.socket, Entrance::Socket)?,
            admission: Admission::new(alloc, operators),
            operators: Operators::new(alloc)?,
            next_second: SECOND,
        };
        Ok(ControlPort {
            readiness,
            state: Mutex::new(state),
            clock: PortClock::start(rt)?,
        })
    }

    /// Waits for the next line, and returns it with its connection. A line is read ([`ReadsLines`]) as soon as it is whole,
    /// once. If there is no memory for it, its connection is closed.
    ///
    /// A connection has one line answered, and then the next connection, in the order in which their lines
    /// came. An urgent line ([`ReadsLines::is_urgent`]) goes before all that wait, but not before an earlier line of its
    /// own connection; after 16 such lines in a row, the line that came first goes.
    ///
    /// A line is the bytes up to a line break, LF, or up to the end of the input if there are any. A line of which
    /// 4,098 bytes have no line break is too long: it is skipped, and read as such ([`WholeLine::TooLong`](crate::WholeLine)).
    ///
    /// The previous line has to be answered before, by [`ControlPort::reply`] or [`ControlPort::end`]. No line
    /// of a connection is given before its last reply was taken whole. Until then the port keeps up to 65,536 bytes
    /// of the reply, and the system what it can. A connection that takes nothing of a reply for ten seconds is
    /// closed. Of the input of a connection, the port keeps at most 12,289 bytes.
    ///
    /// There are at most 1,024 connections, and at most a quarter of the number of file descriptors that the
    /// process may have open. If more come, the port closes the connection that has been silent for the longest
    /// time, for each. Those with a whole line that waits are closed last, and those with an urgent line
    /// never. If an accept fails, the port closes the connection that has been silent for the longest time, if
    /// that is two seconds or more and no whole line of it waits. A failed accept is tried again every
    /// 100 milliseconds.
    pub fn next<R: Clock + Wait, E: ControlEvents, P: ReadsLines<L>>(
        &self,
        rt: &R,
        events: &E,
        reader: &P,
    ) -> Asked<L> {
        for _ in rt.forever() {
            self.attend(rt, events, reader);
            if let Some(asked) = self.state.lock(rt).operators.take_line() {
                return asked;
            }
        }
        unreachable!()
    }

    /// Gives the reply to a line. The connection is closed if it fails, if the reply is one after which it
    /// closes, or if more than 65,536 bytes would have to be kept.
    pub fn reply<R: Clock + Wait, P: ReadsLines<L>>(
        &self,
        rt: &R,
        asker: Asker,
        reply: Reply,
        reader: &P,
    ) {
        let context = self.context(rt, reader);
        self.state
            .lock(rt)
            .operators
            .reply(asker.key, reply, &context);
    }

    /// Closes the connection of a line, without a reply.
    pub fn end<R: Wait>(&self, rt: &R, asker: Asker) {
        self.state.lock(rt).operators.end(asker.key);
    }

    /// Closes the listeners and all connections. From then on no line comes, so a call of
    /// [`ControlPort::next`] does not return.
    pub fn close<R: Wait>(&self, rt: &R) {
        let mut state = self.state.lock(rt);
        state.port = None;
        state.socket = None;
        state.operators.close();
    }

    /// What the handling of connections needs at this moment.
    fn context<'a, R: Clock, P>(&'a self, rt: &R, reader: &'a P) -> PortContext<'a, P> {
        PortContext {
            now: self.clock.now(rt),
            readiness: &self.readiness,
            reader,
        }
    }

    /// Waits until a socket is ready, unless a line waits, and handles what is ready and what is due.
    fn attend<R: Clock + Wait, E: ControlEvents, P: ReadsLines<L>>(
        &self,
        rt: &R,
        events: &E,
        reader: &P,
    ) {
        let mut ready = [Ready::Listener(Entrance::Port); MOST_READY];
        let count = self.readiness.wait(self.millis_to_wait(rt), &mut ready);
        let context = self.context(rt, reader);
        let mut state = self.state.lock(rt);
        let news = state.attend(&ready[..count], &context);
        drop(state);
        if let Some(reason) = &news.port_failure {
            events.accept_failed(Entrance::Port, reason);
        }
        if let Some(reason) = &news.socket_failure {
            events.accept_failed(Entrance::Socket, reason);
        }
        if news.refused > 0 {
            events.connections_refused(news.refused);
        }
        if news.second_passed {
            events.second_passed();
        }
    }

    /// The number of milliseconds that a wait may last: none if a line waits, and otherwise up to the next
    /// second and the next accept.
    fn millis_to_wait<R: Clock + Wait>(&self, rt: &R) -> i32 {
        let now = self.clock.now(rt);
        let state = self.state.lock(rt);
        if state
            .operators
            .connections()
            .first(Precedence::Lines)
            .is_some()
        {
            return 0;
        }
        let millis = state
            .next_second
            .saturating_sub(now)
            .min(SECOND)
            .min(pause_of(&state.port, now))
            .min(pause_of(&state.socket, now));
        i32::try_from(millis).unwrap_or(0)
    }
}

impl<L: Drop> State<L> {
    /// Handles what is ready, accepts connections if that is due, and closes those that take no reply.
    fn attend<P: ReadsLines<L>>(&mut self, ready: &[Ready], context: &PortContext<P>) -> News {
        for one in ready {
            match *one {
                // its connections are accepted after all else, so that no key of a connection that was closed is given
                // again before
                Ready::Listener(Entrance::Port) => note_ready(&mut self.port, context.now),
                Ready::Listener(Entrance::Socket) => note_ready(&mut self.socket, context.now),
                Ready::Connection { key, has_ended } => {
                    self.operators.attend(key, has_ended, context);
                }
            }
        }
        let second_passed = self.passes_second(context.now);
        if second_passed {
            self.operators.end_given_up(context.now);
        }
        // those of the socket first, since the users of the port may have to be looked up
        let socket_failure = self.accept_at_socket(context.readiness, context.now);
        let mut arrived = Vec::new(self.alloc);
        let port_failure = accept_arrived(
            &mut self.port,
            &mut self.operators,
            context.now,
            &mut arrived,
        );
        let count = arrived.len();
        let served = self.keep_served(arrived, context.readiness, context.now);
        News {
            port_failure,
            socket_failure,
            refused: count.saturating_sub(served) as u64,
            second_passed,
        }
    }

    /// Accepts the connections of the socket that have come, and serves them. Returns a failure that has to be reported.
    fn accept_at_socket(&mut self, readiness: &Readiness, now: u64) -> Option<io::Error> {
        let mut arrived: Vec<UnixStream> = Vec::new(self.alloc);
        let failure = accept_arrived(&mut self.socket, &mut self.operators, now, &mut arrived);
        for stream in arrived {
            self.keep(OwnedFd::from(stream), Peer::AtSocket, readiness, now);
        }
        failure
    }

    /// Keeps those of these connections of the port that are served, and returns their number. Without memory, none of them
    /// is served.
    fn keep_served(&mut self, arrived: Vec<TcpStream>, readiness: &Readiness, now: u64) -> usize {
        let mut lookup = SystemLookup::new(self.alloc);
        let Ok(admitted) = self.admission.admit(&mut lookup, arrived) else {
            return 0;
        };
        let count = admitted.len();
        for Admitted { stream, user } in admitted {
            let peer = match user {
                Some(user) => Peer::User(user),
                None => Peer::Anybody,
            };
            self.keep(OwnedFd::from(stream), peer, readiness, now);
        }
        count
    }

    /// Keeps a connection. It takes the place of another one if there is no room.
    fn keep(&mut self, stream: OwnedFd, peer: Peer, readiness: &Readiness, now: u64) {
        if self.operators.connections().count() >= most_connections_now() {
            self.operators.make_room();
        }
        self.operators.add(stream, peer, readiness, now);
    }

    /// Whether a second has passed since the last one that was reported.
    fn passes_second(&mut self, now: u64) -> bool {
        if now < self.next_second {
            return false;
        }
        self.next_second = now.saturating_add(SECOND);
        true
    }
}

/// An acceptor over a listener that is watched, if there is one.
fn watched<L: Listener + Drop>(
    readiness: &Readiness,
    listener: Option<L>,
    entrance: Entrance,
) -> io::Result<Option<Acceptor<L>>> {
    let Some(listener) = listener else {
        return Ok(None);
    };
    let acceptor = Acceptor::new(listener)?;
    readiness.watch_listener(acceptor.listener(), entrance)?;
    Ok(Some(acceptor))
}

fn note_ready<L: Listener + Drop>(acceptor: &mut Option<Acceptor<L>>, now: u64) {
    if let Some(acceptor) = acceptor {
        acceptor.note_ready(now);
    }
}

/// The number of milliseconds until connections may be accepted, or a second if that depends on the listener.
fn pause_of<L: Listener + Drop>(acceptor: &Option<Acceptor<L>>, now: u64) -> u64 {
    match acceptor {
        Some(acceptor) => acceptor.millis_to_wait(now).unwrap_or(SECOND),
        None => SECOND,
    }
}

/// Accepts the connections that have come. Returns a failure that has to be reported.
fn accept_arrived<A: Listener + Drop, L: Drop>(
    acceptor: &mut Option<Acceptor<A>>,
    operators: &mut Operators<L>,
    now: u64,
    arrived: &mut Vec<A::Stream>,
) -> Option<io::Error> {
    let acceptor = acceptor.as_mut()?;
    for _ in 0..MOST_ACCEPTS {
        if acceptor.millis_to_wait(now) != Some(0) {
            return None;
        }
        let connections = operators.connections();
        let count = connections.count().saturating_add(arrived.len());
        if count >= most_connections_now() && connections.first(Precedence::Silence).is_none() {
            acceptor.put_off(now);
            return None;
        }
        match acceptor.accept(now) {
            // without memory, it is closed
            Ok(Some(stream)) => drop(arrived.push(stream)),
            Ok(None) => {}
            Err(reason) => {
                operators.close_silent(now);
                return acceptor.is_first_failure().then_some(reason);
            }
        }
    }
    None
}

/// The maximum number of connections now. The limit of descriptors may change.
fn most_connections_now() -> usize {
    most_connections(descriptor_limits().soft)
}
