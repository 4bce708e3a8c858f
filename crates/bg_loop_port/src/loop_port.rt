//! A client port that event loops serve.
ghost use Rattle.std.specs.Prelude.{◌≡◌, IfOk, is_some, map, nat_lt, vec_len};

use crate::accept::Accepted;
use crate::admission::Admission;
use crate::loads_of_loops::LoadsOfLoops;
use crate::port_listener::PortListener;
use bg_load::Totals;
use bg_sockets::{PortClock, Signal};
use std::alloc::Global;
use std::io;
use std::net::TcpListener;
use std::os::fd::RawFd;
use std::sync::atomic::{AtomicBool, AtomicU64, AtomicUsize, Ordering};
use std::time::Clock;

/// The number of accepts that fail in a row before they count as a connection.
const FAILURES_OF_A_CONNECTION: u64 = 10;

/// The settings of a client port.
#[derive(Clone, Copy, Drop)]
pub struct LoopPortSettings {
    /// The number of loops that serve the port.
    pub loops: usize,
    /// The most requests that are inside at a time, over all loops.
    pub concurrency: u64,
    /// The number of connections that the port accepts in all, at least 1; `None` stands for no limit. Ten accepts that fail in
    /// a row count as one.
    pub connections: Option<u64>,
}

/// A client port that event loops serve. They share it.
pub struct LoopPort {
    /// Where clients connect: at one address each.
    listeners: Vec<PortListener>,
    /// The number of connections for which no accept has begun, and of those that were not accepted.
    free: AtomicU64,
    untaken: AtomicU64,
    has_limit: bool,
    /// The number of accepts that have failed in a row.
    failures: AtomicU64,
    /// Whether no further connection is accepted.
    is_closed: AtomicBool,
    /// Whether a graceful shutdown has begun.
    is_shut_down: AtomicBool,
    /// What ends the waits of all loops.
    signal: Signal,
    admission: Admission,
    /// What gives the moments of the port.
    clock: PortClock,
    /// What the connections of the loops come to.
    loads: LoadsOfLoops,
    /// The number of the next loop, and the number of loops that have begun.
    next_loop: AtomicUsize,
    loops_begun: AtomicUsize,
    /// Whether an accept has failed, and whether that was reported.
    accept_failed: AtomicBool,
    is_failure_reported: AtomicBool,
    /// The number of answers of which a part was not written, and the bytes that were not.
    cut_answers: AtomicU64,
    cut_bytes: AtomicU64,
}

impl Drop for LoopPort {
    /// Drops the fields by one call, so that the proofs of what owns a value are short (CONTRIBUTING.md, "What a check costs").
    fn drop(self) {
        let LoopPort {
            listeners: _,
            free: _,
            untaken: _,
            has_limit: _,
            failures: _,
            is_closed: _,
            is_shut_down: _,
            signal: _,
            admission: _,
            clock: _,
            loads: _,
            next_loop: _,
            loops_begun: _,
            accept_failed: _,
            is_failure_reported: _,
            cut_answers: _,
            cut_bytes: _,
        } = self;
    }
}

/// Answers that were not written to their end: their clients reset the connection, took too little for too long, or were
/// closed by a timeout or for room.
#[derive(Clone, Copy, PartialEq, Eq, Debug, Drop)]
pub struct CutAnswers {
    /// The number of answers.
    pub answers: u64,
    /// The number of bytes that were not written.
    pub bytes: u64,
}

impl LoopPort {
    /// The port of these listeners, whose accepts do not wait from now on. An error if a system call or an allocation fails.
    pub fn new<R: Clock>(
        rt: &R,
        alloc: Global,
        listeners: Vec<TcpListener>,
        settings: LoopPortSettings,
    ) -> io::Result<LoopPort>
        ensures { IfOk result (λ port. map (λ l. l.listener) port.listeners.items ≡ listeners.items) }
    {
        let most = settings.connections.unwrap_or(u64::MAX);
        Ok(LoopPort {
            listeners: PortListener::all(alloc, listeners)?,
            free: AtomicU64::new(most),
            untaken: AtomicU64::new(most),
            has_limit: settings.connections.is_some(),
            failures: AtomicU64::new(0),
            is_closed: AtomicBool::new(false),
            is_shut_down: AtomicBool::new(false),
            signal: Signal::new()?,
            admission: Admission::new(alloc, settings.concurrency, settings.loops)?,
            clock: PortClock::start(rt)?,
            loads: LoadsOfLoops::new(),
            next_loop: AtomicUsize::new(0),
            loops_begun: AtomicUsize::new(0),
            accept_failed: AtomicBool::new(false),
            is_failure_reported: AtomicBool::new(false),
            cut_answers: AtomicU64::new(0),
            cut_bytes: AtomicU64::new(0),
        })
    }

    /// Begins a graceful shutdown: the loops accept the clients that wait in the backlog, and no others, and end once their
    /// clients have left.
    pub fn shut_down(&self) {
        self.is_shut_down.store(true, Ordering::SeqCst);
        self.signal.post();
    }

    /// Whether a graceful shutdown has begun.
    pub fn is_shut_down(&self) -> bool {
        self.is_shut_down.load(Ordering::SeqCst)
    }

    /// Whether the port accepts no further connection: it has accepted its number of connections, or a shutdown has begun.
    pub fn is_closed(&self) -> bool {
        self.is_closed.load(Ordering::SeqCst)
    }

    /// Accepts no further connection: clients are refused from now on. The descriptors of the listeners stay open, since loops
    /// may watch them.
    pub fn close(&self) {
        if !self.is_closed.swap(true, Ordering::SeqCst) {
            for listener in self.listeners.iter() {
                listener.close();
            }
            self.signal.post();
        }
    }

    /// The number of listeners.
    pub fn listeners(&self) -> usize
        ensures { result ≡ vec_len self.now.listeners }
    {
        self.listeners.len()
    }

    /// The descriptor of the listener of this number, from 0 on, so that it can be watched. `None` if the port has no such
    /// listener.
    pub fn descriptor(&self, listener: usize) -> Option<RawFd>
        ensures { is_some result ≡ nat_lt listener (vec_len self.now.listeners) }
    {
        match self.listeners.get(listener) {
            Some(listener) => Some(listener.descriptor()),
            None => None,
        }
    }

    /// The descriptor that is readable after a shutdown has begun, after the port was closed, or after a loop has left clients to
    /// the others. All loops watch it for edges.
    pub fn signal_descriptor(&self) -> RawFd {
        self.signal.descriptor()
    }

    /// The descriptor that is readable after [`LoopPort::pass_on`] has woken the loop of this number. That loop alone watches it,
    /// for edges. `None` if the port has no such loop.
    pub fn signal_descriptor_of(&self, number: usize) -> Option<RawFd> {
        self.admission.descriptor(number)
    }

    /// The moment: milliseconds from the start of the port.
    pub fn now<R: Clock>(&self, rt: &R) -> u64 {
        self.clock.now(rt)
    }

    /// Notes since when the request waits that has waited longest at the loop of this number, if one waits there for which a
    /// seat is free.
    pub fn note_waiting(&self, number: usize, since: Option<u64>) {
        self.admission.note_waiting(number, since);
    }

    /// Whether a request of the loop of this number may enter that waits since this moment: fewer than the most requests are
    /// inside, and no request of another loop waits for more than 20 milliseconds longer. A loop that has its share of the most
    /// requests inside leaves its turn to one that has less, if a request waits there, and not for more than 20 milliseconds less.
    pub fn may_enter(&self, number: usize, since: u64) -> bool {
        self.admission.may_enter(number, since)
    }

    /// Counts a request that enters, if it may, as [`LoopPort::may_enter`] says. Gives whether it enters.
    pub fn enters(&self, number: usize, since: u64) -> bool {
        self.admission.enter(number, since)
    }

    /// Notes that a request of the loop of this number has left that had entered.
    pub fn note_left(&self, number: usize) {
        self.admission.leave(number);
    }

    /// Notes that the loop of this number is asleep, unless its request may enter that has waited longest, since this moment.
    /// Gives whether it is asleep. A loop at which a request waits calls this before it waits for events, after
    /// [`LoopPort::note_waiting`], and waits only if the answer is yes.
    pub fn falls_asleep(&self, number: usize, since: u64) -> bool {
        self.admission.falls_asleep(number, since)
    }

    /// Notes that the loop of this number is awake: it looks in its next round whether a request of it may enter.
    pub fn note_awake(&self, number: usize) {
        self.admission.note_asleep(number, false);
    }

    /// Wakes the loop whose request may enter next, other than that of this number, if it is asleep and fewer than the most
    /// requests are inside. A loop calls this after a request of it has entered or left, or waits no more.
    pub fn pass_on(&self, number: usize) {
        self.admission.wake_next(number);
    }

    /// Notes that what the connections of a loop come to has changed. A loop begins with nothing, and ends with nothing.
    pub fn note_load(&self, before: Totals, after: Totals) {
        self.loads.note(before, after);
    }

    /// What the connections of the other loops come to, for a loop that has noted last that its own come to this. Each number is
    /// read by itself, so other loops may change some of them meanwhile.
    pub fn others(&self, own: Totals) -> Totals {
        self.loads.others(own)
    }

    /// Notes that a loop without room accepts no client for a while, although clients may wait. The signal comes, so that
    /// another loop accepts them: an event of a listener wakes one loop only (`EPOLLEXCLUSIVE` of epoll_ctl(2)).
    pub fn leave_backlog(&self) {
        for listener in self.listeners.iter() {
            listener.leave_backlog();
        }
        self.signal.post();
    }

    /// Whether a loop has left clients to the others, and there is a listener of which no accept has found since that none
    /// waits.
    pub fn is_backlog_left(&self) -> bool {
        for listener in self.listeners.iter() {
            if listener.is_backlog_left() {
                return true;
            }
        }
        false
    }

    /// The next client that waits at the listener of this number, from 0 on, if there is such a listener and a further
    /// connection may be accepted.
    pub fn accept(&self, listener: usize) -> Accepted {
        match self.listeners.get(listener) {
            Some(listener) => self.accept_at(listener),
            None => Accepted::Nothing,
        }
    }

    fn accept_at(&self, listener: &PortListener) -> Accepted {
        if self.is_closed() || !self.begin_accept() {
            return Accepted::Nothing;
        }
        match listener.accept() {
            Accepted::Stream(stream) => {
                self.failures.store(0, Ordering::SeqCst);
                self.count_accepted();
                Accepted::Stream(stream)
            }
            Accepted::Nothing => {
                self.withdraw_accept();
                Accepted::Nothing
            }
            Accepted::Failed => {
                if self.is_closed() {
                    return Accepted::Nothing;
                }
                self.accept_failed.store(true, Ordering::SeqCst);
                self.note_failure();
                Accepted::Failed
            }
        }
    }

    /// Counts an accept that begins, if a further connection may be accepted.
    fn begin_accept(&self) -> bool {
        !self.has_limit
            || self
                .free
                .fetch_update(
                    Ordering::SeqCst,
                    Ordering::SeqCst,
                    |free| free.checked_sub(1),
                )
                .is_ok()
    }

    /// Notes that an accept gave no connection.
    fn withdraw_accept(&self) {
        if self.has_limit {
            self.free.fetch_add(1, Ordering::SeqCst);
        }
    }

    /// Notes that an accept failed. Each tenth failure in a row counts as a connection, if their number is limited: a port
    /// whose accepts always fail is closed, too.
    fn note_failure(&self) {
        let failures = self
            .failures
            .fetch_add(1, Ordering::SeqCst)
            .saturating_add(1);
        if failures % FAILURES_OF_A_CONNECTION == 0 {
            self.count_accepted();
        } else {
            self.withdraw_accept();
        }
    }

    /// Notes that a connection was accepted. The port is closed after the last one.
    fn count_accepted(&self) {
        if self.has_limit && self.untaken.fetch_sub(1, Ordering::SeqCst) == 1 {
            self.close();
        }
    }

    /// The number of a loop: each gets the next one, from 0 on.
    pub fn take_number(&self) -> usize {
        self.next_loop.fetch_add(1, Ordering::SeqCst)
    }

    /// Notes that a loop has begun.
    pub fn note_begun(&self) {
        self.loops_begun.fetch_add(1, Ordering::SeqCst);
    }

    /// The number of loops that have begun.
    pub fn loops_begun(&self) -> usize {
        self.loops_begun.load(Ordering::SeqCst)
    }

    /// Whether an accept has failed, for example because no descriptor is free. True at most once, also if accepts fail again
    /// later.
    pub fn take_accept_failure(&self) -> bool {
        self.accept_failed.load(Ordering::SeqCst)
            && !self.is_failure_reported.swap(true, Ordering::SeqCst)
    }

    /// Notes that so many bytes of an answer were not written, if any were not.
    pub fn note_unwritten(&self, unwritten: usize) {
        if unwritten > 0 {
            self.cut_answers.fetch_add(1, Ordering::SeqCst);
            self.cut_bytes.fetch_add(unwritten as u64, Ordering::SeqCst);
        }
    }

    /// The answers that were cut since the last call.
    pub fn take_cut_answers(&self) -> CutAnswers {
        CutAnswers {
            answers: self.cut_answers.swap(0, Ordering::SeqCst),
            bytes: self.cut_bytes.swap(0, Ordering::SeqCst),
        }
    }
}
