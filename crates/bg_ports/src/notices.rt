//! The notices that are written to standard error while the ports are open.

use crate::event_loops::EventLoops;
use crate::notice::{Notice, Resumed};
use crate::ports::{Ports, service_name};
use bg_access_log::{AccessLog, LogTrouble};
use bg_control_port::{ControlEvents, Entrance, Peer};
use bg_revisions::Service;
use libc::STDERR_FILENO;
use libc::net::{POLLOUT, poll};
use libc::types::pollfd;
use std::alloc::Global;
use std::io;
use std::io::Write;
use std::sync::atomic::{AtomicBool, AtomicU64, Ordering};

/// The number of seconds after `open` in which all threads are expected to begin.
const SECONDS_TO_BEGIN: u64 = 3;

/// Which notices were written about a client port.
#[derive(Drop)]
struct PortNotices {
    event_loops: AtomicBool,
    used_up: AtomicBool,
}

impl PortNotices {
    /// No notices yet.
    fn new() -> PortNotices {
        PortNotices {
            event_loops: AtomicBool::new(false),
            used_up: AtomicBool::new(false),
        }
    }
}

/// Writes notices to standard error while the ports are open: fewer event loops than expected, failed
/// accepts, a port that is closed because it has taken all its connections, a history that is
/// nearly full, lines and requests that are refused because it is full, responses that are cut off, an access log that takes
/// nothing or has lost lines, decisions that came by the control socket, and, if the control port serves only listed users, their
/// decisions and the connections of others; and what was resumed from a journal, that it can't be used, or that it lacks an
/// order. Each is written once, or once for each client port, with these exceptions. Failed accepts at the control port or at
/// the control socket, a log that takes nothing, and a journal that lacks an order are written once for each
/// series of failures. Refusals, responses that are cut off, and connections of others, are written
/// each second in which there were some. Each decision is written. A failed write changes nothing else.
#[derive(Drop)]
pub struct Notices<'p> {
    alloc: Global,
    ports: &'p Ports,
    log: Option<&'p AccessLog>,
    /// The path of the journal, if there is one.
    journal: Option<&'p str>,
    /// Whether the journal lacks an order that was carried out.
    lacks_order: AtomicBool,
    /// How many event loops are to begin.
    loops: EventLoops,
    of_active: PortNotices,
    of_preview: PortNotices,
    is_open: AtomicBool,
    /// The maximum number of entries of the history.
    most_entries: u64,
    /// The number of seconds since the book was opened.
    open_seconds: AtomicU64,
    nearly_full: AtomicBool,
    /// The number of lines that were refused because the history is full, since the last notice about that.
    refused_lines: AtomicU64,
    /// The number of such requests.
    refused_requests: AtomicU64,
    /// The number of responses that were cut off, since the last notice about that.
    cut_responses: AtomicU64,
    /// The number of connections that were refused at the control port, since the last notice about that.
    refused_connections: AtomicU64,
}

impl<'p> Notices<'p> {
    /// No notice was written yet, and no book is open. The history of a book holds at most `most_entries` entries.
    pub fn new(
        alloc: Global,
        ports: &'p Ports,
        loops: EventLoops,
        log: Option<&'p AccessLog>,
        most_entries: u64,
    ) -> Notices<'p> {
        Notices {
            alloc,
            ports,
            log,
            journal: None,
            lacks_order: AtomicBool::new(false),
            loops,
            of_active: PortNotices::new(),
            of_preview: PortNotices::new(),
            is_open: AtomicBool::new(false),
            most_entries,
            open_seconds: AtomicU64::new(0),
            nearly_full: AtomicBool::new(false),
            refused_lines: AtomicU64::new(0),
            refused_requests: AtomicU64::new(0),
            cut_responses: AtomicU64::new(0),
            refused_connections: AtomicU64::new(0),
        }
    }

    /// The notices of a run whose orders are kept by the journal in the file at this path, if there is one.
    pub fn with_journal(self, path: Option<&'p str>) -> Notices<'p> {
        Notices {
            journal: path,
            ..self
        }
    }

    /// Writes what was resumed from the journal.
    pub fn write_resumed(&self, resumed: Resumed) {
        if let Some(path) = self.journal {
            self.write(&Notice::JournalResumed { path, resumed });
        }
    }

    /// Writes why the journal can't be used.
    pub fn write_journal_refused(&self, reason: &str) {
        if let Some(path) = self.journal {
            self.write(&Notice::JournalRefused { path, reason });
        }
    }

    /// Writes a setting of the journal's strategy, and that of the Rollout, which differs.
    pub fn write_other_setting(&self, kept: &str, given: &str) {
        self.write(&Notice::OtherSetting { kept, given });
    }

    /// Whether the journal lacks an order that was carried out, as far as was noted.
    pub fn lacks_order(&self) -> bool {
        self.lacks_order.load(Ordering::SeqCst)
    }

    /// Notes whether the journal lacks an order that was carried out. Writes a notice if that has changed.
    pub fn note_journal(&self, lacks_order: bool) {
        let Some(path) = self.journal else {
            return;
        };
        let lacked_one = self.lacks_order.swap(lacks_order, Ordering::SeqCst);
        if lacks_order && !lacked_one {
            self.write(&Notice::JournalFails { path });
        } else if lacked_one && !lacks_order {
            self.write(&Notice::JournalKeeps { path });
        }
    }

    /// Notes that a book was opened, so the event loops should begin.
    pub fn note_open(&self) {
        self.is_open.store(true, Ordering::SeqCst);
    }

    /// Notes that the history holds this many entries. Writes the notice if that is at least nine tenths of
    /// its maximum.
    pub fn note_entries(&self, used: u64) {
        let most = self.most_entries;
        if used >= most / 10 * 9 {
            self.write_once(&self.nearly_full, &Notice::HistoryNearlyFull { used, most });
        }
    }

    /// The counter of the lines that are refused because the history is full.
    pub fn refused_lines(&self) -> &AtomicU64 {
        &self.refused_lines
    }

    /// The counter of the requests that are refused because the history is full.
    pub fn refused_requests(&self) -> &AtomicU64 {
        &self.refused_requests
    }

    /// The counter of the responses that are cut off after a part of them was forwarded.
    pub fn cut_responses(&self) -> &AtomicU64 {
        &self.cut_responses
    }

    /// Writes how many responses were cut off, if any were since the last call.
    pub fn write_cut_responses(&self) {
        let responses = self.cut_responses.swap(0, Ordering::SeqCst);
        if responses > 0 {
            self.write(&Notice::ResponsesCut { responses });
        }
    }

    /// Writes how many lines and requests were refused because the history is full, if any were refused since the
    /// last call.
    pub fn write_refusals(&self) {
        let lines = self.refused_lines.swap(0, Ordering::SeqCst);
        let requests = self.refused_requests.swap(0, Ordering::SeqCst);
        if lines > 0 || requests > 0 {
            self.write(&Notice::HistoryFull { lines, requests });
        }
    }

    /// Writes about the access log: that its file takes nothing, once for each series of failed writes, and how many lines
    /// were lost.
    pub fn write_log_trouble(&self) {
        match self.log {
            Some(log) => match log.take_trouble() {
                Some(LogTrouble::TakesNothing(reason)) => self.write(&Notice::LogTakesNothing {
                    reason: &reason,
                }),
                Some(LogTrouble::LinesLost(lost)) => self.write(&Notice::LogLinesLost { lost }),
                None => {}
            },
            None => {}
        }
    }

    /// Writes who has made a decision: the line of an operator, and the number of its user, or that it came by the control
    /// socket. Nothing is written of a decision at a port that serves all users.
    pub fn write_decision(&self, peer: Peer, line: &[u8]) {
        if peer == Peer::Anybody {
            return;
        }
        if let Ok(line) = str::from_utf8(line) {
            self.write(&Notice::Decision {
                peer,
                line: line.trim_end(),
            });
        }
    }

    /// Writes how many connections were refused, if any were since the last call.
    fn write_refused_connections(&self) {
        let connections = self.refused_connections.swap(0, Ordering::SeqCst);
        if connections > 0 {
            self.write(&Notice::RefusedConnections { connections });
        }
    }

    /// Checks a client port.
    fn check_port(&self, service: Service, is_late: bool) {
        let Some(client_port) = self.ports.of(service) else {
            return;
        };
        let port = service_name(service);
        if client_port.take_accept_failure() {
            self.write(&Notice::AcceptsFail { port });
        }
        let written = self.written_of(service);
        if client_port.is_closed() {
            self.write_once(&written.used_up, &Notice::UsedUp { port });
        } else if is_late {
            self.check_loops(service, client_port.loops_begun());
        }
    }

    /// Checks whether the event loops of a port have begun.
    fn check_loops(&self, service: Service, begun: usize) {
        let port = service_name(service);
        let expected = self.loops.of_service(service) as usize;
        if begun >= expected {
            return;
        }
        let notice = if begun == 0 {
            Notice::NoEventLoop { port }
        } else {
            Notice::FewerEventLoops {
                port,
                begun,
                expected,
            }
        };
        self.write_once(&self.written_of(service).event_loops, &notice);
    }

    fn written_of(&self, service: Service) -> &PortNotices {
        match service {
            Service::Active => &self.of_active,
            Service::Preview => &self.of_preview,
        }
    }

    /// Whether the writer of the access log writes the line, since both go to standard error.
    fn hands_over(&self, line: &[u8]) -> bool {
        match self.log {
            Some(log) => log.hand_over(line),
            None => false,
        }
    }

    fn write_once(&self, is_written: &AtomicBool, notice: &Notice) {
        if !is_written.swap(true, Ordering::SeqCst) {
            self.write(notice);
        }
    }

    /// Writes a line to standard error. If standard error takes nothing now, the line is lost: operators are
    /// served by this thread, and do not wait for whoever reads it.
    fn write(&self, notice: &Notice) {
        let mut line = Vec::new(self.alloc);
        if writeln!(line, "bg_switch: {notice}").is_err() || self.hands_over(&line) {
            return;
        }
        if takes_a_line() {
            let _ = libc::write(STDERR_FILENO, &line);
        }
    }
}

/// Whether standard error takes a line of up to 4,096 bytes without waiting (PIPE_BUF of pipe(7)).
fn takes_a_line() -> bool {
    let mut asked = [pollfd {
        fd: STDERR_FILENO,
        events: POLLOUT,
        revents: 0,
    }];
    poll(&mut asked, 0) > 0
}

impl ControlEvents for Notices<'_> {
    fn accept_failed(&self, entrance: Entrance, reason: &io::Error) {
        self.write(&Notice::ControlAcceptsFail { entrance, reason });
    }

    fn connections_refused(&self, connections: u64) {
        self.refused_connections
            .fetch_add(connections, Ordering::SeqCst);
    }

    fn second_passed(&self) {
        self.write_refused_connections();
        if !self.is_open.load(Ordering::SeqCst) {
            return;
        }
        let passed = self.open_seconds.fetch_add(1, Ordering::SeqCst);
        let is_late = passed >= SECONDS_TO_BEGIN;
        self.check_port(Service::Active, is_late);
        self.check_port(Service::Preview, is_late);
        self.write_refusals();
        self.write_cut_responses();
        self.write_log_trouble();
    }
}
