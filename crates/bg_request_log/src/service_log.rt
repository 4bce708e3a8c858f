//! The access log of the requests that the event loops of a client port serve.

use crate::entry::{CUT, ConnectionFacts, entry_of, logged_end};
use crate::request_text::text_of;
use bg_access_log::AccessLog;
use bg_event_loop::{EndedRequest, RequestLog};
use bg_forward::Reason;
use bg_revisions::Service;
use std::alloc::Global;
use std::sync::Wait;
use std::sync::atomic::{AtomicU64, Ordering};
use std::time::Clock;

/// The access log of the requests that the event loops of a client port serve. If there is a log, each request is logged of
/// which a byte came, and connections without one are counted.
#[derive(Drop)]
pub struct ServiceLog<'a, R: Clock + Wait> {
    /// The handle for the clock, and for the lock of the log.
    pub rt: &'a R,
    pub alloc: Global,
    /// The service of the port.
    pub service: Service,
    pub log: Option<&'a AccessLog>,
    /// Whether a request may be dialled at another port than its ticket's. The log then tells how many were dialled.
    pub redispatches: bool,
    /// Whether connections are kept. The log then tells the number of a request on its connection, and whether the connection to
    /// its endpoint had carried one before.
    pub keeps_connections: bool,
    /// What is added to the numbers of requests in the book, so that they differ from those of earlier runs.
    pub number_offset: u64,
    /// The counter of the requests that are refused because the history is full.
    pub refused_for_room: &'a AtomicU64,
    /// The counter of the responses that are cut off, as the log tells it.
    pub cut_responses: &'a AtomicU64,
}

impl<R: Clock + Wait> RequestLog for ServiceLog<'_, R> {
    fn logs_lines(&self) -> bool {
        self.log.is_some()
    }

    fn add(&self, ended: &EndedRequest<'_>) {
        if ended.served.reason == Some(Reason::HistoryFull) {
            self.refused_for_room.fetch_add(1, Ordering::SeqCst);
        }
        if logged_end(&ended.served, ended.is_cut) == CUT {
            self.cut_responses.fetch_add(1, Ordering::SeqCst);
        }
        if let Some(log) = self.log {
            log.add(self.rt, &entry_of(ended, self.facts(log, ended)));
        }
    }

    fn note_silent(&self) {
        if let Some(log) = self.log {
            log.note_idle_connection();
        }
    }
}

impl<R: Clock + Wait> ServiceLog<'_, R> {
    /// What the log tells of a request apart from what its event loop has noted.
    fn facts<'c>(&self, log: &AccessLog, ended: &EndedRequest<'c>) -> ConnectionFacts<'c> {
        let alloc = self.alloc;
        ConnectionFacts {
            time: log.time(self.rt),
            service: self.service,
            method: ended.line.and_then(|line| text_of(alloc, line.method)),
            target: ended.line.and_then(|line| text_of(alloc, line.target)),
            id: ended.id.and_then(|id| text_of(alloc, id)),
            redispatches: self.redispatches,
            keeps_connections: self.keeps_connections,
            number_offset: self.number_offset,
            idle_connections: log.take_idle_connections(),
        }
    }
}
