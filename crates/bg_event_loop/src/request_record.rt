//! What is kept of a request for the log, until it is over.

use crate::outcome::Outcome;
use crate::request_log::{EndedRequest, RequestLine, RequestLog};
use crate::tunnel_ending::TunnelEnding;
use bg_book::Ticket;
use bg_forward::{Route, Served};
use bg_http::Request;
use std::alloc::{AllocError, Global};

/// The most bytes that are kept of a method, of a target and of an id.
const MOST_BYTES: usize = 1_024;

/// Copies of the method and the target of a request.
#[derive(Drop)]
struct OwnedLine {
    method: Vec<u8>,
    target: Vec<u8>,
}

impl OwnedLine {
    fn of(alloc: Global, request: &Request) -> Result<OwnedLine, AllocError> {
        Ok(OwnedLine {
            method: first_bytes(alloc, request.method.get())?,
            target: first_bytes(alloc, request.target.get())?,
        })
    }
}

fn first_bytes(alloc: Global, bytes: &[u8]) -> Result<Vec<u8>, AllocError> {
    Vec::from_slice(alloc, &bytes[..bytes.len().min(MOST_BYTES)])
}

/// What is kept of a request for the log, until it is over. Moments are milliseconds from the start of the loop.
pub(crate) struct RequestRecord {
    /// The number of requests of the connection that are over.
    ended: u64,
    /// When the connection was accepted; of a later request, when its first byte came.
    began: u64,
    /// The number of bytes that came.
    bytes: u64,
    /// Whether the request is whole.
    is_whole: bool,
    line: Option<OwnedLine>,
    /// The id that its endpoint is told, if it is told one.
    id: Option<Vec<u8>>,
    /// What the request got when it entered, and when it did.
    ticket: Option<Ticket>,
    entered: u64,
    /// Whether the connection to its endpoint had carried a request before, if it has one.
    is_reused: Option<bool>,
    /// The number of bytes of its response that were passed on, and when the first ones were.
    passed_on: u64,
    passed_on_at: Option<u64>,
}

impl Drop for RequestRecord {
    /// Drops the fields by one call, so that the proofs of what owns a value are short (CONTRIBUTING.md, "What a check costs").
    fn drop(self) {
        let RequestRecord {
            ended: _,
            began: _,
            bytes: _,
            is_whole: _,
            line: _,
            id: _,
            ticket: _,
            entered: _,
            is_reused: _,
            passed_on: _,
            passed_on_at: _,
        } = self;
    }
}

impl RequestRecord {
    /// The first request of a connection that was accepted now.
    pub(crate) fn new(now: u64) -> RequestRecord {
        RequestRecord {
            ended: 0,
            began: now,
            bytes: 0,
            is_whole: false,
            line: None,
            id: None,
            ticket: None,
            entered: 0,
            is_reused: None,
            passed_on: 0,
            passed_on_at: None,
        }
    }

    /// Whether no byte came on the connection.
    pub(crate) fn is_silent(&self) -> bool {
        self.ended == 0 && self.bytes == 0
    }

    /// Whether bytes came of a request that is not over.
    pub(crate) fn has_begun(&self) -> bool {
        self.bytes > 0 || self.is_whole
    }

    /// The number of bytes that came.
    pub(crate) fn bytes(&self) -> u64 {
        self.bytes
    }

    /// Whether the request is whole.
    pub(crate) fn is_whole(&self) -> bool {
        self.is_whole
    }

    /// Notes that bytes came.
    pub(crate) fn note_bytes(&mut self, count: usize, now: u64) {
        if self.bytes == 0 && self.ended > 0 {
            self.began = now;
        }
        self.bytes = self.bytes.saturating_add(count as u64);
    }

    /// Notes that the request is whole.
    pub(crate) fn note_whole(&mut self, now: u64) {
        if self.bytes == 0 && self.ended > 0 {
            // it waited behind the request before
            self.began = now;
        }
        self.is_whole = true;
    }

    /// Notes that the request is not answered although its client stays. It is logged as one that was not read.
    pub(crate) fn note_dropped(&mut self) {
        self.is_whole = false;
        self.line = None;
    }

    /// Notes what the request got as it entered.
    pub(crate) fn note_entered(&mut self, ticket: Ticket, now: u64) {
        self.ticket = Some(ticket);
        self.entered = now;
    }

    /// Notes that the request has a connection to its endpoint, which is a new one or has carried a request before.
    pub(crate) fn note_connected(&mut self, is_reused: bool) {
        self.is_reused = Some(is_reused);
    }

    /// Notes that so many bytes of its response were passed on.
    pub(crate) fn note_passed_on(&mut self, count: usize, now: u64) {
        if self.passed_on_at.is_none() && count > 0 {
            self.passed_on_at = Some(now);
        }
        self.passed_on = self.passed_on.saturating_add(count as u64);
    }

    /// The number of bytes of its response that were passed on.
    pub(crate) fn passed_on(&self) -> u64 {
        self.passed_on
    }

    /// Keeps the method and the target. Without memory, neither is logged.
    pub(crate) fn keep_line(&mut self, alloc: Global, request: &Request) {
        self.line = OwnedLine::of(alloc, request).ok();
    }

    /// Keeps the id that its endpoint is told. Without memory, it is not logged.
    pub(crate) fn keep_id(&mut self, alloc: Global, id: Option<&[u8]>) {
        self.id = match id {
            Some(id) => first_bytes(alloc, id).ok(),
            None => None,
        };
    }

    /// The time from when the request entered to the first bytes of its answer, which is given now if it was not passed on.
    pub(crate) fn millis_to_answer(&self, now: u64) -> Option<u64> {
        let at = self.passed_on_at.unwrap_or(now);
        match self.ticket {
            Some(_) => Some(at.saturating_sub(self.entered)),
            None => None,
        }
    }

    /// Logs that the request is over. The record is that of the next request from then on.
    pub(crate) fn end<L: RequestLog>(&mut self, log: &L, ended: &RequestEnd<'_>, now: u64) {
        let line = match &self.line {
            Some(line) => Some(RequestLine {
                method: line.method.as_slice(),
                target: line.target.as_slice(),
            }),
            None => ended.line,
        };
        log.add(&EndedRequest {
            served: Served {
                entered: self.ticket,
                route: match self.ticket {
                    Some(_) => ended.route,
                    None => None,
                },
                end: ended.outcome.end,
                reason: ended.outcome.reason,
            },
            is_cut: ended.outcome.is_cut,
            line,
            id: match &self.id {
                Some(id) => Some(id.as_slice()),
                None => None,
            },
            is_head_sound: ended.is_head_sound,
            place: self.ended.saturating_add(1),
            is_reused: self.is_reused,
            request_bytes: self.bytes,
            response_bytes: ended.response_bytes,
            duration_millis: now.saturating_sub(self.began),
            response_millis: ended.response_millis,
            tunnel: ended.tunnel,
        });
        self.begin_next(now);
    }

    fn begin_next(&mut self, now: u64) {
        let ended = self.ended.saturating_add(1);
        *self = RequestRecord::new(now);
        self.ended = ended;
    }
}

/// How a request ended.
#[derive(Drop)]
pub(crate) struct RequestEnd<'a> {
    pub(crate) outcome: Outcome,
    /// What was dialled for the last request of the connection that entered.
    pub(crate) route: Option<Route>,
    /// The method and the target, if a head was parsed, and whether the head of what is no request passes all rules.
    pub(crate) line: Option<RequestLine<'a>>,
    pub(crate) is_head_sound: bool,
    pub(crate) response_bytes: u64,
    pub(crate) response_millis: Option<u64>,
    /// How the tunnel ended that the request became.
    pub(crate) tunnel: Option<TunnelEnding>,
}
