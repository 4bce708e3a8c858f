//! How the ends of a client's requests are logged.
ghost use Rattle.std.specs.Prelude.{◌≡◌};

use crate::client::Client;
use crate::outcome::{Cause, Outcome};
use crate::request_log::{RequestLine, RequestLog};
use crate::request_record::RequestEnd;
use bg_both_sides::BothSides;
use bg_client_side::Fed;
use bg_http::RequestHead;
use std::alloc::Global;

impl Client {
    /// Keeps the method and the target of the request that waits for a seat, if they are logged. Its client may go before it enters.
    pub(crate) fn keep_line<L: RequestLog>(&mut self, alloc: Global, log: &L)
        ensures { self.new.sides ≡ self.old.sides }
    {
        if log.logs_lines()
            && let Some(request) = self.sides.client().waiting_request()
        {
            self.record.keep_line(alloc, request);
        }
    }

    /// Writes what the client takes at once of the answer to a request that is over, and logs the request.
    pub(crate) fn end_request<L: RequestLog>(&mut self, log: &L, cause: Cause, now: u64) -> Fed {
        let size = self.sides.client().rest().len();
        let passed_on = self.record.passed_on();
        self.answer.size = size;
        let fed = self.write_first(now);
        let has_answer = size > 0 || passed_on > 0;
        let is_written = has_answer && !self.answer.has_failed;
        let response_bytes = if is_written {
            passed_on.saturating_add(size as u64)
        } else {
            passed_on
        };
        self.answer.unwritten = if is_written {
            self.sides.client().rest().len()
        } else {
            0
        };
        let response_millis = if has_answer {
            self.record.millis_to_answer(now)
        } else {
            None
        };
        let end = RequestEnd {
            outcome: Outcome::of(cause, is_written),
            route: self.route(),
            line: refused_line(&self.sides),
            is_head_sound: self.sides.client().is_refused_head_sound(),
            response_bytes,
            response_millis,
            tunnel: None,
        };
        self.record.end(log, &end, now);
        fed
    }

    /// Logs what came of a request of a connection that has left, or that nothing came.
    pub(crate) fn end_connection<L: RequestLog>(&mut self, log: &L, now: u64) {
        if self.record.has_begun() {
            let end = RequestEnd {
                outcome: Outcome::unanswered(self.record.is_whole(), self.has_ended),
                route: None,
                line: arriving_line(&self.sides, self.has_ended),
                is_head_sound: false,
                response_bytes: 0,
                response_millis: None,
                tunnel: None,
            };
            self.record.end(log, &end, now);
        } else if self.record.is_silent() {
            log.note_silent();
        }
    }
}

/// The method and the target of a request whose client has ended its input before it was whole, if its head was parsed.
fn arriving_line(sides: &BothSides, has_ended: bool) -> Option<RequestLine<'_>> {
    if !has_ended {
        return None;
    }
    Some(line_of(sides.client().arriving_head()?))
}

/// The method and the target of what is no request, if its head was parsed.
fn refused_line(sides: &BothSides) -> Option<RequestLine<'_>> {
    Some(line_of(sides.client().refused_head()?))
}

fn line_of(head: &RequestHead) -> RequestLine<'_> {
    RequestLine {
        method: head.method.get(),
        target: head.target.get(),
    }
}
