//! How a client is read from and written to.
ghost use Rattle.std.specs.Prelude.{Bool, Option};
ghost use Rattle.bg_both_sides.specs.Answers.{Reply};
ghost use Rattle.bg_both_sides.specs.ClientEvents.{entered};
ghost use Rattle.bg_both_sides.specs.EndpointEvents.{RefusesEntered};

use crate::client::Client;
use crate::sockets::{Input, read, write};
use bg_both_sides::EndpointStep;
use bg_client_side::Fed;
use bg_endpoint_side::GivingUp;
use bg_sockets::is_drained;
use std::net::Shutdown;

/// The interim response that some clients await before they send a body (RFC 9110 section 10.1.1).
const CONTINUE: &[u8] = b"HTTP/1.1 100 Continue\r\n\r\n";

impl Client {
    /// Makes the step that is due.
    pub(crate) fn step(&mut self, piece: &mut [u8], now: u64) -> Fed {
        let fed = if self.sides.client().owes_continue() {
            self.write_continue(now)
        } else if self.writes() {
            self.write_some(now)
        } else {
            self.read_some(piece, now)
        };
        self.note_unanswered(fed);
        fed
    }

    /// Writes what the client takes of a response that is passed on. A client that takes no byte any more has gone.
    pub(crate) fn pass_on(&mut self, now: u64) -> EndpointStep {
        let rest = self.sides.rest_to_client();
        let most = rest.len();
        let Some(count) = write(&self.stream, rest) else {
            self.answer.has_failed = true;
            self.sides.fail();
            return self.sides.give_up(GivingUp::ClientGone, now);
        };
        self.ready.note_write(count, most);
        self.record.note_passed_on(count, now);
        self.sides.client_took(count, now)
    }

    /// Writes what the client takes at once of an answer that was given just now. Of a response that was passed on, nothing may be
    /// left.
    pub(crate) fn write_first(&mut self, now: u64) -> Fed {
        if !self.writes() && self.record.passed_on() == 0 {
            return Fed::NotReading;
        }
        let fed = self.write_some(now);
        self.note_unanswered(fed);
        fed
    }

    fn read_some(&mut self, piece: &mut [u8], now: u64) -> Fed {
        match read(&self.stream, piece) {
            Input::Came(count) => {
                self.ready.note_read(count, piece.len());
                self.take_bytes(&piece[..count.min(piece.len())], now)
            }
            Input::Nothing => {
                self.ready.input = false;
                Fed::NotReading
            }
            Input::End => {
                self.has_ended = true;
                self.sides.end_input();
                Fed::NotReading
            }
            Input::Failed => {
                self.sides.fail();
                Fed::NotReading
            }
        }
    }

    /// Gives the connection bytes that came: those of a request, or those that are discarded.
    fn take_bytes(&mut self, bytes: &[u8], now: u64) -> Fed {
        let fed = self.sides.feed(bytes, now);
        if fed == Fed::NotReading {
            self.lingering.discarded = self.lingering.discarded.saturating_add(bytes.len() as u64);
            self.sides.discarded(bytes.len() as u64);
        } else {
            self.record.note_bytes(bytes.len(), now);
        }
        fed
    }

    /// Writes `100 Continue`. A client that does not take all of it at once has failed.
    fn write_continue(&mut self, now: u64) -> Fed {
        match write(&self.stream, CONTINUE) {
            Some(count) if count == CONTINUE.len() => self.sides.note_continued(now),
            _ => {
                self.sides.fail();
                Fed::NotReading
            }
        }
    }

    /// Writes what the client takes of its answer.
    fn write_some(&mut self, now: u64) -> Fed {
        let rest = self.sides.client().rest();
        let most = rest.len();
        let taken = if most == 0 {
            Some(0)
        } else {
            write(&self.stream, rest)
        };
        let Some(count) = taken else {
            self.answer.has_failed = true;
            self.sides.fail();
            return Fed::NotReading;
        };
        self.ready.note_write(count, most);
        self.answer.unwritten = self.answer.unwritten.saturating_sub(count);
        let fed = self.sides.wrote(count, now);
        if count >= most && fed == Fed::NotReading {
            self.lingering.has_begun = true;
            self.begin_lingering();
        }
        fed
    }

    /// After the last answer, shuts the writing side. The connection leaves at once if that fails, or if the request was read
    /// whole and no byte is unread. A large request that was refused before it was passed on was not read whole.
    fn begin_lingering(&mut self) {
        if self.sides.client().has_left() {
            return;
        }
        let is_over = self.held.is_none()
            && self.sides.client().was_whole()
            && is_drained(&self.stream);
        if is_over || self.stream.shutdown(Shutdown::Write).is_err() {
            self.sides.fail();
        }
    }

    /// What came is no request, and no refusal says why: the connection leaves.
    fn note_unanswered(&mut self, fed: Fed) {
        if let Fed::Refused(fault) = fed
            && fault.status().is_none()
        {
            self.sides.fail();
        }
    }

    /// Refuses the request that waits for a seat with 503.
    pub(crate) fn refuse_waiting(&mut self, now: u64)
        ensures { (refuses : Bool) × (reply : Option Reply) × RefusesEntered (entered self.old.sides).endpoint now
            (entered self.old.sides).client refuses reply self.new.sides }
    {
        self.sides.enter();
        self.sides.refuse(now);
    }

    /// Refuses the request that entered with 503.
    pub(crate) fn refuse_entered(&mut self, now: u64)
        ensures { (refuses : Bool) × (reply : Option Reply) × RefusesEntered self.old.sides.endpoint now
            self.old.sides.client refuses reply self.new.sides }
    {
        self.sides.refuse(now);
    }
}
