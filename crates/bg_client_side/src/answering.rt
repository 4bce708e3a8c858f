//! How a request is handed out, and how its answer is written.
ghost use Rattle.std.specs.Prelude.{◌≡◌, ◌&&◌, [], vec_capacity};
ghost use Rattle.bg_http.specs.Persistences.{keeps};
ghost use Rattle.bg_client_side.specs.Clients.{Writes, answered, last_written, stays_after, taken};
ghost use Rattle.bg_client_side.specs.Stages.{awaits_answer, was_whole, waiting_request};

use crate::client_connection::ClientConnection;
use crate::facts::later;
use crate::outgoing::OutgoingResponse;
use crate::reading::Fed;
use crate::stage::{
    ANSWER_MILLIS, Answering, LINGERING_CLOSE_MILLIS, Lingering, STILL_MILLIS, Stage,
};
use bg_http::{Persistence, Request};
use std::mem;

impl ClientConnection {
    /// Hands out the request that waits, since it has a seat. `None` if none waits.
    pub fn take(&mut self) -> Option<Request>
        ensures request { result ≡ waiting_request self.old.stage }
        ensures new { self.new ≡ taken (waiting_request self.old.stage) self.old }
    {
        match mem::replace(&mut self.stage, Stage::Inside).into_waiting() {
            Ok(request) => Some(request),
            Err(other) => {
                self.stage = other;
                None
            }
        }
    }

    /// Gives the text of an answer: to the request that waits or is inside, or to what came and is no request. If a
    /// response is passed on, it is whole, and the text is the rest of it; of an empty one, [`Self::wrote`] notes that no
    /// byte was written. Its `persistence` is that of the text: the connection goes on after it only if the text says so,
    /// and if [`Self::persistence`] does. The seat of a request that is inside is free from then on, as far as the
    /// connection is concerned. A connection that has failed leaves. Gives whether an answer was awaited; otherwise nothing
    /// changes.
    pub fn answer(&mut self, text: Vec<u8>, persistence: Persistence, now: u64) -> bool
        ensures awaited { result ≡ awaits_answer self.old.stage }
        ensures new { self.new
            ≡ answered (record { sent = []; rest = text.items; weight = vec_capacity text }) persistence now self.old }
    {
        if !self.stage.awaits_answer() {
            return false;
        }
        if self.facts.has_failed {
            self.stage = Stage::Left;
            return true;
        }
        let answering = Answering {
            text: OutgoingResponse::new(text),
            goes_on: self.goes_on_after(persistence),
            was_whole: self.was_whole(),
            last: later(now, ANSWER_MILLIS),
        };
        self.facts.until = later(now, STILL_MILLIS);
        self.stage = Stage::Answering(answering);
        true
    }

    /// Whether the connection goes on after an answer with this persistence.
    pub(crate) fn goes_on_after(&self, persistence: Persistence) -> bool
        ensures { result ≡ (keeps persistence && stays_after self.now) }
    {
        persistence == Persistence::Keep && self.persistence() == Persistence::Keep
    }

    /// Notes that so many bytes more of the answer were written, at most the rest. Once it is written, the connection is
    /// idle and reads what waits behind the request, if it goes on; otherwise its lingering close begins, for which the
    /// caller shuts the writing side, and it leaves if the client has ended its input.
    pub fn wrote(&mut self, count: usize, now: u64) -> Fed
        ensures { Writes self.old count now result self.new }
    {
        let answering = match mem::replace(&mut self.stage, Stage::Left).into_answering() {
            Ok(answering) => answering.wrote(count),
            Err(other) => {
                self.stage = other;
                return Fed::NotReading;
            }
        };
        if !answering.text.rest().is_empty() {
            self.facts.until = answering.until_after(count, self.facts.until, now);
            self.stage = Stage::Answering(answering);
            return Fed::NotReading;
        }
        if answering.goes_on {
            self.stage = Stage::Idle;
            self.facts = self.facts.next(now);
            return self.read_on(&[]);
        }
        self.end_last(answering.was_whole, now);
        Fed::NotReading
    }

    /// The last answer was written.
    fn end_last(&mut self, was_whole: bool, now: u64)
        ensures { self.new ≡ last_written was_whole now self.old }
    {
        if self.facts.has_ended {
            self.stage = Stage::Left;
            return;
        }
        self.facts.until = later(now, LINGERING_CLOSE_MILLIS);
        self.stage = Stage::Lingering(Lingering {
            was_whole,
            passed: 0,
        });
    }
}
