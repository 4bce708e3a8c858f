//! The stages of a connection.
ghost use Rattle.std.specs.Prelude.{◌≡◌, IfErr, IfOk, None, OnErr};
ghost use Rattle.bg_client_side.specs.Outgoing.{with_written};
ghost use Rattle.bg_client_side.specs.Clients.{until_after, until_passed};
ghost use Rattle.bg_client_side.specs.Stages.{as_answering, awaits_answer, goes_on, has_timeout, is_handed_out, is_inside, is_passing_on, reads, takes_bytes, waiting_request};
ghost use Rattle.bg_client_side.specs.declared.stage.Stage.TheVariants as stage;

use crate::facts::later;
use crate::outgoing::OutgoingResponse;
use bg_http::{Request, RequestFault};

/// The time, in milliseconds, for which a client may take nothing of an answer, and the timeout of the whole answer.
pub(crate) const STILL_MILLIS: u64 = 30_000;

pub(crate) const ANSWER_MILLIS: u64 = 600_000;

/// The time, in milliseconds, for which a client may still send after its last answer.
pub(crate) const LINGERING_CLOSE_MILLIS: u64 = 10_000;

/// The maximum number of bytes that a client may still send after its last answer.
pub(crate) const MOST_DISCARDED: u64 = 1 << 24;

/// An answer that is written.
#[derive(Drop)]
pub struct Answering {
    pub(crate) text: OutgoingResponse,
    /// Whether the connection goes on after it.
    pub(crate) goes_on: bool,
    /// Whether the request was read whole. If not, the client may still be sending it.
    pub(crate) was_whole: bool,
    /// When the timeout of the whole answer ends.
    pub(crate) last: u64,
}

/// A response that is passed on as it comes. Its caller holds its bytes.
#[derive(Clone, Copy, Drop)]
pub struct PassingOn {
    /// Whether the connection goes on after it, as its head told the client.
    pub(crate) goes_on: bool,
    /// Whether bytes of it wait for the client.
    pub(crate) waits: bool,
}

/// A lingering close: the writing side is shut, and what still comes is discarded (RFC 9112 section 9.6).
#[derive(Clone, Copy, Drop)]
pub struct Lingering {
    /// Whether the last request was read whole.
    pub(crate) was_whole: bool,
    /// The number of bytes that were discarded.
    pub(crate) passed: u64,
}

/// The stage of a connection.
pub enum Stage {
    /// No byte came since the last answer was written. A part of the next request may have come before.
    Idle,
    /// A request is to come, or is coming.
    Reading,
    /// `100 Continue` is owed to the request that is coming.
    Continuing,
    /// A whole request came, and waits for a seat.
    Waiting(Request),
    /// The request was handed out, and holds a seat.
    Inside,
    /// Its response is passed on as it comes. The request holds its seat still.
    PassingOn(PassingOn),
    /// What came is no request, and its refusal is to be written.
    Refused(RequestFault),
    /// An answer is written.
    Answering(Answering),
    /// Its lingering close.
    Lingering(Lingering),
    /// It has left: its socket is to be closed.
    Left,
}

impl Answering {
    /// The same after so many bytes more of it were written, at most the rest.
    pub(crate) fn wrote(self, count: usize) -> Answering
        ensures { result ≡ record self { text = with_written self.text count } }
    {
        let Answering {
            mut text,
            goes_on,
            was_whole,
            last,
        } = self;
        text.wrote(count);
        Answering {
            text,
            goes_on,
            was_whole,
            last,
        }
    }

    /// When its timeout ends after so many bytes were written, if it ended at `until` before.
    pub(crate) fn until_after(&self, count: usize, until: u64, now: u64) -> u64
        ensures { result ≡ until_after self.now count until now }
    {
        if count == 0 {
            until
        } else {
            later(now, STILL_MILLIS).min(self.last)
        }
    }
}

impl PassingOn {
    /// When its timeout ends after so many bytes were written, and more wait or not, if it ended at `until` before.
    pub(crate) fn until_passed(&self, count: usize, waits: bool, until: u64, now: u64) -> u64
        ensures { result ≡ until_passed self.now count waits until now }
    {
        if count > 0 || waits && !self.waits {
            later(now, STILL_MILLIS)
        } else {
            until
        }
    }
}

impl Drop for Stage {
    /// Drops the fields by one call, so that the proofs of what owns a value are short (CONTRIBUTING.md, "What a check costs").
    fn drop(self) {
        match self {
            Stage::Waiting(_) | Stage::Answering(_) => {}
            Stage::Idle
            | Stage::Reading
            | Stage::Continuing
            | Stage::Inside
            | Stage::PassingOn(_)
            | Stage::Refused(_)
            | Stage::Lingering(_)
            | Stage::Left => {}
        }
    }
}

impl Stage {
    /// The request that waits for a seat; if none does, the stage comes back.
    pub(crate) fn into_waiting(self) -> Result<Request, Stage>
        ensures waiting { IfOk result (λ request. self ≡ stage.Waiting request) }
        ensures other { IfErr result (λ other. other ≡ self) }
        ensures none { OnErr result (waiting_request self ≡ None) }
    {
        match self {
            Stage::Waiting(request) => Ok(request),
            other => Err(other),
        }
    }

    /// The answer that is written; if none is, the stage comes back.
    pub(crate) fn into_answering(self) -> Result<Answering, Stage>
        ensures answering { IfOk result (λ answering. self ≡ stage.Answering answering) }
        ensures other { IfErr result (λ other. other ≡ self) }
        ensures none { OnErr result (as_answering self ≡ None) }
    {
        match self {
            Stage::Answering(answering) => Ok(answering),
            other => Err(other),
        }
    }

    /// Whether bytes of a request may come.
    pub(crate) fn reads(&self) -> bool
        ensures { result ≡ reads self.now }
    {
        matches!(self, Stage::Idle | Stage::Reading)
    }

    /// Whether an answer may be given.
    pub(crate) fn awaits_answer(&self) -> bool
        ensures { result ≡ awaits_answer self.now }
    {
        matches!(
            self,
            Stage::Waiting(_) | Stage::Inside | Stage::PassingOn(_) | Stage::Refused(_)
        )
    }

    /// Whether the request was handed out, and nothing of its response was passed on.
    pub(crate) fn is_handed_out(&self) -> bool
        ensures { result ≡ is_handed_out self.now }
    {
        matches!(self, Stage::Inside)
    }

    /// Whether a response is passed on.
    pub(crate) fn is_passing_on(&self) -> bool
        ensures { result ≡ is_passing_on self.now }
    {
        matches!(self, Stage::PassingOn(_))
    }

    /// Whether the request was handed out, and holds a seat.
    pub(crate) fn is_inside(&self) -> bool
        ensures { result ≡ is_inside self.now }
    {
        self.is_handed_out() || self.is_passing_on()
    }

    /// Whether a further request may be read on the connection.
    pub(crate) fn goes_on(&self) -> bool
        ensures { result ≡ goes_on self.now }
    {
        match self {
            Stage::Idle | Stage::Reading | Stage::Continuing | Stage::Waiting(_) | Stage::Inside =>
                true,
            Stage::PassingOn(passing) => passing.goes_on,
            Stage::Answering(answering) => answering.goes_on,
            Stage::Refused(_) | Stage::Lingering(_) | Stage::Left => false,
        }
    }

    /// Whether a connection leaves where its input ends at this stage.
    pub(crate) fn ends_with_input(&self) -> bool
        ensures { result ≡ takes_bytes self.now }
    {
        matches!(self, Stage::Idle | Stage::Reading | Stage::Lingering(_))
    }

    /// Whether the stage has a timeout.
    pub(crate) fn has_timeout(&self) -> bool
        ensures { result ≡ has_timeout self.now }
    {
        match self {
            Stage::Idle
            | Stage::Reading
            | Stage::Continuing
            | Stage::Answering(_)
            | Stage::Lingering(_) => true,
            Stage::PassingOn(passing) => passing.waits,
            Stage::Waiting(_) | Stage::Inside | Stage::Refused(_) | Stage::Left => false,
        }
    }
}
