//! A connection of a client that is kept over several requests.
ghost use Rattle.std.specs.Prelude.{◌≡◌, ◌&&◌, ◌||◌, [], not, IfSome, IsTrue, None, true, vec_capacity};
ghost use Rattle.std.specs.Option.{option_copied, option_map};
ghost use Rattle.bg_http.specs.Persistences.{keeps};
ghost use Rattle.bg_http_read.specs.ArrivingHeads.{BeginsWith};
ghost use Rattle.bg_http_read.specs.RefusedHeads.{is_sound_head};
ghost use Rattle.bg_client_side.specs.Clients.{accepted, opened, stays_after, with_large, with_last_answer, without_any};
ghost use Rattle.bg_client_side.specs.Sound.{IsSound};
ghost use Rattle.bg_client_side.specs.Stages.{has_left, is_idle, is_inside, is_passing_on, owes_continue, reads, takes_bytes, to_write, waiting_request, was_whole};

use crate::arriving_bytes::ArrivingBytes;
use crate::facts::{ClientFacts, ClientSettings, later};
use crate::outgoing::OutgoingResponse;
use crate::stage::{ANSWER_MILLIS, Answering, STILL_MILLIS, Stage};
use bg_http::{Persistence, RefusalBody, Request, RequestHead};
use bg_http_read::RequestStream;
use std::alloc::Global;
use std::marker::Model;

/// A connection of a client, which carries one request after the other (RFC 9112 section 9.3). It has no socket: its caller
/// tells what happened on the connection, reads and writes as it says, and closes the socket once it has left. Moments are
/// milliseconds from the start of the program.
pub struct ClientConnection {
    pub(crate) stream: RequestStream,
    /// What came since the end of the last request, if it is kept.
    pub(crate) arriving: ArrivingBytes,
    pub(crate) stage: Stage,
    pub(crate) facts: ClientFacts,
}

impl Drop for ClientConnection {
    /// Drops the fields by one call, so that the proofs of what owns a value are short (CONTRIBUTING.md, "What a check costs").
    fn drop(self) {
        let ClientConnection {
            stream: _,
            arriving: _,
            stage: _,
            facts: _,
        } = self;
    }
}

impl Model for ClientConnection {
    ghost use Rattle.bg_client_side.specs.Clients.{Client};
    ghost use Rattle.bg_client_side.specs.Arriving.{AreKept};
    ghost use Rattle.bg_client_side.specs.Sound.{IsSound, KeepsUnread};

    ghost Value = { Client };

    ghost view = { λ c. record {
      since = c.stream.since;
      asked = c.stream.asked;
      refused = c.stream.refused;
      stage = c.stage;
      facts = c.facts;
    } };

    ghost invariant = { λ c. IsSound c.stream.is_open c.stage c.facts × KeepsUnread c.stage c.stream.waits
        × AreKept c.stream.since c.arriving };
}

impl ClientConnection {
    /// A connection that was accepted now. Its first request is to come.
    pub fn new(alloc: Global, settings: ClientSettings, now: u64) -> ClientConnection
        ensures { result ≡ accepted settings now }
    {
        ClientConnection::opened(
            alloc,
            Stage::Reading,
            settings,
            later(now, settings.request_millis),
        )
    }

    /// A connection whose request waits for a seat, and comes as it is forwarded: its caller reads its body. So no byte is read here, and
    /// the connection ends after its answer.
    pub fn of_large(alloc: Global, settings: ClientSettings, request: Request) -> ClientConnection
        ensures { result ≡ with_large settings request }
    {
        ClientConnection::opened(alloc, Stage::Waiting(request), settings, 0)
    }

    /// A connection that ends after this answer, whose request was read whole or not.
    pub fn of_last(
        alloc: Global,
        settings: ClientSettings,
        text: Vec<u8>,
        was_whole: bool,
        now: u64,
    ) -> ClientConnection
        ensures { result
            ≡ with_last_answer settings (record { sent = []; rest = text.items; weight = vec_capacity text }) was_whole now }
    {
        let answering = Answering {
            text: OutgoingResponse::new(text),
            goes_on: false,
            was_whole,
            last: later(now, ANSWER_MILLIS),
        };
        ClientConnection::opened(
            alloc,
            Stage::Answering(answering),
            settings,
            later(now, STILL_MILLIS),
        )
    }

    /// A connection that has left.
    pub fn of_none(alloc: Global, settings: ClientSettings) -> ClientConnection
        ensures { result ≡ without_any settings }
    {
        ClientConnection::opened(alloc, Stage::Left, settings, 0)
    }

    /// A connection that begins at this stage, of which no byte came.
    fn opened(alloc: Global, stage: Stage, settings: ClientSettings, until: u64) -> ClientConnection
        requires { IsSound true stage (opened stage settings until).facts }
        ensures { result ≡ opened stage settings until }
    {
        ClientConnection {
            stream: RequestStream::new(alloc),
            arriving: ArrivingBytes::new(alloc, settings.keeps_arriving),
            stage,
            facts: ClientFacts {
                settings,
                answered: 0,
                is_to_stay: false,
                until,
                has_ended: false,
                has_failed: false,
                is_closing: false,
            },
        }
    }

    /// Whether bytes are to be read from the socket: those of a request, or those that are discarded in a lingering close.
    /// None are read while a request waits, is inside or is answered. So at most the rest of one piece waits behind a
    /// request (`bg_http_read::laws::what_waits_came_since_more`).
    pub fn wants_read(&self) -> bool
        ensures { result ≡ (takes_bytes self.now.stage && not self.now.facts.has_ended) }
    {
        matches!(
            self.stage,
            Stage::Idle | Stage::Reading | Stage::Lingering(_)
        ) && !self.facts.has_ended
    }

    /// What is to be written now: the rest of the answer. The caller holds the bytes of a response that is passed on.
    pub fn rest(&self) -> &[u8]
        ensures { result.now ≡ to_write self.now.stage }
    {
        match &self.stage {
            Stage::Answering(answering) => answering.text.rest(),
            _ => &[],
        }
    }

    /// Whether `100 Continue` is to be written ([`Self::note_continued`]).
    pub fn owes_continue(&self) -> bool
        ensures { result ≡ owes_continue self.now.stage }
    {
        matches!(self.stage, Stage::Continuing)
    }

    /// Whether the connection is idle: no byte came since the last answer was written.
    pub fn is_idle(&self) -> bool
        ensures { result ≡ is_idle self.now.stage }
    {
        matches!(self.stage, Stage::Idle)
    }

    /// Whether a request was handed out, and its answer is not whole: none was given, or a response is passed on.
    pub fn is_inside(&self) -> bool
        ensures { result ≡ is_inside self.now.stage }
    {
        self.stage.is_inside()
    }

    /// Whether a response is passed on as it comes.
    pub fn is_passing_on(&self) -> bool
        ensures { result ≡ is_passing_on self.now.stage }
    {
        self.stage.is_passing_on()
    }

    /// The request that waits for a seat, if one does.
    pub fn waiting_request(&self) -> Option<&Request>
        ensures { option_copied result ≡ waiting_request self.now.stage }
    {
        match &self.stage {
            Stage::Waiting(request) => Some(request),
            _ => None,
        }
    }

    /// All bytes that came behind the request that is inside. They were read as no request, so they may be those of another protocol
    /// (RFC 9110 section 7.8).
    pub fn unread(&self) -> &[u8]
        requires { is_inside self.now.stage ≡ true }
        ensures { result.now ≡ self.now.since }
    {
        self.stream.unread()
    }

    /// All bytes that came since the end of the last request, if they are kept (`keeps_arriving`) and there was memory for them.
    pub fn arriving(&self) -> Option<&[u8]>
        ensures { IfSome result (λ bytes. bytes.now ≡ self.now.since) }
    {
        self.arriving.get()
    }

    /// Whether the connection failed while its request was inside, or its client was late to take a response that is passed
    /// on. So the request may be given up, and such a response be cut.
    pub fn has_failed(&self) -> bool
        ensures { result ≡ self.now.facts.has_failed }
    {
        self.facts.has_failed
    }

    /// Whether the connection has left. Its socket is to be closed, and nothing changes any more.
    pub fn has_left(&self) -> bool
        ensures { result ≡ has_left self.now.stage }
    {
        matches!(self.stage, Stage::Left)
    }

    /// Whether the request that waits, is inside or is answered was read whole, or the last one in a lingering close. If it
    /// was, and the socket has no unread bytes, a lingering close may be cut short (`fail`).
    pub fn was_whole(&self) -> bool
        ensures { result ≡ was_whole self.now.stage }
    {
        match &self.stage {
            Stage::Waiting(_) | Stage::Inside | Stage::PassingOn(_) => true,
            Stage::Answering(answering) => answering.was_whole,
            Stage::Lingering(lingering) => lingering.was_whole,
            _ => false,
        }
    }

    /// The head of what came and is no request, if it was parsed before the fault.
    pub fn refused_head(&self) -> Option<&RequestHead>
        ensures { option_copied result ≡ option_map (λ refused. refused.head) self.now.refused }
    {
        self.stream.refused_head()
    }

    /// The head of a request that is not read whole: the bytes that came since the end of the last request begin with
    /// it. `None` if no complete head was parsed since then, and after a fault.
    pub fn arriving_head(&self) -> Option<&RequestHead>
        ensures begins { IfSome result (λ head. BeginsWith self.now.since head.now) }
        ensures owed { IsTrue (reads self.now.stage || owes_continue self.now.stage) → IsTrue self.now.asked → ¬ (result ≡ None) }
    {
        self.stream.arriving_head()
    }

    /// Whether that head passes all rules of `judge_request`. So the fault is not in the head. False if there is none.
    pub fn is_refused_head_sound(&self) -> bool
        ensures { result ≡ is_sound_head self.now.refused }
    {
        self.stream.is_refused_head_sound()
    }

    /// What a refusal of a request has as its body.
    pub fn refusal_body(&self) -> RefusalBody
        ensures { result ≡ self.now.facts.settings.refusal_body }
    {
        self.facts.settings.refusal_body
    }

    /// Whether the connection is to go on after the answer to the request at hand, so that the text of the answer does not
    /// say `Connection: close` (RFC 9112 section 9.3). It is if the request was read whole, its version is 1.1, no element of
    /// its Connection fields is `close`, fewer than the most requests were answered with this one, no shutdown has begun,
    /// and connections are kept. While a response is passed on or an answer is written, it is only if that one lets it.
    pub fn persistence(&self) -> Persistence
        ensures { keeps result ≡ stays_after self.now }
    {
        if self.stage.goes_on() && self.was_whole() && self.facts.keeps_after() {
            Persistence::Keep
        } else {
            Persistence::Close
        }
    }
}
