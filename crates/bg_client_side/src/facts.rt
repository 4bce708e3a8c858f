//! What is known of a connection beside its stage.
ghost use Rattle.std.specs.Prelude.{◌≡◌, ◌<◌};
ghost use Rattle.bg_client_side.specs.Facts.{keeps_after, later, next_facts};

use bg_http::{Persistence, RefusalBody};

/// The settings of the connections of clients. Times are milliseconds.
#[derive(Clone, Copy, Drop)]
pub struct ClientSettings {
    /// Whether a connection is kept for further requests at all.
    pub persistence: Persistence,
    /// The most requests of one connection. A connection has at least one.
    pub most_requests: u64,
    /// The timeout of a request: of the first one from the moment at which its connection was accepted, and of each other
    /// one from its first byte that comes after the answer before it.
    pub request_millis: u64,
    /// The time for which a connection may be idle.
    pub idle_millis: u64,
    /// What the refusals of its requests have as their bodies.
    pub refusal_body: RefusalBody,
    /// Whether the bytes of a request that arrives are kept as they came, so that a large one can be passed on before it is whole.
    pub keeps_arriving: bool,
}

/// What is known of a connection beside its stage. Moments are milliseconds from the start of the program.
#[derive(Clone, Copy, Drop)]
pub struct ClientFacts {
    pub(crate) settings: ClientSettings,
    /// The number of requests of which the answer was written.
    pub(crate) answered: u64,
    /// Whether the client lets its connection be kept after the last request that was read whole.
    pub(crate) is_to_stay: bool,
    /// When its timeout ends, at a stage that has one.
    pub(crate) until: u64,
    /// Whether the client has ended its input.
    pub(crate) has_ended: bool,
    /// Whether the connection failed, or was late, while its request was inside.
    pub(crate) has_failed: bool,
    /// Whether a shutdown has begun.
    pub(crate) is_closing: bool,
}

impl ClientFacts {
    /// Whether the connection goes on after the answer to a request that was read whole (RFC 9112 section 9.3).
    pub(crate) fn keeps_after(&self) -> bool
        ensures { result ≡ keeps_after self.now }
    {
        self.is_to_stay
            && self.answered.saturating_add(1) < self.settings.most_requests
            && !self.is_closing
            && self.settings.persistence == Persistence::Keep
    }

    /// The same after an answer was written, after which the connection goes on: it is idle from now on.
    pub(crate) fn next(self, now: u64) -> ClientFacts
        requires { self.answered < self.settings.most_requests }
        ensures { result ≡ next_facts self now }
    {
        ClientFacts {
            answered: self.answered + 1,
            until: later(now, self.settings.idle_millis),
            ..self
        }
    }
}

/// The moment that is so many milliseconds later.
pub(crate) fn later(now: u64, millis: u64) -> u64
    ensures { result ≡ later now millis }
{
    now.saturating_add(millis)
}
