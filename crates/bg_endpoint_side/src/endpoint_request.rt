//! What a request has at its endpoint.
ghost use Rattle.std.specs.Prelude.{◌≡◌, ◌≤◌, ◌&&◌, ◌++◌, IfNone, IfSome, List, None, ℕ, false, length, not};
ghost use Rattle.bg_http.specs.Codings.{is_empty};
ghost use Rattle.bg_http_read.specs.ResponseStates.{NeedsMore};
ghost use Rattle.bg_endpoint_side.specs.Dialing.{begins_on};
ghost use Rattle.bg_endpoint_side.specs.EndpointRequests.{IsDialedSoundly, IsForwardedSoundly, IsSoundWith, dialing_of, forwarded_of, forwarded_with};
ghost use Rattle.bg_endpoint_side.specs.Forwarding.{IsDecided, late_health, may_repeat, patience, renew_if, to_write, with_bytes};
ghost use Rattle.bg_endpoint_side.specs.OutgoingTexts.{IsFirstPiece, uncopied_body as uncopied_of};

use crate::answering::{answered, has_bytes, has_come_with, health_of, may_stay};
use crate::arrived_bytes::ArrivedBytes;
use crate::connection_state::ConnectionState;
use crate::deadlines::WRITE_MILLIS;
use crate::outcome::{ForwardFault, Health, Outcome};
use crate::outgoing_text::OutgoingText;
use crate::uncopied::uncopied_body;
use crate::version::VersionMatch;
use bg_http::Request;
use bg_http_read::ResponseParser;

/// What a request has at its endpoint. It is large, and each event moves a request from one value into the next one. So both kinds of
/// request keep it in a box, and an event moves no more than that.
pub(crate) struct EndpointRequest {
    pub(crate) parser: ResponseParser,
    pub(crate) text: OutgoingText,
    /// How far the response begins with the version by which a connection is kept.
    pub(crate) version: VersionMatch,
    /// Whether a byte came.
    pub(crate) has_come: bool,
    /// All bytes that came, if they are kept: while a request whose terms ask for an upgrade is forwarded.
    pub(crate) arrived: ArrivedBytes,
    pub(crate) state: ConnectionState,
}

impl Drop for EndpointRequest {
    /// Drops the fields by one call, so that the proofs of what owns a value are short (CONTRIBUTING.md, "What a check costs").
    fn drop(self) {
        let EndpointRequest {
            parser: _,
            text: _,
            version: _,
            has_come: _,
            arrived: _,
            state: _,
        } = self;
    }
}

impl EndpointRequest {
    /// The parser of the response.
    pub(crate) fn into_parser(self) -> ResponseParser
        ensures { result ≡ self.parser }
    {
        let EndpointRequest {
            parser,
            text: _,
            version: _,
            has_come: _,
            arrived: _,
            state: _,
        } = self;
        parser
    }

    /// A request that was dialled for is sent on a connection from now on.
    pub(crate) fn begin(&mut self, is_kept: bool, now: u64)
        requires dialed { IsDialedSoundly self.old }
        requires once { (is_kept && self.old.state.is_again) ≡ false }
        ensures sound { IsForwardedSoundly self.new }
        ensures value { forwarded_of self.new ≡ begins_on is_kept (dialing_of self.old) now }
        ensures parser { self.new.parser ≡ self.old.parser }
    {
        self.version = VersionMatch::new();
        self.has_come = false;
        self.arrived.begin(self.state.terms.asks_for_upgrade);
        self.state = ConnectionState {
            deadlines: self.state.deadlines.renewed(WRITE_MILLIS, now),
            is_kept,
            is_unread: false,
            is_ending: false,
            ..self.state
        };
    }

    /// Bytes came of the response. Gives what the request comes to, if it is over.
    pub(crate) fn receive(&mut self, bytes: &[u8], now: u64) -> Option<Outcome>
        requires { IsForwardedSoundly self.old }
        ensures sound { IfNone result (IsForwardedSoundly self.new) }
        ensures goes_on { IfNone result ((forwarded_of self.new ≡ with_bytes (forwarded_of self.old) bytes.now now)
            × NeedsMore self.old.parser.request (self.old.parser.seen ++ bytes.now)) }
        ensures over { IfSome result (λ outcome.
            IsDecided (forwarded_of self.old) (self.old.parser.seen ++ bytes.now) outcome) }
    {
        self.has_come = has_come_with(self.has_come, bytes);
        self.version = self.version.after(bytes);
        self.arrived.add(bytes);
        match self.parser.receive(bytes) {
            Ok(None) => {
                self.renew_if(has_bytes(bytes), now);
                None
            }
            Ok(Some(received)) => {
                let may_stay = may_stay(self, &received.response);
                Some(answered(received, may_stay, health_of(self.has_come)))
            }
            Err(fault) => Some(Outcome::refused(
                ForwardFault::Response(fault),
                health_of(self.has_come),
            )),
        }
    }

    /// Notes that bytes came, which its parser is not fed.
    pub(crate) fn note_bytes(&mut self, bytes: &[u8], now: u64)
        ensures sound { (came : List ℕ) → IsSoundWith self.old came → IsSoundWith self.new (came ++ bytes.now) }
        ensures value { (came : List ℕ) → forwarded_with self.new (came ++ bytes.now)
            ≡ with_bytes (forwarded_with self.old came) bytes.now now }
        ensures parser { self.new.parser ≡ self.old.parser }
    {
        self.has_come = has_come_with(self.has_come, bytes);
        self.version = self.version.after(bytes);
        self.arrived.add(bytes);
        self.renew_if(has_bytes(bytes), now);
    }

    /// All bytes that came, if they are kept.
    pub(crate) fn arrived(&self) -> Option<&[u8]>
        ensures came { (came : List ℕ) → IsSoundWith self.now came → IfSome result (λ bytes. bytes.now ≡ came) }
        ensures within { IfSome result (λ bytes. length bytes.now ≤ 16384) }
        ensures none { (came : List ℕ) → IsSoundWith self.now came
            → self.now.state.terms.asks_for_upgrade ≡ false → result ≡ None }
    {
        self.arrived.get()
    }

    /// A piece of what is to be written now: of what is left of the text, or of nothing, if the endpoint reads no more of it.
    pub(crate) fn piece<'a>(&'a self, request: &'a Request) -> &'a [u8]
        requires { uncopied_of request.now ≡ self.now.text.uncopied }
        ensures { IsFirstPiece (to_write (forwarded_of self.now)) result.now }
    {
        if self.state.is_unread {
            &[]
        } else {
            self.text.piece(uncopied_body(request))
        }
    }

    /// Whether it may be sent again after its connection was closed.
    pub(crate) fn may_repeat(&self) -> bool
        ensures { (came : List ℕ) → self.now.has_come ≡ not (is_empty came)
            → result ≡ may_repeat (forwarded_with self.now came) }
    {
        self.state.is_kept
            && !self.has_come
            && (self.state.terms.is_idempotent || self.text.is_unsent())
    }

    /// What a timeout tells of the endpoint.
    pub(crate) fn late_health(&self, now: u64) -> Health
        ensures { (came : List ℕ) → self.now.has_come ≡ not (is_empty came)
            → result ≡ late_health (forwarded_with self.now came) now }
    {
        let is_silent = now < self.state.deadlines.last && self.writes_nothing();
        if is_silent || !self.has_come {
            Health::Fails
        } else {
            Health::Answers
        }
    }

    /// Whether nothing is to be written now.
    pub(crate) fn writes_nothing(&self) -> bool
        ensures { result ≡ is_empty (to_write (forwarded_of self.now)) }
    {
        self.state.is_unread || self.text.is_sent()
    }

    /// The time, in milliseconds, in which something must happen.
    fn patience(&self) -> u64
        ensures { result ≡ patience (forwarded_of self.now) }
    {
        if self.writes_nothing() {
            self.state.deadlines.idle
        } else {
            WRITE_MILLIS
        }
    }

    /// The same after something happened now, if it did.
    pub(crate) fn renew_if(&mut self, has_happened: bool, now: u64)
        ensures { self.new ≡ record self.old { state = (renew_if has_happened (forwarded_of self.old) now).state } }
    {
        if has_happened {
            self.state.deadlines = self.state.deadlines.renewed(self.patience(), now);
        }
    }
}
