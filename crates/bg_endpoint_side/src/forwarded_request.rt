//! A request that is forwarded on a connection to its endpoint.
ghost use Rattle.std.specs.Prelude.{◌≡◌, ◌≤◌, ◌&&◌, [], IfSome, IsFalse, IsTrue, None, false, length, true};
ghost use Rattle.bg_http.specs.Codings.{is_empty};
ghost use Rattle.bg_endpoint_side.specs.Forwarding.{AnswersAtEnd, Ends, Receives, again, failed, is_again, is_sent};
ghost use Rattle.bg_endpoint_side.specs.Forwarding.{late_health, looked, may_repeat, to_write};
ghost use Rattle.bg_endpoint_side.specs.Forwarding.{unread, with_end, wrote};
ghost use Rattle.bg_endpoint_side.specs.Outcomes.{health_of, of_giving_up, refused};
ghost use Rattle.bg_endpoint_side.specs.OutgoingTexts.{IsFirstPiece};

use crate::answering::health_of;
use crate::dialing_request::DialingRequest;
use crate::endpoint_request::EndpointRequest;
use crate::outcome::{ForwardFault, GivingUp, Health, Outcome};
use crate::terms::Terms;
use bg_http::Request;
use std::marker::Model;

/// A request that is forwarded on a connection to its endpoint. Its caller writes what [`Self::piece`] gives, and tells
/// what happened on the connection.
pub struct ForwardedRequest {
    pub(crate) boxed: Box<EndpointRequest>,
}

impl Drop for ForwardedRequest {
    /// Drops the fields by one call, so that the proofs of what owns a value are short (CONTRIBUTING.md, "What a check costs").
    fn drop(self) {
        let ForwardedRequest { boxed: _ } = self;
    }
}

impl Model for ForwardedRequest {
    ghost use Rattle.bg_endpoint_side.specs.Dialing.{Forwarded};
    ghost use Rattle.bg_endpoint_side.specs.EndpointRequests.{IsForwardedSoundly, forwarded_of};

    ghost Value = { Forwarded };

    ghost view = { λ r. forwarded_of r.boxed.value };

    ghost invariant = { λ r. IsForwardedSoundly r.boxed.value };
}

/// What an event makes of a request that is forwarded.
pub enum Step {
    /// It goes on.
    GoesOn(ForwardedRequest),
    /// The connection is closed, and the request is sent again on a new one.
    Again(DialingRequest),
    /// It is over.
    Over(Outcome),
}

impl ForwardedRequest {
    /// What the request means for its connection.
    pub fn terms(&self) -> Terms
        ensures { result ≡ self.now.state.terms }
    {
        self.boxed.state.terms
    }

    /// All bytes that came on the connection since the request began on it, if they are kept: its terms ask for an upgrade, there are at
    /// most 16,384 of them, and no allocation failed.
    pub fn arrived(&self) -> Option<&[u8]>
        ensures came { IfSome result (λ bytes. bytes.now ≡ self.now.came) }
        ensures within { IfSome result (λ bytes. length bytes.now ≤ 16384) }
        ensures none { self.now.state.terms.asks_for_upgrade ≡ false → result ≡ None }
    {
        self.boxed.arrived()
    }

    /// A piece of what is to be written now: of what is left of the text, or of nothing, if the endpoint reads no more of it.
    /// `request` is the request that is forwarded.
    pub fn piece<'a>(&'a self, request: &'a Request) -> &'a [u8]
        requires { request.now ≡ self.now.request }
        ensures { IsFirstPiece (to_write self.now) result.now }
    {
        self.boxed.piece(request)
    }

    /// Whether the whole text was written.
    pub fn is_sent(&self) -> bool
        ensures { result ≡ is_sent self.now }
    {
        self.boxed.text.is_sent()
    }

    /// So many bytes more of the text were written, at most the rest.
    pub fn wrote(&mut self, count: usize, now: u64)
        ensures { self.new ≡ wrote self.old count now }
    {
        self.boxed.text.wrote(count);
        self.boxed.renew_if(count > 0, now);
    }

    /// A write failed since the endpoint reads no more of the request. It may have answered (RFC 9112 section 9.5), so what
    /// it has sent is still read.
    pub fn note_unread(&mut self, now: u64)
        ensures { self.new ≡ unread self.old now }
    {
        self.boxed.state.is_unread = true;
        self.boxed.renew_if(true, now);
    }

    /// The endpoint has announced the end of the connection: no byte comes behind those that wait.
    pub fn note_ending(&mut self)
        ensures { self.new ≡ with_end self.old }
    {
        self.boxed.state.is_ending = true;
    }

    /// Bytes came. Once the request is over, its connection goes back for another request only if the whole text was
    /// written, the response was read by its own framing with nothing left of these bytes, and neither side ends the
    /// connection.
    pub fn receive(self, bytes: &[u8], now: u64) -> Step
        ensures { Receives self bytes.now now result }
    {
        let ForwardedRequest { mut boxed } = self;
        match boxed.receive(bytes, now) {
            None => Step::GoesOn(ForwardedRequest { boxed }),
            Some(outcome) => Step::Over(outcome),
        }
    }

    /// The endpoint ended the connection. If it was kept, no byte of a response came, and the method is idempotent or
    /// nothing of the request was written, the request is sent again (RFC 9112 section 9.3.1). Otherwise it is over.
    pub fn end(self, now: u64) -> Step
        ensures step { Ends self now result }
        ensures once { self.state.is_again ≡ true → IsFalse (is_again result) }
    {
        if self.may_repeat() {
            return Step::Again(self.again(now));
        }
        if self.boxed.state.is_unread {
            return Step::Over(self.refuse(ForwardFault::ConnectFailed));
        }
        Step::Over(self.ended())
    }

    /// The connection failed: it was reset, or a read or a write failed. As at its end, the request may be sent again.
    pub fn fail(self, now: u64) -> Step
        ensures step { result ≡ failed self now }
        ensures once { self.state.is_again ≡ true → IsFalse (is_again result) }
    {
        if self.may_repeat() {
            return Step::Again(self.again(now));
        }
        Step::Over(self.refuse(ForwardFault::ConnectFailed))
    }

    /// Ends the request if one of its timeouts has passed. It is not sent again then.
    pub fn look(self, now: u64) -> Step
        ensures { result ≡ looked self now }
    {
        if now < self.boxed.state.deadlines.until {
            return Step::GoesOn(self);
        }
        Step::Over(Outcome::refused(ForwardFault::ResponseTimeout, self.late_health(now)))
    }

    /// The request is given up.
    pub fn give_up(self, why: GivingUp) -> Outcome
        ensures { result ≡ refused (of_giving_up why) (health_of self.came) }
    {
        self.refuse(why.fault())
    }

    /// Whether the request may be sent again after its connection was closed.
    fn may_repeat(&self) -> bool
        ensures { result ≡ may_repeat self.now }
    {
        self.boxed.may_repeat()
    }

    /// The request is sent again on a new connection. No byte came, so the parser was fed nothing.
    fn again(self, now: u64) -> DialingRequest
        requires none { self.came ≡ [] }
        ensures { result ≡ again self now }
    {
        let ForwardedRequest { boxed } = self;
        DialingRequest::again(boxed, now)
    }

    /// What the bytes that came tell of the endpoint.
    fn health(&self) -> Health
        ensures { result ≡ health_of self.now.came }
    {
        health_of(self.boxed.has_come)
    }

    /// What a timeout tells of the endpoint.
    fn late_health(&self, now: u64) -> Health
        ensures { result ≡ late_health self.now now }
    {
        self.boxed.late_health(now)
    }

    /// There is no response.
    fn refuse(self, fault: ForwardFault) -> Outcome
        ensures { result ≡ refused fault (health_of self.came) }
    {
        Outcome::refused(fault, self.health())
    }

    /// What the request comes to if the bytes that came are all.
    fn ended(self) -> Outcome
        ensures answer { AnswersAtEnd self.request self.came result.answer }
        ensures goes_back { result.goes_back ≡ false }
        ensures health { result.health ≡ health_of self.came }
    {
        let health = self.health();
        let ForwardedRequest { boxed } = self;
        match Box::into_inner(boxed).into_parser().end() {
            Ok(response) => Outcome {
                answer: Ok(response),
                goes_back: false,
                health,
            },
            Err(fault) => Outcome::refused(ForwardFault::Response(fault), health),
        }
    }
}
