//! What happens to a request whose response is passed on as it comes.
ghost use Rattle.std.specs.Prelude.{◌≡◌, IfNone, IfSome, IsFalse, OnSome, Some, false, true};
ghost use Rattle.std.specs.Option.{option_map};
ghost use Rattle.bg_http.specs.Persistences.{keeps};
ghost use Rattle.bg_endpoint_side.specs.StreamedSteps as spec;
ghost use Rattle.bg_endpoint_side.specs.StreamedSteps.{Becomes, EndsStreamed, ReceivesStreamed, TakesStreamed};
ghost use Rattle.bg_endpoint_side.specs.StreamedSteps.{broken_by, failed_streamed, given_up_streamed, looked_streamed};
ghost use Rattle.bg_streams.specs.ResponseRelays.{is_whole, keeps_of, passing_of, response_of, terms_of};
ghost use Rattle.bg_streams.specs.ResponseStreams.{relay_of};

use crate::outcome::{ForwardFault, GivingUp, Health};
use crate::streamed_request::StreamedRequest;
use crate::streamed_step::{StreamedAnswer, StreamedStep};
use bg_http::{Persistence, ResponseFault};
use bg_streams::StreamFault;

impl StreamedRequest {
    /// Bytes came from the endpoint, and they renew its timeout. The faults of a response are those of `ResponseStream::receive`.
    pub fn receive(self, bytes: &[u8], now: u64) -> StreamedStep
        ensures { ReceivesStreamed self bytes.now now result }
    {
        let mut request = self;
        let result = request.feed(bytes, now);
        request.after(result)
    }

    /// The client took so many bytes of [`Self::rest`], at most all of them. If nothing was awaited of the endpoint before, and
    /// something is now, its timeout begins now. The faults are those of [`Self::receive`].
    pub fn took(self, count: usize, now: u64) -> StreamedStep
        ensures { TakesStreamed self count now result }
    {
        let mut request = self;
        let result = request.note_taken(count, now);
        request.after(result)
    }

    /// The endpoint ended its connection. If it was kept, no byte of a response came, and the method is idempotent or nothing of the
    /// request was written, the request is sent again (RFC 9112 section 9.3.1). Otherwise the response ends here: the faults are those
    /// of `ResponseStream::end_input`. If the endpoint reads no more of the request, its connection has failed.
    pub fn end(self, now: u64) -> StreamedStep
        ensures step { EndsStreamed self now result }
        ensures once { self.forwarded.state.is_again ≡ true → IsFalse (spec.is_again result) }
    {
        match self.again(now) {
            Ok(dialing) => StreamedStep::Again(dialing),
            Err(request) => request.ended(),
        }
    }

    /// The connection failed: it was reset, or a read or a write failed. As at its end, the request may be sent again.
    pub fn fail(self, now: u64) -> StreamedStep
        ensures step { result ≡ failed_streamed self now }
        ensures once { self.forwarded.state.is_again ≡ true → IsFalse (spec.is_again result) }
    {
        match self.again(now) {
            Ok(dialing) => StreamedStep::Again(dialing),
            Err(request) => request.break_off(ForwardFault::ConnectFailed),
        }
    }

    /// Ends the request if its timeout has passed while something is awaited of the endpoint. It is not sent again then.
    pub fn look(self, now: u64) -> StreamedStep
        ensures { result ≡ looked_streamed self now }
    {
        if !self.is_late(now) {
            return StreamedStep::GoesOn(self);
        }
        let health = self.late_health(now);
        broken_off(self.is_begun(), ForwardFault::ResponseTimeout, health)
    }

    /// The request is given up.
    pub fn give_up(self, why: GivingUp) -> StreamedStep
        ensures { result ≡ given_up_streamed self why }
    {
        self.break_off(why.fault())
    }

    /// The endpoint ended its connection, and the request is not sent again.
    fn ended(self) -> StreamedStep
        ensures { spec.EndsUnread self.forwarded.state.is_unread self result }
    {
        if self.is_unread() {
            return self.break_off(ForwardFault::ConnectFailed);
        }
        let mut request = self;
        let result = request.end_input();
        request.after(result)
    }

    /// What becomes of the request whose response gave this.
    fn after(self, given: Result<(), StreamFault>) -> StreamedStep
        ensures { Becomes self given result }
    {
        match given {
            Ok(()) => self.go_on(),
            Err(fault) => faulty(fault, self.health()),
        }
    }

    /// The request goes on, or its response is whole.
    fn go_on(self) -> StreamedStep
        ensures { spec.GoesOnBy (is_whole (passing_of (relay_of self.stream))) self result }
    {
        let Some((code, persistence)) = self.whole_head() else {
            return StreamedStep::GoesOn(self);
        };
        let is_begun = self.is_begun();
        let goes_back = self.goes_back();
        let health = self.health();
        match self.into_rest() {
            Ok(rest) => StreamedStep::Whole(StreamedAnswer {
                code,
                persistence,
                rest,
                goes_back,
                health,
            }),
            Err(_) => broken_off(
                is_begun,
                ForwardFault::Response(ResponseFault::OutOfMemory),
                health,
            ),
        }
    }

    /// The status code of a response that is whole, and whether its head keeps the connection of the client.
    fn whole_head(&self) -> Option<(u16, Persistence)>
        ensures whole { OnSome result (is_whole (passing_of (relay_of self.now.stream)) ≡ true) }
        ensures code { IfSome result (λ head.
            option_map (λ r. r.code) (response_of (passing_of (relay_of self.now.stream))) ≡ Some head.0) }
        ensures persistence { IfSome result (λ head.
            keeps_of (terms_of (relay_of self.now.stream)) (passing_of (relay_of self.now.stream)) ≡ Some (keeps head.1)) }
        ensures none { IfNone result (is_whole (passing_of (relay_of self.now.stream)) ≡ false) }
    {
        let code = self.response()?.code;
        let persistence = self.persistence()?;
        if self.is_whole() {
            Some((code, persistence))
        } else {
            None
        }
    }

    /// The request is broken off by what happened.
    fn break_off(self, why: ForwardFault) -> StreamedStep
        ensures { result ≡ broken_by self why }
    {
        broken_off(self.is_begun(), why, self.health())
    }
}

/// What comes of a response with this fault.
fn faulty(fault: StreamFault, health: Health) -> StreamedStep
    ensures { result ≡ spec.faulty fault health }
{
    let why = ForwardFault::Response(fault.response_fault());
    match fault {
        StreamFault::Refused(_) => StreamedStep::Refused(why, health),
        StreamFault::Cut(_) => StreamedStep::Cut(why, health),
    }
}

/// There is no end of a response, of which the client took a byte, or not.
fn broken_off(is_begun: bool, why: ForwardFault, health: Health) -> StreamedStep
    ensures { result ≡ spec.broken is_begun why health }
{
    if is_begun {
        StreamedStep::Cut(why, health)
    } else {
        StreamedStep::Refused(why, health)
    }
}
