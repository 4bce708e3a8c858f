//! The requests of a connection, one after the other.
ghost use Rattle.std.specs.Prelude.{◌≡◌, ◌++◌, [], Bool, false, true, is_ok, IfErr, IfOk, IsFalse, IsTrue};
ghost use Rattle.std.specs.Prelude.{IfNone, IfSome, None, Ok, OnErr};
ghost use Rattle.std.specs.Option.{option_copied, option_map};
ghost use Rattle.bg_http.specs.declared.request_fault.RequestFault.TheVariants as request_fault;
ghost use Rattle.bg_http_read.specs.ArrivingHeads.{BeginsWith};
ghost use Rattle.bg_http_read.specs.RefusedHeads.{TellsHead, is_sound_head};
ghost use Rattle.bg_http_read.specs.RequestStates.{FailsAsked, IfWhole, IsReadThen, IsRefusedAsked};
ghost use Rattle.bg_http_read.specs.RequestStates.{LacksRequest, OnContinue, OnMore, OwesContinue};
ghost use Rattle.bg_http_read.specs.RequestStates.{ReadsAsked, is_of_stream};

use crate::request_feed::RequestFeed;
use crate::request_step::RequestStep;
use crate::seen::Seen;
use bg_http::{Request, RequestFault, RequestHead};
use std::alloc::Global;
use std::marker::Model;

/// The requests of a connection, one after the other (RFC 9112 section 9.3). It is fed the bytes of
/// the connection as they arrive. The first request begins at the first byte, and each other one at
/// the byte after the end of the one before. The requests do not depend on how the bytes are cut into
/// pieces (`laws::a_stream_gives_the_sequence`).
pub struct RequestStream {
    feed: RequestFeed,
    seen: Seen,
    is_open: bool,
}

impl Drop for RequestStream {
    /// Drops the fields by one call, so that the proofs of what owns a value are short (CONTRIBUTING.md, "What a check costs").
    fn drop(self) {
        let RequestStream {
            feed: _,
            seen: _,
            is_open: _,
        } = self;
    }
}

impl Model for RequestStream {
    ghost use Rattle.std.specs.Prelude.{IsTrue};
    ghost use Rattle.bg_http_read.specs.RequestsFed.{IsFed, head_after, is_head, was_asked};
    ghost use Rattle.bg_http_read.specs.RequestStreams.{StreamState};

    ghost Value = { StreamState };

    ghost view = { λ stream. record {
      since = stream.seen.bytes;
      waits = is_head stream.feed.progress.stage;
      asked = was_asked stream.feed.progress.stage;
      is_open = stream.is_open;
      refused = head_after stream.is_open stream.feed.progress.stage;
    } };

    ghost invariant = { λ stream. IsTrue stream.is_open → IsFed stream.feed stream.seen.bytes };
}

impl RequestStream {
    /// A stream before the first byte of its connection.
    pub fn new(alloc: Global) -> RequestStream
        ensures { result ≡ record { since = []; waits = true; asked = false; is_open = true; refused = None } }
    {
        RequestStream {
            feed: RequestFeed::new(alloc),
            seen: Seen::new(),
            is_open: true,
        }
    }

    /// Adds bytes of the connection, and gives the step that they lead to, as `RequestParser::feed`
    /// does. After a request, the bytes behind it wait, and the next call goes on with them; an empty
    /// slice is fine.
    ///
    /// The bytes that wait behind a request are an end of those that came after the stream last asked
    /// for more (`laws::what_waits_came_since_more`). So a caller that feeds a piece only after `More`
    /// lets at most the bytes of one piece wait.
    ///
    /// The faults are those of `RequestParser::feed`. After a fault, nothing marks where another
    /// request would begin, so the caller feeds no more.
    pub fn feed(&mut self, bytes: &[u8]) -> Result<RequestStep, RequestFault>
        requires { IsTrue self.old.is_open }
        ensures whole { IfOk result (λ step. IfWhole step (λ request.
            IsReadThen self.old.asked request (self.old.since ++ bytes.now) self.new.since)) }
        ensures next { IfOk result (λ step. IfWhole step (λ request. self.new.asked ≡ false)) }
        ensures waits { IfOk result (λ step. IfWhole step (λ request. self.new.waits ≡ true)) }
        ensures no_head { IfOk result (λ step. IfWhole step (λ request. self.new.refused ≡ None)) }
        ensures owed { IfOk result (λ step. OnContinue step ((self.old.asked ≡ false)
            × (self.new ≡ record self.old { since = self.old.since ++ bytes.now; waits = self.new.waits; asked = true })
            × OwesContinue (self.old.since ++ bytes.now))) }
        ensures none_yet { IfOk result (λ step. OnMore step
            ((self.new ≡ record self.old { since = self.old.since ++ bytes.now; waits = self.new.waits })
            × LacksRequest (self.old.since ++ bytes.now))) }
        ensures refused { IfErr result (λ fault.
            IsRefusedAsked self.old.asked fault (self.old.since ++ bytes.now)) }
        ensures came { OnErr result (self.new.since ≡ self.old.since ++ bytes.now) }
        ensures fault { IfErr result (λ fault. IsFalse (is_of_stream fault)) }
        ensures goes_on { self.new.is_open ≡ is_ok result }
        ensures head { IfErr result (λ fault.
            TellsHead (self.old.since ++ bytes.now) fault self.new.refused) }
    {
        self.seen.add(bytes);
        match self.feed.feed(bytes, true) {
            Ok(RequestStep::Whole(request)) => {
                self.feed.begin_next();
                self.seen = Seen::new();
                self.seen.add(self.feed.waiting());
                Ok(RequestStep::Whole(request))
            }
            Ok(RequestStep::Continue) => Ok(RequestStep::Continue),
            Ok(RequestStep::More) => Ok(RequestStep::More),
            Err(fault) => {
                self.is_open = false;
                Err(fault)
            }
        }
    }

    /// All bytes that came since the end of the last request, while they wait all. They do after `feed` gave a request, until it is
    /// called again. They may be those of another protocol (RFC 9110 section 7.8).
    pub fn unread(&self) -> &[u8]
        requires open { IsTrue self.now.is_open }
        requires waits { self.now.waits ≡ true }
        ensures { result.now ≡ self.now.since }
    {
        self.feed.waiting()
    }

    /// After `feed` gave a fault: the head of the request. `None` if no head was parsed, because it is malformed, too
    /// large or cut off, or because an allocation failed; and `None` before a fault.
    pub fn refused_head(&self) -> Option<&RequestHead>
        ensures { option_copied result ≡ option_map (λ refused. refused.head) self.now.refused }
    {
        if self.is_open {
            return None;
        }
        self.feed.known_head()
    }

    /// The head of a request that is not read whole: the bytes that came since the end of the last request begin with
    /// it. `None` if no complete head was parsed since then, and after a fault.
    pub fn arriving_head(&self) -> Option<&RequestHead>
        ensures begins { IfSome result (λ head. BeginsWith self.now.since head.now) }
        ensures owed { IsTrue self.now.is_open → IsTrue self.now.asked → ¬ (result ≡ None) }
        ensures fault { IsFalse self.now.is_open → result ≡ None }
    {
        if !self.is_open {
            return None;
        }
        self.feed.known_head()
    }

    /// Whether the head of the request that had a fault passes all rules of `judge_request`. So the fault is not in the
    /// head. False if [`Self::refused_head`] gives none.
    pub fn is_refused_head_sound(&self) -> bool
        ensures { result ≡ is_sound_head self.now.refused }
    {
        !self.is_open && self.feed.is_refused_head_sound()
    }

    /// The end of the connection: `None` if no byte came since the end of the last request, so that
    /// there is no further one. Otherwise the request that the bytes since then begin with, or the
    /// fault of an input that consists of these bytes, as `RequestParser::end` gives it: Closed, a
    /// fault that was not reported yet, or OutOfMemory.
    ///
    /// What waits behind the request is dropped. So a caller that wants all requests ends the stream
    /// only after `More`.
    pub fn end(mut self) -> Result<Option<Request>, RequestFault>
        requires { IsTrue self.is_open }
        ensures blank { self.since ≡ [] → result ≡ Ok None }
        ensures none { IfOk result (λ found. IfNone found (self.since ≡ [])) }
        ensures request { IfOk result (λ found. IfSome found (λ request.
            (asked : Bool) × ReadsAsked asked request self.since)) }
        ensures refused { IfErr result (λ fault. (asked : Bool) × FailsAsked asked self.since fault) }
        ensures read { IfErr result (λ fault. ¬ (fault ≡ request_fault.ReadFailed)) }
        ensures write { IfErr result (λ fault. ¬ (fault ≡ request_fault.WriteFailed)) }
    {
        if self.feed.is_blank() {
            return Ok(None);
        }
        match self.finish() {
            Ok(request) => Ok(Some(request)),
            Err(fault) => Err(fault),
        }
    }

    /// As `end`, if bytes came since the end of the last request.
    fn finish(&mut self) -> Result<Request, RequestFault>
        requires { IsTrue self.old.is_open }
        ensures request { IfOk result (λ request.
            (asked : Bool) × ReadsAsked asked request self.old.since) }
        ensures refused { IfErr result (λ fault.
            (asked : Bool) × FailsAsked asked self.old.since fault) }
        ensures read { IfErr result (λ fault. ¬ (fault ≡ request_fault.ReadFailed)) }
        ensures write { IfErr result (λ fault. ¬ (fault ≡ request_fault.WriteFailed)) }
    {
        self.is_open = false;
        let step = self.feed.feed(&[], true)?;
        match step {
            RequestStep::Whole(request) => Ok(request),
            RequestStep::More | RequestStep::Continue => self.feed.end(),
        }
    }
}
