//! A request that is written to its endpoint as it comes.
ghost use Rattle.std.specs.Prelude.{◌≡◌, ◌≤◌, ◌<◌, ◌+◌, ◌++◌, [], IfErr, IfOk, IfSome, None, Some, OnOk, Err, length};
ghost use Rattle.bg_relay.specs.Relays.{WaitsFor};
ghost use Rattle.bg_relay.specs.declared.relay_fault.RelayFault.TheVariants as relay_fault;
ghost use Rattle.bg_upload.specs.OutgoingRequests as spec;
ghost use Rattle.bg_upload.specs.OutgoingRequests.{Begins, EndsInput, IsSound, Keeps, PassesOn, PassesWaiting, Receives};

use crate::upload_terms::UploadTerms;
use bg_http::{Framing, Persistence, Request, write_framed_request_head};
use bg_http_read::Seen;
use bg_relay::{Framing as BodyFraming, Relay, RelayFault, Sides};
use std::alloc::Global;
use std::io;
use std::marker::Model;

/// The number of bytes that most heads do not exceed. A text begins with room for so many, since it would else grow line by
/// line.
const USUAL_HEAD: usize = 512;

/// A request that is written to its endpoint as it comes: the text of its head, and then its body, with the bytes that came and
/// wait: for room, or for the rest of a line or of trailers. Its connection to the endpoint is not kept.
pub struct OutgoingRequest {
    /// The text of the head.
    head: Vec<u8>,
    /// The number of bytes of that text that were written.
    sent: usize,
    relay: Relay,
    /// What came and was not taken yet.
    waiting: Vec<u8>,
    /// Why its body does not come to its end.
    fault: Option<RelayFault>,
    /// All bytes of the body that came, and all bytes that were written to the endpoint.
    came: Seen,
    written: Seen,
}

impl Drop for OutgoingRequest {
    /// Drops the fields by one call, so that the proofs of what owns a value are short (CONTRIBUTING.md, "What a check costs").
    fn drop(self) {
        let OutgoingRequest {
            head: _,
            sent: _,
            relay: _,
            waiting: _,
            fault: _,
            came: _,
            written: _,
        } = self;
    }
}

impl Model for OutgoingRequest {
    ghost use Rattle.std.specs.Prelude.{◌≤◌, drop, length};
    ghost use Rattle.bg_upload.specs.OutgoingRequests.{IsSound, OutgoingState, state_of};

    ghost Value = { OutgoingState };

    ghost view = { λ r. state_of r.head.items r.sent r.relay r.waiting.items r.fault r.came.bytes r.written.bytes };

    ghost invariant = { λ r. (r.sent ≤ length r.head.items)
        × IsSound (state_of r.head.items r.sent r.relay r.waiting.items r.fault r.came.bytes r.written.bytes) };
}

impl OutgoingRequest {
    /// A request of which no byte of the body came and nothing was written. `request` is the request without its body. It is sent to
    /// the port of the terms, at most about their window of its body is held, and a body in chunks has their limit. The only error is an
    /// allocation failure.
    pub fn new(
        alloc: Global,
        request: &Request,
        framing: Framing,
        terms: UploadTerms,
    ) -> io::Result<OutgoingRequest>
        ensures { IfOk result (Begins request.now framing terms.port terms.window terms.most_body) }
    {
        let mut head = Vec::with_capacity(alloc, USUAL_HEAD)?;
        write_framed_request_head(request, framing, terms.port, Persistence::Close, &mut head)?;
        let relay = Relay::new(alloc, sides(framing), terms.window, terms.most_body)?;
        Ok(OutgoingRequest {
            head,
            sent: 0,
            relay,
            waiting: Vec::new(alloc),
            fault: None,
            came: Seen::new(),
            written: Seen::new(),
        })
    }

    /// What holds of it at every moment. It does nothing at run time.
    pub(crate) fn is_sound(&self)
        ensures { IsSound self.now }
    {
        let _sent = self.sent;
    }

    /// What is to be written to the endpoint next: of the head, and after it of the body.
    pub fn rest(&self) -> &[u8]
        ensures { result.now ≡ spec.rest_of self.now }
    {
        if self.sent < self.head.len() {
            &self.head[self.sent..]
        } else {
            self.relay.rest()
        }
    }

    /// Whether more bytes of the body are to be read from the client. If not, its caller does not read from it, not even its end.
    pub fn wants_input(&self) -> bool
        ensures { result ≡ spec.wants_input self.now }
    {
        self.fault.is_none() && self.relay.wants_input()
    }

    /// Whether the whole body came and was taken: what is to be written ends with its end.
    pub fn is_whole(&self) -> bool
        ensures { result ≡ spec.is_whole self.now }
    {
        self.relay.is_whole()
    }

    /// Notes that so many bytes more of [`Self::rest`] were written, at most all of them. What waits is not passed on before
    /// [`Self::pass_waiting`].
    pub fn wrote(&mut self, count: usize)
        ensures { self.new ≡ spec.with_written count self.old }
    {
        if self.sent < self.head.len() {
            let written = count.min(self.head.len() - self.sent);
            self.written.add(&self.head[self.sent..self.sent + written]);
            self.sent += written;
        } else {
            let rest = self.relay.rest();
            self.written.add(&rest[..count.min(rest.len())]);
            self.relay.wrote(count);
        }
    }

    /// These bytes of the body came. All of them are taken over: what is not passed on yet waits.
    ///
    /// The fault is Malformed, TooLarge or OutOfMemory. After a fault nothing more is taken: each call gives the same fault again.
    pub fn receive(&mut self, bytes: &[u8]) -> Result<(), RelayFault>
        ensures { Receives bytes.now result self.old self.new }
    {
        if let Some(fault) = self.fault {
            return Err(fault);
        }
        if self.waiting.is_empty() {
            return self.pass_fresh(bytes);
        }
        self.keep(bytes)?;
        self.pass_waiting()
    }

    /// Passes on what waits, as far as there is room. The faults are those of [`Self::receive`].
    pub fn pass_waiting(&mut self) -> Result<(), RelayFault>
        ensures { PassesWaiting result self.old self.new }
    {
        if let Some(fault) = self.fault {
            return Err(fault);
        }
        match self.relay.feed(&self.waiting) {
            Ok(taken) => {
                self.waiting.drain(..taken);
                Ok(())
            }
            Err(fault) => {
                self.fault = Some(fault);
                Err(fault)
            }
        }
    }

    /// These bytes came, and nothing waits: passes them on as far as there is room, and the rest of them waits.
    fn pass_fresh(&mut self, bytes: &[u8]) -> Result<(), RelayFault>
        requires nothing { self.old.waiting ≡ [] }
        requires fine { self.old.fault ≡ None }
        ensures { PassesOn result (spec.with_bytes bytes.now self.old) self.new }
    {
        match self.relay.feed(bytes) {
            Ok(taken) => {
                self.came.add(&bytes[..taken]);
                self.keep(&bytes[taken..])
            }
            Err(fault) => {
                self.came.add(bytes);
                self.fault = Some(fault);
                Err(fault)
            }
        }
    }

    /// These bytes came, and wait behind those that wait. The fault is OutOfMemory.
    fn keep(&mut self, bytes: &[u8]) -> Result<(), RelayFault>
        requires fine { self.old.fault ≡ None }
        ensures { Keeps bytes.now result self.old self.new }
    {
        self.came.add(bytes);
        match self.waiting.extend_from_slice(bytes) {
            Ok(()) => Ok(()),
            Err(_) => {
                self.fault = Some(RelayFault::OutOfMemory);
                Err(RelayFault::OutOfMemory)
            }
        }
    }

    /// The client ended its input. If the body is not whole, it is cut off for ever, and its end is never written.
    ///
    /// The fault is Cut, or the one that ended it before.
    pub fn end_input(&mut self) -> Result<(), RelayFault>
        ensures { EndsInput result self.old self.new }
    {
        if let Some(fault) = self.fault {
            return Err(fault);
        }
        if self.relay.is_whole() {
            return Ok(());
        }
        self.fault = Some(RelayFault::Cut);
        Err(RelayFault::Cut)
    }
}

/// The framings of the body as it comes and as it is written: with its length if that is told, and otherwise in chunks.
fn sides(framing: Framing) -> Sides
    ensures { result ≡ spec.sides_of framing }
{
    match framing {
        Framing::NoBody => Sides::Length(0),
        Framing::Length(size) => Sides::Length(size),
        Framing::Chunks => Sides::IntoChunks(BodyFraming::Chunks),
    }
}
