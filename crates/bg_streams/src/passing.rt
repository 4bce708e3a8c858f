//! A response whose head came, as it is passed on.
ghost use Rattle.std.specs.Prelude.{◌≡◌, ◌≤◌, ◌++◌, [], Bool, List, ℕ, IfErr, IfOk, IsFalse, IsTrue, OnOk, drop, length, nat_lt, take};
ghost use Rattle.std.specs.Prelude.{Err, IsErr, None, Ok};
ghost use Rattle.bg_http_read.specs.Bodies.{can_end, is_whole};
ghost use Rattle.bg_relay.specs.Relays.{WaitsFor};
ghost use Rattle.bg_streams.specs.Passings.{Delivers, DeliversOn, KeepsHead, Starts};
ghost use Rattle.bg_streams.specs.Passings as spec;

use crate::framings::sides;
use crate::head_text::{head_text, streamed};
use crate::stream_fault::{StreamFault, body_fault};
use crate::stream_terms::StreamTerms;
use bg_http::{Response, ResponseFraming, ResponseHead};
use bg_relay::{Relay, RelayFault};
use std::alloc::{AllocError, Global};
use std::io;

/// A response whose head came, as it is passed on: the text of its head, and then its body.
pub(crate) struct Passing {
    /// The response, without a byte of its body.
    pub(crate) response: Response,
    /// The framing of its body as it comes.
    pub(crate) framing: ResponseFraming,
    /// The text of the head.
    head: Vec<u8>,
    /// How many bytes of that text were written.
    sent: usize,
    pub(crate) relay: Relay,
}

impl Drop for Passing {
    /// Drops the fields by one call, so that the proofs of what owns a value are short (CONTRIBUTING.md, "What a check costs").
    fn drop(self) {
        let Passing {
            response: _,
            framing: _,
            head: _,
            sent: _,
            relay: _,
        } = self;
    }
}

impl Passing {
    /// A response before the first byte of its body. The only error is an allocation failure.
    pub(crate) fn new(
        alloc: Global,
        terms: StreamTerms,
        head: ResponseHead,
        framing: ResponseFraming,
    ) -> io::Result<Passing>
        ensures { IfOk result (λ passing. Starts terms head framing passing) }
    {
        let sides = sides(terms.reads_chunks, framing);
        let response = streamed(alloc, framing, head)?;
        let text = head_text(alloc, &response, sides.outgoing(), terms.persistence)?;
        let relay = Relay::new(alloc, sides, terms.window, terms.most_body)?;
        Ok(Passing {
            response,
            framing,
            head: text,
            sent: 0,
            relay,
        })
    }

    /// What is to be written of the head.
    fn head_rest(&self) -> &[u8]
        ensures { result.now ≡ spec.head_rest self.now }
    {
        match self.head.as_slice().get(self.sent..) {
            Some(rest) => rest,
            None => &[],
        }
    }

    /// What is to be written next: of the head, and after it of the body.
    pub(crate) fn rest(&self) -> &[u8]
        ensures rest { result.now ≡ spec.rest_of self.now }
        ensures within { spec.IsWithin self.now }
    {
        let head = self.head_rest();
        let body = self.relay.rest();
        if head.is_empty() { body } else { head }
    }

    /// Notes that so many bytes more were written, at most the rest.
    pub(crate) fn wrote(&mut self, count: usize)
        ensures stands { (kept : Bool) (came written : List ℕ) → Delivers self.old kept came written
            → Delivers self.new kept came (written ++ take count (spec.rest_of self.old)) }
        ensures same { KeepsHead self.old self.new }
        ensures fault { self.new.relay.fault ≡ self.old.relay.fault }
    {
        let left = self.head_rest().len();
        if left == 0 {
            self.relay.wrote(count);
        } else if count >= left {
            self.sent = self.head.len();
        } else {
            self.sent += count;
        }
    }

    /// All that is left to be written. The only error is an allocation failure.
    pub(crate) fn into_rest(self) -> Result<Vec<u8>, AllocError>
        ensures { IfOk result (λ rest. rest.items ≡ spec.whole_rest self) }
    {
        let Passing {
            response: _,
            framing: _,
            head: mut rest,
            sent,
            relay,
        } = self;
        if sent < rest.len() {
            rest.drain(..sent);
        } else {
            rest.clear();
        }
        rest.extend_from_slice(relay.rest())?;
        Ok(rest)
    }

    /// Takes bytes of the body, and gives their number, as [`Relay::feed`] does.
    pub(crate) fn feed(&mut self, bytes: &[u8]) -> Result<usize, StreamFault>
        requires { self.old.relay.fault ≡ None }
        ensures fits { IfOk result (λ taken. taken ≤ length bytes.now) }
        ensures stands { IfOk result (λ taken. DeliversOn self.old self.new (take taken bytes.now)) }
        ensures waits { IfOk result (λ taken. WaitsFor self.new.relay (drop taken bytes.now)) }
        ensures is_open { IfOk result (λ taken. self.new.relay.fault ≡ None) }
        ensures refused { IfErr result (λ fault. spec.IsBrokenOff self.old self.new bytes.now fault) }
        ensures whole { IsTrue (is_whole self.old.relay.stage) → (result ≡ Ok 0) × (self.new ≡ self.old) }
        ensures same { KeepsHead self.old self.new }
    {
        let taken = self.relay.feed(bytes);
        match taken {
            Ok(count) => Ok(count),
            Err(fault) => Err(body_fault(self.sent > 0, fault)),
        }
    }

    /// The input has ended, as [`Relay::end_input`] says.
    pub(crate) fn end_input(&mut self) -> Result<(), StreamFault>
        requires { self.old.relay.fault ≡ None }
        ensures stands { OnOk result (DeliversOn self.old self.new []) }
        ensures whole { OnOk result (IsTrue (is_whole self.new.relay.stage) × (self.new.relay.fault ≡ None)) }
        ensures cut { IsFalse (can_end self.old.relay.stage) → result ≡ Err (spec.cut_of self.old) }
        ensures memory { IsTrue (can_end self.old.relay.stage) → IfErr result (λ fault.
            fault ≡ spec.memory_of self.old) }
        ensures kept { IfErr result (λ fault. spec.IsKeptIn self.new fault) }
        ensures same { KeepsHead self.old self.new }
    {
        match self.relay.end_input() {
            Ok(()) => Ok(()),
            Err(fault) => Err(body_fault(self.sent > 0, fault)),
        }
    }
}
