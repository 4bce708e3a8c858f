//! The heads of the response to a request, as its bytes arrive.
ghost use Rattle.std.specs.Prelude.{◌≡◌, ◌≤◌, ◌++◌, [], List, ℕ, IfErr, IfOk, IfNone, IfSome, IsFalse};
ghost use Rattle.std.specs.Prelude.{drop, length, take};
ghost use Rattle.bg_http.specs.ResponseRules.{asks_for_head};
ghost use Rattle.bg_http.specs.declared.request.Request.{Request as RequestValue};
ghost use Rattle.bg_http_read.specs.Heads.{HeadIsCut, response_heads};
ghost use Rattle.bg_http_read.specs.ResponseHeads.{AreHeads, HasTaken};
ghost use Rattle.bg_http_read.specs.ResponseStates.{HeadsAreRefused, is_of_stream};

use crate::final_head::{HeadFound, HeadSearch};
use bg_http::{Request, ResponseFault, asks_for_head};
use std::alloc::Global;
use std::marker::Model;

/// The heads of the response to a request, as its bytes arrive: those of interim responses, and the one of the final response
/// (RFC 9110 section 15.2). It holds no bytes: a head that is not complete stays with the caller, who gives it again with more
/// bytes.
pub struct ResponseHeads {
    alloc: Global,
    to_head: bool,
    most: usize,
    search: HeadSearch,
}

impl Drop for ResponseHeads {
    /// Drops the fields by one call, so that the proofs of what owns a value are short (CONTRIBUTING.md, "What a check costs").
    fn drop(self) {
        let ResponseHeads {
            alloc: _,
            to_head: _,
            most: _,
            search: _,
        } = self;
    }
}

impl Model for ResponseHeads {
    ghost use Rattle.bg_http_read.specs.ResponseHeads.{HeadsState};
    ghost use Rattle.bg_http_read.specs.ResponsesFed.{IsReady};

    ghost Value = { HeadsState };

    ghost view = { λ heads. record { to_head = heads.to_head; most = heads.most; interim = heads.search.interim } };

    ghost invariant = { λ heads. IsReady heads.search };
}

impl ResponseHeads {
    /// The heads of the response to `request`, before the first byte. Keeps of the request only whether its method is HEAD. `most`
    /// is the most bytes that the Content-Length of the final response may name; a body of chunks, or one that goes to the end of
    /// the input, has no limit here.
    pub fn new(alloc: Global, request: &Request, most: usize) -> ResponseHeads
        ensures state { result ≡ record { to_head = asks_for_head request.now; most = most; interim = 0 } }
        ensures first { HasTaken result request.now [] }
    {
        ResponseHeads {
            alloc,
            to_head: asks_for_head(request),
            most,
            search: HeadSearch::new(),
        }
    }

    /// Takes up to 16 interim responses and the head of the final response from the front of the bytes. Without that head it
    /// takes the interim responses that are complete, and fewer than 16,384 bytes wait behind them.
    ///
    /// The faults are those of `read_response` for a head, but for ReadFailed and Closed, and TooLarge is that of a Content-Length
    /// above the limit of `new`. If the input ends before the head of the final response is complete, its fault is Closed. After
    /// a head or a fault, the caller takes no more.
    pub fn take(&mut self, bytes: &[u8]) -> Result<HeadFound, ResponseFault>
        ensures fits { IfOk result (λ found. found.taken ≤ length bytes.now) }
        ensures head { (request : RequestValue) (input : List ℕ) → HasTaken self.old request input
            → IfOk result (λ found. IfSome found.head (λ at.
            AreHeads self.old.most request (input ++ take found.taken bytes.now) at.0 at.1)) }
        ensures none_yet { (request : RequestValue) (input : List ℕ) → HasTaken self.old request input
            → IfOk result (λ found. IfNone found.head
            (HasTaken self.new request (input ++ take found.taken bytes.now))) }
        ensures cut_off { IfOk result (λ found. IfNone found.head
            (HeadIsCut response_heads (drop found.taken bytes.now))) }
        ensures refused { (request : RequestValue) (input : List ℕ) → HasTaken self.old request input
            → IfErr result (λ fault. HeadsAreRefused self.old.most request fault (input ++ bytes.now)) }
        ensures fault { IfErr result (λ fault. IsFalse (is_of_stream fault)) }
        ensures most { self.new.most ≡ self.old.most }
    {
        match self
            .search
            .take_from(self.alloc, self.to_head, self.most, bytes)
        {
            Ok(found) => Ok(found),
            Err(fault) => {
                self.search = HeadSearch::new();
                Err(fault)
            }
        }
    }
}
