//! A message whose head is known and whose body is being fed.
ghost use Rattle.std.specs.Prelude.{◌≡◌, IfErr, IfOk};
ghost use Rattle.bg_http_read.specs.BodyFramings.{StartsBody};

use crate::body::{Body, BodyFraming};
use std::alloc::Global;

/// A message whose head is known and whose body is being fed.
pub(crate) struct MessageBody<H, F> {
    pub(crate) head: H,
    pub(crate) framing: F,
    pub(crate) body: Body,
}

impl<H: Drop, F: Drop> Drop for MessageBody<H, F> {
    /// Drops the fields by one call, so that the proofs of what owns a value are short (CONTRIBUTING.md, "What a check costs").
    fn drop(self) {
        let MessageBody {
            head: _,
            framing: _,
            body: _,
        } = self;
    }
}

impl<H: Drop, F: Drop> MessageBody<H, F> {
    /// The state before the first byte of a body that ends as `ends` says. Gives the head back if an
    /// allocation fails.
    pub(crate) fn new(
        alloc: Global,
        head: H,
        framing: F,
        ends: BodyFraming,
    ) -> Result<MessageBody<H, F>, H>
        ensures head { IfOk result (λ part. part.head ≡ head) }
        ensures framing { IfOk result (λ part. part.framing ≡ framing) }
        ensures body { IfOk result (λ part. StartsBody ends part.body) }
        ensures back { IfErr result (λ back. back ≡ head) }
    {
        match Body::new(alloc, ends) {
            Ok(body) => Ok(MessageBody {
                head,
                framing,
                body,
            }),
            Err(_) => Err(head),
        }
    }

    /// Its parts.
    pub(crate) fn into_parts(self) -> (H, F, Body)
        ensures { result ≡ (self.head, self.framing, self.body) }
    {
        let MessageBody {
            head,
            framing,
            body,
        } = self;
        (head, framing, body)
    }
}
