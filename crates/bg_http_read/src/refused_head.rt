//! The head of a request that was refused.

use bg_http::RequestHead;

/// The head of a request that was refused after its head was parsed.
#[derive(Debug)]
pub struct RefusedHead {
    /// The head, as it was received.
    pub head: RequestHead,
    /// Whether the head passes all rules of `judge_request`. So the fault is not in the head: it is
    /// in the body or the trailers, or the input ended too early, or an allocation failed.
    pub is_sound: bool,
}

impl Drop for RefusedHead {
    /// Drops the fields by one call, so that the proofs of what owns a value are short (CONTRIBUTING.md, "What a check costs").
    fn drop(self) {
        let RefusedHead {
            head: _,
            is_sound: _,
        } = self;
    }
}
