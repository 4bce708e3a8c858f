//! The value of a request. Only proofs read it.
ghost use Rattle.std.specs.Prelude.{◌≡◌};
ghost use Rattle.std.specs.Borrow.{ftrue};
ghost use Rattle.bg_http.specs.declared.request.Request.{Request as RequestValue};

use bg_http::Request;
use std::marker::Model;

/// The value of a request. It exists only in proofs, and takes no memory.
#[derive(Drop)]
pub struct GhostRequest {
    pub ghost value: { RequestValue },
}

impl Model for GhostRequest {
    ghost also_owns = { λ _. ftrue };
}

// Its value exists only in proofs, so another thread may have it.
unsafe impl Send for GhostRequest {}

impl GhostRequest {
    /// The value of a request. It does nothing at run time.
    pub fn of(_request: &Request) -> GhostRequest
        ensures { result.value ≡ _request.now }
    {
        GhostRequest {}
    }
}
