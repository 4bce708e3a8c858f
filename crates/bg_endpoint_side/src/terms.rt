//! What a request means for the connection that it is sent on.
ghost use Rattle.std.specs.Prelude.{◌≡◌};
ghost use Rattle.bg_endpoint_side.specs.Methods.{is_idempotent as is_idempotent_method};

use bg_http::{Persistence, Request};

/// What a request means for the connection that it is sent on.
#[derive(Clone, Copy, Drop)]
pub struct Terms {
    /// The port of its endpoint.
    pub port: u16,
    /// Whether its text keeps the connection.
    pub persistence: Persistence,
    /// Whether its method is idempotent ([`is_idempotent`]).
    pub is_idempotent: bool,
    /// Whether its text asks for an upgrade (RFC 9110 section 7.8).
    pub asks_for_upgrade: bool,
}

/// Whether the method of a request is idempotent: a request that is sent twice means what it means once. GET, HEAD,
/// OPTIONS, TRACE, PUT and DELETE are (RFC 9110 section 9.2.2); a method that is not known may not be.
pub fn is_idempotent(request: &Request) -> bool
    ensures { result ≡ is_idempotent_method request.now.method }
{
    let method = request.method.get();
    method == b"GET".as_slice()
        || method == b"HEAD".as_slice()
        || method == b"OPTIONS".as_slice()
        || method == b"TRACE".as_slice()
        || method == b"PUT".as_slice()
        || method == b"DELETE".as_slice()
}
