//! What a request means for its client's connection.
ghost use Rattle.std.specs.Prelude.{◌≡◌};
ghost use Rattle.bg_client_side.specs.Facts.{asks_to_keep as lets_keep};

use bg_http::{Request, says_close};

/// Whether the client lets its connection be kept after this request: its version is 1.1, and no element of its Connection
/// fields is `close` (RFC 9112 section 9.3). A request of version 1.0 closes its connection, also with
/// `Connection: keep-alive`.
pub fn asks_to_keep(request: &Request) -> bool
    ensures { result ≡ lets_keep request.now }
{
    request.minor != 0 && !says_close(&request.fields)
}
