//! The fields of a request that tells its endpoint where it comes from.
ghost use Rattle.std.specs.Prelude.{◌≡◌, IfOk};
ghost use Rattle.bg_origin.specs.OriginFields as spec;

use crate::added::add_origin;
use crate::kept::{first_value, kept_fields};
use crate::origin::Origin;
use bg_http::Fields;
use std::alloc::Global;
use std::io;

/// The fields with which a request is forwarded that tells its endpoint where it comes from, in order:
///
/// - The fields of the client that are forwarded. X-Forwarded-For, X-Forwarded-Proto, X-Forwarded-Host, Forwarded and
///   X-Request-Id are left out, also with underscores in the place of dashes, unless the client is trusted.
/// - X-Forwarded-For with the address of the client, as a further field if there are some.
/// - X-Forwarded-Proto `http`, and X-Forwarded-Host with the Host of the request if it has one, unless the client gave them.
/// - Forwarded with an element of its own: `for`, `host` and `proto` (RFC 7239), as a further field if there are some.
/// - X-Request-Id, unless the client gave one.
///
/// A writer forwards all of them, since no Connection field is left. The only error is an allocation failure.
pub fn origin_fields(alloc: Global, fields: &Fields, origin: &Origin<'_>) -> io::Result<Fields>
    ensures { IfOk result (λ told. told
        ≡ spec.origin_fields origin.now.trusts_client origin.now.client origin.now.request_id.now fields.now) }
{
    let mut told = kept_fields(alloc, fields, origin.trusts_client)?;
    add_origin(alloc, &mut told, first_value(fields, b"host"), origin)?;
    Ok(told)
}
