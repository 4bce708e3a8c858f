//! What a proxy adds to the fields of a request.
ghost use Rattle.std.specs.Prelude.{◌≡◌, OnOk, codes};
ghost use Rattle.std.specs.Option.{option_map};
ghost use Rattle.bg_origin.specs.Forwardeds.{client_text as client_text_of, forwarded_value as forwarded_value_of};
ghost use Rattle.bg_origin.specs.OriginFields as spec;

use crate::forwarded::{client_text, forwarded_value};
use crate::kept::has_field;
use crate::origin::Origin;
use bg_http::Fields;
use std::alloc::Global;
use std::io;

/// Adds to the fields of a request where it comes from. `host` is the Host that the client asked for, if it gave one. The only
/// error is an allocation failure.
pub(crate) fn add_origin(
    alloc: Global,
    fields: &mut Fields,
    host: Option<&[u8]>,
    origin: &Origin<'_>,
) -> io::Result<()>
    ensures { OnOk result (fields.new ≡ spec.with_origin (option_map (λ h. h.now) host.entry)
        origin.now.client origin.now.request_id.now fields.old) }
{
    add_client(alloc, fields, origin)?;
    add_missing(fields, b"X-Forwarded-Proto", b"http")?;
    add_host(fields, host)?;
    add_forwarded(alloc, fields, host, origin)?;
    add_missing(fields, b"X-Request-Id", origin.request_id)
}

/// Adds the address of the client.
fn add_client(alloc: Global, fields: &mut Fields, origin: &Origin<'_>) -> io::Result<()>
    ensures { OnOk result (fields.new
        ≡ spec.with_field (codes "X-Forwarded-For") (client_text_of origin.now.client) fields.old) }
{
    let client = client_text(alloc, origin.client)?;
    fields.add(b"X-Forwarded-For", client.as_slice())?;
    Ok(())
}

/// Adds an element of Forwarded.
fn add_forwarded(
    alloc: Global,
    fields: &mut Fields,
    host: Option<&[u8]>,
    origin: &Origin<'_>,
) -> io::Result<()>
    ensures { OnOk result (fields.new ≡ spec.with_field (codes "Forwarded")
        (forwarded_value_of origin.now.client (option_map (λ h. h.now) host.entry)) fields.old) }
{
    let value = forwarded_value(alloc, origin.client, host)?;
    fields.add(b"Forwarded", value.as_slice())?;
    Ok(())
}

/// Adds the Host that the client asked for, if it gave one, unless it is told already.
fn add_host(fields: &mut Fields, host: Option<&[u8]>) -> io::Result<()>
    ensures { OnOk result (fields.new ≡ spec.with_host (option_map (λ h. h.now) host.entry) fields.old) }
{
    match host {
        Some(host) => add_missing(fields, b"X-Forwarded-Host", host),
        None => Ok(()),
    }
}

/// Adds a field unless there is one of its name.
fn add_missing(fields: &mut Fields, name: &[u8], value: &[u8]) -> io::Result<()>
    ensures { OnOk result (fields.new ≡ spec.with_missing name.now value.now fields.old) }
{
    if !has_field(fields, name) {
        fields.add(name, value)?;
    }
    Ok(())
}
