//! The fields of a client that go on.
ghost use Rattle.std.specs.Prelude.{◌≡◌, IfOk};
ghost use Rattle.std.specs.List.{find};
ghost use Rattle.std.specs.Option.{option_map};
ghost use Rattle.bg_http.specs.Elements.{has_field as has_named, is_named as is_of_name};
ghost use Rattle.bg_origin.specs.OriginFields as spec;

use crate::names::tells_origin;
use bg_http::{Field, Fields, is_forwarded};
use std::alloc::{AllocError, Global};

/// The fields of a request that go on: those that are forwarded, without those that tell where the request comes from, unless
/// the client is trusted. The only error is an allocation failure.
pub(crate) fn kept_fields(
    alloc: Global,
    fields: &Fields,
    trusts_client: bool,
) -> Result<Fields, AllocError>
    ensures { IfOk result (λ kept. kept ≡ spec.kept_fields trusts_client fields.now) }
{
    let mut kept = Fields::new(alloc, &[])?;
    for field in fields.get() {
        if goes_on(fields, &field, trusts_client) {
            kept.add(field.name(), field.value())?;
        }
    }
    Ok(kept)
}

fn goes_on(fields: &Fields, field: &Field<'_>, trusts_client: bool) -> bool
    ensures { result ≡ spec.goes_on trusts_client fields.now field.now }
{
    is_forwarded(fields, field) && (trusts_client || !tells_origin(field.name()))
}

/// Whether a field has the name, in any case of its letters.
pub(crate) fn has_field(fields: &Fields, name: &[u8]) -> bool
    ensures { result ≡ has_named name.now fields.now }
{
    fields.get().any(|field| is_named(&field, name))
}

/// The value of the first field of this name.
pub(crate) fn first_value<'a>(fields: &'a Fields, name: &[u8]) -> Option<&'a [u8]>
    ensures { option_map (λ value. value.now) result ≡ spec.first_value name.now fields.now }
{
    match first_named(fields, name) {
        Some(field) => Some(field.value()),
        None => None,
    }
}

fn first_named<'a>(fields: &'a Fields, name: &[u8]) -> Option<Field<'a>>
    ensures { result ≡ find (is_of_name name.now) fields.now }
{
    fields.get().find(|field| is_named(field, name))
}

fn is_named(field: &Field<'_>, name: &[u8]) -> bool
    ensures { result ≡ is_of_name name.now field.now }
{
    field.name().eq_ignore_ascii_case(name)
}
