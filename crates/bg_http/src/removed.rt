//! The fields that are not forwarded, and what Connection fields name.
ghost use Rattle.std.specs.Prelude.{◌≡◌, codes, not};
ghost use Rattle.std.specs.List.{list_any};
ghost use Rattle.std.specs.Str.{str_eq_ignore_ascii_case};
ghost use Rattle.bg_http.specs.Elements.{has_field as has_named};
ghost use Rattle.bg_http.specs.Held.{elements_left};
ghost use Rattle.bg_http.specs.Removed as spec;

use crate::elements::{Elements, elements_named, has_field, is_same_name};
use crate::field::Field;
use crate::fields::Fields;
use crate::names::RuledName;
use crate::request_rules::expects_continue;

/// Whether the field is not forwarded (RFC 9110 section 7.6.1). `has_connection` says whether there
/// is a Connection field; the caller determines it once for each message.
pub(crate) fn is_removed(fields: &Fields, has_connection: bool, field: &Field<'_>) -> bool
    requires { has_connection ≡ has_named (codes "connection") fields.now }
    ensures { result ≡ spec.is_removed fields.now field.now }
{
    is_of_connection(field)
        || (!field.is(RuledName::Host)
            && is_named_by_connection(fields, has_connection, field.name()))
}

/// Whether a field of a request is forwarded (RFC 9110 section 7.6.1). `fields` are all fields of the request. It is not if it
/// is Connection or Connection names it, except Host; if it is Keep-Alive, Proxy-Connection, TE, Transfer-Encoding, Upgrade,
/// Trailer or Content-Length; or if it is an Expect whose value is `100-continue`.
pub fn is_forwarded(fields: &Fields, field: &Field<'_>) -> bool
    ensures { result ≡ not (spec.is_removed_from_request fields.now field.now) }
{
    !is_removed_from_request(fields, has_field(fields, RuledName::Connection), field)
}

/// Whether the field of a request is not forwarded.
pub(crate) fn is_removed_from_request(
    fields: &Fields,
    has_connection: bool,
    field: &Field<'_>,
) -> bool
    requires { has_connection ≡ has_named (codes "connection") fields.now }
    ensures { result ≡ spec.is_removed_from_request fields.now field.now }
{
    is_removed(fields, has_connection, field) || expects_continue(field)
}

fn is_of_connection(field: &Field<'_>) -> bool
    ensures { result ≡ spec.is_of_connection field.now }
{
    field.is(RuledName::Connection)
        || is_same_name(field.name(), b"keep-alive")
        || is_same_name(field.name(), b"proxy-connection")
        || field.is(RuledName::Te)
        || field.is(RuledName::TransferEncoding)
        || field.is(RuledName::Upgrade)
        || field.is(RuledName::Trailer)
        || field.is(RuledName::ContentLength)
}

/// Whether an element of the Connection fields is `close`: the connection carries no message after
/// this one (RFC 9112 section 9.6).
pub fn says_close(fields: &Fields) -> bool
    ensures { result ≡ spec.says_close fields.now }
{
    have_name(elements_named(fields, RuledName::Connection), b"close")
}

/// Whether an element of the Connection fields is the name. An element that is not a valid name
/// matches no field.
fn is_named_by_connection(fields: &Fields, has_connection: bool, name: &[u8]) -> bool
    requires { has_connection ≡ has_named (codes "connection") fields.now }
    ensures { result ≡ spec.is_named_by_connection fields.now name.now }
{
    if !has_connection {
        return false;
    }
    have_name(elements_named(fields, RuledName::Connection), name)
}

/// Whether an element is the name.
fn have_name(mut elements: Elements<'_>, name: &[u8]) -> bool
    ensures { result ≡ list_any (λ element. str_eq_ignore_ascii_case element name.now)
        (elements_left elements.entry) }
{
    elements.any(|element| is_same_name(element, name))
}
