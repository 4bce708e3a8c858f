//! Which requests ask for an upgrade, and which responses accept it.
ghost use Rattle.std.specs.Prelude.{◌≡◌};
ghost use Rattle.bg_upgrade.specs.Upgrades as spec;

use crate::elements::{have_element, names_each_of, names_protocol};
use bg_http::{Fields, Request, ResponseHead, RuledName};

/// Whether the fields name a protocol, and Connection names Upgrade.
fn has_upgrade(fields: &Fields) -> bool
    ensures { result ≡ spec.has_upgrade fields.now }
{
    have_element(fields, RuledName::Connection, b"upgrade") && names_protocol(fields)
}

/// Whether the request asks for an upgrade (RFC 9110 section 7.8). It does if all of this holds:
///
/// - its version is 1.1, or a later minor version, since an Upgrade in version 1.0 is ignored;
/// - an element of its Connection fields is `upgrade`, in any case of its letters;
/// - an element of its Upgrade fields is not empty, and so names a protocol;
/// - it has no body: neither Content-Length nor Transfer-Encoding. A request with a body, even an empty one, is an ordinary request;
/// - its method is not `CONNECT`, which `judge_request` of bg_http refuses.
pub fn asks_for_upgrade(request: &Request) -> bool
    ensures { result ≡ spec.asks_for_upgrade request.now }
{
    request.minor != 0
        && request.body.is_none()
        && request.method.get() != b"CONNECT".as_slice()
        && has_upgrade(&request.fields)
}

/// Whether the head accepts the upgrade that the request asks for (RFC 9110 sections 7.8 and 15.2.2). It does if all of this holds:
///
/// - its version is 1.1, and its code 101;
/// - an element of its Connection fields is `upgrade`, in any case of its letters;
/// - an element of its Upgrade fields is not empty, and the request named each that is not empty, in any case of its letters.
///
/// It does not ask whether the request asks for an upgrade.
pub fn accepts_upgrade(request: &Request, head: &ResponseHead) -> bool
    ensures { result ≡ spec.accepts_upgrade request.now head.now }
{
    head.minor != 0
        && head.code == 101
        && has_upgrade(&head.fields)
        && names_each_of(&request.fields, &head.fields)
}
