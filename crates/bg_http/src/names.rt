//! The field names that the rules know.
ghost use Rattle.std.specs.Prelude.{◌≡◌, IfNone, IfSome, bytes_eq, false};
ghost use Rattle.bg_http.specs.Names.{IsRuledAs, spelled};

use http_header::HeaderName;

/// A standard field name that a rule uses. Two names are the same in any case of their letters (RFC 9110 section 5.1).
#[derive(Clone, Copy, PartialEq, Eq, Debug, Drop)]
pub enum RuledName {
    /// `Accept`.
    Accept,
    /// `Connection`.
    Connection,
    /// `Content-Length`.
    ContentLength,
    /// `Expect`.
    Expect,
    /// `Host`.
    Host,
    /// `TE`.
    Te,
    /// `Trailer`.
    Trailer,
    /// `Transfer-Encoding`.
    TransferEncoding,
    /// `Upgrade`.
    Upgrade,
}

/// The name that the bytes spell in any case, if a rule uses it. Allocates nothing.
pub(crate) fn ruled_name(name: &[u8]) -> Option<RuledName>
    ensures { IsRuledAs name.now result }
{
    let found = HeaderName::standard(name)?;
    ruled_as(found.as_str())
}

/// The name that a text in lower case is, if a rule uses it.
fn ruled_as(name: &str) -> Option<RuledName>
    ensures found { IfSome result (λ ruled. name.now ≡ spelled ruled) }
    ensures none { IfNone result ((ruled : RuledName) → bytes_eq name.now (spelled ruled) ≡ false) }
{
    match name {
        "accept" => Some(RuledName::Accept),
        "connection" => Some(RuledName::Connection),
        "content-length" => Some(RuledName::ContentLength),
        "expect" => Some(RuledName::Expect),
        "host" => Some(RuledName::Host),
        "te" => Some(RuledName::Te),
        "trailer" => Some(RuledName::Trailer),
        "transfer-encoding" => Some(RuledName::TransferEncoding),
        "upgrade" => Some(RuledName::Upgrade),
        _ => None,
    }
}
