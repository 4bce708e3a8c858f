//! The codings that Transfer-Encoding fields name.
ghost use Rattle.std.specs.Prelude.{◌≡◌, length, min};
ghost use Rattle.bg_http.specs.Codings.{codings, ends_in_chunked};
ghost use Rattle.bg_http.specs.Held.{add_coding};

use crate::elements::{elements_named, is_same_name};
use crate::fields::Fields;
use crate::names::RuledName;

/// The number of codings, counted up to two, and whether the last of them is `chunked`.
#[derive(Clone, Copy)]
pub(crate) struct Codings {
    pub(crate) count: u8,
    pub(crate) chunked_last: bool,
}

impl Codings {
    fn add(self, element: &[u8]) -> Codings
        ensures { result ≡ add_coding self element.now }
    {
        if element.is_empty() {
            return self;
        }
        Codings {
            count: self.count.saturating_add(1).min(2),
            chunked_last: is_same_name(element, b"chunked"),
        }
    }
}

/// The codings that all Transfer-Encoding fields name (RFC 9112 section 6.1).
pub(crate) fn named_codings(fields: &Fields) -> Codings
    ensures count { result.count ≡ min (length (codings fields.now)) 2 }
    ensures chunked_last { result.chunked_last ≡ ends_in_chunked (codings fields.now) }
{
    let mut found = Codings {
        count: 0,
        chunked_last: false,
    };
    for element in elements_named(fields, RuledName::TransferEncoding) {
        found = found.add(element);
    }
    found
}
