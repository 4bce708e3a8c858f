//! How large a head may be, and the fields that a parser found.
ghost use Rattle.std.specs.Prelude.{◌≡◌, All, IfOk, length, map};
ghost use Rattle.httparse.specs.Spans.{IsHeaderWithin, header_bytes};

use bg_http::Fields;
use httparse::spans::HeaderSpan;
use std::alloc::{AllocError, Global};

/// The most bytes that a head may have.
pub(crate) const MOST_HEAD: usize = 16_384;

/// The most fields that a head may have.
pub(crate) const MOST_FIELDS: usize = 64;

/// Room for each field that fits in the bytes of a head: a field has at least three.
pub(crate) const ROOM: usize = MOST_HEAD / 3;

/// The fields that the spans cover.
pub(crate) fn copy_fields(
    alloc: Global,
    input: &[u8],
    spans: &[HeaderSpan],
) -> Result<Fields, AllocError>
    requires { All (IsHeaderWithin (length input.now)) spans.now }
    ensures { IfOk result (λ fields. fields ≡ map (header_bytes input.now) spans.now) }
{
    Fields::of_spans(alloc, input, spans)
}
