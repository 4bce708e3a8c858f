//! Parts of a request as the access log shows them.
ghost use Rattle.std.specs.Cow.{cow_str_bytes};
ghost use Rattle.std.specs.Prelude.{◌≡◌, IfSome, length, min, take};
ghost use Rattle.std.specs.Str.{IsUtf8};
ghost use Rattle.std.specs.Str.Lossy.{utf8_lossy};

use std::alloc::Global;
use std::borrow::CowStr;
use std::str;

/// The maximum number of bytes of a method or a target that are shown.
const MOST_BYTES: usize = 1024;

/// The first 1,024 bytes as text. Those that are not UTF-8 are U+FFFD; the text is copied only then. `None` if an
/// allocation fails.
pub fn text_of(alloc: Global, bytes: &[u8]) -> Option<CowStr<'_>>
    ensures valid { let shown = take (min (length bytes.now) 1024) bytes.now in
        IsUtf8 shown → IfSome result (λ text. cow_str_bytes text ≡ shown) }
    ensures lossy { let shown = take (min (length bytes.now) 1024) bytes.now in
        ¬ (IsUtf8 shown) → IfSome result (λ text. cow_str_bytes text ≡ utf8_lossy shown) }
{
    let shown = &bytes[..bytes.len().min(MOST_BYTES)];
    match str::from_utf8(shown) {
        Ok(text) => Some(CowStr::Borrowed(text)),
        Err(_) => Some(CowStr::Owned(String::from_utf8_lossy(alloc, shown).ok()?)),
    }
}
