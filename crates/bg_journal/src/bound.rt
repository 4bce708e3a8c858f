//! Bounds of request numbers, as texts of a journal.
ghost use Rattle.std.specs.Prelude.{◌≡◌, IfOk, string_bytes};
ghost use Rattle.bg_journal.specs.Bounds.{bound_in as bound_of, bound_text as text_of_bound};

use crate::words::long_number;
use std::alloc::{AllocError, Global};

/// The text that says that no request got a greater number than this one. It is that of no entries. The only error is an
/// allocation failure.
pub fn bound_text(alloc: Global, number: u64) -> Result<String, AllocError>
    ensures { IfOk result (λ text. string_bytes text ≡ text_of_bound number) }
{
    format!(in alloc; "requests {number}")
}

/// The number of the bound that a text says; `None` if it says none.
pub fn bound_in(text: &str) -> Option<u64>
    ensures { result ≡ bound_of text.now }
{
    long_number(text.strip_prefix("requests ")?)
}
