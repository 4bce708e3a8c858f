//! The bytes of the request that arrives, as far as they are kept.
ghost use Rattle.std.specs.Prelude.{◌≡◌, ◌++◌, [], IfSome};
ghost use Rattle.std.specs.Option.{option_copied};
ghost use Rattle.bg_client_side.specs.Arriving.{AreKept, AreKeptWith};

use std::alloc::Global;
use std::marker::Model;

/// All bytes that came since the end of the last request, or nothing: they are not asked for, or there was no memory for them.
#[derive(Drop)]
pub(crate) struct ArrivingBytes {
    alloc: Global,
    /// Whether they are kept at all.
    is_asked: bool,
    bytes: Option<Vec<u8>>,
}

impl Model for ArrivingBytes {
    ghost use Rattle.std.specs.Prelude.{List, ℕ, Option};
    ghost use Rattle.std.specs.Coded.{coded_list, coded_option, coded_ℕ};
    ghost use Rattle.std.specs.Option.{option_map};

    ghost Value = { Option (List ℕ) };

    ghost coded = { coded_option (coded_list coded_ℕ) };

    ghost view = { λ a. option_map (λ v. v.items) a.bytes };
}

impl ArrivingBytes {
    /// No byte came.
    pub(crate) fn new(alloc: Global, is_asked: bool) -> ArrivingBytes
        ensures { AreKept [] result }
    {
        ArrivingBytes {
            alloc,
            is_asked,
            bytes: if is_asked {
                Some(Vec::new(alloc))
            } else {
                None
            },
        }
    }

    /// These bytes came since the end of the last request. Without memory, nothing is kept before the next one.
    pub(crate) fn begin(&mut self, bytes: &[u8])
        ensures { AreKept bytes.now self.new }
    {
        self.bytes = if self.is_asked {
            Vec::from_slice(self.alloc, bytes).ok()
        } else {
            None
        };
    }

    /// Bytes came behind those that are kept. Without memory, nothing is kept before the next request.
    pub(crate) fn add(&mut self, bytes: &[u8])
        ensures { AreKeptWith self.old bytes.now self.new }
    {
        self.bytes = match self.bytes.take() {
            Some(all) => with_more(all, bytes),
            None => None,
        };
    }

    /// The bytes, if they are kept.
    pub(crate) fn get(&self) -> Option<&[u8]>
        ensures { option_copied result ≡ self.now }
    {
        match &self.bytes {
            Some(all) => Some(all.as_slice()),
            None => None,
        }
    }
}

/// These bytes and then more of them, if there is memory.
fn with_more(all: Vec<u8>, more: &[u8]) -> Option<Vec<u8>>
    ensures { IfSome result (λ both. both.items ≡ all.items ++ more.now) }
{
    let mut all = all;
    all.extend_from_slice(more).ok()?;
    Some(all)
}
