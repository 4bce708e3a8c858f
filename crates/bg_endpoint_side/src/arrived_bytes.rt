//! The bytes that came on a connection, as far as they are kept.
ghost use Rattle.std.specs.Prelude.{◌≡◌, ◌≤◌, ◌++◌, IfSome, None, length, vec_len};
ghost use Rattle.std.specs.Option.{option_copied};
ghost use Rattle.bg_endpoint_side.specs.KeptBytes.{IsKeptWith, begun};

use std::alloc::Global;
use std::marker::Model;

/// The most bytes that are kept: a head has at most so many.
const MOST_KEPT: usize = 16_384;

/// All bytes that came on a connection, or nothing: no one may have asked for them, or there may be too many of them, or no memory.
#[derive(Drop)]
pub(crate) struct ArrivedBytes {
    alloc: Global,
    bytes: Option<Vec<u8>>,
}

impl Model for ArrivedBytes {
    ghost use Rattle.std.specs.Prelude.{◌≤◌, IfSome, List, ℕ, Option, vec_len};
    ghost use Rattle.std.specs.Coded.{coded_list, coded_option, coded_ℕ};
    ghost use Rattle.std.specs.Option.{option_map};

    ghost Value = { Option (List ℕ) };

    ghost coded = { coded_option (coded_list coded_ℕ) };

    ghost view = { λ a. option_map (λ v. v.items) a.bytes };

    ghost invariant = { λ a. IfSome a.bytes (λ v. vec_len v ≤ 16384) };
}

impl ArrivedBytes {
    /// Nothing is kept.
    pub(crate) fn none(alloc: Global) -> ArrivedBytes
        ensures { result ≡ None }
    {
        ArrivedBytes { alloc, bytes: None }
    }

    /// A connection begins, on which no byte came. The bytes that come are kept from now on, or they are not. It allocates nothing.
    pub(crate) fn begin(&mut self, keeps: bool)
        ensures { self.new ≡ begun keeps }
    {
        self.bytes = if keeps {
            Some(Vec::new(self.alloc))
        } else {
            None
        };
    }

    /// Bytes came. They are kept behind those that came before, if those are kept. With more than 16,384 bytes in all, or without
    /// memory, nothing is kept any more.
    pub(crate) fn add(&mut self, bytes: &[u8])
        ensures { IsKeptWith self.old bytes.now self.new }
    {
        self.bytes = match self.bytes.take() {
            Some(all) => with_more(all, bytes),
            None => None,
        };
    }

    /// All bytes that came, if they are kept.
    pub(crate) fn get(&self) -> Option<&[u8]>
        ensures value { option_copied result ≡ self.now }
        ensures within { IfSome result (λ bytes. length bytes.now ≤ 16384) }
    {
        match &self.bytes {
            Some(all) => Some(all.as_slice()),
            None => None,
        }
    }
}

/// These bytes and then more of them, if they are at most [`MOST_KEPT`] and there is memory.
fn with_more(all: Vec<u8>, more: &[u8]) -> Option<Vec<u8>>
    ensures items { IfSome result (λ both. both.items ≡ all.items ++ more.now) }
    ensures within { IfSome result (λ both. vec_len both ≤ 16384) }
{
    let mut all = all;
    if all.len() + more.len() > MOST_KEPT {
        return None;
    }
    all.extend_from_slice(more).ok()?;
    Some(all)
}
