//! The bytes on their way to one peer.
ghost use Rattle.std.specs.Prelude.{◌≡◌, OnErr, OnOk, length, min};
ghost use Rattle.bg_tunnel.specs.Directions.{begun_with, ended, shut, with_more, with_taken};

use std::alloc::{AllocError, Global};
use std::marker::Model;

/// The bytes on their way to one peer, and their end.
pub(crate) struct Direction {
    alloc: Global,
    /// The bytes that wait are those behind the first `start`, and no more than these were taken: so at most twice as many bytes
    /// are in memory as wait.
    bytes: Vec<u8>,
    start: usize,
    /// Whether the input that they come from has ended.
    has_ended: bool,
    /// Whether the end was passed on: the writing side of the connection was shut.
    is_shut: bool,
    /// The number of bytes that the peer took.
    passed: u64,
}

impl Drop for Direction {
    /// Drops the fields by one call, so that the proofs of what owns a value are short (CONTRIBUTING.md, "What a check costs").
    fn drop(self) {
        let Direction {
            alloc: _,
            bytes: _,
            start: _,
            has_ended: _,
            is_shut: _,
            passed: _,
        } = self;
    }
}

impl Model for Direction {
    ghost use Rattle.std.specs.Prelude.{◌≤◌, ◌+◌, drop, vec_len};
    ghost use Rattle.bg_tunnel.specs.Directions.{DirectionState};

    ghost Value = { DirectionState };

    ghost view = { λ d. record {
      waiting = drop d.start d.bytes.items;
      has_ended = d.has_ended;
      is_shut = d.is_shut;
      passed = d.passed;
    } };

    ghost invariant = { λ d. d.start + d.start ≤ vec_len d.bytes };
}

impl Direction {
    /// A direction in which these bytes wait, and of which the peer took none.
    pub(crate) fn new(alloc: Global, bytes: Vec<u8>) -> Direction
        ensures { result ≡ begun_with bytes.items }
    {
        Direction {
            alloc,
            bytes,
            start: 0,
            has_ended: false,
            is_shut: false,
            passed: 0,
        }
    }

    /// The bytes that wait.
    pub(crate) fn waiting(&self) -> &[u8]
        ensures { result.now ≡ self.now.waiting }
    {
        &self.bytes[self.start..]
    }

    /// Whether the input that they come from has ended.
    pub(crate) fn has_ended(&self) -> bool
        ensures { result ≡ self.now.has_ended }
    {
        self.has_ended
    }

    /// Whether the end was passed on.
    pub(crate) fn is_shut(&self) -> bool
        ensures { result ≡ self.now.is_shut }
    {
        self.is_shut
    }

    /// The number of bytes that the peer took, at most `u64::MAX`.
    pub(crate) fn passed(&self) -> u64
        ensures { result ≡ self.now.passed }
    {
        self.passed
    }

    /// Adds bytes behind those that wait. An allocation failure changes nothing.
    pub(crate) fn add(&mut self, bytes: &[u8]) -> Result<(), AllocError>
        ensures added { OnOk result (self.new ≡ with_more bytes.now self.old) }
        ensures kept { OnErr result (self.new ≡ self.old) }
    {
        self.bytes.extend_from_slice(bytes)
    }

    /// The peer takes so many bytes, at most those that wait. Gives how many it takes.
    ///
    /// Once more bytes were taken than wait, those that were taken are dropped. So no more bytes are moved than were taken. If no byte is
    /// left, the memory is freed.
    pub(crate) fn take(&mut self, count: usize) -> usize
        ensures state { self.new ≡ with_taken count self.old }
        ensures taken { result ≡ min count (length self.old.waiting) }
    {
        let waiting = self.waiting().len();
        let taken = count.min(waiting);
        let start = self.start + taken;
        self.passed = self.passed.saturating_add(taken as u64);
        if taken == waiting {
            self.bytes = Vec::new(self.alloc);
            self.start = 0;
        } else if start > waiting - taken {
            self.bytes.drain(..start);
            self.start = 0;
        } else {
            self.start = start;
        }
        taken
    }

    /// The input that the bytes come from ends.
    pub(crate) fn end(&mut self)
        ensures { self.new ≡ ended self.old }
    {
        self.has_ended = true;
    }

    /// The end is passed on.
    pub(crate) fn shut(&mut self)
        ensures { self.new ≡ shut self.old }
    {
        self.is_shut = true;
    }
}
