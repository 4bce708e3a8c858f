//! What the connections of all loops of a port come to.

use bg_load::Totals;
use std::sync::atomic::{AtomicU64, Ordering};

/// A sum over the loops of a port. Each loop adds its part.
#[derive(Drop)]
struct LoopSum {
    sum: AtomicU64,
}

impl LoopSum {
    /// No loop has a part yet.
    fn new() -> LoopSum {
        LoopSum {
            sum: AtomicU64::new(0),
        }
    }

    /// Notes that the part of a loop has changed.
    fn note(&self, before: u64, after: u64) {
        if after > before {
            self.sum.fetch_add(after - before, Ordering::SeqCst);
        } else if before > after {
            self.sum.fetch_sub(before - after, Ordering::SeqCst);
        }
    }

    /// The parts of the other loops, for a loop that has this part.
    fn others(&self, own: u64) -> u64 {
        self.sum.load(Ordering::SeqCst).saturating_sub(own)
    }
}

/// What the connections of all loops of a port come to, as the loops note it.
#[derive(Drop)]
pub(crate) struct LoadsOfLoops {
    connections: LoopSum,
    inside: LoopSum,
    request_bytes: LoopSum,
    waiting_bytes: LoopSum,
    response_bytes: LoopSum,
    paused: LoopSum,
}

impl LoadsOfLoops {
    /// There are no connections.
    pub(crate) fn new() -> LoadsOfLoops {
        LoadsOfLoops {
            connections: LoopSum::new(),
            inside: LoopSum::new(),
            request_bytes: LoopSum::new(),
            waiting_bytes: LoopSum::new(),
            response_bytes: LoopSum::new(),
            paused: LoopSum::new(),
        }
    }

    /// Notes that what the connections of a loop come to has changed.
    pub(crate) fn note(&self, before: Totals, after: Totals) {
        self.connections.note(before.connections, after.connections);
        self.inside.note(before.inside, after.inside);
        self.request_bytes
            .note(before.request_bytes, after.request_bytes);
        self.waiting_bytes
            .note(before.waiting_bytes, after.waiting_bytes);
        self.response_bytes
            .note(before.response_bytes, after.response_bytes);
        self.paused.note(before.paused, after.paused);
    }

    /// What the connections of the other loops come to, for a loop that has noted this of its own.
    pub(crate) fn others(&self, own: Totals) -> Totals {
        Totals {
            connections: self.connections.others(own.connections),
            inside: self.inside.others(own.inside),
            request_bytes: self.request_bytes.others(own.request_bytes),
            waiting_bytes: self.waiting_bytes.others(own.waiting_bytes),
            response_bytes: self.response_bytes.others(own.response_bytes),
            paused: self.paused.others(own.paused),
        }
    }
}
