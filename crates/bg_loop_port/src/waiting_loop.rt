//! What a port keeps of one of its loops, so that the requests of all loops take turns.

use bg_sockets::Signal;
use std::io;
use std::os::fd::RawFd;
use std::sync::atomic::{AtomicBool, AtomicU64, Ordering};

/// The moment that is noted of a loop at which no request waits.
pub(crate) const NONE_WAITS: u64 = u64::MAX;

/// A loop, and since when the request waits that has waited longest there.
#[derive(Drop)]
pub(crate) struct WaitingLoop {
    since: AtomicU64,
    /// The number of its requests that are inside.
    inside: AtomicU64,
    /// Whether the loop is asleep, and nobody has woken it since.
    is_asleep: AtomicBool,
    /// What ends the wait of this loop alone.
    signal: Signal,
}

impl WaitingLoop {
    /// A loop that is awake, and at which no request waits. An error if a system call fails.
    pub(crate) fn new() -> io::Result<WaitingLoop> {
        Ok(WaitingLoop {
            since: AtomicU64::new(NONE_WAITS),
            inside: AtomicU64::new(0),
            is_asleep: AtomicBool::new(false),
            signal: Signal::new()?,
        })
    }

    /// Since when the request waits that has waited longest; the greatest number if none waits.
    pub(crate) fn since(&self) -> u64 {
        self.since.load(Ordering::SeqCst)
    }

    /// Notes since when the request waits that has waited longest, if one waits.
    pub(crate) fn note_since(&self, since: Option<u64>) {
        self.since
            .store(since.unwrap_or(NONE_WAITS), Ordering::SeqCst);
    }

    /// The number of requests of the loop that are inside.
    pub(crate) fn inside(&self) -> u64 {
        self.inside.load(Ordering::SeqCst)
    }

    /// Notes that a request of the loop has entered.
    pub(crate) fn note_entered(&self) {
        self.inside.fetch_add(1, Ordering::SeqCst);
    }

    /// Notes that a request of the loop has left that had entered.
    pub(crate) fn note_left(&self) {
        self.inside.fetch_sub(1, Ordering::SeqCst);
    }

    /// Notes whether the loop is asleep: it waits for events, or is about to.
    pub(crate) fn note_asleep(&self, is_asleep: bool) {
        self.is_asleep.store(is_asleep, Ordering::SeqCst);
    }

    /// Ends the wait of the loop if it is asleep. Gives whether it was. Of several calls, one alone finds it asleep.
    pub(crate) fn wake(&self) -> bool {
        let was_asleep = self.is_asleep.load(Ordering::SeqCst)
            && self.is_asleep.swap(false, Ordering::SeqCst);
        if was_asleep {
            self.signal.post();
        }
        was_asleep
    }

    /// The descriptor that is readable after the loop was woken. It is watched for edges.
    pub(crate) fn descriptor(&self) -> RawFd {
        self.signal.descriptor()
    }
}
