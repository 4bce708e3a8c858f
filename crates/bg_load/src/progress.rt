//! Whether a connection makes progress.
ghost use Rattle.std.specs.Prelude.{◌≡◌};
ghost use Rattle.bg_load.specs.Paces.{is_slower, is_slower_by, noted, noted_by, request_pace};

use crate::activity::LARGE_REQUEST;

/// What counts as progress: this many bytes within this many milliseconds. If no bytes come at all, the time is
/// shorter.
#[derive(Clone, Copy, PartialEq, Eq, Debug, Drop)]
pub struct Pace {
    bytes: u64,
    within_millis: u64,
    silent_millis: u64,
}

/// The pace of a client that takes its response, or that is in its lingering close. Clients are on this machine, so a
/// client that reads takes bytes within milliseconds. With a longer time, 500 clients that do not read would fill the
/// memory faster than they are closed, and would block all other clients.
pub(crate) const RESPONSE_PACE: Pace = Pace {
    bytes: 1 << 17,
    within_millis: 2_000,
    silent_millis: 250,
};

/// The pace of a request that has bytes already, of one that is large, and of one that has no bytes yet.
const REQUEST_PACE: Pace = Pace {
    bytes: 4_096,
    within_millis: 4_000,
    silent_millis: 2_000,
};

const LARGE_REQUEST_PACE: Pace = Pace {
    bytes: 32_768,
    within_millis: 4_000,
    silent_millis: 2_000,
};

const FIRST_BYTE_PACE: Pace = Pace {
    bytes: 1,
    within_millis: 1_000,
    silent_millis: 1_000,
};

/// The pace of a request of which so many bytes came.
pub(crate) fn request_pace(count: u64) -> Pace
    ensures { result ≡ request_pace count }
{
    if count == 0 {
        FIRST_BYTE_PACE
    } else if count < LARGE_REQUEST {
        REQUEST_PACE
    } else {
        LARGE_REQUEST_PACE
    }
}

/// The state of a connection when it last made progress. Moments are milliseconds from the start of the loop.
#[derive(Clone, Copy, PartialEq, Eq, Drop)]
pub struct Progress {
    pub(crate) moment: u64,
    /// The number of bytes that were moved by then.
    pub(crate) bytes: u64,
}

impl Progress {
    /// The same after this many bytes were moved in all.
    fn noted(self, bytes: u64, pace: Pace, now: u64) -> Progress
        ensures { result ≡ noted self bytes pace now }
    {
        if bytes.saturating_sub(self.bytes) >= pace.bytes {
            Progress { moment: now, bytes }
        } else {
            self
        }
    }

    /// The same, measured from this moment on.
    pub(crate) fn restarted(self, now: u64) -> Progress
        ensures { result ≡ record self { moment = now } }
    {
        Progress {
            moment: now,
            ..self
        }
    }

    /// Whether a connection that moved this many bytes in all is slower than its pace.
    fn is_slower(self, bytes: u64, pace: Pace, now: u64) -> bool
        ensures { result ≡ is_slower self bytes pace now }
    {
        let passed = now.saturating_sub(self.moment);
        passed >= pace.within_millis || bytes == self.bytes && passed >= pace.silent_millis
    }

    /// The same as `noted`, by a pace if there is one.
    pub(crate) fn noted_by(self, pace: Option<Pace>, bytes: u64, now: u64) -> Progress
        ensures { result ≡ noted_by pace self bytes now }
    {
        match pace {
            Some(pace) => self.noted(bytes, pace, now),
            None => self,
        }
    }

    /// The same as `is_slower`, by a pace if there is one.
    pub(crate) fn is_slower_by(self, pace: Option<Pace>, bytes: u64, now: u64) -> bool
        ensures { result ≡ is_slower_by pace self bytes now }
    {
        match pace {
            Some(pace) => self.is_slower(bytes, pace, now),
            None => false,
        }
    }
}
