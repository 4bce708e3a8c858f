//! Which loop is woken for a place that is free.
ghost use Rattle.std.specs.Prelude.{◌≡◌, ◌==◌, ◌&&◌, None, Some, if◌then◌else◌, nat_lt, not};

use crate::waiting_loop::NONE_WAITS;

/// Of the loops that were looked at, the one whose request has waited longest. The loop that looks is left out.
#[derive(Clone, Copy, PartialEq, Eq, Debug, Drop)]
pub(crate) struct LongestWaiting {
    looking: usize,
    /// The loop, if a request waits at one, and since when.
    found: Option<usize>,
    since: u64,
}

impl LongestWaiting {
    /// No loop was looked at. The loop of this number looks.
    pub(crate) fn none(looking: usize) -> LongestWaiting
        ensures { result ≡ record { looking = looking; found = None; since = 18446744073709551615 } }
    {
        LongestWaiting {
            looking,
            found: None,
            since: NONE_WAITS,
        }
    }

    /// The same after a look at the loop of this number, where the request that has waited longest waits since this moment.
    pub(crate) fn or(self, number: usize, since: u64) -> LongestWaiting
        ensures { result ≡ (if not (number == self.looking) && nat_lt since self.since
            then record { looking = self.looking; found = Some number; since = since } else self) }
    {
        if number != self.looking && since < self.since {
            LongestWaiting {
                found: Some(number),
                since,
                ..self
            }
        } else {
            self
        }
    }

    /// The loop that was found, if a request waits at one.
    pub(crate) fn found(&self) -> Option<usize>
        ensures { result ≡ self.now.found }
    {
        self.found
    }
}
