//! The timeout of an endpoint's response.
ghost use Rattle.std.specs.Prelude.{◌≡◌};
ghost use Rattle.bg_endpoints.specs.IdleTimeouts.{idle_seconds};

/// The number of seconds for which an endpoint may be silent, unless a longer timeout was given.
const IDLE_SECONDS: u64 = 30;

/// The timeout of an endpoint's response.
#[derive(Clone, Copy, Debug, Drop, PartialEq, Eq)]
pub struct ResponseTimeout {
    /// The maximum number of seconds from the start of a connect to the end of the response, at least 1.
    pub seconds: u64,
    /// Whether the user of the switch set the seconds. If not, they are the default.
    pub is_given: bool,
}

impl ResponseTimeout {
    /// The number of seconds in which no byte of a response may come: 30, or the timeout if a longer one
    /// was given.
    pub fn idle_seconds(self) -> u64
        ensures { result ≡ idle_seconds self }
    {
        if self.is_given {
            self.seconds.max(IDLE_SECONDS)
        } else {
            IDLE_SECONDS
        }
    }
}
