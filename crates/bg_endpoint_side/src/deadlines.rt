//! The timeouts of a request that is forwarded.
ghost use Rattle.std.specs.Prelude.{◌≡◌, nat_le};
ghost use Rattle.bg_endpoint_side.specs.Deadlines.{deadlines_from, renewed};

/// The timeouts of a request, in milliseconds.
#[derive(Clone, Copy, Drop)]
pub struct Timeouts {
    /// From the start of its first dial to the end of its response.
    pub response: u64,
    /// The time in which no byte of its response may come.
    pub idle: u64,
}

/// The timeout of a dial, in milliseconds.
pub(crate) const DIAL_MILLIS: u64 = 5_000;

/// The time, in milliseconds, in which an endpoint may take no byte of a request.
pub(crate) const WRITE_MILLIS: u64 = 30_000;

/// When the timeouts of a request end, in milliseconds from the start of the program.
#[derive(Clone, Copy, Drop)]
pub struct Deadlines {
    /// When the timeout of its response ends.
    pub(crate) last: u64,
    /// When it is late, unless something happens before; at most `last`.
    pub(crate) until: u64,
    /// The time, in milliseconds, in which no byte of its response may come.
    pub(crate) idle: u64,
}

impl Deadlines {
    /// The deadlines of a request that is dialled from now on.
    pub(crate) fn new(timeouts: Timeouts, now: u64) -> Deadlines
        ensures { result ≡ deadlines_from timeouts now }
    {
        let last = now.saturating_add(timeouts.response);
        Deadlines {
            last,
            until: now.saturating_add(DIAL_MILLIS).min(last),
            idle: timeouts.idle,
        }
    }

    /// The same after something happened now: it is late in so many milliseconds, and with its last deadline.
    pub(crate) fn renewed(self, millis: u64, now: u64) -> Deadlines
        ensures { result ≡ renewed self millis now }
    {
        Deadlines {
            until: now.saturating_add(millis).min(self.last),
            ..self
        }
    }
}
