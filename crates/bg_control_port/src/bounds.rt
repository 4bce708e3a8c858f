//! How many connections there may be, and for how long one may be silent.
ghost use Rattle.std.specs.Prelude.{◌≡◌};
ghost use Rattle.bg_control_port.specs.Bounds.{most_connections};
ghost use Rattle.bg_control_port.specs.Turns.{has_passed};

/// The maximum number of connections.
pub const MOST_CONNECTIONS: usize = 1_024;

/// The connections may have at most one in this many of the process's file descriptors.
const DESCRIPTOR_SHARE: usize = 4;

/// Whether at least this many milliseconds have passed since a moment.
pub fn has_passed(millis: u64, since: u64, now: u64) -> bool
    ensures { result ≡ has_passed millis since now }
{
    now.saturating_sub(since) >= millis
}

/// The maximum number of connections of a process that may have this many file descriptors.
pub fn most_connections(descriptors: usize) -> usize
    ensures { result ≡ most_connections descriptors }
{
    (descriptors / DESCRIPTOR_SHARE)
        .min(MOST_CONNECTIONS)
        .max(1)
}
