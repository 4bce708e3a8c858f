//! The moments of a port.

use std::io;
use std::time::{Clock, Duration, Instant};

/// Gives moments as milliseconds since it was started.
#[derive(Drop)]
pub struct PortClock {
    start: Instant,
}

impl PortClock {
    /// A clock that starts now. The only error is that the system's clock fails.
    pub fn start<R: Clock>(rt: &R) -> io::Result<PortClock> {
        Ok(PortClock {
            start: Instant::now(rt)?,
        })
    }

    /// The number of milliseconds since the start; 0 if the clock fails.
    pub fn now<R: Clock>(&self, rt: &R) -> u64 {
        match self.start.elapsed(rt) {
            Ok(passed) => millis(passed),
            Err(_) => 0,
        }
    }
}

fn millis(duration: Duration) -> u64 {
    duration
        .as_secs()
        .saturating_mul(1_000)
        .saturating_add(u64::from(duration.subsec_millis()))
}
