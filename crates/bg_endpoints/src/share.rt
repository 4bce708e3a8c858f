//! The share of an endpoint in the requests.
ghost use Rattle.std.specs.Prelude.{◌≡◌};
ghost use Rattle.bg_endpoints.specs.Shares.{equal_part, share_of};

/// The rule for the number of requests that an endpoint gets at a time while another one is free.
#[derive(Clone, Copy, Debug, Drop, PartialEq, Eq)]
pub struct Share {
    /// The number that the user of the switch set (HAProxy's `maxconn` of a server).
    pub given: Option<u16>,
    /// The number of requests that the switch forwards at a time.
    pub concurrency: u32,
}

impl Share {
    /// The share of each of so many endpoints: the given number; without one, twice an equal part of the
    /// concurrency, but at most half of it, so that an endpoint that hangs leaves requests to the others. It is at
    /// least 1.
    pub(crate) fn of(self, endpoints: usize) -> u32
        ensures { result ≡ share_of self endpoints }
    {
        match self.given {
            Some(given) => u32::from(given).max(1),
            None => self.equal_part(endpoints).min(self.concurrency / 2).max(1),
        }
    }

    /// Twice an equal part of the concurrency.
    fn equal_part(self, endpoints: usize) -> u32
        ensures { result ≡ equal_part self.concurrency endpoints }
    {
        let twice = u64::from(self.concurrency) * 2;
        let part = twice / (endpoints as u64).max(1);
        u32::try_from(part).unwrap_or(u32::MAX)
    }
}
