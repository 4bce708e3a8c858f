//! What the connections of all loops of a port come to.
ghost use Rattle.std.specs.Prelude.{◌≡◌, ◌+◌};
ghost use Rattle.bg_load.specs.Totals.{connections_in, inside_in, request_bytes_in, response_bytes_in, waiting_bytes_in};

use super::Loads;

/// The sum of two numbers.
fn sum(own: u64, others: u64) -> u128
    ensures { result ≡ own + others }
{
    u128::from(own) + u128::from(others)
}

impl Loads {
    /// The number of connections.
    pub(super) fn connections(&self) -> u128
        ensures { result ≡ connections_in self.now }
    {
        sum(self.totals().connections, self.others.connections)
    }

    /// The number of those that hold a seat.
    pub(super) fn inside(&self) -> u128
        ensures { result ≡ inside_in self.now }
    {
        sum(self.totals().inside, self.others.inside)
    }

    /// The memory, in bytes, of requests that are arriving or wait for a seat.
    pub(super) fn request_bytes(&self) -> u128
        ensures { result ≡ request_bytes_in self.now }
    {
        sum(self.totals().request_bytes, self.others.request_bytes)
    }

    /// The part of it of requests that wait for a seat.
    pub(super) fn waiting_bytes(&self) -> u128
        ensures { result ≡ waiting_bytes_in self.now }
    {
        sum(self.totals().waiting_bytes, self.others.waiting_bytes)
    }

    /// The memory of responses, in bytes.
    pub(super) fn response_bytes(&self) -> u128
        ensures { result ≡ response_bytes_in self.now }
    {
        sum(self.totals().response_bytes, self.others.response_bytes)
    }
}
