//! How a response is passed on as it comes.
ghost use Rattle.std.specs.Prelude.{◌≡◌};
ghost use Rattle.bg_client_side.specs.Clients.{stays_after};
ghost use Rattle.bg_both_sides.specs.Sides.{reads_endpoint, to_client};
ghost use Rattle.bg_both_sides.specs.StreamedEvents.{ClientTakes, ConnectsStreamed, Telling};

use crate::both_sides::BothSides;
use crate::endpoint_side::EndpointSide;
use crate::endpoint_step::EndpointStep;
use crate::stream_limits::StreamLimits;
use std::mem;

impl BothSides {
    /// A connection is there for the request that is dialled for, as [`Self::connect`] says, and its response is passed on as it comes,
    /// within these limits. Gives whether the connection belongs to the request from now on; otherwise nothing changes, also if there
    /// is no memory.
    pub fn connect_streamed(&mut self, is_kept: bool, limits: StreamLimits, now: u64) -> bool
        ensures client { self.new.client ≡ self.old.client }
        ensures endpoint { ConnectsStreamed is_kept limits now (stays_after self.old.client) result self.old.endpoint
            self.new.endpoint }
    {
        let client = (self.client.persistence(), limits);
        let (endpoint, is_taken) = mem::replace(&mut self.endpoint, EndpointSide::NoRequest).stream(
            self.alloc, is_kept, client, now,
        );
        self.endpoint = endpoint;
        is_taken
    }

    /// What is to be written to the client now of a response that is passed on.
    pub fn rest_to_client(&self) -> &[u8]
        ensures { result.now ≡ to_client self.now.endpoint }
    {
        self.endpoint.rest_to_client()
    }

    /// Whether bytes of the endpoint are to be read now. If not, its caller does not read from it, not even its end.
    pub fn reads_endpoint(&self) -> bool
        ensures { result ≡ reads_endpoint self.now.endpoint }
    {
        self.endpoint.reads_endpoint()
    }

    /// Notes that the client took so many bytes of [`Self::rest_to_client`], at most all of them.
    pub fn client_took(&mut self, count: usize, now: u64) -> EndpointStep
        ensures { (telling : Telling) × ClientTakes self.old.endpoint count now
            self.old.client result telling self.new }
    {
        let (endpoint, told) = mem::replace(
            &mut self.endpoint,
            EndpointSide::NoRequest,
        ).take_by_client(&mut self.client, self.alloc, count, now);
        self.endpoint = endpoint;
        told
    }
}
