//! A client's connection together with the request that it has at an endpoint.
ghost use Rattle.std.specs.Prelude.{◌≡◌};
ghost use Rattle.std.specs.Option.{option_copied};
ghost use Rattle.bg_client_side.specs.Clients.{accepted};
ghost use Rattle.bg_endpoint_side.specs.OutgoingTexts.{IsFirstPiece};
ghost use Rattle.bg_both_sides.specs.Sides.{goes_elsewhere, has_connection, is_dial_late, request_of, to_endpoint};
ghost use Rattle.bg_both_sides.specs.declared.endpoint_side.EndpointSide.TheVariants as side;

use crate::endpoint_side::EndpointSide;
use bg_client_side::{ClientConnection, ClientSettings};
use bg_http::Request;
use std::alloc::Global;
use std::marker::Model;

/// A client's connection together with the request that it has at an endpoint. It has no socket: its caller tells what
/// happened on the two connections, and reads, writes, dials and closes as it says. A connection to an endpoint belongs to
/// the request that is forwarded on it, from [`Self::connect`] to the answer or to [`EndpointStep::DialsAgain`], and to no
/// other one. Moments are milliseconds from the start of the program.
///
/// [`EndpointStep::DialsAgain`]: crate::EndpointStep::DialsAgain
pub struct BothSides {
    pub(crate) alloc: Global,
    pub(crate) client: ClientConnection,
    pub(crate) endpoint: EndpointSide,
}

impl Drop for BothSides {
    /// Drops the fields by one call, so that the proofs of what owns a value are short (CONTRIBUTING.md, "What a check costs").
    fn drop(self) {
        let BothSides {
            alloc: _,
            client: _,
            endpoint: _,
        } = self;
    }
}

impl Model for BothSides {
    ghost use Rattle.bg_both_sides.specs.Sides.{IsSound, Sides};

    ghost Value = { Sides };

    ghost view = { λ e. record { client = e.client; endpoint = e.endpoint } };

    ghost invariant = { λ e. IsSound e.client e.endpoint };
}

impl BothSides {
    /// A client's connection that was accepted now. Its first request is to come.
    pub fn new(alloc: Global, settings: ClientSettings, now: u64) -> BothSides
        ensures { result ≡ record { client = accepted settings now; endpoint = side.NoRequest } }
    {
        BothSides {
            alloc,
            client: ClientConnection::new(alloc, settings, now),
            endpoint: EndpointSide::NoRequest,
        }
    }

    /// The client's connection: what is to be read and written there, and whether it has left.
    pub fn client(&self) -> &ClientConnection
        ensures { result.now ≡ self.now.client }
    {
        &self.client
    }

    /// The request that is inside, if one is.
    pub fn request(&self) -> Option<&Request>
        ensures { option_copied result ≡ request_of self.now.endpoint }
    {
        self.endpoint.request()
    }

    /// A piece of what is to be written to the endpoint now: the next bytes of the text of the request, or nothing, if all of
    /// it was written, or if the endpoint reads no more of it.
    pub fn piece_to_endpoint(&self) -> &[u8]
        ensures { IsFirstPiece (to_endpoint self.now.endpoint) result.now }
    {
        self.endpoint.piece()
    }

    /// Whether another endpoint may be dialled for the request, if its dial gives no connection: nothing of it was written,
    /// and the timeout of its response has not passed.
    pub fn may_go_elsewhere(&self, now: u64) -> bool
        ensures { result ≡ goes_elsewhere self.now.endpoint now }
    {
        match &self.endpoint {
            EndpointSide::Dialing(_, dialing) => dialing.may_go_elsewhere(now),
            _ => false,
        }
    }

    /// Whether the dial for the request is late: it has failed.
    pub fn is_dial_late(&self, now: u64) -> bool
        ensures { result ≡ is_dial_late self.now.endpoint now }
    {
        match &self.endpoint {
            EndpointSide::Dialing(_, dialing) => dialing.is_late(now),
            _ => false,
        }
    }

    /// Whether a connection to an endpoint belongs to the request.
    pub fn has_connection(&self) -> bool
        ensures { result ≡ has_connection self.now.endpoint }
    {
        self.endpoint.has_connection()
    }
}
