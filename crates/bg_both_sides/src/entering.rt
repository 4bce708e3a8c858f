//! How a request enters, is refused, and is sent to an endpoint.
ghost use Rattle.std.specs.Prelude.{◌≡◌, Option, is_some, true};
ghost use Rattle.bg_client_side.specs.Stages.{waiting_request};
ghost use Rattle.bg_endpoint_side.specs.Dialing.{may_go_elsewhere};
ghost use Rattle.bg_both_sides.specs.Answers.{Reply};
ghost use Rattle.bg_both_sides.specs.ClientEvents.{entered};
ghost use Rattle.bg_both_sides.specs.EndpointEvents.{Dials, DialsElsewhere, DialsFor, RefusesEntered, begins, connected, takes_connection, terms_on as terms_of_route, with_fields};
ghost use Rattle.bg_upgrade.specs.Upgrades.{asks_for_upgrade as asks};
ghost use Rattle.bg_both_sides.specs.Sides.{as_entered};
ghost use Rattle.bg_both_sides.specs.declared.endpoint_side.EndpointSide.TheVariants as side;

use crate::answering::refuse;
use crate::both_sides::BothSides;
use crate::endpoint_side::EndpointSide;
use crate::route::Route;
use crate::texts::request_front;
use bg_endpoint_side::{DialingRequest, Terms, is_idempotent};
use bg_http::{Fields, Request};
use bg_upgrade::asks_for_upgrade;
use std::alloc::Global;
use std::mem;

impl BothSides {
    /// Has the request that waits enter, since it has a seat. Gives whether one waited; otherwise nothing changes.
    pub fn enter(&mut self) -> bool
        ensures waited { result ≡ is_some (waiting_request self.old.client.stage) }
        ensures new { self.new ≡ entered self.old }
    {
        match self.client.take() {
            Some(request) => {
                self.endpoint = EndpointSide::Entered(request);
                true
            }
            None => false,
        }
    }

    /// Has the request that entered forwarded with these fields in the place of its own, from now on. Gives whether there is
    /// one that is not on its way to an endpoint; otherwise nothing changes.
    pub fn replace_fields(&mut self, fields: Fields) -> bool
        ensures replaced { result ≡ is_some (as_entered self.old.endpoint) }
        ensures client { self.new.client ≡ self.old.client }
        ensures endpoint { self.new.endpoint ≡ with_fields fields self.old.endpoint }
    {
        match mem::replace(&mut self.endpoint, EndpointSide::NoRequest).into_entered() {
            Ok(mut request) => {
                request.fields = fields;
                self.endpoint = EndpointSide::Entered(request);
                true
            }
            Err(other) => {
                self.endpoint = other;
                false
            }
        }
    }

    /// Refuses the request with 503 that entered, and is not on its way to an endpoint. Gives whether there was one;
    /// otherwise nothing changes.
    pub fn refuse(&mut self, now: u64) -> bool
        ensures { (reply : Option Reply)
            × RefusesEntered self.old.endpoint now self.old.client result reply self.new }
    {
        match mem::replace(&mut self.endpoint, EndpointSide::NoRequest).into_entered() {
            Ok(request) => {
                refuse(&mut self.client, self.alloc, &request, 503, now);
                true
            }
            Err(other) => {
                self.endpoint = other;
                false
            }
        }
    }

    /// Dials for the request that entered, from now on; or for one that is dialled for, since its dial gave no connection, at
    /// this endpoint in the place of the one before. Gives whether it does; otherwise nothing changes: there is no such
    /// request, it may not go elsewhere ([`Self::may_go_elsewhere`]), or there was no memory for its text. It is then to be
    /// refused ([`Self::refuse`]), or its dial has failed ([`Self::dial_failed`]).
    pub fn dial(&mut self, route: Route, now: u64) -> bool
        ensures client { self.new.client ≡ self.old.client }
        ensures endpoint { Dials self.old.endpoint route now result self.new.endpoint }
    {
        let (endpoint, dials) = mem::replace(&mut self.endpoint, EndpointSide::NoRequest).dial(
            self.alloc, route, now,
        );
        self.endpoint = endpoint;
        dials
    }

    /// A connection is there for the request that is dialled for: one that was kept, or a new one. Gives whether it belongs
    /// to the request from now on; otherwise nothing changes: no connection is awaited, or the request is sent again, and
    /// then it takes a new connection.
    pub fn connect(&mut self, is_kept: bool, now: u64) -> bool
        ensures taken { result ≡ takes_connection is_kept self.old.endpoint }
        ensures new { self.new ≡ connected is_kept now self.old }
    {
        let (endpoint, is_taken) = match mem::replace(
            &mut self.endpoint,
            EndpointSide::NoRequest,
        ).into_dialing()
        {
            Ok((request, dialing)) => begin(request, dialing, is_kept, now),
            Err(other) => (other, false),
        };
        self.endpoint = endpoint;
        is_taken
    }
}

/// What a request means for the connection to its endpoint on this route.
fn terms_on(request: &Request, route: Route) -> Terms
    ensures { result ≡ terms_of_route request.now route }
{
    Terms {
        port: route.port,
        persistence: route.persistence,
        is_idempotent: is_idempotent(request),
        asks_for_upgrade: route.upgrades && asks_for_upgrade(request),
    }
}

/// A request that entered, as it is dialled for, and whether there was memory for its text.
pub(crate) fn dial_for(
    alloc: Global,
    request: Request,
    route: Route,
    now: u64,
) -> (EndpointSide, bool)
    ensures { DialsFor result.1 request route now result.0 }
{
    let terms = terms_on(&request, route);
    let Ok(front) = request_front(alloc, &request, terms) else {
        return (EndpointSide::Entered(request), false);
    };
    match DialingRequest::new(alloc, &request, (front, terms), route.timeouts, now) {
        Ok(dialing) => (EndpointSide::Dialing(request, dialing), true),
        Err(_) => (EndpointSide::Entered(request), false),
    }
}

/// A request that is dialled for, as it is dialled for at another endpoint, if it may be and if there was memory for its text,
/// and whether it is.
pub(crate) fn dial_elsewhere(
    alloc: Global,
    request: Request,
    dialing: DialingRequest,
    route: Route,
    now: u64,
) -> (EndpointSide, bool)
    requires request { request ≡ dialing.request }
    requires asks { dialing.terms.asks_for_upgrade ≡ true → asks request ≡ true }
    ensures { DialsElsewhere (may_go_elsewhere dialing now) result.1 request dialing route now result.0 }
{
    if !dialing.may_go_elsewhere(now) {
        return (EndpointSide::Dialing(request, dialing), false);
    }
    let terms = Terms {
        port: route.port,
        persistence: route.persistence,
        ..dialing.terms()
    };
    let Ok(front) = request_front(alloc, &request, terms) else {
        return (EndpointSide::Dialing(request, dialing), false);
    };
    (
        EndpointSide::Dialing(request, dialing.dial_elsewhere((front, terms), now)),
        true,
    )
}

/// A request that is dialled for, on a connection if it takes it, and whether it does.
fn begin(request: Request, dialing: DialingRequest, is_kept: bool, now: u64) -> (EndpointSide, bool)
    ensures taken { result.1 ≡ takes_connection is_kept (side.Dialing request dialing) }
    ensures side { result.0 ≡ begins result.1 is_kept now (side.Dialing request dialing) }
{
    if !is_kept {
        return (EndpointSide::Forwarding(request, dialing.on_new(now)), true);
    }
    if dialing.is_unsent() {
        return (
            EndpointSide::Forwarding(request, dialing.on_kept(now)),
            true,
        );
    }
    (EndpointSide::Dialing(request, dialing), false)
}
