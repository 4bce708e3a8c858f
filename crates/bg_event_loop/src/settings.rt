//! The settings of an event loop.
ghost use Rattle.std.specs.Prelude.{◌≡◌, None, false, true};
ghost use Rattle.bg_event_loop.specs.Addresses.{IsLocalhost};
ghost use Rattle.bg_http.specs.Persistences.{keeps};
ghost use Rattle.bg_http.specs.declared.refusal.RefusalBody.TheVariants as body;

use bg_both_sides::StreamLimits;
use bg_client_side::ClientSettings;
use bg_endpoint_side::Timeouts;
use bg_http::{Persistence, RefusalBody};
use bg_load::LoadSettings;
use bg_revisions::Service;
use std::net::{IpAddr, Ipv4Addr};

/// The limits of requests that are passed on before they are whole.
#[derive(Clone, Copy, Drop)]
pub struct UploadSettings {
    /// The most bytes of a request that are held before it is passed on.
    pub most_held: usize,
    /// The most bytes of its body, those of one in chunks with its chunk lines and trailers.
    pub most_body: usize,
    /// Bytes of it are taken while fewer bytes of it are to be written to the endpoint; so are bytes of its response.
    pub window: usize,
    /// The most bytes of the body of its response, counted in the same way.
    pub most_response: usize,
}

/// The settings of the connections to endpoints. Times are milliseconds.
#[derive(Clone, Copy, Drop)]
pub struct EndpointSettings {
    /// The address at which their ports are.
    pub address: IpAddr,
    /// Whether a connection is kept for further requests.
    pub persistence: Persistence,
    /// The timeouts of a request.
    pub timeouts: Timeouts,
    /// The most connections that no request is on.
    pub most_kept: usize,
    /// The time for which no request may be on a connection.
    pub kept_millis: u64,
    /// The limits of responses that are passed on as they come; `None` if a response is passed on once it is whole.
    pub stream: Option<StreamLimits>,
    /// The limits of requests that are passed on before they are whole; `None` if each request is held until it is whole.
    pub uploads: Option<UploadSettings>,
    /// The time for which a tunnel may be silent; `None` if a request that asks for an upgrade is forwarded as one that does not.
    pub tunnel_millis: Option<u64>,
}

/// How long connections are kept for further requests. Times are milliseconds.
#[derive(Clone, Copy, Drop)]
pub struct KeptSettings {
    /// The most requests of a client's connection. A connection has at least one.
    pub most_requests: u64,
    /// The time for which a client's connection may be idle.
    pub client_millis: u64,
    /// The most connections to endpoints that no request is on.
    pub most_endpoints: usize,
    /// The time for which no request may be on a connection to an endpoint.
    pub endpoint_millis: u64,
}

/// How requests tell their endpoints where they come from (RFC 7239).
#[derive(Clone, Copy, Drop)]
pub struct OriginSettings {
    /// Whether clients are trusted: they are proxies, whose own fields of this kind go on.
    pub trusts_clients: bool,
    /// The first half of the ids that requests get, which differs from run to run of the program.
    pub run: u64,
    /// What is added to the number of a request in the book, in its id.
    pub number_offset: u64,
}

/// The settings of an event loop.
#[derive(Clone, Copy, Drop)]
pub struct LoopSettings {
    /// The service that its clients ask for.
    pub service: Service,
    pub clients: ClientSettings,
    pub endpoints: EndpointSettings,
    /// How requests tell their endpoints where they come from; `None` if they do not.
    pub origin: Option<OriginSettings>,
    /// The bounds on its connections and on what they take.
    pub loads: LoadSettings,
    /// The most requests that may wait for a seat. Each further one is refused with 503.
    pub most_waiting: usize,
    /// Whether a request that is inside is given up if its client has ended its input.
    pub aborts_on_close: bool,
    /// Whether the book limits how long requests drain (`drainLimitSeconds`). The gate is asked only then whether a request goes
    /// on: without a limit, each does.
    pub limits_drains: bool,
    /// The time, in milliseconds, for which a shutdown keeps connections of which no byte came.
    pub grace_millis: u64,
    /// The time, in milliseconds, after which a shutdown closes the connections that are left.
    pub closing_millis: u64,
}

impl LoopSettings {
    /// The usual settings: endpoints are at 127.0.0.1, each connection, of either side, carries one request, a response is passed on
    /// once it is whole, and so is a request, no upgrade is passed on, a request does not tell where it comes from, a refusal has an
    /// empty body, and the gate is asked whether requests go on.
    pub fn usual(service: Service) -> LoopSettings
        ensures service { result.service ≡ service }
        ensures clients { keeps result.clients.persistence ≡ false }
        ensures endpoints { keeps result.endpoints.persistence ≡ false }
        ensures address { IsLocalhost result.endpoints.address }
        ensures stream { result.endpoints.stream ≡ None }
        ensures uploads { result.endpoints.uploads ≡ None }
        ensures arriving { result.clients.keeps_arriving ≡ false }
        ensures tunnels { result.endpoints.tunnel_millis ≡ None }
        ensures origin { result.origin ≡ None }
        ensures refusals { result.clients.refusal_body ≡ body.Empty }
        ensures drains { result.limits_drains ≡ true }
    {
        LoopSettings {
            service,
            clients: ClientSettings {
                persistence: Persistence::Close,
                most_requests: 1_000,
                request_millis: 60_000,
                idle_millis: 75_000,
                refusal_body: RefusalBody::Empty,
                keeps_arriving: false,
            },
            endpoints: EndpointSettings {
                address: IpAddr::V4(Ipv4Addr::LOCALHOST),
                persistence: Persistence::Close,
                timeouts: Timeouts {
                    response: 60_000,
                    idle: 30_000,
                },
                most_kept: 1_024,
                kept_millis: 60_000,
                stream: None,
                uploads: None,
                tunnel_millis: None,
            },
            origin: None,
            loads: LoadSettings {
                loops: 1,
                connections: 1_024,
                request_bytes: 1 << 27,
                response_bytes: 1 << 29,
            },
            most_waiting: 1_024,
            aborts_on_close: false,
            limits_drains: true,
            grace_millis: 1_000,
            closing_millis: 60_000,
        }
    }

    /// The same with refusals that have this as their bodies.
    pub fn with_refusal_body(self, refusal_body: RefusalBody) -> LoopSettings
        ensures { result ≡ record self { clients = record self.clients { refusal_body = refusal_body } } }
    {
        LoopSettings {
            clients: ClientSettings {
                refusal_body,
                ..self.clients
            },
            ..self
        }
    }

    /// The same with connections of both sides that are kept.
    pub fn with_kept_connections(self, kept: KeptSettings) -> LoopSettings
        ensures clients { keeps result.clients.persistence ≡ true }
        ensures endpoints { keeps result.endpoints.persistence ≡ true }
        ensures others { result ≡ record self {
          clients = record self.clients {
            persistence = result.clients.persistence;
            most_requests = kept.most_requests;
            idle_millis = kept.client_millis;
          };
          endpoints = record self.endpoints {
            persistence = result.endpoints.persistence;
            most_kept = kept.most_endpoints;
            kept_millis = kept.endpoint_millis;
          };
        } }
    {
        LoopSettings {
            clients: ClientSettings {
                persistence: Persistence::Keep,
                most_requests: kept.most_requests,
                idle_millis: kept.client_millis,
                ..self.clients
            },
            endpoints: EndpointSettings {
                persistence: Persistence::Keep,
                most_kept: kept.most_endpoints,
                kept_millis: kept.endpoint_millis,
                ..self.endpoints
            },
            ..self
        }
    }
}
