//! Clients and endpoints that behave well and badly, both played by lists of events at given moments.

mod clients;
mod elsewhere;
mod endpoints;
mod kept;
mod large_bodies;
mod pages;
mod streaming;
mod upgrades;

use crate::both_sides::BothSides;
use crate::endpoint_step::{EndpointStep, Given};
use crate::route::Route;
use crate::stream_limits::StreamLimits;
use crate::upgrading::Upgraded;
use bg_client_side::ClientSettings;
use bg_endpoint_side::{DialFault, GivingUp, Timeouts};
use bg_http::{Persistence, RefusalBody};
use std::alloc::{AllocError, Global};

/// A client's connection is kept for three requests.
const SETTINGS: ClientSettings = ClientSettings {
    persistence: Persistence::Keep,
    most_requests: 3,
    request_millis: 10_000,
    idle_millis: 60_000,
    refusal_body: RefusalBody::Empty,
    keeps_arriving: false,
};

const ROUTE: Route = Route {
    port: 8081,
    persistence: Persistence::Keep,
    timeouts: Timeouts {
        response: 60_000,
        idle: 30_000,
    },
    upgrades: false,
};

/// Few bytes of a body are held at a time.
const LIMITS: StreamLimits = StreamLimits {
    window: 4,
    most_body: usize::MAX,
};

/// What happens on the two connections, at a moment in milliseconds.
enum Event {
    /// Bytes came from the client.
    Came(&'static [u8], u64),
    /// The client took so many bytes of its answer.
    Took(usize, u64),
    ClientEnded,
    ClientFailed,
    Closing,
    Enter,
    Refuse(u64),
    Dial(u64),
    /// The endpoint is dialled, and an upgrade may be passed on.
    DialToUpgrade(u64),
    /// Another endpoint, at this port, is dialled.
    DialElsewhere(u16, u64),
    OnNew(u64),
    OnKept(u64),
    /// A connection, which was kept or is new, takes the request, and its response is passed on.
    Streamed(bool, u64),
    DialFailed(DialFault, u64),
    /// The endpoint took so many bytes of the request.
    EndpointTook(usize, u64),
    ReadsNoMore(u64),
    Ending,
    /// Bytes came from the endpoint.
    Gave(&'static [u8], u64),
    EndpointEnded(u64),
    EndpointFailed(u64),
    Late(u64),
    GiveUp(GivingUp, u64),
}

/// The two sides of one client's connection, as the events make them.
#[derive(Drop)]
struct World {
    sides: BothSides,
    /// What was written to the client.
    to_client: Vec<u8>,
    /// What was written to endpoints, with a mark where a connection is taken, goes back, or is closed.
    to_endpoint: Vec<u8>,
}

impl World {
    fn new(alloc: Global, settings: ClientSettings) -> World {
        World {
            sides: BothSides::new(alloc, settings, 0),
            to_client: Vec::new(alloc),
            to_endpoint: Vec::new(alloc),
        }
    }

    /// What was written to the client, and to endpoints.
    fn into_written(self) -> (Vec<u8>, Vec<u8>) {
        let World {
            sides: _,
            to_client,
            to_endpoint,
        } = self;
        (to_client, to_endpoint)
    }

    fn carry_out(&mut self, event: &Event) -> Result<(), AllocError> {
        match event {
            Event::Came(bytes, now) => {
                self.sides.feed(bytes, *now);
                Ok(())
            }
            Event::Took(count, now) => self.client_took(*count, *now),
            Event::ClientEnded => {
                self.sides.end_input();
                Ok(())
            }
            Event::ClientFailed => {
                self.sides.fail();
                Ok(())
            }
            Event::Closing => {
                self.sides.begin_closing();
                Ok(())
            }
            Event::Enter => {
                self.sides.enter();
                Ok(())
            }
            Event::Refuse(now) => {
                self.sides.refuse(*now);
                Ok(())
            }
            Event::Dial(now) => {
                self.sides.dial(ROUTE, *now);
                Ok(())
            }
            Event::DialToUpgrade(now) => {
                self.sides.dial(
                    Route {
                        upgrades: true,
                        ..ROUTE
                    },
                    *now,
                );
                Ok(())
            }
            Event::DialElsewhere(port, now) => {
                self.sides.dial(
                    Route {
                        port: *port,
                        ..ROUTE
                    },
                    *now,
                );
                Ok(())
            }
            _ => self.at_endpoint(event),
        }
    }

    /// Carries out an event on the endpoint's connection.
    fn at_endpoint(&mut self, event: &Event) -> Result<(), AllocError> {
        let had = self.sides.has_connection();
        let step = match event {
            Event::OnNew(now) => return self.connect(false, *now, b"[new]"),
            Event::OnKept(now) => return self.connect(true, *now, b"[kept]"),
            Event::Streamed(is_kept, now) => return self.connect_streamed(*is_kept, *now),
            Event::EndpointTook(count, now) => return self.endpoint_took(*count, *now),
            Event::ReadsNoMore(now) => {
                self.sides.endpoint_reads_no_more(*now);
                EndpointStep::GoesOn
            }
            Event::Ending => {
                self.sides.endpoint_is_ending();
                EndpointStep::GoesOn
            }
            Event::DialFailed(why, now) => self.sides.dial_failed(*why, *now),
            Event::Gave(bytes, now) => match self.sides.accept_upgrade(bytes, *now) {
                Some(upgraded) => return self.begin_tunnel(upgraded),
                None => self.sides.receive(bytes, *now),
            },
            Event::EndpointEnded(now) => self.sides.endpoint_ended(*now),
            Event::EndpointFailed(now) => self.sides.endpoint_failed(*now),
            Event::Late(now) => self.sides.look_at_endpoint(*now),
            Event::GiveUp(why, now) => self.sides.give_up(*why, *now),
            _ => EndpointStep::NotThere,
        };
        if had {
            return self.note(step);
        }
        Ok(())
    }

    /// Marks what becomes of the connection to an endpoint.
    fn note(&mut self, step: EndpointStep) -> Result<(), AllocError> {
        let mark: &[u8] = match step {
            EndpointStep::NotThere | EndpointStep::GoesOn => b"",
            EndpointStep::DialsAgain => b"[again]",
            EndpointStep::Answered(ending) => match ending.given {
                Given::Cut(_) => b"[cut]",
                _ if ending.goes_back => b"[back]",
                _ => b"[closed]",
            },
        };
        self.to_endpoint.extend_from_slice(mark)
    }

    /// Both connections become a tunnel, which takes what it begins with.
    fn begin_tunnel(&mut self, upgraded: Upgraded) -> Result<(), AllocError> {
        self.to_endpoint.extend_from_slice(b"[tunnel]")?;
        self.to_endpoint.extend_from_slice(&upgraded.for_endpoint)?;
        self.to_client.extend_from_slice(&upgraded.for_client)
    }

    fn connect(&mut self, is_kept: bool, now: u64, mark: &[u8]) -> Result<(), AllocError> {
        if self.sides.connect(is_kept, now) {
            return self.to_endpoint.extend_from_slice(mark);
        }
        Ok(())
    }

    fn connect_streamed(&mut self, is_kept: bool, now: u64) -> Result<(), AllocError> {
        if self.sides.connect_streamed(is_kept, LIMITS, now) {
            return self.to_endpoint.extend_from_slice(b"[streamed]");
        }
        Ok(())
    }

    /// The client took so many bytes of a response that is passed on.
    fn client_took_part(&mut self, count: usize, now: u64) -> Result<(), AllocError> {
        let rest = self.sides.rest_to_client();
        let count = count.min(rest.len());
        self.to_client.extend_from_slice(&rest[..count])?;
        let step = self.sides.client_took(count, now);
        self.note(step)
    }

    fn client_took(&mut self, count: usize, now: u64) -> Result<(), AllocError> {
        if self.sides.client().is_passing_on() {
            return self.client_took_part(count, now);
        }
        let rest = self.sides.client().rest();
        let count = count.min(rest.len());
        self.to_client.extend_from_slice(&rest[..count])?;
        self.sides.wrote(count, now);
        Ok(())
    }

    fn endpoint_took(&mut self, count: usize, now: u64) -> Result<(), AllocError> {
        let rest = self.sides.piece_to_endpoint();
        let count = count.min(rest.len());
        self.to_endpoint.extend_from_slice(&rest[..count])?;
        self.sides.endpoint_wrote(count, now);
        Ok(())
    }
}

/// Where a client's connection is after its events.
#[derive(Clone, Copy, PartialEq, Eq, Debug, Drop)]
enum Where {
    Idle,
    Inside,
    AtEndpoint,
    Left,
    Elsewhere,
}

fn where_of(sides: &BothSides) -> Where {
    if sides.has_connection() {
        Where::AtEndpoint
    } else if sides.client().is_inside() {
        Where::Inside
    } else if sides.client().is_idle() {
        Where::Idle
    } else if sides.client().has_left() {
        Where::Left
    } else {
        Where::Elsewhere
    }
}

/// A list of events, and what they lead to.
struct Attack {
    name: &'static str,
    events: &'static [Event],
    to_client: &'static [u8],
    to_endpoint: &'static [u8],
    ends: Where,
}

/// What an attack leads to that does not lead where it should.
#[derive(Drop, Debug, PartialEq, Eq)]
struct Wrong {
    name: &'static str,
    to_client: Vec<u8>,
    to_endpoint: Vec<u8>,
    ends: Where,
}

/// The first attack that does not lead where it should, and where it leads.
fn first_wrong(
    alloc: Global,
    settings: ClientSettings,
    attacks: &[Attack],
) -> Result<Option<Wrong>, AllocError> {
    for attack in attacks {
        let mut world = World::new(alloc, settings);
        for event in attack.events {
            world.carry_out(event)?;
        }
        let ends = where_of(&world.sides);
        let (to_client, to_endpoint) = world.into_written();
        if to_client.as_slice() != attack.to_client
            || to_endpoint.as_slice() != attack.to_endpoint
            || ends != attack.ends
        {
            return Ok(Some(Wrong {
                name: attack.name,
                to_client,
                to_endpoint,
                ends,
            }));
        }
    }
    Ok(None)
}

/// All of what is left.
const ALL: usize = 65_536;

const GET: &[u8] = b"GET /a HTTP/1.1\r\nHost: x\r\n\r\n";

const POST: &[u8] = b"POST /p HTTP/1.1\r\nHost: x\r\nContent-Length: 2\r\n\r\nab";

const OK: &[u8] = b"HTTP/1.1 200 OK\r\nContent-Length: 2\r\n\r\nok";

const REFUSED_502: &[u8] =
    b"HTTP/1.1 502 Bad Gateway\r\nContent-Length: 0\r\nConnection: close\r\n\r\n";

const REFUSED_503: &[u8] =
    b"HTTP/1.1 503 Service Unavailable\r\nContent-Length: 0\r\nConnection: close\r\n\r\n";
