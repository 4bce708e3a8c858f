//! How the request of a client is forwarded to its endpoint.
ghost use Rattle.std.specs.Prelude.{◌≡◌, is_some};

use crate::client::Client;
use crate::endpoint::Progress;
use crate::endpoint_ports::EndpointPorts;
use crate::endpoints::Endpoints;
use crate::settings::EndpointSettings;
use crate::sockets::reset;
use crate::tries::Tries;
use bg_both_sides::{Ending, EndpointStep, Given, Route, Upgraded};
use bg_endpoint_side::{DialFault, GivingUp, Health};

/// The number of steps in a row before others have their turn.
const STEPS_A_TURN: u32 = 16;

/// The maximum number of ports that are dialled for a request.
const MOST_TRIES: u32 = 65_535;

impl<P: EndpointPorts> Endpoints<'_, P> {
    /// How a request is forwarded to the endpoint at this port.
    pub(crate) fn route_to(&self, port: u16) -> Route
        ensures { result ≡ record {
          port = port;
          persistence = self.now.settings.persistence;
          timeouts = self.now.settings.timeouts;
          upgrades = is_some self.now.settings.tunnel_millis;
        } }
    {
        let EndpointSettings {
            persistence,
            timeouts,
            tunnel_millis,
            ..
        } = self.settings();
        Route {
            port,
            persistence,
            timeouts,
            upgrades: tunnel_millis.is_some(),
        }
    }

    /// Chooses the port at which the request of a client is dialled that has a ticket of this port. Gives whether it is: there
    /// was memory for its text.
    pub(crate) fn dials_for(&self, client: &mut Client, ticket: u16, now: u64) -> bool {
        let mut tries = Tries::begin(self.alloc, self.ports, ticket);
        let dials = client.sides.dial(self.route_to(tries.port()), now);
        if !dials {
            tries.leave(self.ports, Health::Unknown);
        }
        client.tries = Some(tries);
        dials
    }

    /// Takes a kept connection for the request of a client that is dialled for, or dials: the port that was chosen last, and
    /// then the next ones, until a dial has begun. The request is over if none begins.
    pub(crate) fn begin(&mut self, client: &mut Client, key: usize, now: u64) {
        for _ in 0..MOST_TRIES {
            let Some(port) = client.port() else {
                return;
            };
            // a large request cannot be repeated, so it takes no connection that its endpoint may have closed meanwhile
            if client.held.is_none() && self.takes_kept(client, key, port, now) {
                return;
            }
            match self.dial(port, key) {
                Ok(dialled) => {
                    client.endpoint = Some(dialled);
                    return;
                }
                Err(fault) => {
                    if !self.goes_elsewhere(client, fault, now) {
                        return;
                    }
                }
            }
        }
    }

    /// Takes a kept connection for the request of a client. Gives whether there is one.
    fn takes_kept(&mut self, client: &mut Client, key: usize, port: u16, now: u64) -> bool {
        let Some(kept) = self.take_kept(port, key) else {
            return false;
        };
        let is_taken = self.connect(client, true, now);
        if is_taken {
            client.endpoint = Some(kept);
        } else {
            self.close(kept);
        }
        is_taken
    }

    /// Notes that a connection to an endpoint is there for the request of a client: one that was kept, or a new one. Gives whether it
    /// belongs to the request from now on. Without memory for a response that is passed on as it comes, the response is passed on once
    /// it is whole.
    fn connect(&self, client: &mut Client, is_kept: bool, now: u64) -> bool {
        let streams = match self.settings().stream {
            Some(limits) => client.sides.connect_streamed(is_kept, limits, now),
            None => false,
        };
        if streams && let Some(request) = client.sides.request() {
            client.needs_reset = request.minor == 0;
        }
        let is_taken = streams || client.sides.connect(is_kept, now);
        if is_taken {
            client.record.note_connected(is_kept);
        }
        is_taken
    }

    /// The dial for the request of a client has failed: has the next port dialled, or ends the request if none is left. Gives
    /// whether one is.
    fn goes_elsewhere(&mut self, client: &mut Client, fault: DialFault, now: u64) -> bool {
        let Some(tries) = &mut client.tries else {
            return false;
        };
        tries.end_dial(self.ports, fault);
        let may_go = !matches!(fault, DialFault::NoSocket) && client.sides.may_go_elsewhere(now);
        if may_go && tries.choose_next(self.ports) {
            if client.sides.dial(self.route_to(tries.port()), now) {
                return true;
            }
            tries.leave(self.ports, Health::Unknown);
        }
        let why = tries.first_fault(fault);
        if let EndpointStep::Answered(ending) = client.sides.dial_failed(why, now) {
            self.end(ending, client, now);
        }
        false
    }

    /// The dial for the request of a client has failed: closes its socket, and begins with the next port.
    fn fail_dial(&mut self, client: &mut Client, key: usize, fault: DialFault, now: u64) {
        self.close_used_by(client);
        if self.goes_elsewhere(client, fault, now) {
            self.begin(client, key, now);
        }
    }

    /// Closes the connection of the request of a client, and dials its endpoint again.
    fn dial_again(&mut self, client: &mut Client, key: usize, now: u64) {
        let dialled = match self.close_used_by(client) {
            Some(port) => self.dial(port, key),
            None => Err(DialFault::NoSocket),
        };
        match dialled {
            Ok(dialled) => client.endpoint = Some(dialled),
            Err(fault) => {
                self.goes_elsewhere(client, fault, now);
            }
        }
    }

    /// Makes the steps of the request of a client that are due.
    pub(crate) fn forward(&mut self, client: &mut Client, key: usize, piece: &mut [u8], now: u64) {
        for _ in 0..STEPS_A_TURN {
            if client.passes_request_on() || !self.is_due(client) {
                return;
            }
            match self.step(client, key, piece, now) {
                Progress::Step(step) => self.carry_out(step, client, key, now),
                Progress::Upgraded(upgraded) => {
                    self.begin_tunnel(client, upgraded, now);
                    return;
                }
            }
        }
    }

    /// Begins the tunnel that the request of a client became.
    fn begin_tunnel(&self, client: &mut Client, upgraded: Upgraded, now: u64) {
        // a request asks for an upgrade only with such a time
        let millis = self.settings().tunnel_millis.unwrap_or(0);
        client.begin_tunnel(self.alloc, upgraded, millis, now);
    }

    /// Whether a step of the request of a client is due that waits for nothing.
    pub(crate) fn is_due(&self, client: &Client) -> bool {
        client.may_pass_on() || self.is_endpoint_due(client)
    }

    /// Whether a step of the request of a client is due at its endpoint.
    fn is_endpoint_due(&self, client: &Client) -> bool {
        let Some(key) = client.endpoint else {
            return false;
        };
        match self.get(key) {
            Some(endpoint) if client.sides.has_connection() => endpoint.is_due(&client.sides),
            Some(endpoint) => endpoint.ready.output || endpoint.ready.reset,
            None => true,
        }
    }

    /// Writes bytes of a response that is passed on, ends the dial for a request, or writes or reads on its connection.
    fn step(&mut self, client: &mut Client, key: usize, piece: &mut [u8], now: u64) -> Progress {
        if client.may_pass_on() {
            return Progress::Step(client.pass_on(now));
        }
        if !client.sides.has_connection() {
            self.end_dial(client, key, now);
            return Progress::Step(EndpointStep::GoesOn);
        }
        match self.used_by(client) {
            Some(endpoint) => endpoint.serve(&mut client.sides, piece, now),
            None => Progress::Step(client.sides.endpoint_failed(now)),
        }
    }

    /// The dial for a request is complete, or has failed.
    fn end_dial(&mut self, client: &mut Client, key: usize, now: u64) {
        match self.used_by(client) {
            Some(endpoint) if !endpoint.ready.reset => {
                if client.held.is_some() {
                    self.begin_upload(client, now);
                } else {
                    self.connect(client, false, now);
                }
            }
            _ => self.fail_dial(client, key, DialFault::Failed, now),
        }
    }

    /// Carries out what an event made of the request of a client: its connection is closed and another one is dialled,
    /// or it is over.
    fn carry_out(&mut self, step: EndpointStep, client: &mut Client, key: usize, now: u64) {
        match step {
            EndpointStep::NotThere | EndpointStep::GoesOn => {}
            EndpointStep::DialsAgain => self.dial_again(client, key, now),
            EndpointStep::Answered(ending) => self.end(ending, client, now),
        }
    }

    /// The request of a client is over: its connection is kept or closed, and it is counted at its port no longer.
    fn end(&mut self, ending: Ending, client: &mut Client, now: u64) {
        if let Some(used) = client.endpoint.take() {
            self.end_use(used, ending.goes_back, now);
        }
        if let Some(tries) = &mut client.tries {
            tries.leave(self.ports, ending.health);
        }
        if client.needs_reset && matches!(ending.given, Given::Cut(_)) {
            reset(&client.stream);
        }
        client.given = Some(ending.given);
    }

    /// Ends the request of a client of which a timeout has passed. If it is that of a dial, the next port is dialled.
    pub(crate) fn look(&mut self, client: &mut Client, key: usize, now: u64) {
        if client.sides.is_dial_late(now) {
            self.fail_dial(client, key, DialFault::TimedOut, now);
            return;
        }
        let step = client.sides.look_at_endpoint(now);
        self.carry_out(step, client, key, now);
    }

    /// Gives the request of a client up.
    pub(crate) fn give_up(&mut self, client: &mut Client, key: usize, why: GivingUp, now: u64) {
        let step = client.sides.give_up(why, now);
        self.carry_out(step, client, key, now);
    }
}
