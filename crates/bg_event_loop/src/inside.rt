//! What becomes of requests that have entered.

use crate::endpoint_ports::EndpointPorts;
use crate::event_loop::EventLoop;
use crate::moments::has_come;
use crate::outcome::Cause;
use crate::request_log::RequestLog;
use bg_book::Ticket;
use bg_client_side::{Entered, Fed};
use bg_forward::Reason;

impl<'a, P: EndpointPorts, L: RequestLog> EventLoop<'a, P, L> {
    /// Begins to forward the request of a client, if it has a ticket. Otherwise the client is refused, and the seat is free,
    /// which is given.
    pub(crate) fn begin(
        &mut self,
        entered: Entered,
        ticket: Result<Ticket, Reason>,
    ) -> Option<usize> {
        self.make_due(entered.key);
        match self.forward_with(entered, ticket) {
            Ok(()) => None,
            Err(fed) => {
                self.queue.leave(entered.seat);
                self.note_fed(entered.key, fed);
                Some(entered.seat)
            }
        }
    }

    /// Begins to forward the request of a client. The error is what the answer to a refused request made of its connection.
    fn forward_with(
        &mut self,
        entered: Entered,
        ticket: Result<Ticket, Reason>,
    ) -> Result<(), Fed> {
        let Some(client) = self.clients.get_mut(entered.key) else {
            return Err(Fed::NotReading);
        };
        client.sides.enter();
        let why = match ticket {
            Ok(ticket) => {
                client.record.note_entered(ticket, self.now);
                let tells = client.tell_origin(self.alloc, self.settings.origin, ticket.number);
                if tells && self.endpoints.dials_for(client, ticket.port, self.now) {
                    client.seat = Some(entered.seat);
                    self.endpoints.begin(client, entered.key, self.now);
                    return Ok(());
                }
                Reason::Memory
            }
            Err(why) => why,
        };
        client.refuse_entered(self.now);
        Err(client.end_request(self.log, Cause::Refused(why), self.now))
    }

    /// The seat of the request that a client has inside.
    pub(crate) fn seat_of(&self, key: usize) -> Option<usize> {
        self.clients.get(key)?.seat
    }

    /// Makes the steps that are due of a request that is inside, and ends it if it is given up or a timeout of it has
    /// passed. Gives its seat if it is over.
    pub(crate) fn serve_inside(&mut self, key: usize, is_given_up: bool) -> Option<usize> {
        let client = self.clients.get_mut(key)?;
        if client.seat.is_none() {
            return None;
        }
        if client.tunnel.is_some() {
            return self.serve_tunnel(key, is_given_up);
        }
        if client.passes_request_on() {
            return self.serve_upload(key, is_given_up);
        }
        // at the end of a shutdown, what is passed on is cut
        let is_cut = has_come(self.closes_at, self.now) && client.sides.client().is_passing_on();
        let aborts_on_close = self.settings.aborts_on_close;
        if let Some(why) = client.why_given_up(is_given_up || is_cut, aborts_on_close) {
            self.endpoints.give_up(client, key, why, self.now);
        } else {
            let piece = self.piece.as_mut_slice();
            self.endpoints.forward(client, key, piece, self.now);
            self.endpoints.look(client, key, self.now);
        }
        if client.tunnel.is_some() {
            return self.serve_tunnel(key, is_given_up);
        }
        if client.passes_request_on() {
            return self.serve_upload(key, is_given_up);
        }
        if client.sides.client().is_inside() {
            if self.endpoints.is_due(client) {
                // others have their turn
                self.make_due(key);
            }
            return None;
        }
        self.finish(key)
    }

    /// Writes what a client takes at once of the answer to a request that is over, logs the request, and frees its seat, which
    /// is given.
    fn finish(&mut self, key: usize) -> Option<usize> {
        let client = self.clients.get_mut(key)?;
        let seat = client.seat.take()?;
        let cause = match client.given.take() {
            Some(given) => Cause::Given(given),
            None => Cause::Refused(Reason::Memory),
        };
        let fed = client.end_request(self.log, cause, self.now);
        self.queue.leave(seat);
        self.note_fed(key, fed);
        Some(seat)
    }
}
