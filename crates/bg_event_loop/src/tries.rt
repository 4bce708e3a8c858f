//! The ports that are dialled for one request.
ghost use Rattle.std.specs.Prelude.{◌≡◌, ◌+◌, ◌-◌, ◌^◌, [], Some, false, if◌then◌else◌, length, min, unwrap_or};
ghost use Rattle.bg_event_loop.specs.Tries.{TriesNext, tried};

use crate::endpoint_ports::EndpointPorts;
use bg_endpoint_side::{DialFault, Health};
use bg_forward::Route;
use std::alloc::Global;

/// The ports that were chosen for a request, one after the other.
#[derive(Drop)]
pub(crate) struct Tries {
    /// The port of the request's ticket.
    ticket: u16,
    /// The ports whose dials have failed, in their order.
    failed: Vec<u16>,
    /// The port that was chosen last.
    port: u16,
    /// Whether the request is counted at that port still.
    is_counted: bool,
    /// Why the first dial failed.
    fault: Option<DialFault>,
}

impl Tries {
    /// The first choice for the port of a ticket, at which a request is counted.
    pub(crate) fn begin<P: EndpointPorts>(alloc: Global, ports: &P, ticket: u16) -> Tries
        ensures follows { P.follows ports.now ticket [] result.port }
        ensures tried { (result.ticket ≡ ticket) × (result.failed.items ≡ []) }
    {
        match ports.choose(ticket, &[]) {
            Some(port) => Tries {
                ticket,
                failed: Vec::new(alloc),
                port,
                is_counted: true,
                fault: None,
            },
            None => unreachable!(),
        }
    }

    /// The port that was chosen last.
    pub(crate) fn port(&self) -> u16
        ensures { result ≡ self.now.port }
    {
        self.port
    }

    /// The port that was chosen last, and the number of ports that were chosen.
    pub(crate) fn route(&self) -> Route
        ensures port { result.port ≡ self.now.port }
        ensures tries { result.tries ≡ min (1 + length self.now.failed.items) (2 ^ 32 - 1) }
    {
        Route {
            port: self.port,
            tries: u32::try_from(self.failed.len())
                .unwrap_or(u32::MAX)
                .saturating_add(1),
        }
    }

    /// Chooses the port that is dialled next, since the dial of the last one failed, and counts the request there. Gives
    /// whether there is one; otherwise the ports stay: none is left, or there is no memory for the list.
    pub(crate) fn choose_next<P: EndpointPorts>(&mut self, ports: &P) -> bool
        ensures { TriesNext (P.follows ports.now self.old.ticket) self.old result self.new }
    {
        if self.failed.push(self.port).is_err() {
            return false;
        }
        match ports.choose(self.ticket, &self.failed) {
            Some(port) => {
                self.port = port;
                self.is_counted = true;
                true
            }
            None => {
                self.failed.pop();
                false
            }
        }
    }

    /// The request is at the last port no longer, which took it so.
    pub(crate) fn leave<P: EndpointPorts>(&mut self, ports: &P, health: Health)
        ensures tried { tried self.new ≡ tried self.old }
        ensures fault { self.new.fault ≡ self.old.fault }
        ensures counted { self.new.is_counted ≡ false }
    {
        if self.is_counted {
            self.is_counted = false;
            ports.leave(self.port, health);
        }
    }

    /// The dial of the last port failed.
    pub(crate) fn end_dial<P: EndpointPorts>(&mut self, ports: &P, fault: DialFault)
        ensures tried { tried self.new ≡ tried self.old }
        ensures fault { self.new.fault ≡ Some (unwrap_or self.old.fault fault) }
    {
        self.leave(ports, health_of(fault));
        if self.fault.is_none() {
            self.fault = Some(fault);
        }
    }

    /// Why the first dial failed, if the last one failed by this fault.
    pub(crate) fn first_fault(&self, last: DialFault) -> DialFault
        ensures { result ≡ unwrap_or self.now.fault last }
    {
        self.fault.unwrap_or(last)
    }
}

/// What a failed dial tells of a port.
fn health_of(fault: DialFault) -> Health {
    match fault {
        DialFault::Failed | DialFault::TimedOut => Health::Fails,
        DialFault::NoSocket => Health::Unknown,
    }
}
