//! The ports at which the requests of a book are dialled.
ghost use Rattle.std.specs.Prelude.{◌≡◌, ◌≢◌, ◌==◌, [], IfNone, IfSome};
ghost use Rattle.std.specs.List.{list_any};
ghost use Rattle.bg_event_loop.specs.LivePorts.{has_live_port, is_live, is_live_at};

use crate::endpoint_ports::EndpointPorts;
use bg_book::{Book, Desk, Question};
use bg_endpoint_side::Health;
use bg_endpoints::{Directory, OwnPorts};
use bg_ledger::Names;
use bg_revisions::Revision;
use std::sync::Wait;
use std::time::Clock;

/// The ports at which the requests of a book are dialled.
///
/// By a directory, a request whose endpoint cannot be connected to is dialled at another endpoint of its revision. Each
/// port learns by it how it took a request. Without a directory, a request is dialled at the port of its ticket alone.
#[derive(Drop)]
pub struct BookPorts<'a, N: Names, R: Wait> {
    /// The handle for the clock, and for the locks of the desk and of the directory.
    pub rt: &'a R,
    /// The desk of the book: it is asked which ports are live.
    pub desk: &'a Desk<N>,
    pub directory: Option<&'a Directory>,
    /// The ports of the switch itself.
    pub own: OwnPorts,
}

impl<N: Names, R: Clock + Wait> EndpointPorts for BookPorts<'_, N, R> {
    ghost use Rattle.bg_endpoints.specs.OwnPorts.{is_own};
    ghost use Rattle.bg_endpoints.specs.Routing.{IsNextPort};
    ghost use Rattle.bg_event_loop.specs.LivePorts.{IsToldLive};

    ghost follows = { λ ports. IsNextPort ports.directory };

    ghost own = { λ ports. is_own ports.own };

    ghost lives = { λ _. IsToldLive };

    fn choose(&self, ticket: u16, tried: &[u16]) -> Option<u16> {
        match self.directory {
            Some(directory) => directory.begin(self.rt, ticket, tried),
            None => first_alone(ticket, tried),
        }
    }

    fn leave(&self, port: u16, health: Health) {
        if let Some(directory) = self.directory {
            directory.end(self.rt, port, health);
        }
    }

    fn is_own(&self, port: u16) -> bool {
        self.own.is_own(port)
    }

    fn is_live(&self, port: u16) -> bool {
        self.desk.look(self.rt, HasLive { port })
    }
}

/// The ticket's port, if none was tried.
fn first_alone(ticket: u16, tried: &[u16]) -> Option<u16>
    ensures port { IfSome result (λ port. port ≡ ticket) }
    ensures first { IfSome result (λ _. tried.now ≡ []) }
    ensures left { IfNone result (tried.now ≢ []) }
{
    if tried.is_empty() { Some(ticket) } else { None }
}

/// Asks whether a revision that is not scaled down has a port.
#[derive(Drop)]
struct HasLive {
    port: u16,
}

impl Question<bool> for HasLive {
    ghost use Rattle.std.specs.Prelude.{◌≡◌};
    ghost use Rattle.bg_event_loop.specs.LivePorts.{is_live};

    ghost gives = { λ question book answer. answer ≡ is_live book question.port };

    fn ask<N: Names>(self, book: &Book<N>) -> bool {
        has_live(book, self.port)
    }
}

/// Whether a revision of a book that is not scaled down has a port.
fn has_live<N: Names>(book: &Book<N>, port: u16) -> bool
    ensures { result ≡ is_live book.now port }
{
    for place in 0..book.count() {
        if is_live_at(book, place, port) {
            return true;
        }
    }
    false
}

/// Whether the revision at a place, if there is one, is not scaled down, and has a port.
fn is_live_at<N: Names>(book: &Book<N>, place: usize, port: u16) -> bool
    ensures { result ≡ is_live_at book.now place port }
{
    match book.revision(place) {
        Some(revision) => has_live_port(revision, port),
        None => false,
    }
}

/// Whether a revision is not scaled down, and has a port.
fn has_live_port(revision: &Revision, port: u16) -> bool
    ensures { result ≡ has_live_port port revision.now }
{
    revision.desired > 0 && has_port(revision.ports.get(), port)
}

/// Whether a port is one of these.
fn has_port(ports: &[u16], port: u16) -> bool
    ensures { result ≡ list_any (λ own. own == port) ports.now }
{
    ports.iter().any(|own| *own == port)
}
