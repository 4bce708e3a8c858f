//! The endpoints of the revisions, which the event loops and the operators share.
ghost use Rattle.std.specs.Prelude.{◌≡◌, ◌≢◌, [], true, IfSome, IfNone};
ghost use Rattle.bg_endpoints.specs.Choices.{is_new};
ghost use Rattle.bg_endpoints.specs.Routing.{IsChosen};
ghost use Rattle.bg_endpoints.specs.Healths.{after_request};

use crate::port_lists::PortLists;
use crate::port_state::PortState;
use crate::share::Share;
use crate::table::Table;
use bg_endpoint_side::Health;
use std::alloc::Global;
use std::sync::{Mutex, Wait};
use std::time::{Clock, Instant};

/// The endpoints of the revisions: which ports belong together, which are down, and which have failed of late
/// (nginx's `max_fails` and `fail_timeout`, HAProxy's `observe`). Those who forward requests ask it for each
/// dial, and the operators' side sets it. Each call takes a lock for a short time; while it has the lock, it takes no other lock
/// and waits for no peer.
#[derive(Drop)]
pub struct Directory {
    /// The moment from which marks count; `None` if the clock failed.
    start: Option<Instant>,
    table: Mutex<Table>,
}

impl Directory {
    /// A directory without lists. Until lists are set, each ticket's port is dialled, and no other port.
    pub fn new<R: Clock>(rt: &R, alloc: Global, share: Share) -> Directory {
        Directory {
            start: Instant::now(rt).ok(),
            table: Mutex::new(Table::new(alloc, share)),
        }
    }

    /// Takes these lists in place of those before. Open requests go on. What is known of a port stays, if a list
    /// has the port or a request is there.
    pub fn set<R: Wait>(&self, rt: &R, lists: PortLists) {
        self.table.lock(rt).set_lists(lists);
    }

    /// Takes these ports as those that are down, in place of those before. If N endpoints of a list are available,
    /// the first N ports that are not down take the requests. A port that is down is dialled only if it is the
    /// ticket's or one of the first N, and all others that take part are down, marked, or were dialled for the same
    /// request.
    pub fn set_down<R: Wait>(&self, rt: &R, ports: Vec<u16>) {
        self.table.lock(rt).set_down(ports);
    }

    /// Chooses the port that is dialled next for a ticket's port, after those that were tried, and counts a
    /// request there. `None` if no port is left; one is left if none was tried.
    pub fn begin<R: Wait + Clock>(&self, rt: &R, ticket: u16, tried: &[u16]) -> Option<u16>
        ensures chosen { IfSome result (λ port. IsChosen ticket tried.now port) }
        ensures once { IfSome result (λ port. is_new port tried.now ≡ true) }
        ensures left { IfNone result (tried.now ≢ []) }
    {
        let now = self.millis(rt);
        let mut table = self.table.lock(rt);
        let port = table.choose(ticket, tried, now)?;
        let state = table.state_of(port).with_request();
        // without memory, nothing is known of the port
        let _ = table.put(state);
        Some(port)
    }

    /// Counts a request less at a port, and keeps how the port took it.
    pub fn end<R: Wait + Clock>(&self, rt: &R, port: u16, health: Health) {
        let now = self.millis(rt);
        let mut table = self.table.lock(rt);
        let state = after(table.state_of(port).without_request(), health, now);
        let _ = table.put(state);
    }

    /// The number of milliseconds from the start; 0 if the clock fails.
    fn millis<R: Clock>(&self, rt: &R) -> u64 {
        match self.start.map(|start| start.elapsed(rt)) {
            Some(Ok(elapsed)) => u64::try_from(elapsed.as_millis()).unwrap_or(u64::MAX),
            _ => 0,
        }
    }
}

/// What is known of a port after it took a request.
fn after(state: PortState, health: Health, now: u64) -> PortState
    ensures { result ≡ after_request state health now }
{
    match health {
        Health::Unknown => state,
        Health::Answers => state.unmarked(),
        Health::Fails => state.marked(now),
    }
}
