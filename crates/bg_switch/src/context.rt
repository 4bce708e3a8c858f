//! What the threads of `serve` share.
ghost use Rattle.std.specs.Prelude.{◌≡◌};

use bg_access_log::AccessLog;
use bg_command_line::{MessageTimeout, ServeSettings};
use bg_endpoints::Directory;
use bg_forward::RefusalBody;
use bg_ports::{EventLoops, Notices, Ports};
use bg_strategy::Strategy;
use std::alloc::Global;

/// What the clients' side and the operators' side share after the ports are bound.
#[derive(Drop)]
pub struct ServeContext<'a, R> {
    /// The handle for threads, waits, sockets and the clock.
    pub rt: &'a R,
    pub alloc: Global,
    pub strategy: &'a Strategy,
    pub ports: &'a Ports,
    /// The number of seats, including those of the preview service: 1 to 2,048. With any other number, each `open` is refused.
    pub seats: u32,
    /// How many of these seats, the last ones, are those of the preview service.
    pub previews: u32,
    /// The event loops of the client ports.
    pub loops: EventLoops,
    /// What the words of the command line set.
    pub words: &'a ServeSettings<'a>,
    /// Whether `quit` begins a graceful shutdown of the client ports.
    pub shuts_down: bool,
    /// The timeout within which a request or a response has to be complete.
    pub timeout: MessageTimeout,
    /// The log of ended connections.
    pub log: Option<&'a AccessLog>,
    /// What the log adds to the numbers of requests in the book: 0 without a journal.
    pub number_offset: u64,
    /// The first half of the ids of requests, which differs from run to run: the nanoseconds from 1970 to the start.
    pub run: u64,
    /// The endpoints of the revisions, if a request may be dialled at another one than its ticket's.
    pub directory: Option<&'a Directory>,
    /// What refusals have as their bodies.
    pub refusal_body: RefusalBody,
    /// The notices on standard error.
    pub notices: &'a Notices<'a>,
}

impl<'a, R> ServeContext<'a, R> {
    /// The same, with this offset of the numbers of requests.
    pub fn with_number_offset(&self, number_offset: u64) -> ServeContext<'a, R>
        ensures { result ≡ record self.now { number_offset = number_offset } }
    {
        ServeContext {
            number_offset,
            ..*self
        }
    }
}

/// What a book is opened by: what the threads share, and what opens the journal of orders, if there is one.
#[derive(Drop)]
pub struct JournaledContext<'c, 'a, R, O: Drop> {
    pub serve: &'c ServeContext<'a, R>,
    pub journal: Option<O>,
}
