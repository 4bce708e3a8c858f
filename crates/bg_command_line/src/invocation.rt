//! What the words of the command line ask for.
ghost use Rattle.std.specs.Prelude.{◌≡◌, ◌↔◌, IsTrue};
ghost use Rattle.bg_command_line.specs.Invocations.{AsksForVersion};
ghost use Rattle.bg_command_line.specs.declared.invocation.InvocationFault.TheVariants.{OutOfMemory};

use crate::listen_addresses::ListenAddresses;
use clap::Error;
use clap::error::ErrorKind;
use std::alloc::AllocError;
use std::net::IpAddr;
use thiserror::Error as DeriveError;

/// What the words of the command line ask for.
#[derive(Clone, Copy, Debug, Drop, PartialEq, Eq)]
pub enum Invocation<'a> {
    /// Write what the strategy on standard input means.
    Check,
    /// Answer the script after the strategy, with this many seats, 1 to 8.
    Replay {
        seats: u8,
    },
    /// Judge the journal in the file of this path, and write the report of its end.
    Journal {
        path: &'a str,
    },
    /// Put a new journal in the place of the one in the file of this path: it begins with the strategy on standard input and the
    /// revision that is stable in the old one, of which a copy is kept.
    RestartJournal {
        path: &'a str,
        /// The text of the ports of the stable revision from then on; `None` stands for those that it has.
        ports: Option<&'a str>,
    },
    /// Forward the requests of clients, controlled by the lines of operators.
    Serve(ServeSettings<'a>),
}

/// The number of connections that a worker takes.
#[derive(Clone, Copy, Debug, Drop, PartialEq, Eq)]
pub enum Connections {
    /// Each worker takes this many connections, 1 to 1,000,000, and then ends.
    Count(u32),
    /// No limit: the workers end at a graceful shutdown.
    Forever,
}

/// Which of the words are there that replace a required one.
#[derive(Clone, Copy, Drop)]
pub struct Flags {
    /// `--forever`, in place of `--count`.
    pub forever: bool,
    /// `--concurrency`, in place of `--workers`.
    pub concurrency: bool,
    /// `--control-socket`, in place of `--control` or beside it.
    pub socket: bool,
}

/// The socket at which operators' lines are answered.
#[derive(Clone, Copy, Debug, Drop, PartialEq, Eq)]
pub struct ControlSocket<'a> {
    /// The path of its file.
    pub path: &'a str,
    /// The mode of the file, as the number that has the digits of the mode, 1 to 777. A digit may be 8 or 9, which is no mode.
    pub mode: u16,
    /// The name or the number of the group of the file; `None` stands for that of the process.
    pub group: Option<&'a str>,
}

/// How long connections are kept for further requests (RFC 9112 section 9.3).
#[derive(Clone, Copy, Debug, Drop, PartialEq, Eq)]
pub struct KeepAlive {
    /// For how many seconds a client's connection is kept while no request comes on it (nginx's `keepalive_timeout`,
    /// HAProxy's `timeout http-keep-alive`), 1 to 3,600.
    pub seconds: u16,
    /// How many requests a client's connection carries at most (nginx's `keepalive_requests`), 1 to 1,000,000.
    pub requests: u32,
    /// For how many seconds a connection to an endpoint is kept while no request goes over it (nginx's
    /// `keepalive_timeout` of an upstream, HAProxy's `pool-purge-delay`), 1 to 3,600.
    pub endpoint_seconds: u16,
}

/// The ports at which `serve` takes connections, how many connections and requests each takes, how an endpoint
/// is chosen, how clients are treated that leave or are silent, how connections are kept, and where orders are
/// kept. Ports are from 1 to 65535.
#[derive(Clone, Copy, Debug, Drop, PartialEq, Eq)]
pub struct ServeSettings<'a> {
    /// The port of the active service.
    pub active: u16,
    /// The port of the preview service, if it is given.
    pub preview: Option<u16>,
    /// The addresses at which both of them listen (those of nginx's `listen` and of HAProxy's `bind`).
    pub listen: ListenAddresses,
    /// The control port, if it is given. It or the control socket is. It is at 127.0.0.1.
    pub control: Option<u16>,
    /// The control socket, if it is given.
    pub control_socket: Option<ControlSocket<'a>>,
    /// The number of workers of the active service: 1 to 7 by `--workers`, 1 to 1,023 by `--concurrency`.
    pub workers: u16,
    /// The number of workers of the preview service, 1 to 1,023, by `--preview-concurrency`. If that is not given:
    /// 1 with `--workers`, and with `--concurrency` an eighth of its number, at least 1.
    pub preview_workers: u16,
    /// The number of event loops that serve the clients of the active port, each in a thread of its own (nginx's
    /// `worker_processes`, HAProxy's `nbthread`), 1 to 64; `None` stands for as many as the machine has processors, but at
    /// most one for each four requests at a time, rounded up.
    pub threads: Option<u16>,
    /// Whether another endpoint of the revision is asked if one can't be connected to (HAProxy's `option
    /// redispatch`, nginx's `proxy_next_upstream error`).
    pub redispatch: bool,
    /// How many requests at a time an endpoint gets while another one of its revision is free (HAProxy's `maxconn`
    /// of a server), 1 to 1,023; `None` stands for twice an equal part of the requests at a time, but at most half of
    /// them. It has no effect unless `redispatch` holds.
    pub endpoint_limit: Option<u16>,
    /// The address at which the ports of endpoints are (that of a `server` of nginx's `upstream` or of HAProxy's `backend`): not
    /// 0.0.0.0 or `::`, and no IPv4-mapped IPv6 address.
    pub endpoint_address: IpAddr,
    /// Whether a request ends if its client has only ended its input (HAProxy's `option abortonclose`). If not, it ends
    /// only if its client resets the connection.
    pub abort_on_close: bool,
    /// The number of seconds, 1 to 60, for which a graceful shutdown keeps connections that have sent nothing.
    pub shutdown_grace: u8,
    /// The number of seconds, 1 to 3,600, for which a graceful shutdown waits for requests to come and responses to be taken
    /// (nginx's `worker_shutdown_timeout`, HAProxy's `hard-stop-after`).
    pub shutdown_timeout: u16,
    /// Whether an answer of the switch itself has a body with its status and reason (nginx's `error_page`, HAProxy's
    /// `errorfile`).
    pub error_pages: bool,
    /// Whether a response is passed on to its client as it comes, whatever its length (nginx's `proxy_buffering off`), and a
    /// request of more than `buffer` bytes to its endpoint (nginx's `proxy_request_buffering off`).
    pub stream: bool,
    /// How many bytes of a request are held before it is passed on as it comes (nginx's `client_body_buffer_size`, HAProxy's
    /// `tune.bufsize`), 16,384 to 1,048,576; `None` stands for 65,536. It is given only if `stream` holds.
    pub buffer: Option<u32>,
    /// The most bytes of the body of a request with `stream` (nginx's `client_max_body_size`), 65,536 to 1,099,511,627,776;
    /// `None` stands for no limit. It is given only if `stream` holds.
    pub max_request_body: Option<u64>,
    /// The most bytes of the body of a response with `stream`, 65,536 to 1,099,511,627,776; `None` stands for no limit. It is given
    /// only if `stream` holds.
    pub max_response_body: Option<u64>,
    /// For how many seconds an endpoint may be silent whose response is passed on as it comes, or both sides of a tunnel (nginx's
    /// `proxy_read_timeout`, HAProxy's `timeout server` and `timeout tunnel`), 1 to 3,600; `None` stands for as many as a message may
    /// take.
    pub silence: Option<u16>,
    /// Whether requests tell their endpoints where they come from, by X-Forwarded-For and its kin, Forwarded (RFC 7239) and
    /// X-Request-Id (HAProxy's `option forwardfor`).
    pub forwarded: bool,
    /// Whether clients are trusted to tell where their requests come from: they are proxies (nginx's `set_real_ip_from`).
    pub trust_forwarded: bool,
    /// Whether a request that asks for an upgrade to another protocol is passed on as one that does (RFC 9110 section 7.8, nginx's
    /// `proxy_set_header Upgrade`).
    pub upgrade: bool,
    /// How connections of clients and to endpoints are kept for further requests; `None` stands for connections that
    /// carry one request each.
    pub keep_alive: Option<KeepAlive>,
    /// The path of the journal, if there is one: the file that keeps the orders of operators.
    pub journal: Option<&'a str>,
    /// The number of connections that each worker takes.
    pub connections: Connections,
}

/// Why the words are not an invocation of the program.
#[derive(Debug, Drop, DeriveError)]
pub enum InvocationFault {
    /// `clap` refuses the words, or they ask for help or for the version. The program prints its error.
    #[error("the words are no order")]
    Words(Error),
    #[error("out of memory")]
    OutOfMemory,
}

impl InvocationFault {
    /// Whether the words ask for the program's version, which the error of `Words` then tells.
    pub fn asks_for_version(&self) -> bool
        ensures { IsTrue result ↔ AsksForVersion self.now }
    {
        match self {
            InvocationFault::Words(error) => matches!(error.kind(), ErrorKind::DisplayVersion),
            InvocationFault::OutOfMemory => false,
        }
    }
}

impl From<AllocError> for InvocationFault {
    ghost from_gives = { λ _ e. e ≡ OutOfMemory };

    fn from(_refused: AllocError) -> InvocationFault {
        InvocationFault::OutOfMemory
    }
}
