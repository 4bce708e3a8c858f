//! The descriptors of the process, and how many connections they leave to the client ports.
ghost use Rattle.std.specs.Prelude.{◌≡◌, ◌≤◌};

use crate::event_loops::EventLoops;
use crate::ports::preview_workers;
use bg_command_line::ServeSettings;
use bg_load::LoadSettings;
use bg_sockets::{DescriptorLimits, descriptor_limits};
use std::fmt;

/// The number of descriptors that a process has from the start, and the number of those that may be needed for things that
/// are not counted.
const STANDARD_STREAMS: usize = 3;

const SPARE: usize = 8;

/// The number of descriptors of a client port without its connections and its listeners: its signal.
const OF_A_PORT: usize = 1;

/// The same of an event loop: its epoll set, and its signal.
const OF_A_LOOP: usize = 2;

/// The number of descriptors of a request that is inside: the connection of its client, and the one to an endpoint. If
/// connections are kept, as many connections to endpoints may be there without a request.
const OF_A_REQUEST: usize = 2;

const OF_A_KEPT_CONNECTION: usize = 1;

/// The number of descriptors that are kept free for the control port itself and for the operator that has
/// its turn.
const CONTROL_DESCRIPTORS: usize = 6;

/// The same, for the control socket.
const SOCKET_DESCRIPTORS: usize = 1;

/// The connections of operators may have one in this many of the descriptors, and at most `MOST_OPERATORS`
/// (`ControlPort::next`).
const CONTROL_SHARE: usize = 4;

const MOST_OPERATORS: usize = 1024;

/// The greatest number of pending connections of a client port, if there are enough descriptors, and the least.
const MOST_CONNECTIONS: u64 = 1_024;

const LEAST_CONNECTIONS: u64 = 4;

/// A notice says so if a client port may have fewer pending connections.
const FEW_CONNECTIONS: u64 = 64;

/// The memory, in bytes, that the requests of a client port may take, and the memory that its responses may take.
const REQUEST_BYTES: u64 = 1 << 27;

const RESPONSE_BYTES: u64 = 1 << 29;

/// The bounds of each client port: an equal share of the descriptors that the rest of the process leaves, but 4 to 1,024
/// connections without a seat; 128 MiB of requests, and 512 MiB of responses.
pub fn bounds_of(settings: &ServeSettings, loops: EventLoops) -> LoadSettings
    ensures least { 4 ≤ result.connections }
    ensures most { result.connections ≤ 1024 }
    ensures requests { result.request_bytes ≡ 134217728 }
    ensures responses { result.response_bytes ≡ 536870912 }
{
    let descriptors = descriptor_limits().soft;
    let free = descriptors.saturating_sub(reserved_of(settings, loops, descriptors));
    let share = (free / ports_of(settings)) as u64;
    LoadSettings {
        loops: u64::from(loops.active),
        connections: share.clamp(LEAST_CONNECTIONS, MOST_CONNECTIONS),
        request_bytes: REQUEST_BYTES,
        response_bytes: RESPONSE_BYTES,
    }
}

/// The number of client ports.
fn ports_of(settings: &ServeSettings) -> usize
    ensures { 1 ≤ result }
{
    if settings.preview.is_some() { 2 } else { 1 }
}

/// The number of descriptors that are kept for all but pending connections, if there are so many in all.
fn reserved_of(settings: &ServeSettings, loops: EventLoops, descriptors: usize) -> usize {
    let requests = u32::from(settings.workers).saturating_add(preview_workers(settings));
    let operators = (descriptors / CONTROL_SHARE).min(MOST_OPERATORS);
    STANDARD_STREAMS
        .saturating_add(SPARE)
        .saturating_add(ports_of(settings).saturating_mul(of_a_port(settings)))
        .saturating_add((loops.all() as usize).saturating_mul(OF_A_LOOP))
        .saturating_add((requests as usize).saturating_mul(of_a_request(settings)))
        .saturating_add(control_descriptors(settings))
        .saturating_add(operators)
}

/// The number of descriptors of a client port without its connections.
fn of_a_port(settings: &ServeSettings) -> usize {
    settings.listen.as_slice().len().saturating_add(OF_A_PORT)
}

/// The number of descriptors for each request that may be inside.
fn of_a_request(settings: &ServeSettings) -> usize {
    match settings.keep_alive {
        Some(_) => OF_A_REQUEST + OF_A_KEPT_CONNECTION,
        None => OF_A_REQUEST,
    }
}

fn control_descriptors(settings: &ServeSettings) -> usize {
    match settings.control_socket {
        Some(_) => CONTROL_DESCRIPTORS + SOCKET_DESCRIPTORS,
        None => CONTROL_DESCRIPTORS,
    }
}

/// That the limit on descriptors leaves few of them to pending connections.
#[derive(Debug, Drop)]
pub struct FewDescriptors {
    limits: DescriptorLimits,
    /// The number of pending connections that each client port may have.
    connections: u64,
    /// The number of descriptors that would be enough.
    enough: usize,
}

impl FewDescriptors {
    /// `None` if each client port may have 64 pending connections or more.
    pub fn of(settings: &ServeSettings, loops: EventLoops) -> Option<FewDescriptors> {
        let limits = descriptor_limits();
        let connections = bounds_of(settings, loops).connections;
        if connections >= FEW_CONNECTIONS {
            return None;
        }
        let many = MOST_OPERATORS.saturating_mul(CONTROL_SHARE);
        Some(FewDescriptors {
            limits,
            connections,
            enough: ports_of(settings)
                .saturating_mul(MOST_CONNECTIONS as usize)
                .saturating_add(reserved_of(settings, loops, many)),
        })
    }
}

impl fmt::Display for FewDescriptors {
    fn fmt<W: fmt::Write>(&self, f: &mut fmt::Formatter<W>) -> fmt::Result {
        let FewDescriptors {
            limits,
            connections,
            enough,
        } = self;
        let DescriptorLimits { soft, hard } = limits;
        write!(
            f,
            "ulimit -n is {soft} (hard limit {hard}), so each client port may have {connections} pending connections; {enough} descriptors would be enough"
        )
    }
}
