//! The entry of a connection in the access log.
ghost use Rattle.std.specs.Prelude.{◌≡◌, Some, None, codes, if◌then◌else◌};
ghost use Rattle.std.specs.Option.{option_and_then, option_map};
ghost use Rattle.bg_request_log.specs.Entries.{end_name, end_status, logged_end, logged_number, logged_reason, logged_status, slot_port, tunnel_name};
ghost use Rattle.bg_ports.specs.ServiceNames.{name_of_service};

use bg_access_log::{LogEntry, TimeText};
use bg_event_loop::{EndedRequest, TunnelEnding};
use bg_forward::{End, Reason, Served};
use bg_ports::service_name;
use bg_revisions::Service;
use bg_tunnel::{Peer, TunnelEnd};
use std::borrow::CowStr;

/// The status of a request whose client has gone before its answer, as nginx has it. No client is sent it.
const CLIENT_CLOSED_REQUEST: u16 = 499;

/// The end of a request whose response was cut off after its client got a part of it.
pub(crate) const CUT: &str = "cut";

/// What the log tells of a request apart from what its event loop has noted.
#[derive(Drop)]
pub struct ConnectionFacts<'a> {
    /// When the connection ended.
    pub time: Option<TimeText>,
    /// The service of the client's port.
    pub service: Service,
    /// The method and the target of the request, or of one that was refused after its head was parsed.
    pub method: Option<CowStr<'a>>,
    pub target: Option<CowStr<'a>>,
    /// The id that the endpoint was told of the request.
    pub id: Option<CowStr<'a>>,
    /// Whether a request may be dialled at another port than its ticket's.
    pub redispatches: bool,
    /// Whether connections are kept.
    pub keeps_connections: bool,
    /// What is added to the number of the request in its book.
    pub number_offset: u64,
    /// The number of connections that ended without having sent a byte, if this entry is to tell of some.
    pub idle_connections: Option<u64>,
}

/// The entry of a request in the access log, by what its event loop has noted and by what else is known of it.
pub fn entry_of<'a>(ended: &EndedRequest, facts: ConnectionFacts<'a>) -> LogEntry<'a>
    ensures time { result.time ≡ facts.entry.time }
    ensures service { result.service.now ≡ name_of_service facts.entry.service }
    ensures revision { result.revision ≡ option_map (λ ticket. ticket.revision) ended.now.served.entered }
    ensures request { result.request
        ≡ option_map (λ ticket. logged_number facts.entry.number_offset ticket.number) ended.now.served.entered }
    ensures port { result.port ≡ option_map (λ route. route.port) ended.now.served.route }
    ensures slot_port { result.slot_port ≡ slot_port ended.now.served.entered ended.now.served.route }
    ensures tries { result.tries
        ≡ (if facts.entry.redispatches then option_map (λ route. route.tries) ended.now.served.route else None) }
    ensures method { result.method ≡ facts.entry.method }
    ensures target { result.target ≡ facts.entry.target }
    ensures status { result.status ≡ logged_status ended.now.served.end ended.now.served.reason }
    ensures end { result.end.now ≡ logged_end ended.now.is_cut ended.now.served.end ended.now.served.reason }
    ensures reason { option_map (λ name. name.now) result.reason
        ≡ option_map (logged_reason ended.now.is_head_sound) ended.now.served.reason }
    ensures request_bytes { result.request_bytes ≡ ended.now.request_bytes }
    ensures response_bytes { result.response_bytes ≡ ended.now.response_bytes }
    ensures duration { result.duration_ms ≡ ended.now.duration_millis }
    ensures upstream { result.upstream_ms
        ≡ option_and_then (λ ticket. ended.now.response_millis) ended.now.served.entered }
    ensures idle { result.idle_connections ≡ facts.entry.idle_connections }
    ensures place { result.connection_request
        ≡ (if facts.entry.keeps_connections then Some ended.now.place else None) }
    ensures reused { result.upstream_reused
        ≡ (if facts.entry.keeps_connections then ended.now.is_reused else None) }
    ensures id { result.request_id ≡ facts.entry.id }
    ensures tunnel { option_map (λ name. name.now) result.tunnel ≡ option_map tunnel_name ended.now.tunnel }
{
    let served = &ended.served;
    let entered = served.entered;
    let (place, is_reused) = of_kept(ended, facts.keeps_connections);
    LogEntry {
        time: facts.time,
        service: service_name(facts.service),
        revision: entered.map(|ticket| ticket.revision),
        request: logged_number(served, facts.number_offset),
        port: served.route.map(|route| route.port),
        slot_port: slot_port(served),
        tries: tries(served, facts.redispatches),
        method: facts.method,
        target: facts.target,
        status: logged_status(served),
        end: logged_end(served, ended.is_cut),
        reason: reason_name(served.reason, ended.is_head_sound),
        request_bytes: ended.request_bytes,
        response_bytes: ended.response_bytes,
        duration_ms: ended.duration_millis,
        upstream_ms: match entered {
            Some(_) => ended.response_millis,
            None => None,
        },
        idle_connections: facts.idle_connections,
        connection_request: place,
        upstream_reused: is_reused,
        request_id: facts.id,
        tunnel: ended.tunnel.map(name_of_tunnel),
    }
}

/// The number of the request on its connection, and whether the connection to its endpoint had carried one before, if
/// connections are kept.
fn of_kept(ended: &EndedRequest, keeps_connections: bool) -> (Option<u64>, Option<bool>)
    ensures place { result.0 ≡ (if keeps_connections then Some ended.now.place else None) }
    ensures reused { result.1 ≡ (if keeps_connections then ended.now.is_reused else None) }
{
    if keeps_connections {
        (Some(ended.place), ended.is_reused)
    } else {
        (None, None)
    }
}

/// The number of the request: that of its book, behind those of earlier runs.
fn logged_number(served: &Served, offset: u64) -> Option<u64>
    ensures { result ≡ option_map (λ ticket. logged_number offset ticket.number) served.now.entered }
{
    let ticket = served.entered?;
    Some(offset.saturating_add(ticket.number))
}

/// The port of the ticket, if another port was dialled last.
fn slot_port(served: &Served) -> Option<u16>
    ensures { result ≡ slot_port served.now.entered served.now.route }
{
    let ticket = served.entered?;
    let route = served.route?;
    if route.port == ticket.port {
        return None;
    }
    Some(ticket.port)
}

/// The number of ports that were dialled, if a request may be dialled at another port than its ticket's.
fn tries(served: &Served, redispatches: bool) -> Option<u32>
    ensures { result
        ≡ (if redispatches then option_map (λ route. route.tries) served.now.route else None) }
{
    let route = served.route?;
    if redispatches {
        Some(route.tries)
    } else {
        None
    }
}

/// The name of a reason in the log. If a request is malformed or too large although its head has no fault,
/// the fault is in its body or in its trailers, and the name is `body`.
fn reason_name(reason: Option<Reason>, is_head_sound: bool) -> Option<&'static str>
    ensures { option_map (λ name. name.now) result ≡ option_map (logged_reason is_head_sound) reason }
{
    match reason? {
        Reason::Malformed | Reason::HeadTooLarge if is_head_sound => Some("body"),
        reason => Some(reason.name()),
    }
}

/// The status in the log: 499 if the client had gone before its answer, as in nginx's log.
fn logged_status(served: &Served) -> Option<u16>
    ensures { result ≡ logged_status served.now.end served.now.reason }
{
    match served.reason {
        Some(Reason::ClientGone) => Some(CLIENT_CLOSED_REQUEST),
        _ => status_of(served.end),
    }
}

/// How the request ended, by the log.
pub(crate) fn logged_end(served: &Served, is_cut: bool) -> &'static str
    ensures { result.now ≡ logged_end is_cut served.now.end served.now.reason }
{
    match served.reason {
        Some(Reason::ClientGone) => "refused",
        _ => name_of(served.end, is_cut),
    }
}

fn status_of(end: End) -> Option<u16>
    ensures { result ≡ end_status end }
{
    match end {
        End::Refused(status) | End::Answered(status) => Some(status),
        End::Closed | End::ReadFailed | End::WriteFailed => None,
    }
}

fn name_of(end: End, is_cut: bool) -> &'static str
    ensures { result.now ≡ end_name is_cut end }
{
    match end {
        End::Closed => "closed",
        End::ReadFailed => "read_failed",
        End::Refused(_) if is_cut => CUT,
        End::Refused(_) => "refused",
        End::Answered(_) => "answered",
        End::WriteFailed => "write_failed",
    }
}

/// How a tunnel ended, in the log.
fn name_of_tunnel(ending: TunnelEnding) -> &'static str
    ensures { result.now ≡ tunnel_name ending }
{
    match ending {
        TunnelEnding::Ended(TunnelEnd::Whole) => "whole",
        TunnelEnding::Ended(TunnelEnd::Failed(Peer::Client)) => "client_failed",
        TunnelEnding::Ended(TunnelEnd::Failed(Peer::Endpoint)) => "endpoint_failed",
        TunnelEnding::Ended(TunnelEnd::Silent) => "silent",
        TunnelEnding::GivenUp => "given_up",
    }
}
