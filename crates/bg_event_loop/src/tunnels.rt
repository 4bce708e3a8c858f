//! The tunnels of clients, and how the bytes that pass through them are read and written.
ghost use Rattle.std.specs.Prelude.{◌≡◌, None, Some, if◌then◌else◌};
ghost use Rattle.std.specs.Option.{option_and_then, option_map};
ghost use Rattle.bg_tunnel.specs.Tunnels.{begun, failed, looked};
ghost use Rattle.bg_event_loop.specs.TunnelSteps.{is_due as is_tunnel_due, is_gone as is_peer_gone};
ghost use Rattle.bg_event_loop.specs.TunnelSteps.{reads as tunnel_reads, writes as tunnel_writes};

use crate::client::Client;
use crate::endpoint::Endpoint;
use crate::endpoint_ports::EndpointPorts;
use crate::endpoints::Endpoints;
use crate::event_loop::EventLoop;
use crate::moments::has_come;
use crate::outcome::{Cause, Outcome};
use crate::readiness::Readiness;
use crate::request_log::RequestLog;
use crate::request_record::RequestEnd;
use crate::sockets::{Input, read, reset, write};
use crate::tunnel_ending::TunnelEnding;
use bg_both_sides::{Given, Upgraded};
use bg_endpoint_side::Health;
use bg_tunnel::{Peer, Tunnel, TunnelEnd};
use std::alloc::Global;
use std::net::{Shutdown, TcpStream};

/// The number of steps of a tunnel in a row before others have their turn.
const STEPS_A_TURN: u32 = 16;

/// The status of the response by which a tunnel begins.
const SWITCHING_PROTOCOLS: u16 = 101;

/// What a step gave of a tunnel: how many bytes came from its peer, and how many the peer took.
#[derive(Clone, Copy, Drop)]
struct Moved {
    came: usize,
    taken: usize,
}

impl Client {
    /// Begins the tunnel that the request became, which may be silent for so many milliseconds.
    pub(crate) fn begin_tunnel(
        &mut self,
        alloc: Global,
        upgraded: Upgraded,
        timeout_millis: u64,
        now: u64,
    )
        ensures { self.new ≡ record self.old {
          tunnel = Some (begun upgraded.for_endpoint.items upgraded.for_client.items timeout_millis now);
        } }
    {
        let Upgraded {
            for_endpoint,
            for_client,
        } = upgraded;
        self.tunnel = Some(Tunnel::new(alloc, for_endpoint, for_client, timeout_millis, now));
    }

    /// How the tunnel ended, if it is over.
    fn tunnel_ending(&self) -> Option<TunnelEnd>
        ensures { result ≡ option_and_then (λ tunnel. tunnel.ending) self.now.tunnel }
    {
        match &self.tunnel {
            Some(tunnel) => tunnel.ending(),
            None => None,
        }
    }

    /// Notes that the connection of this peer of the tunnel failed.
    fn fail_tunnel(&mut self, peer: Peer)
        ensures { self.new ≡ record self.old { tunnel = option_map (failed peer) self.old.tunnel } }
    {
        if let Some(tunnel) = &mut self.tunnel {
            tunnel.fail(peer);
        }
    }

    /// Looks at the time: the tunnel is over if no byte has passed for too long.
    fn look_at_tunnel(&mut self, now: u64)
        ensures { self.new ≡ record self.old { tunnel = option_map (looked now) self.old.tunnel } }
    {
        if let Some(tunnel) = &mut self.tunnel {
            tunnel.look(now);
        }
    }

    /// Makes the steps of the tunnel that are due on the connection of the client, and on that of its endpoint. Gives whether one
    /// was due.
    fn pass_some(&mut self, endpoint: &mut Endpoint, piece: &mut [u8], now: u64) -> bool {
        let Some(tunnel) = &mut self.tunnel else {
            return false;
        };
        let client_due = is_due(tunnel, Peer::Client, self.ready);
        if client_due {
            let moved = serve_peer(
                tunnel,
                Peer::Client,
                (&self.stream, &mut self.ready),
                piece,
                now,
            );
            self.record.note_bytes(moved.came, now);
            self.record.note_passed_on(moved.taken, now);
        }
        let endpoint_due = is_due(tunnel, Peer::Endpoint, endpoint.ready);
        if endpoint_due {
            serve_peer(
                tunnel,
                Peer::Endpoint,
                (&endpoint.stream, &mut endpoint.ready),
                piece,
                now,
            );
        }
        fail_if_gone(tunnel, Peer::Client, self.ready);
        fail_if_gone(tunnel, Peer::Endpoint, endpoint.ready);
        client_due || endpoint_due
    }

    /// Logs the request whose tunnel is over.
    fn log_tunnel<L: RequestLog>(&mut self, log: &L, ending: TunnelEnding, now: u64) {
        let end = RequestEnd {
            outcome: Outcome::of(Cause::Given(Given::Response(SWITCHING_PROTOCOLS)), true),
            route: self.route(),
            line: None,
            is_head_sound: false,
            response_bytes: self.record.passed_on(),
            response_millis: self.record.millis_to_answer(now),
            tunnel: Some(ending),
        };
        self.record.end(log, &end, now);
    }
}

/// Whether a step of a tunnel is due on the connection of this peer.
fn is_due(tunnel: &Tunnel, peer: Peer, ready: Readiness) -> bool
    ensures { result ≡ is_tunnel_due tunnel.now peer ready }
{
    writes(tunnel, peer, ready) || tunnel.is_to_shut(peer) || reads(tunnel, peer, ready)
}

/// Whether the connection of this peer is over, and no step on it is due, which would tell. One whose writing side was shut does not
/// count: it is over, too, once the peer has ended its own side, and the tunnel may go on then.
fn is_gone(tunnel: &Tunnel, peer: Peer, ready: Readiness) -> bool
    ensures { result ≡ is_peer_gone tunnel.now peer ready }
{
    ready.reset && !is_due(tunnel, peer, ready) && !tunnel.is_shut(peer)
}

/// Notes that the connection of this peer failed if it is gone. A step finds that of other connections that are over.
fn fail_if_gone(tunnel: &mut Tunnel, peer: Peer, ready: Readiness)
    ensures { tunnel.new ≡ if is_peer_gone tunnel.old peer ready then failed peer tunnel.old else tunnel.old }
{
    if is_gone(tunnel, peer, ready) {
        tunnel.fail(peer);
    }
}

/// Whether bytes are to be written to this peer, and a write may take some.
fn writes(tunnel: &Tunnel, peer: Peer, ready: Readiness) -> bool
    ensures { result ≡ tunnel_writes tunnel.now peer ready }
{
    ready.output && !tunnel.rest(peer).is_empty()
}

/// Whether bytes of this peer are to be read, and a read may find some, or the end of the input.
fn reads(tunnel: &Tunnel, peer: Peer, ready: Readiness) -> bool
    ensures { result ≡ tunnel_reads tunnel.now peer ready }
{
    ready.input && tunnel.wants_input(peer)
}

/// Makes the steps of a tunnel that are due on the connection of this peer: writes, shuts the writing side, and reads.
fn serve_peer(
    tunnel: &mut Tunnel,
    peer: Peer,
    connection: (&TcpStream, &mut Readiness),
    piece: &mut [u8],
    now: u64,
) -> Moved {
    let (stream, ready) = connection;
    let taken = if writes(tunnel, peer, *ready) {
        write_some(tunnel, peer, (stream, ready), now)
    } else {
        0
    };
    if tunnel.is_to_shut(peer) {
        shut(tunnel, peer, stream);
    }
    let came = if reads(tunnel, peer, *ready) {
        read_some(tunnel, peer, (stream, ready), piece, now)
    } else {
        0
    };
    Moved { came, taken }
}

/// Writes what this peer takes. Gives how many bytes it took.
fn write_some(
    tunnel: &mut Tunnel,
    peer: Peer,
    connection: (&TcpStream, &mut Readiness),
    now: u64,
) -> usize {
    let (stream, ready) = connection;
    let rest = tunnel.rest(peer);
    let most = rest.len();
    let Some(count) = write(stream, rest) else {
        tunnel.fail(peer);
        return 0;
    };
    ready.note_write(count, most);
    tunnel.took(peer, count, now);
    count
}

/// Shuts the writing side of the connection of this peer, so that it sees the end of the other one's input.
fn shut(tunnel: &mut Tunnel, peer: Peer, stream: &TcpStream) {
    if stream.shutdown(Shutdown::Write).is_err() {
        tunnel.fail(peer);
    } else {
        tunnel.note_shut(peer);
    }
}

/// Reads what came from this peer. Gives how many bytes came. Without memory for them, the connection of the peer has failed.
fn read_some(
    tunnel: &mut Tunnel,
    peer: Peer,
    connection: (&TcpStream, &mut Readiness),
    piece: &mut [u8],
    now: u64,
) -> usize {
    let (stream, ready) = connection;
    match read(stream, piece) {
        Input::Came(count) => {
            ready.note_read(count, piece.len());
            let bytes = &piece[..count.min(piece.len())];
            if tunnel.feed(peer, bytes, now).is_err() {
                tunnel.fail(peer);
            }
            bytes.len()
        }
        Input::Nothing => {
            ready.input = false;
            0
        }
        Input::End => {
            tunnel.end_input(peer);
            0
        }
        Input::Failed => {
            tunnel.fail(peer);
            0
        }
    }
}

impl<P: EndpointPorts> Endpoints<'_, P> {
    /// Passes on what is there in the tunnel of a client. Gives whether steps are due still.
    fn pass(&mut self, client: &mut Client, piece: &mut [u8], now: u64) -> bool {
        for _ in 0..STEPS_A_TURN {
            let Some(endpoint) = self.used_by(client) else {
                client.fail_tunnel(Peer::Endpoint);
                return false;
            };
            if !client.pass_some(endpoint, piece, now) {
                return false;
            }
        }
        true
    }

    /// The tunnel of a client is over: closes the connection to the endpoint, which no other request is given, and counts the
    /// request at its port no longer. Unless each peer got all bytes of the other one and its end, both connections are reset, so
    /// that the peers can tell.
    fn end_tunnel(&mut self, client: &mut Client, ending: TunnelEnding)
        ensures unused { client.new.endpoint ≡ None }
        ensures over { client.new.tunnel ≡ None }
        ensures kept { self.new.kept ≡ self.old.kept }
    {
        if ending != TunnelEnding::Ended(TunnelEnd::Whole) {
            reset(&client.stream);
            self.reset_used_by(client);
        }
        self.close_used_by(client);
        if let Some(tries) = &mut client.tries {
            tries.leave(self.ports, Health::Answers);
        }
        client.tunnel = None;
    }
}

impl<'a, P: EndpointPorts, L: RequestLog> EventLoop<'a, P, L> {
    /// Makes the steps of the tunnel of a client that are due, and ends it if it is given up, at the end of a shutdown, or if no
    /// byte has passed for too long. Gives its seat if it is over.
    pub(crate) fn serve_tunnel(&mut self, key: usize, is_given_up: bool) -> Option<usize> {
        if is_given_up || has_come(self.closes_at, self.now) {
            return self.finish_tunnel(key, TunnelEnding::GivenUp);
        }
        let client = self.clients.get_mut(key)?;
        let is_due = self
            .endpoints
            .pass(client, self.piece.as_mut_slice(), self.now);
        client.look_at_tunnel(self.now);
        if let Some(end) = client.tunnel_ending() {
            return self.finish_tunnel(key, TunnelEnding::Ended(end));
        }
        if is_due {
            // others have their turn
            self.make_due(key);
        }
        None
    }

    /// Ends the tunnel of a client, logs the request, and frees its seat, which is given.
    fn finish_tunnel(&mut self, key: usize, ending: TunnelEnding) -> Option<usize> {
        let client = self.clients.get_mut(key)?;
        let seat = client.seat.take()?;
        self.endpoints.end_tunnel(client, ending);
        client.log_tunnel(self.log, ending, self.now);
        self.queue.leave(seat);
        Some(seat)
    }
}
