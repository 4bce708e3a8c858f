//! The connections to endpoints of a loop.
ghost use Rattle.std.specs.Prelude.{◌≡◌, ◌&&◌, not, false, IfOk, IfSome, None};

use crate::client::Client;
use crate::endpoint::Endpoint;
use crate::endpoint_ports::EndpointPorts;
use crate::events::{Source, Told, watch};
use crate::readiness::Readiness;
use crate::settings::EndpointSettings;
use crate::slots::Slots;
use crate::sockets::{DialledStream, connect, reset};
use bg_endpoint_side::{DialFault, KeptConnection, KeptConnections};
use bg_http::Persistence;
use bg_sockets::EpollSet;
use std::alloc::{AllocError, Global};

/// The connections to endpoints of a loop. Each has a request on it, or is kept for a further one.
#[derive(Drop)]
pub(crate) struct Endpoints<'a, P> {
    pub(crate) alloc: Global,
    set: &'a EpollSet,
    /// The ports at which requests are dialled.
    pub(crate) ports: &'a P,
    settings: EndpointSettings,
    connections: Slots<Endpoint>,
    kept: KeptConnections,
    /// Whether all events were noted just now, so that each kept connection on which something has come was closed.
    pub(crate) are_noted: bool,
}

impl<'a, P: EndpointPorts> Endpoints<'a, P> {
    pub(crate) fn new(
        alloc: Global,
        set: &'a EpollSet,
        ports: &'a P,
        settings: EndpointSettings,
    ) -> Result<Endpoints<'a, P>, AllocError> {
        Ok(Endpoints {
            alloc,
            set,
            ports,
            settings,
            connections: Slots::new(alloc),
            kept: KeptConnections::new(alloc, settings.most_kept)?,
            are_noted: false,
        })
    }

    pub(crate) fn settings(&self) -> EndpointSettings
        ensures { result ≡ self.now.settings }
    {
        self.settings
    }

    pub(crate) fn get(&self, key: usize) -> Option<&Endpoint> {
        self.connections.get(key)
    }

    /// Whether a connection is kept for a further request.
    pub(crate) fn has_kept(&self) -> bool {
        !self.kept.get().is_empty()
    }

    /// Whether there is no connection.
    pub(crate) fn is_empty(&self) -> bool {
        self.connections.is_empty()
    }

    /// The connection that the request of a client has or awaits.
    pub(crate) fn used_by(&mut self, client: &Client) -> Option<&mut Endpoint> {
        self.connections.get_mut(client.endpoint?)
    }

    /// Takes a connection to a port that was kept, for the request of a client. Each on which something has come is closed, since
    /// the request would get it as its response: the events have told of it, or it is read once.
    pub(crate) fn take_kept(&mut self, port: u16, client: usize) -> Option<usize> {
        for _ in 0..self.kept.get().len() {
            let key = self.kept.take(port)?.key;
            if let Some(endpoint) = self.connections.get_mut(key)
                && (self.are_noted || endpoint.is_silent())
            {
                endpoint.client = Some(client);
                return Some(key);
            }
            self.close(key);
        }
        None
    }

    /// Dials a port for the request of a client. The dial of a port of the switch itself fails, without a socket.
    pub(crate) fn dial(&mut self, port: u16, client: usize) -> Result<usize, DialFault>
        ensures { IfOk result (λ _. P.own self.old.ports.now port ≡ false) }
    {
        if self.ports.is_own(port) {
            return Err(DialFault::Failed);
        }
        let DialledStream {
            stream,
            is_complete,
        } = connect(self.settings.address, port)?;
        let endpoint = Endpoint {
            stream,
            port,
            ready: Readiness {
                input: false,
                output: is_complete,
                end: false,
                reset: false,
            },
            client: Some(client),
        };
        let Ok(key) = self.connections.put(endpoint) else {
            return Err(DialFault::NoSocket);
        };
        if self.is_watched(key) {
            return Ok(key);
        }
        self.close(key);
        Err(DialFault::NoSocket)
    }

    /// Watches a connection. Gives whether that succeeded.
    fn is_watched(&self, key: usize) -> bool {
        match self.connections.get(key) {
            Some(endpoint) => watch(self.set, &endpoint.stream, Source::Endpoint(key)).is_ok(),
            None => false,
        }
    }

    /// Notes an event of a connection. Gives the client whose request is on it. A connection without a request is closed: its
    /// endpoint has ended it, or sent bytes that no request asked for.
    pub(crate) fn note(&mut self, key: usize, told: Told) -> Option<usize> {
        let endpoint = self.connections.get_mut(key)?;
        endpoint.ready.note(told);
        let is_unasked = endpoint.ready.input;
        match endpoint.client {
            Some(client) => Some(client),
            None => {
                if is_unasked {
                    self.kept.remove(key);
                    self.close(key);
                }
                None
            }
        }
    }

    /// The request on a connection is over: keeps the connection for another one, or closes it. It is not kept if bytes of
    /// it may be unread.
    pub(crate) fn end_use(&mut self, key: usize, goes_back: bool, now: u64) {
        match self.connections.get_mut(key) {
            Some(endpoint) if may_stay(goes_back, endpoint.ready) => {
                endpoint.client = None;
                let port = endpoint.port;
                if let Some(oldest) = self.kept.put(key, port, now) {
                    self.close(oldest.key);
                }
            }
            _ => self.close(key),
        }
    }

    pub(crate) fn close(&mut self, key: usize)
        ensures kept { self.new.kept ≡ self.old.kept }
    {
        self.connections.remove(key);
    }

    /// Resets the connection of the request of a client, so that its endpoint can tell that the request was cut off.
    pub(crate) fn reset_used_by(&self, client: &Client) {
        if let Some(key) = client.endpoint
            && let Some(endpoint) = self.connections.get(key)
        {
            reset(&endpoint.stream);
        }
    }

    /// Closes the connection of the request of a client, and gives the port of its endpoint.
    pub(crate) fn close_used_by(&mut self, client: &mut Client) -> Option<u16>
        ensures unused { client.new.endpoint ≡ None }
        ensures kept { self.new.kept ≡ self.old.kept }
    {
        let key = client.endpoint.take()?;
        let port = self.connections.get(key)?.port;
        self.close(key);
        Some(port)
    }

    /// Closes the connections that no request was on for too long.
    pub(crate) fn close_idle(&mut self, now: u64) {
        for _ in 0..self.kept.get().len() {
            match self.kept.take_idle(self.settings.kept_millis, now) {
                Some(idle) => self.close(idle.key),
                None => return,
            }
        }
    }

    /// Closes the connections that no request is on and whose revision is scaled down.
    pub(crate) fn close_scaled_down(&mut self) {
        for _ in 0..self.kept.get().len() {
            match scaled_down(self.kept.get(), self.ports) {
                Some(port) => self.close_kept_to(port),
                None => return,
            }
        }
    }

    /// Closes the connections to a port that no request is on.
    fn close_kept_to(&mut self, port: u16) {
        for _ in 0..self.kept.get().len() {
            match self.kept.take_to(&[port]) {
                Some(idle) => self.close(idle.key),
                None => return,
            }
        }
    }

    /// Keeps no connection from now on.
    pub(crate) fn keep_none(&mut self) {
        self.settings.persistence = Persistence::Close;
        for _ in 0..self.kept.get().len() {
            match self.kept.take_oldest() {
                Some(oldest) => self.close(oldest.key),
                None => return,
            }
        }
    }

    /// Lets the keys of closed connections be given again.
    pub(crate) fn reuse_keys(&mut self) {
        self.connections.reuse_keys();
    }
}

/// Whether a connection is kept whose request is over: it may be, and no byte of it can be unread. The next request would
/// get such a byte as its response, since no event comes again for it.
fn may_stay(goes_back: bool, ready: Readiness) -> bool
    ensures { result ≡ (goes_back && not ready.input) }
{
    goes_back && !ready.input
}

/// The port of the first of these connections whose revision is scaled down.
fn scaled_down<P: EndpointPorts>(kept: &[KeptConnection], ports: &P) -> Option<u16>
    ensures { IfSome result (λ port. P.lives ports.now port false) }
{
    let mut live = None;
    for idle in kept.iter() {
        if live != Some(idle.port) {
            if !ports.is_live(idle.port) {
                return Some(idle.port);
            }
            live = Some(idle.port);
        }
    }
    None
}
