//! Connections to endpoints that are kept for further requests.
ghost use Rattle.std.specs.Prelude.{◌≡◌, ◌≢◌, ◌<◌, ◌≤◌, ◌++◌, ◌∷◌, [], IfNone, IfOk, None, Some, find, length, position, remove, slice_get};
ghost use Rattle.std.specs.List.{AllByRecursion};
ghost use Rattle.bg_endpoint_side.specs.KeptLists.{AreInOrder, IsLastPlace, IsLater, IsPlace, IsPut, TakesNewest};
ghost use Rattle.bg_endpoint_side.specs.KeptLists.{has_key, has_port, in_front, is_among, is_idle_for, last_since, without_first};

use std::alloc::{AllocError, Global};
use std::marker::Model;

/// A connection to an endpoint that no request is on.
#[derive(Clone, Copy, PartialEq, Eq, Debug, Drop)]
pub struct KeptConnection {
    /// The key by which its caller knows the connection.
    pub key: usize,
    /// The port of its endpoint.
    pub port: u16,
    /// Since when no request is on it, in milliseconds from the start of the program.
    pub since: u64,
}

/// Connections to endpoints that no request is on, up to a number, in the order in which they were put here. A connection
/// that is taken out is here no longer, so it carries at most one request at a time. What this gives was put here, and
/// is given once: the caller uses it for a request, or closes it.
pub struct KeptConnections {
    connections: Vec<KeptConnection>,
    most: usize,
}

impl Drop for KeptConnections {
    /// Drops the fields by one call, so that the proofs of what owns a value are short (CONTRIBUTING.md, "What a check costs").
    fn drop(self) {
        let KeptConnections {
            connections: _,
            most: _,
        } = self;
    }
}

impl Model for KeptConnections {
    ghost use Rattle.std.specs.Prelude.{◌≤◌, length, vec_capacity};
    ghost use Rattle.bg_endpoint_side.specs.KeptLists.{AreInOrder, Kept};

    ghost Value = { Kept };

    ghost view = { λ k. record { connections = k.connections.items; most = k.most } };

    ghost invariant = { λ k. AreInOrder k.connections.items × (length k.connections.items ≤ k.most)
        × (k.most ≤ vec_capacity k.connections) };
}

impl KeptConnections {
    /// No connection, and room for `most`. The only error is an allocation failure.
    pub fn new(alloc: Global, most: usize) -> Result<KeptConnections, AllocError>
        ensures { IfOk result (λ kept. kept ≡ record { connections = []; most = most }) }
    {
        Ok(KeptConnections {
            connections: Vec::with_capacity(alloc, most)?,
            most,
        })
    }

    /// The connections, the oldest one first.
    pub fn get(&self) -> &[KeptConnection]
        ensures value { result.now ≡ self.now.connections }
        ensures order { AreInOrder self.now.connections }
        ensures few { length self.now.connections ≤ self.now.most }
    {
        self.connections.as_slice()
    }

    /// Takes out the connection to this port that was put here last, so that the others reach their timeout. `None` if
    /// there is none.
    pub fn take(&mut self, port: u16) -> Option<KeptConnection>
        ensures taken { TakesNewest (has_port port) self.old.connections result self.new.connections }
        ensures most { self.new.most ≡ self.old.most }
    {
        match last_place_to(self.connections.as_slice(), port) {
            Some(place) => Some(self.remove_at(place)),
            None => None,
        }
    }

    /// Takes out the connection of this key, since it ended, failed or sent bytes that no request asked for. `None` if it
    /// is not here.
    pub fn remove(&mut self, key: usize) -> Option<KeptConnection>
        ensures removed { result ≡ find (has_key key) self.old.connections }
        ensures left { self.new ≡ record self.old {
          connections = without_first (has_key key) self.old.connections;
        } }
        ensures gone { AllByRecursion (λ one. one.key ≢ key) self.new.connections }
    {
        match place_of(self.connections.as_slice(), key) {
            Some(place) => Some(self.remove_at(place)),
            None => None,
        }
    }

    /// Takes out the oldest connection to one of these ports, since their revision is scaled down. `None` if there is none.
    pub fn take_to(&mut self, ports: &[u16]) -> Option<KeptConnection>
        ensures removed { result ≡ find (is_among ports.now) self.old.connections }
        ensures left { self.new ≡ record self.old {
          connections = without_first (is_among ports.now) self.old.connections;
        } }
    {
        match place_to(self.connections.as_slice(), ports) {
            Some(place) => Some(self.remove_at(place)),
            None => None,
        }
    }

    /// Takes out the oldest connection that no request was on for `timeout` milliseconds. `None` if there is none.
    pub fn take_idle(&mut self, timeout: u64, now: u64) -> Option<KeptConnection>
        ensures removed { result ≡ find (is_idle_for timeout now) self.old.connections }
        ensures left { self.new ≡ record self.old {
          connections = without_first (is_idle_for timeout now) self.old.connections;
        } }
    {
        match idle_place(self.connections.as_slice(), timeout, now) {
            Some(place) => Some(self.remove_at(place)),
            None => None,
        }
    }

    /// Takes out the oldest connection. `None` if there is none.
    pub fn take_oldest(&mut self) -> Option<KeptConnection>
        ensures taken { in_front result self.new.connections ≡ self.old.connections }
        ensures none { IfNone result (self.old.connections ≡ []) }
        ensures most { self.new.most ≡ self.old.most }
    {
        if self.connections.is_empty() {
            return None;
        }
        Some(self.remove_at(0))
    }

    /// Puts a connection here that no request is on from now on, as the newest one. If it was here, it is here once. Gives
    /// the connection that is to be closed: the oldest one if there is no room, and this one if there is never room.
    pub fn put(&mut self, key: usize, port: u16, now: u64) -> Option<KeptConnection>
        ensures { IsPut key port now self.old result self.new }
    {
        self.remove(key);
        let since = now.max(self.last_since());
        let connection = KeptConnection { key, port, since };
        if self.most == 0 {
            return Some(connection);
        }
        let oldest = self.make_room();
        self.push(connection);
        oldest
    }

    /// Takes out the oldest connection if there is no room for another one.
    fn make_room(&mut self) -> Option<KeptConnection>
        requires { 0 < self.old.most }
        ensures taken { in_front result self.new.connections ≡ self.old.connections }
        ensures most { self.new.most ≡ self.old.most }
        ensures room { length self.new.connections < self.new.most }
        ensures only_if_full { length self.old.connections < self.old.most → result ≡ None }
    {
        if self.connections.len() < self.most {
            return None;
        }
        self.take_oldest()
    }

    /// Puts the newest connection here.
    fn push(&mut self, connection: KeptConnection)
        requires room { length self.old.connections < self.old.most }
        requires newest { AllByRecursion (λ one. IsLater one connection) self.old.connections }
        ensures { self.new ≡ record self.old {
          connections = self.old.connections ++ connection ∷ [];
        } }
    {
        match self.connections.push(connection) {
            Ok(()) => {}
            Err(_) => unreachable!(),
        }
    }

    /// From when the newest connection is idle; 0 if there is none.
    fn last_since(&self) -> u64
        ensures { result ≡ last_since self.now.connections }
    {
        match self.connections.last() {
            Some(last) => last.since,
            None => 0,
        }
    }

    /// Takes out the connection at a place.
    fn remove_at(&mut self, place: usize) -> KeptConnection
        requires { place < length self.old.connections }
        ensures removed { slice_get self.old.connections place ≡ Some result }
        ensures left { self.new ≡ record self.old { connections = remove self.old.connections place } }
    {
        self.connections.remove(place)
    }
}

/// The place of the connection of this key.
fn place_of(connections: &[KeptConnection], key: usize) -> Option<usize>
    ensures { IsPlace (has_key key) connections.now result }
{
    index_of(connections, key)
}

/// The index of the connection of this key.
fn index_of(connections: &[KeptConnection], key: usize) -> Option<usize>
    ensures { result ≡ position (has_key key) connections.now }
{
    connections.iter().position(|one| one.key == key)
}

/// The place of the first connection to one of these ports.
fn place_to(connections: &[KeptConnection], ports: &[u16]) -> Option<usize>
    ensures { IsPlace (is_among ports.now) connections.now result }
{
    index_to(connections, ports)
}

/// The index of the first connection to one of these ports.
fn index_to(connections: &[KeptConnection], ports: &[u16]) -> Option<usize>
    ensures { result ≡ position (is_among ports.now) connections.now }
{
    connections.iter().position(|one| ports.contains(&one.port))
}

/// The place of the first connection that no request was on for so many milliseconds. Only the first one may be it, if the
/// oldest ones come first.
fn idle_place(connections: &[KeptConnection], timeout: u64, now: u64) -> Option<usize>
    requires { AreInOrder connections.now }
    ensures { IsPlace (is_idle_for timeout now) connections.now result }
{
    let [oldest, ..] = connections else {
        return None;
    };
    if now.saturating_sub(oldest.since) < timeout {
        return None;
    }
    Some(0)
}

/// The place of the last connection to this port.
fn last_place_to(connections: &[KeptConnection], port: u16) -> Option<usize>
    ensures { IsLastPlace (has_port port) connections.now result }
{
    let mut place = connections.len();
    while place > 0 {
        place -= 1;
        if connections[place].port == port {
            return Some(place);
        }
    }
    None
}
