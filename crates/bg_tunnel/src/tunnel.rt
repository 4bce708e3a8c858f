//! What is passed between a client and an endpoint after an upgrade.
ghost use Rattle.std.specs.Prelude.{◌≡◌, OnErr, OnOk};
ghost use Rattle.bg_tunnel.specs.Tunnels as spec;

use crate::direction::Direction;
use crate::peer::Peer;
use crate::tunnel_end::TunnelEnd;
use std::alloc::{AllocError, Global};
use std::marker::Model;

/// The number of bytes that may wait for a peer before no more are to be read from the other one.
pub const WINDOW: usize = 65_536;

/// What is passed between a client and an endpoint after the endpoint has answered with 101 (RFC 9110 section 7.8), as the
/// WebSockets of RFC 6455. The bytes are passed on as they are. It has no socket: its caller reads, writes, shuts down and closes as
/// it says, and tells what happened. Moments are milliseconds.
pub struct Tunnel {
    for_client: Direction,
    for_endpoint: Direction,
    /// The time without a byte after which it is over.
    timeout_millis: u64,
    /// The moment of the last byte that came or was taken.
    last_byte: u64,
    /// How it ended, if it has.
    ending: Option<TunnelEnd>,
}

impl Drop for Tunnel {
    /// Drops the fields by one call, so that the proofs of what owns a value are short (CONTRIBUTING.md, "What a check costs").
    fn drop(self) {
        let Tunnel {
            for_client: _,
            for_endpoint: _,
            timeout_millis: _,
            last_byte: _,
            ending: _,
        } = self;
    }
}

impl Model for Tunnel {
    ghost use Rattle.bg_tunnel.specs.Tunnels.{TunnelState};

    ghost Value = { TunnelState };

    ghost view = { λ t. record {
      for_client = t.for_client;
      for_endpoint = t.for_endpoint;
      timeout_millis = t.timeout_millis;
      last_byte = t.last_byte;
      ending = t.ending;
    } };
}

impl Tunnel {
    /// A tunnel in which these bytes wait already: what the client sent behind its request, and the head of the response with what
    /// the endpoint sent behind it. If no byte comes or is taken in either direction for `timeout_millis`, it is over.
    pub fn new(
        alloc: Global,
        for_endpoint: Vec<u8>,
        for_client: Vec<u8>,
        timeout_millis: u64,
        now: u64,
    ) -> Tunnel
        ensures { result ≡ spec.begun for_endpoint.items for_client.items timeout_millis now }
    {
        Tunnel {
            for_client: Direction::new(alloc, for_client),
            for_endpoint: Direction::new(alloc, for_endpoint),
            timeout_millis,
            last_byte: now,
            ending: None,
        }
    }

    /// Whether bytes of this peer are to be read: its input has not ended, the tunnel is not over, and fewer than `WINDOW` bytes
    /// wait for the other peer.
    pub fn wants_input(&self, peer: Peer) -> bool
        ensures { result ≡ spec.wants_input peer self.now }
    {
        self.accepts(peer) && self.direction(peer.other()).waiting().len() < WINDOW
    }

    /// What is to be written to this peer now. Nothing is, once the tunnel is over.
    pub fn rest(&self, peer: Peer) -> &[u8]
        ensures { result.now ≡ spec.to_write peer self.now }
    {
        if self.is_over() {
            return &[];
        }
        self.direction(peer).waiting()
    }

    /// Whether the writing side of the connection to this peer is to be shut now: the input of the other peer has ended, all its
    /// bytes were written, and it is not shut yet.
    pub fn is_to_shut(&self, peer: Peer) -> bool
        ensures { result ≡ spec.is_to_shut peer self.now }
    {
        let direction = self.direction(peer);
        !self.is_over()
            && direction.has_ended()
            && direction.waiting().is_empty()
            && !direction.is_shut()
    }

    /// Whether the writing side of the connection to this peer was shut.
    pub fn is_shut(&self, peer: Peer) -> bool
        ensures { result ≡ (spec.direction peer self.now).is_shut }
    {
        self.direction(peer).is_shut()
    }

    /// Whether the tunnel is over: both connections are to be closed then.
    pub fn is_over(&self) -> bool
        ensures { result ≡ spec.is_over self.now }
    {
        self.ending.is_some()
    }

    /// How the tunnel ended, if it is over. After an end that is not whole, both connections are to be reset, so that neither peer
    /// takes a part for all.
    pub fn ending(&self) -> Option<TunnelEnd>
        ensures { result ≡ self.now.ending }
    {
        self.ending
    }

    /// The number of bytes that this peer took since the begin, at most `u64::MAX`.
    pub fn passed(&self, peer: Peer) -> u64
        ensures { result ≡ (spec.direction peer self.now).passed }
    {
        self.direction(peer).passed()
    }

    /// Adds bytes that came from this peer, for the other one, also beyond the window. If the input of the peer has ended, or the
    /// tunnel is over, nothing changes. Without memory nothing changes, and the error says so.
    pub fn feed(&mut self, peer: Peer, bytes: &[u8], now: u64) -> Result<(), AllocError>
        ensures fed { OnOk result (self.new ≡ spec.fed peer bytes.now now self.old) }
        ensures kept { OnErr result (self.new ≡ self.old) }
    {
        if !self.accepts(peer) {
            return Ok(());
        }
        match peer {
            Peer::Client => self.for_endpoint.add(bytes)?,
            Peer::Endpoint => self.for_client.add(bytes)?,
        }
        self.note_bytes(bytes.len(), now);
        Ok(())
    }

    /// Notes that so many bytes were written to this peer, at most the rest.
    pub fn took(&mut self, peer: Peer, count: usize, now: u64)
        ensures { self.new ≡ spec.taken peer count now self.old }
    {
        if self.is_over() {
            return;
        }
        let taken = match peer {
            Peer::Client => self.for_client.take(count),
            Peer::Endpoint => self.for_endpoint.take(count),
        };
        self.note_bytes(taken, now);
    }

    /// Notes that the input of this peer ended. The other direction goes on.
    pub fn end_input(&mut self, peer: Peer)
        ensures { self.new ≡ spec.input_ended peer self.old }
    {
        if self.is_over() {
            return;
        }
        match peer {
            Peer::Client => self.for_endpoint.end(),
            Peer::Endpoint => self.for_client.end(),
        }
    }

    /// Notes that the writing side of the connection to this peer was shut. If it was not to be, nothing changes. If both are
    /// shut, the tunnel is over, and whole.
    pub fn note_shut(&mut self, peer: Peer)
        ensures { self.new ≡ spec.end_passed peer self.old }
    {
        if !self.is_to_shut(peer) {
            return;
        }
        match peer {
            Peer::Client => self.for_client.shut(),
            Peer::Endpoint => self.for_endpoint.shut(),
        }
        if self.for_client.is_shut() && self.for_endpoint.is_shut() {
            self.ending = Some(TunnelEnd::Whole);
        }
    }

    /// Notes that the connection of this peer was reset, or that a read or a write failed: the tunnel is over.
    pub fn fail(&mut self, peer: Peer)
        ensures { self.new ≡ spec.failed peer self.old }
    {
        if !self.is_over() {
            self.ending = Some(TunnelEnd::Failed(peer));
        }
    }

    /// Looks at the time: if no byte came or was taken in either direction for the timeout, the tunnel is over.
    pub fn look(&mut self, now: u64)
        ensures { self.new ≡ spec.looked now self.old }
    {
        if !self.is_over() && self.is_silent(now) {
            self.ending = Some(TunnelEnd::Silent);
        }
    }

    /// The direction to this peer.
    fn direction(&self, peer: Peer) -> &Direction
        ensures { result.now ≡ spec.direction peer self.now }
    {
        match peer {
            Peer::Client => &self.for_client,
            Peer::Endpoint => &self.for_endpoint,
        }
    }

    /// Whether bytes of this peer are taken: its input has not ended, nor has the tunnel.
    fn accepts(&self, peer: Peer) -> bool
        ensures { result ≡ spec.accepts peer self.now }
    {
        !self.is_over() && !self.direction(peer.other()).has_ended()
    }

    /// Whether the timeout has passed since the last byte.
    fn is_silent(&self, now: u64) -> bool
        ensures { result ≡ spec.is_silent now self.now }
    {
        match now.checked_sub(self.last_byte) {
            Some(since) => self.timeout_millis <= since,
            None => false,
        }
    }

    /// Notes that so many bytes came or were taken.
    fn note_bytes(&mut self, count: usize, now: u64)
        ensures { self.new ≡ spec.at_moment count now self.old }
    {
        if count > 0 {
            self.last_byte = now;
        }
    }
}
