//! The two peers of a tunnel.
ghost use Rattle.std.specs.Prelude.{◌≡◌};
ghost use Rattle.bg_tunnel.specs.Peers.{other};

/// A peer of a tunnel.
#[derive(Clone, Copy, PartialEq, Eq, Debug, Drop)]
pub enum Peer {
    /// The client, which asked for the upgrade.
    Client,
    /// The endpoint, which answered with 101 (RFC 9110 section 15.2.2).
    Endpoint,
}

impl Peer {
    /// The other one of the two peers.
    pub fn other(self) -> Peer
        ensures { result ≡ other self }
    {
        match self {
            Peer::Client => Peer::Endpoint,
            Peer::Endpoint => Peer::Client,
        }
    }
}
