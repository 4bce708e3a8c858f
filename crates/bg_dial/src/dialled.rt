//! What a dial gives.
ghost use Rattle.std.specs.Prelude.{◌≡◌};

use std::io;

/// The ports that were dialled for a request.
#[derive(Clone, Copy, PartialEq, Eq, Debug, Drop)]
pub struct Route {
    /// The port that was dialled last. It is the port of the connection, if there is one.
    pub port: u16,
    /// The number of ports that were dialled, at least 1.
    pub tries: u32,
}

/// What a dial gave: a connection, or why there is none, and which ports were dialled.
#[derive(Drop)]
pub struct Dialled<S> {
    pub route: Route,
    pub stream: io::Result<S>,
}

impl<S> Dialled<S> {
    /// What the dial of one port gave.
    pub fn once(port: u16, stream: io::Result<S>) -> Dialled<S>
        ensures { result ≡ record { route = record { port = port; tries = 1 }; stream = stream } }
    {
        Dialled {
            route: Route { port, tries: 1 },
            stream,
        }
    }
}
