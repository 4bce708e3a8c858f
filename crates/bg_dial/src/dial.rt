//! Opens connections to endpoints.
ghost use Rattle.std.specs.Prelude.{ℕ, ⊤};
ghost use Rattle.bg_dial.specs.declared.dialled.Route.{Route};

use crate::dialled::Dialled;
use std::io::{Read, Write};

/// Opens connections to endpoints.
pub trait Dial {
    /// The fact that holds for the route of a dial of a port.
    ghost routes: { Self → ℕ → Route → Type 0 } = { λ _ _ _. ⊤ };

    /// A connection to an endpoint. It is closed when it is dropped.
    type Stream: Read + Write + Drop;

    /// Opens a connection to a port, or to another port of the same revision. The implementation decides
    /// which ports it dials, and tells it as the route. Nothing is written to the connection.
    fn dial(&self, port: u16) -> Dialled<Self::Stream>
        ensures { Self.routes self.now port result.route };
}
