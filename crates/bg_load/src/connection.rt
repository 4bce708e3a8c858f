//! A connection of a client.
ghost use Rattle.std.specs.Prelude.{◌≡◌, Some};
ghost use Rattle.bg_load.specs.Pauses.{is_large_from};

use crate::load::Load;

/// A connection of a client.
#[derive(Clone, Copy, PartialEq, Eq, Drop)]
pub struct Connection {
    /// The number of its request, or of its last one, in the order in which requests began. A connection that is accepted
    /// begins one. No two connections have the same number.
    pub(crate) number: u64,
    pub(crate) load: Load,
}

impl Connection {
    /// The same with another load.
    pub(crate) fn with(self, load: Load) -> Connection
        ensures { result ≡ record self { load = load } }
    {
        Connection { load, ..self }
    }

    /// Whether its request is large, and its number is at least this one.
    pub(crate) fn is_large_from(self, least: u64) -> bool
        ensures { result ≡ is_large_from least (Some self) }
    {
        self.load.activity.is_large() && least <= self.number
    }
}
