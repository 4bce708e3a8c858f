//! Which large requests are paused.
ghost use Rattle.std.specs.Prelude.{◌≡◌};
ghost use Rattle.bg_load.specs.Pauses.{is_large_from, is_paused, is_stuck};
ghost use Rattle.bg_load.specs.Stalls.{is_moving};

use crate::connection::Connection;

/// Which large requests are paused.
#[derive(Clone, Copy, PartialEq, Eq, Drop)]
pub enum Pauses {
    /// None.
    Off,
    /// All but the eight oldest.
    Younger,
    /// All.
    All,
}

/// Whether the request of a place is paused.
pub(crate) fn is_paused(place: Option<Connection>) -> bool
    ensures { result ≡ is_paused place }
{
    match place {
        Some(connection) => connection.load.is_paused,
        None => false,
    }
}

/// Whether the request of a place is large, and slower than its pace.
pub(crate) fn is_stuck(place: Option<Connection>, now: u64) -> bool
    ensures { result ≡ is_stuck now place }
{
    match place {
        Some(connection) => connection.load.is_stuck(now),
        None => false,
    }
}

/// Whether the request of a place is large, goes on, and has made progress lately.
pub(crate) fn is_moving(place: Option<Connection>, now: u64) -> bool
    ensures { result ≡ is_moving now place }
{
    match place {
        Some(connection) => connection.load.is_moving(now),
        None => false,
    }
}

/// Whether the request of a place is large, and its number is at least this one.
pub(crate) fn is_large_from(place: Option<Connection>, least: u64) -> bool
    ensures { result ≡ is_large_from least place }
{
    match place {
        Some(connection) => connection.is_large_from(least),
        None => false,
    }
}
