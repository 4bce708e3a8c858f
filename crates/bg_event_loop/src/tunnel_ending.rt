//! How a tunnel ended, for the log.

use bg_tunnel::TunnelEnd;

/// How a tunnel ended that a request became.
#[derive(Clone, Copy, PartialEq, Eq, Debug, Drop)]
pub enum TunnelEnding {
    /// It ended by what its peers did, or did not do.
    Ended(TunnelEnd),
    /// It was given up: its request drained for too long, or the time of a graceful shutdown was over.
    GivenUp,
}
