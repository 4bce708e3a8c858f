//! How a tunnel ended.

use crate::peer::Peer;

/// How a tunnel ended.
#[derive(Clone, Copy, PartialEq, Eq, Debug, Drop)]
pub enum TunnelEnd {
    /// Both inputs have ended, and each peer took all bytes of the other one, and its end.
    Whole,
    /// The connection of this peer was reset, or a read or a write failed.
    Failed(Peer),
    /// No byte came or was taken for the timeout.
    Silent,
}
