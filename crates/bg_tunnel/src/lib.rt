//! Passes bytes between a client and an endpoint after an upgrade, without reading them. It is a machine without sockets (RFC 9110
//! sections 3.7 and 7.8): each direction goes on until it ends, and a peer is read only while less than a window of bytes waits for
//! the other one.
#![tactic(auto)]

mod direction;
pub mod laws;
mod peer;
#[cfg(test)]
mod runs;
mod tunnel;
mod tunnel_end;

pub use peer::Peer;
pub use tunnel::{Tunnel, WINDOW};
pub use tunnel_end::TunnelEnd;
