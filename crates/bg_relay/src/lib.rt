//! Relays the body of an HTTP/1.1 message as it comes (RFC 9112 sections 6.3 and 7.1), as a machine without sockets: a body that
//! is read in one framing is written in another one, and at most a window of it is held.
#![tactic(auto)]

mod framing;
pub mod laws;
mod pieces;
mod relay;
mod relay_fault;
mod steps;

pub use framing::{Framing, Sides};
pub use relay::Relay;
pub use relay_fault::RelayFault;
