//! The clients' side of the switch, as a machine without sockets: a connection of a client that is kept over several
//! requests, and the seats that the requests wait for.
#![tactic(auto)]

mod answering;
mod arriving_bytes;
#[cfg(test)]
mod attacks;
mod client_connection;
mod ending;
mod facts;
pub mod laws;
mod outgoing;
mod passing;
mod reading;
pub mod seat_laws;
mod seats;
mod stage;
mod terms;

pub use client_connection::ClientConnection;
pub use facts::ClientSettings;
pub use reading::Fed;
pub use seats::{Entered, Seats};
pub use terms::asks_to_keep;
