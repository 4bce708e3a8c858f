//! The port and the socket at which operators connect. One thread answers the lines of all connections, one line after the
//! other.
//!
//! [`ControlPort::next`] waits for a whole line and gives it with its connection, as its owner reads lines
//! ([`ReadsLines`]), and [`ControlPort::reply`] takes the reply. Connections take turns by lines, and no connection holds up another one: a part of a line is kept
//! until the rest comes, and what a connection does not take of its reply is kept for it. [`ReadsLines`] also
//! says which lines are urgent, and go before all others. The port can be one for listed users only
//! ([`ControlPort::new`]). Who may connect to the socket, its file says ([`SocketFile`]).
#![tactic(auto)]

mod acceptor;
mod admission;
mod bounds;
mod buffer;
mod connection;
mod connections;
mod events;
pub mod laws;
mod listener;
mod operators;
mod peer;
mod port;
mod readiness;
mod reading;
mod reply;
mod socket_file;
mod turn;
mod writing;

pub use connections::{Asked, Asker};
pub use events::ControlEvents;
pub use listener::{ControlListeners, Entrance};
pub use peer::Peer;
pub use port::ControlPort;
pub use reading::{ReadsLines, WholeLine};
pub use reply::{AfterReply, Reply};
pub use socket_file::{SocketFault, SocketFile, SocketSettings};
