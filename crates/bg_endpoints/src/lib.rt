//! The endpoints of revisions, which are ports of this machine: which of them a request is dialled at.
#![tactic(auto)]

mod directory;
mod own_ports;
mod port_lists;
mod port_state;
mod response_timeout;
mod share;
mod table;

pub use directory::Directory;
pub use own_ports::OwnPorts;
pub use port_lists::{PortList, PortLists};
pub use response_timeout::ResponseTimeout;
pub use share::Share;
