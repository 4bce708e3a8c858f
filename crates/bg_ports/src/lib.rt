//! The ports at which `serve` listens, the control socket, and the notices that are written to standard error while they
//! are open.
#![tactic(auto)]

mod addresses;
mod bind_fault;
mod descriptors;
mod event_loops;
mod notice;
mod notices;
mod own_ports;
mod ports;
mod socket_mode;

pub use bind_fault::BindFault;
pub use descriptors::{FewDescriptors, bounds_of};
pub use event_loops::EventLoops;
pub use notice::Resumed;
pub use notices::Notices;
pub use ports::{Ports, preview_workers, service_name};
