//! The revisions of a rollout, and the revisions that the services select.
#![tactic(auto)]

mod name;
mod ports;
mod replica_ports;
mod revision;
mod revision_fault;
mod roster;

pub use name::Name;
pub use ports::Ports;
pub use replica_ports::are_replica_ports;
pub use revision::{Revision, Selectors, Service};
pub use revision_fault::RevisionFault;
pub use roster::{MOST_REVISIONS, Roster};
