//! What the system tells of the other end of a connection on this machine: which user made its socket; and the users that
//! a list names, and the groups.
#![tactic(auto)]

mod confirmed;
mod end_point;
mod lines;
mod names;
mod peer_lookup;
mod peer_table;
mod socket_row;
mod system_lookup;
mod text_file;
mod users;

pub use names::group_number;
pub use peer_lookup::PeerLookup;
pub use socket_row::PeerSocket;
pub use system_lookup::SystemLookup;
pub use users::{Users, UsersFault};
