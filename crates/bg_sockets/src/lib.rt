//! What ports need of the system: epoll sets, signals, calls of sockets that never wait, listeners and addresses, the
//! clock, and the number of descriptors that the process may have.
#![tactic(auto)]

mod backlog;
mod calls;
mod clock;
mod descriptors;
mod epoll_set;
mod listening;
mod signal;
mod socket_address;
#[cfg(test)]
mod tests;

pub use backlog::{begin_to_listen, set_backlog};
pub use calls::{OtherEnd, await_input, is_drained, is_ready, other_end, receive_now, send_now};
pub use clock::PortClock;
pub use descriptors::{DescriptorLimits, descriptor_limits};
pub use epoll_set::{EpollSet, Watched};
pub use listening::{is_of_this_machine, listen_at};
pub use signal::Signal;
pub use socket_address::SocketAddress;
