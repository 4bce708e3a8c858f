//! What the event loops of a client port share: its listeners, how many connections and requests it takes, what their
//! connections come to, its shutdown, and what is reported of it.
#![tactic(auto)]

mod accept;
mod admission;
mod loads_of_loops;
mod longest_waiting;
mod loop_port;
#[cfg(test)]
mod order;
mod port_listener;
#[cfg(test)]
mod two_listeners;
#[cfg(test)]
mod two_loops;
mod waiting_loop;
#[cfg(test)]
mod wakes;

pub use accept::Accepted;
pub use loop_port::{CutAnswers, LoopPort, LoopPortSettings};
