//! Serves a connection from its request to its answer, and runs workers that do so in parallel.
//!
//! Each worker has its own seat. A request enters at a [`Gate`] before it is forwarded, and leaves
//! there after the answer, on every path. [`Accept`] gives the clients whose requests were received, and
//! [`Dial`] the connections to endpoints, so all of it also runs over memory.
#![tactic(auto)]

mod buffered;
mod desk_gate;
mod forwarding;
mod gate;
mod in_memory;
mod reason;
mod serving;
mod streams;
mod workers;

pub use bg_dial::{Dial, Dialled, Route};
pub use bg_http::RefusalBody;
pub use buffered::Buffered;
pub use desk_gate::DeskGate;
pub use gate::Gate;
pub use in_memory::{InMemoryResult, receive_in_memory, serve_in_memory};
pub use reason::Reason;
pub use serving::{End, Served, Worker, serve_one, serve_received};
pub use streams::{Accept, Arrived, ClientStream};
pub use workers::{WorkerContext, run_workers};
