//! The event loops that serve the clients of a port, each in one thread.
//!
//! A loop carries out what bg_both_sides says of each client and of its request, over sockets that never wait. Each loop
//! has an epoll set, the clients that it accepted, its connections to endpoints, and seats of a book. No call waits but
//! the one for events. The loops of a port share its listener, the turns of its requests, and the bounds on what its
//! connections take (bg_loop_port).
#![tactic(auto)]

mod accept_rounds;
mod accepting;
mod answer_progress;
mod book_ports;
mod client;
mod client_steps;
mod endpoint;
mod endpoint_ports;
mod endpoints;
mod event_loop;
mod events;
mod fair_share;
mod forwarding;
mod inside;
mod large_requests;
pub mod laws;
mod logging;
mod loops;
mod moments;
mod origin;
mod outcome;
mod readiness;
mod request_log;
mod request_record;
mod room;
mod running;
mod seating;
mod settings;
mod slots;
mod sockets;
mod sweeping;
mod tries;
mod tunnel_ending;
mod tunnels;
mod uploads;
mod waiting;

pub use book_ports::BookPorts;
pub use endpoint_ports::EndpointPorts;
pub use loops::run_event_loops;
pub use request_log::{EndedRequest, RequestLine, RequestLog};
pub use running::{LoopContext, run_event_loop};
pub use settings::{EndpointSettings, KeptSettings, LoopSettings, OriginSettings, UploadSettings};
pub use tunnel_ending::TunnelEnding;
