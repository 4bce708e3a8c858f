//! The endpoints' side of the switch, as a machine without sockets: a request that is forwarded to an endpoint, and the
//! connections that are kept for further requests.
#![tactic(auto)]

mod answering;
mod arrived_bytes;
#[cfg(test)]
mod arrived_tests;
#[cfg(test)]
mod attacks;
mod connection_state;
mod deadlines;
mod dialing_request;
mod endpoint_request;
mod forwarded_request;
mod kept_connections;
pub mod laws;
mod outcome;
mod outgoing_text;
#[cfg(test)]
mod streamed_attacks;
mod streamed_events;
mod streamed_request;
mod streamed_step;
mod terms;
mod uncopied;
mod version;

pub use deadlines::Timeouts;
pub use dialing_request::DialingRequest;
pub use forwarded_request::{ForwardedRequest, Step};
pub use kept_connections::{KeptConnection, KeptConnections};
pub use outcome::{DialFault, ForwardFault, GivingUp, Health, Outcome};
pub use streamed_request::StreamedRequest;
pub use streamed_step::{StreamedAnswer, StreamedStep};
pub use terms::{Terms, is_idempotent};
pub use uncopied::uncopied_body;
