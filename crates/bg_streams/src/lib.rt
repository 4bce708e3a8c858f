//! Passes the responses of endpoints on as they come, as a machine without sockets: the head once it is whole, and then the body, of
//! which at most a window is held.
#![tactic(auto)]

mod framings;
mod head_text;
pub mod laws;
mod passing;
mod response_relay;
mod response_stream;
mod stream_fault;
pub mod stream_laws;
mod stream_terms;

pub use response_relay::ResponseRelay;
pub use response_stream::ResponseStream;
pub use stream_fault::StreamFault;
pub use stream_terms::StreamTerms;
