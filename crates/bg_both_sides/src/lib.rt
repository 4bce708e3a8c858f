//! Both sides of a client's connection, without sockets.
//!
//! One machine joins the clients' side (bg_client_side) and the endpoints' side (bg_endpoint_side): a client's connection
//! together with the request that it has at an endpoint.
#![tactic(auto)]

mod answering;
#[cfg(test)]
mod attacks;
mod both_sides;
mod client_events;
mod endpoint_events;
mod endpoint_side;
mod endpoint_step;
mod entering;
mod large_requests;
pub mod laws;
mod route;
mod stream_limits;
mod streamed_events;
mod streamed_step;
mod texts;
mod upgrading;

pub use both_sides::BothSides;
pub use endpoint_step::{Ending, EndpointStep, Given};
pub use route::Route;
pub use stream_limits::StreamLimits;
pub use upgrading::Upgraded;
