//! How a request is forwarded.

use bg_endpoint_side::Timeouts;
use bg_http::Persistence;

/// How a request is forwarded.
#[derive(Clone, Copy, Drop)]
pub struct Route {
    /// The port of its endpoint.
    pub port: u16,
    /// Whether its text keeps the connection to the endpoint.
    pub persistence: Persistence,
    pub timeouts: Timeouts,
    /// Whether a request that asks for an upgrade is forwarded as one (RFC 9110 section 7.8). Otherwise its Upgrade fields are dropped.
    pub upgrades: bool,
}
