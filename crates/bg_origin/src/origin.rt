//! Where a request comes from.

use std::net::IpAddr;

/// Where a request comes from, and what is believed of it.
#[derive(Clone, Copy, Drop)]
pub struct Origin<'a> {
    /// The address of the client's connection; `None` if the system did not give it.
    pub client: Option<IpAddr>,
    /// The id of the request if its client gave none, or is not trusted.
    pub request_id: &'a [u8],
    /// Whether the client is trusted: it is a proxy that tells where its requests come from.
    pub trusts_client: bool,
}
