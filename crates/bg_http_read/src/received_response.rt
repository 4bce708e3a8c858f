//! A response that came on a connection.

use bg_http::Response;

/// A complete response that came on a connection.
#[derive(Drop)]
pub struct ReceivedResponse {
    /// The response.
    pub response: Response,
    /// Whether the parser was fed no byte behind the response. Only then does the connection go back
    /// for another request: bytes that are left answer no request that was sent.
    pub is_drained: bool,
}
