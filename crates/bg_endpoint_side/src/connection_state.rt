//! What is known of a request and of the connection that it is forwarded on.

use crate::deadlines::Deadlines;
use crate::terms::Terms;

/// What is known of a request and of the connection that it is forwarded on.
#[derive(Clone, Copy, Drop)]
pub struct ConnectionState {
    pub(crate) terms: Terms,
    pub(crate) deadlines: Deadlines,
    /// Whether the connection carried another request before.
    pub(crate) is_kept: bool,
    /// Whether the request was sent before, on a connection that was kept.
    pub(crate) is_again: bool,
    /// Whether the endpoint reads no more of the request.
    pub(crate) is_unread: bool,
    /// Whether the endpoint has announced the end of the connection.
    pub(crate) is_ending: bool,
}
