//! Where the ends of requests are logged.

use crate::tunnel_ending::TunnelEnding;
use bg_forward::Served;

/// The method and the target of a request, as they came.
#[derive(Clone, Copy, Drop)]
pub struct RequestLine<'a> {
    pub method: &'a [u8],
    pub target: &'a [u8],
}

/// A request that is over, or what came of one before its connection ended. Times are milliseconds.
#[derive(Drop)]
pub struct EndedRequest<'a> {
    pub served: Served,
    /// Whether its response was cut off, of which its client took a part. Its end and its reason are as if the client had taken
    /// nothing.
    pub is_cut: bool,
    /// The method and the target, if the head of the request was parsed.
    pub line: Option<RequestLine<'a>>,
    /// The id that its endpoint was told, at most its first 1,024 bytes; `None` if it was told none.
    pub id: Option<&'a [u8]>,
    /// Whether the request was refused although its head passes all rules.
    pub is_head_sound: bool,
    /// The number of the request among those of its connection, from 1 on.
    pub place: u64,
    /// Whether the connection to its endpoint had carried a request before; `None` if there was no connection.
    pub is_reused: Option<bool>,
    /// The number of bytes that came since the request before it on its connection was over; those of a tunnel are among them.
    pub request_bytes: u64,
    /// The number of bytes of its answer. They may not be written yet. If writing it failed, the number that was passed on before.
    pub response_bytes: u64,
    /// The time since its connection was accepted, or, of a later request of a connection, since its first byte came.
    pub duration_millis: u64,
    /// The time from when it entered to its answer; `None` if it did not enter, or was not answered.
    pub response_millis: Option<u64>,
    /// How the tunnel ended that the request became; `None` if it became none.
    pub tunnel: Option<TunnelEnding>,
}

/// Where the ends of requests are logged. All loops share it.
///
/// No method takes a handle. A log that waits for a lock has its own handle, so that its callers see no lock.
pub trait RequestLog {
    /// Whether the methods and the targets of requests are logged. They are copied only then.
    fn logs_lines(&self) -> bool;

    /// Logs a request that is over.
    fn add(&self, ended: &EndedRequest<'_>);

    /// Counts a connection that ended without having sent a byte.
    fn note_silent(&self);
}
