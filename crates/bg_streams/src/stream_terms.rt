//! How a response is passed on: what is known of its client, and its limits.

use bg_http::Persistence;

/// How a response is passed on: what is known of the client that gets it, and its limits. A relay holds only a window of a body,
/// whatever its size.
#[derive(Clone, Copy, Drop)]
pub struct StreamTerms {
    /// Whether it reads chunks: its request has version 1.1 (RFC 9112 section 7.1).
    pub reads_chunks: bool,
    /// Whether its connection is kept after a response whose end is told.
    pub persistence: Persistence,
    /// Bytes of the body are taken while fewer bytes of it are to be written; with 0 none are taken.
    pub window: usize,
    /// The most bytes of a body: a response whose Content-Length is greater is refused with TooLarge. A body in chunks, with its chunk
    /// lines and trailers, or one that goes to the end of the input has this fault once more bytes of it came.
    pub most_body: usize,
}
