//! How a large request is passed on.

/// How a large request is passed on, and its limits. Times are milliseconds.
#[derive(Clone, Copy, Drop)]
pub struct UploadTerms {
    /// The port of its endpoint.
    pub port: u16,
    /// Whether the client awaits `100 Continue` before it sends the body (RFC 9110 section 10.1.1).
    pub owes_continue: bool,
    /// Bytes of either body are taken while fewer bytes of it are to be written; with 0 none are taken.
    pub window: usize,
    /// The most bytes of a body in chunks, with its chunk lines and trailers.
    pub most_body: usize,
    /// The most bytes of the body of the response, counted in the same way.
    pub most_response: usize,
    /// The time for which no byte may pass in either direction.
    pub silence_millis: u64,
}
