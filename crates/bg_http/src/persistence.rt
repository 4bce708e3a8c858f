/// Whether a connection carries another message after this one (RFC 9112 section 9.3).
#[derive(Clone, Copy, Debug, PartialEq, Eq)]
pub enum Persistence {
    /// The message is the last one, and says `Connection: close` (RFC 9112 section 9.6).
    Close,
    /// The connection is kept, which is the default of HTTP/1.1, so the message says nothing of it.
    Keep,
}
