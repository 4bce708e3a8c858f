/// How the head of a response tells where its body ends (RFC 9112 section 6.3).
#[derive(Clone, Copy, PartialEq, Eq, Debug, Drop)]
pub enum BodyEnd {
    /// By the Content-Length of the response, if it has one.
    Length,
    /// By the last chunk (RFC 9112 section 7.1).
    Chunks,
}
