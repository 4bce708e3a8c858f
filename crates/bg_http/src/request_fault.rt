//! Why a request is refused.
ghost use Rattle.std.specs.Prelude.{◌≡◌, IfSome, IsTrue};
ghost use Rattle.bg_http.specs.Statuses.{is_refusal, request_status};

use thiserror::Error;

/// Why a request is refused.
#[derive(Clone, Copy, PartialEq, Eq, Debug, Drop, Error)]
pub enum RequestFault {
    /// A read failed, or the stream went on too long.
    #[error("a read failed")]
    ReadFailed,
    /// `100 Continue` could not be written.
    #[error("a write failed")]
    WriteFailed,
    /// The head has more bytes or more fields than the limits allow.
    #[error("the head is too large")]
    HeadTooLarge,
    /// The request is malformed or breaks a rule.
    #[error("the request is malformed")]
    Bad,
    /// The input ended before the end of the request.
    #[error("the connection was closed")]
    Closed,
    /// The request asks for something that is not supported: `CONNECT`, or a coding before the last
    /// one, which is `chunked`.
    #[error("the request is not supported")]
    NotDone,
    /// The body is longer than the limit.
    #[error("the body is too large")]
    TooLarge,
    /// An allocation failed.
    #[error("out of memory")]
    OutOfMemory,
}

impl RequestFault {
    /// The status of the answer (RFC 9110 sections 15.5.1, 15.5.14, 15.6.2 and 15.6.4; RFC 6585
    /// section 5): Bad 400, TooLarge 413, HeadTooLarge 431, NotDone 501, OutOfMemory 503. `None` if
    /// there is nobody left to answer: Closed, ReadFailed and WriteFailed.
    pub fn status(&self) -> Option<u16>
        ensures status { result ≡ request_status self.now }
        ensures refusal { IfSome result (λ status. IsTrue (is_refusal status)) }
    {
        match self {
            RequestFault::Bad => Some(400),
            RequestFault::TooLarge => Some(413),
            RequestFault::HeadTooLarge => Some(431),
            RequestFault::NotDone => Some(501),
            RequestFault::OutOfMemory => Some(503),
            RequestFault::Closed | RequestFault::ReadFailed | RequestFault::WriteFailed => None,
        }
    }
}
