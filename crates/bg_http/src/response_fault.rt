//! Why a response is refused.
ghost use Rattle.std.specs.Prelude.{◌≡◌, IsTrue};
ghost use Rattle.bg_http.specs.Statuses.{is_refusal, response_status};

use thiserror::Error;

/// Why a response is refused.
#[derive(Clone, Copy, PartialEq, Eq, Debug, Drop, Error)]
pub enum ResponseFault {
    /// A read failed, or the stream went on too long.
    #[error("a read failed")]
    ReadFailed,
    /// The head has more bytes or more fields than the limits allow.
    #[error("the head is too large")]
    HeadTooLarge,
    /// The response is malformed or breaks a rule.
    #[error("the response is malformed")]
    Bad,
    /// The body is longer than the limit.
    #[error("the body is too large")]
    TooLarge,
    /// The input ended before the end of the response.
    #[error("the connection was closed")]
    Closed,
    /// An allocation failed.
    #[error("out of memory")]
    OutOfMemory,
}

impl ResponseFault {
    /// The status of the answer to the client (RFC 9110 sections 15.6.3 and 15.6.4): 503 for an
    /// allocation failure, and 502 for each other fault.
    pub fn status(&self) -> u16
        ensures status { result ≡ response_status self.now }
        ensures refusal { IsTrue (is_refusal result) }
    {
        match self {
            ResponseFault::OutOfMemory => 503,
            ResponseFault::ReadFailed
            | ResponseFault::HeadTooLarge
            | ResponseFault::Bad
            | ResponseFault::TooLarge
            | ResponseFault::Closed => 502,
        }
    }
}
