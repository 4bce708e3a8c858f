//! Why a request was refused.
ghost use Rattle.std.specs.Prelude.{◌≡◌, IfSome, IsTrue};
ghost use Rattle.std.specs.Option.{option_map};
ghost use Rattle.bg_http.specs.Statuses.{is_refusal, request_status, response_status};
ghost use Rattle.bg_forward.specs.Reasons.{enter_reason, reason_name, reason_status, request_reason, response_reason};

use bg_book::EnterFault;
use bg_http::{RequestFault, ResponseFault};
use std::io;
use std::io::ErrorKind;

/// Why a client was refused.
#[derive(Clone, Copy, PartialEq, Eq, Debug, Drop)]
pub enum Reason {
    /// The request is malformed.
    Malformed,
    /// Its head is too large.
    HeadTooLarge,
    /// It asks for something that is not supported.
    NotSupported,
    /// Its body is too large.
    BodyTooLarge,
    /// No preview service is set.
    NoPreview,
    /// The selected revision has no available endpoint.
    NoEndpoint,
    /// The history is full, or no number is left for a request.
    HistoryFull,
    /// An allocation failed.
    Memory,
    /// The endpoint accepted no connection, or its connection failed.
    ConnectFailed,
    /// The connect to the endpoint timed out.
    ConnectTimeout,
    /// The endpoint's response timed out.
    ResponseTimeout,
    /// The response is malformed, or ended early.
    ResponseMalformed,
    /// The response's head or body is too large.
    ResponseTooLarge,
    /// The request was given up, because it drained for too long.
    GivenUp,
    /// The client had gone before its answer was written to it. It is refused with 503, which nobody is likely to read.
    ClientGone,
}

impl Reason {
    /// The status with which a client is refused: 400 to 501 for a fault of its request, 502 for a
    /// fault of the endpoint, and 503 otherwise.
    pub fn status(&self) -> u16
        ensures status { result ≡ reason_status self.now }
        ensures refusal { IsTrue (is_refusal result) }
    {
        match self {
            Reason::Malformed => 400,
            Reason::HeadTooLarge => 431,
            Reason::NotSupported => 501,
            Reason::BodyTooLarge => 413,
            Reason::NoPreview
            | Reason::NoEndpoint
            | Reason::HistoryFull
            | Reason::Memory
            | Reason::GivenUp
            | Reason::ClientGone => 503,
            Reason::ConnectFailed
            | Reason::ConnectTimeout
            | Reason::ResponseTimeout
            | Reason::ResponseMalformed
            | Reason::ResponseTooLarge => 502,
        }
    }

    /// The reason's name. For `Malformed` it is `head`, although the fault can be one of the body or of
    /// the trailers.
    pub fn name(&self) -> &'static str
        ensures { result.now ≡ reason_name self.now }
    {
        match self {
            Reason::Malformed | Reason::HeadTooLarge | Reason::NotSupported => "head",
            Reason::BodyTooLarge => "body",
            Reason::NoPreview => "no_preview",
            Reason::NoEndpoint => "no_endpoint",
            Reason::HistoryFull => "history_full",
            Reason::Memory => "memory",
            Reason::ConnectFailed => "connect_failed",
            Reason::ConnectTimeout => "connect_timeout",
            Reason::ResponseTimeout => "response_timeout",
            Reason::ResponseMalformed => "response_malformed",
            Reason::ResponseTooLarge => "response_too_large",
            Reason::GivenUp => "given_up",
            Reason::ClientGone => "client_gone",
        }
    }

    /// The reason for a request with this fault; `None` if its client is not answered.
    pub fn of_request(fault: RequestFault) -> Option<Reason>
        ensures reason { result ≡ request_reason fault }
        ensures status { option_map reason_status result ≡ request_status fault }
    {
        match fault {
            RequestFault::HeadTooLarge => Some(Reason::HeadTooLarge),
            RequestFault::Bad => Some(Reason::Malformed),
            RequestFault::NotDone => Some(Reason::NotSupported),
            RequestFault::TooLarge => Some(Reason::BodyTooLarge),
            RequestFault::OutOfMemory => Some(Reason::Memory),
            RequestFault::ReadFailed | RequestFault::WriteFailed | RequestFault::Closed => None,
        }
    }

    /// The reason for a request that may not enter.
    pub fn of_enter(fault: EnterFault) -> Reason
        ensures reason { result ≡ enter_reason fault }
        ensures status { reason_status result ≡ 503 }
    {
        match fault {
            EnterFault::NoPreview => Reason::NoPreview,
            EnterFault::NoEndpoints => Reason::NoEndpoint,
            EnterFault::NumbersSpent | EnterFault::HistoryFull => Reason::HistoryFull,
            EnterFault::OutOfMemory => Reason::Memory,
        }
    }

    /// The reason for a request whose response has this fault.
    pub fn of_response(fault: ResponseFault) -> Reason
        ensures reason { result ≡ response_reason fault }
        ensures status { reason_status result ≡ response_status fault }
    {
        match fault {
            ResponseFault::ReadFailed => Reason::ConnectFailed,
            ResponseFault::HeadTooLarge | ResponseFault::TooLarge => Reason::ResponseTooLarge,
            ResponseFault::Bad | ResponseFault::Closed => Reason::ResponseMalformed,
            ResponseFault::OutOfMemory => Reason::Memory,
        }
    }

    /// The reason for a request whose endpoint cannot be dialled.
    pub(crate) fn of_dial(error: &io::Error) -> Reason
        ensures { reason_status result ≡ 502 }
    {
        if is_timeout(error) {
            Reason::ConnectTimeout
        } else {
            Reason::ConnectFailed
        }
    }

    /// The reason for a request whose response could not be written to its client. `None` if that was no fault of the
    /// client, as when an allocation failed.
    pub(crate) fn of_client(error: &io::Error) -> Option<Reason>
        ensures { IfSome result (λ reason. reason ≡ Reason.ClientGone) }
    {
        match error.kind() {
            ErrorKind::BrokenPipe
            | ErrorKind::ConnectionReset
            | ErrorKind::ConnectionAborted
            | ErrorKind::NotConnected
            | ErrorKind::TimedOut => Some(Reason::ClientGone),
            _ => None,
        }
    }

    /// The reason for a request whose endpoint cannot be written to or read from.
    pub(crate) fn of_stream(error: &io::Error) -> Reason
        ensures { reason_status result ≡ 502 }
    {
        if is_timeout(error) {
            Reason::ResponseTimeout
        } else {
            Reason::ConnectFailed
        }
    }
}

/// Whether a stream failed because of a timeout.
fn is_timeout(error: &io::Error) -> bool {
    matches!(error.kind(), ErrorKind::TimedOut | ErrorKind::WouldBlock)
}
