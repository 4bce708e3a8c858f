//! Why a response is not passed on to its end.
ghost use Rattle.std.specs.Prelude.{◌≡◌};
ghost use Rattle.bg_streams.specs.Faults as spec;

use bg_http::ResponseFault;
use bg_relay::RelayFault;
use thiserror::Error;

/// Why a response is not passed on to its end.
#[derive(Clone, Copy, PartialEq, Eq, Debug, Drop, Error)]
pub enum StreamFault {
    /// No byte was written to the client: it is refused with the status of this fault.
    #[error("the response is refused")]
    Refused(ResponseFault),
    /// Bytes were written to the client: its connection is closed so that it can tell that the response is not whole.
    #[error("the response is cut off")]
    Cut(RelayFault),
}

impl StreamFault {
    /// Why the response is not passed on to its end, as a fault of the response: for a cut, the one for which the client would have been
    /// refused.
    pub fn response_fault(self) -> ResponseFault
        ensures { result ≡ spec.response_fault self }
    {
        match self {
            StreamFault::Refused(fault) => fault,
            StreamFault::Cut(fault) => refusal(fault),
        }
    }
}

/// The fault of a body, as one for which a client is refused.
fn refusal(fault: RelayFault) -> ResponseFault
    ensures { result ≡ spec.refusal fault }
{
    match fault {
        RelayFault::Malformed => ResponseFault::Bad,
        RelayFault::Cut => ResponseFault::Closed,
        RelayFault::TooLarge => ResponseFault::TooLarge,
        RelayFault::OutOfMemory => ResponseFault::OutOfMemory,
    }
}

/// The fault of a body: a refusal, unless bytes were written to the client.
pub(crate) fn body_fault(is_begun: bool, fault: RelayFault) -> StreamFault
    ensures { result ≡ spec.body_fault is_begun fault }
{
    if is_begun {
        StreamFault::Cut(fault)
    } else {
        StreamFault::Refused(refusal(fault))
    }
}
