//! Why a large request has no response, or one that does not come to its end.
ghost use Rattle.std.specs.Prelude.{◌≡◌};
ghost use Rattle.bg_upload.specs.Faults as spec;

use bg_endpoint_side::ForwardFault;
use bg_http::RequestFault;
use bg_relay::RelayFault;

/// Why a large request has no response, or one that does not come to its end.
#[derive(Clone, Copy, PartialEq, Eq, Debug, Drop)]
pub enum UploadFault {
    /// The request has this fault: its body is malformed (Bad), or has more bytes than it may (TooLarge); its client has ended its
    /// input before the end of the body (Closed), or sent nothing for too long (ReadFailed); or an allocation failed (OutOfMemory).
    Request(RequestFault),
    /// The endpoint gave no response, or one with a fault; or the client takes nothing of it.
    Forward(ForwardFault),
}

/// The fault of a body, as one of its request.
pub(crate) fn request_fault(fault: RelayFault) -> RequestFault
    ensures { result ≡ spec.request_fault fault }
{
    match fault {
        RelayFault::Malformed => RequestFault::Bad,
        RelayFault::Cut => RequestFault::Closed,
        RelayFault::TooLarge => RequestFault::TooLarge,
        RelayFault::OutOfMemory => RequestFault::OutOfMemory,
    }
}
