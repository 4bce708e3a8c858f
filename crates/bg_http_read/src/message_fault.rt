//! Why bytes are not a message.
use bg_http::{RequestFault, ResponseFault};
use std::alloc::AllocError;

/// Why bytes and every continuation of them are not a message.
#[derive(Clone, Copy, Drop)]
pub(crate) enum MessageFault {
    /// The head or the body is malformed.
    Bad,
    /// There is no head within the limits.
    HeadTooLarge,
    /// The body is larger than its limit.
    TooLarge,
    /// An allocation failed.
    OutOfMemory,
}

impl From<AllocError> for MessageFault {
    ghost use Rattle.std.specs.Prelude.{◌≡◌};
    ghost use Rattle.bg_http_read.specs.declared.message_fault.MessageFault.TheVariants.{OutOfMemory};

    ghost from_gives = { λ _ e. e ≡ OutOfMemory };

    fn from(_: AllocError) -> MessageFault {
        MessageFault::OutOfMemory
    }
}

impl From<MessageFault> for RequestFault {
    ghost use Rattle.std.specs.Prelude.{◌≡◌};
    ghost use Rattle.bg_http_read.specs.MessageFaults.{as_request};

    ghost from_gives = { λ fault e. e ≡ as_request fault };

    fn from(fault: MessageFault) -> RequestFault {
        match fault {
            MessageFault::Bad => RequestFault::Bad,
            MessageFault::HeadTooLarge => RequestFault::HeadTooLarge,
            MessageFault::TooLarge => RequestFault::TooLarge,
            MessageFault::OutOfMemory => RequestFault::OutOfMemory,
        }
    }
}

impl From<MessageFault> for ResponseFault {
    ghost use Rattle.std.specs.Prelude.{◌≡◌};
    ghost use Rattle.bg_http_read.specs.MessageFaults.{as_response};

    ghost from_gives = { λ fault e. e ≡ as_response fault };

    fn from(fault: MessageFault) -> ResponseFault {
        match fault {
            MessageFault::Bad => ResponseFault::Bad,
            MessageFault::HeadTooLarge => ResponseFault::HeadTooLarge,
            MessageFault::TooLarge => ResponseFault::TooLarge,
            MessageFault::OutOfMemory => ResponseFault::OutOfMemory,
        }
    }
}
