//! The error of an audit.
ghost use Rattle.std.specs.Prelude.{◌≡◌};
ghost use Rattle.bg_audit.specs.declared.fault.AuditFault.TheVariants.{OutOfMemory};

use std::alloc::{AllocError, AllocFailed};
use thiserror::Error;

/// The reason why an audit gives no answer.
#[derive(Clone, Copy, PartialEq, Eq, Debug, Drop, Error)]
pub enum AuditFault {
    #[error("out of memory")]
    OutOfMemory,
}

impl From<AllocError> for AuditFault {
    ghost from_gives = { λ _ e. e ≡ OutOfMemory };

    fn from(_refused: AllocError) -> AuditFault {
        AuditFault::OutOfMemory
    }
}

impl<T: Drop> From<AllocFailed<T>> for AuditFault {
    ghost from_gives = { λ _ e. e ≡ OutOfMemory };

    fn from(_refused: AllocFailed<T>) -> AuditFault {
        AuditFault::OutOfMemory
    }
}
