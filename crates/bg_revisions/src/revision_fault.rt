//! Why a revision is refused.
ghost use Rattle.std.specs.Prelude.{◌≡◌};
ghost use Rattle.bg_revisions.specs.declared.revision_fault.RevisionFault.TheVariants.{OutOfMemory};

use std::alloc::{AllocError, AllocFailed};
use thiserror::Error;

/// The reason why a deploy or a report of availability is refused.
#[derive(Clone, Copy, PartialEq, Eq, Debug, Drop, Error)]
pub enum RevisionFault {
    #[error("a name is 1 to 63 lower-case letters, digits and hyphens, with no hyphen at its ends")]
    BadName,
    #[error("a revision has one port for each replica, all distinct and none of them 0")]
    BadPorts,
    #[error("the newest revision already has this name and these ports")]
    SameTemplate,
    #[error("a revision of this name already has other ports")]
    PortsDiffer,
    #[error("64 revisions exist already")]
    TooManyRevisions,
    #[error("no revision has this number")]
    NoSuchRevision,
    #[error("more endpoints are reported than the revision wants")]
    MoreThanDesired,
    #[error("out of memory")]
    OutOfMemory,
}

impl From<AllocError> for RevisionFault {
    ghost from_gives = { λ _ e. e ≡ OutOfMemory };

    fn from(_refused: AllocError) -> RevisionFault {
        RevisionFault::OutOfMemory
    }
}

impl<T: Drop> From<AllocFailed<T>> for RevisionFault {
    ghost from_gives = { λ _ e. e ≡ OutOfMemory };

    fn from(_refused: AllocFailed<T>) -> RevisionFault {
        RevisionFault::OutOfMemory
    }
}
