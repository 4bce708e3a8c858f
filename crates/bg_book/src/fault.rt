//! The errors of a list of calls of a book, and of resuming a book.

use bg_rollout::{JournalFault, OpenFault};
use std::alloc::{AllocError, AllocFailed};
use thiserror::Error;

/// The reason why no call of a list was made.
#[derive(Clone, Copy, PartialEq, Eq, Debug, Drop, Error)]
pub enum RunFault {
    #[error("out of memory")]
    OutOfMemory,
}

impl From<AllocError> for RunFault {
    ghost use Rattle.std.specs.Prelude.{◌≡◌};
    ghost use Rattle.bg_book.specs.declared.fault.RunFault.TheVariants.{OutOfMemory};

    ghost from_gives = { λ _ e. e ≡ OutOfMemory };

    fn from(_refused: AllocError) -> RunFault {
        RunFault::OutOfMemory
    }
}

/// The reason why a book isn't resumed from a journal.
#[derive(Clone, Copy, PartialEq, Eq, Debug, Drop, Error)]
pub enum ResumeFault {
    /// The book can't be opened.
    #[error("{0}")]
    Opening(OpenFault),
    /// The journal isn't followed.
    #[error("{0}")]
    Journal(JournalFault),
}

impl From<OpenFault> for ResumeFault {
    ghost use Rattle.std.specs.Prelude.{◌≡◌};
    ghost use Rattle.bg_book.specs.declared.fault.ResumeFault.TheVariants.{Opening};

    ghost from_gives = { λ fault e. e ≡ Opening fault };

    fn from(fault: OpenFault) -> ResumeFault {
        ResumeFault::Opening(fault)
    }
}
