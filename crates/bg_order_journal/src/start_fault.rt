//! Why a switch does not start with a journal.
ghost use Rattle.std.specs.Prelude.{◌≡◌};
ghost use Rattle.bg_order_journal.specs.declared.start_fault.StartFault.TheVariants.{Journal as JournalIs, OutOfMemory};

use bg_journal_store::JournalFault;
use std::alloc::{AllocError, AllocFailed};
use thiserror::Error;

/// The reason why a switch does not start with a journal. The database is then as it was.
#[derive(Clone, Copy, Debug, PartialEq, Eq, Drop, Error)]
pub enum StartFault {
    /// The database cannot be opened or read.
    #[error("{0}")]
    Journal(JournalFault),
    /// The journal is one of another strategy.
    #[error("the journal is one of another strategy")]
    OtherStrategy,
    /// The first row does not begin with the settings of a strategy.
    #[error("the first row of the journal names no strategy")]
    NoStrategy,
    /// What follows the strategy in the first row is not the line of a first revision.
    #[error("the first row of the journal names no first revision")]
    NoFirstRevision,
    /// A line of an order is not that of an entry. Orders and lines are numbered from 1.
    #[error("line {line} of order {order} is not that of an entry")]
    BadLine { order: usize, line: usize },
    /// A journal cannot be begun, since it has rows.
    #[error("the journal has orders already")]
    NotNew,
    /// The journal has other rows than those that were read before it was closed and opened again.
    #[error("another process has changed the journal meanwhile")]
    Changed,
    #[error("out of memory")]
    OutOfMemory,
}

impl From<JournalFault> for StartFault {
    ghost from_gives = { λ fault e. e ≡ JournalIs fault };

    fn from(fault: JournalFault) -> StartFault {
        StartFault::Journal(fault)
    }
}

impl From<AllocError> for StartFault {
    ghost from_gives = { λ _ e. e ≡ OutOfMemory };

    fn from(_refused: AllocError) -> StartFault {
        StartFault::OutOfMemory
    }
}

impl<T: Drop> From<AllocFailed<T>> for StartFault {
    ghost from_gives = { λ _ e. e ≡ OutOfMemory };

    fn from(_refused: AllocFailed<T>) -> StartFault {
        StartFault::OutOfMemory
    }
}
