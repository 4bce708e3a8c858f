//! Why a text is that of no journal.
ghost use Rattle.std.specs.Prelude.{◌≡◌};
ghost use Rattle.bg_journal.specs.declared.text_fault.TextFault.TheVariants.{OutOfMemory};

use std::alloc::{AllocError, AllocFailed};
use thiserror::Error;

/// The reason why a text is not read as entries.
#[derive(Clone, Copy, PartialEq, Eq, Debug, Drop, Error)]
pub enum TextFault {
    /// The first line that is not exactly that of an entry. The first line of the text has the number 1.
    #[error("line {0} is not that of an entry")]
    BadLine(usize),
    #[error("out of memory")]
    OutOfMemory,
}

impl From<AllocError> for TextFault {
    ghost from_gives = { λ _ e. e ≡ OutOfMemory };

    fn from(_refused: AllocError) -> TextFault {
        TextFault::OutOfMemory
    }
}

impl<T: Drop> From<AllocFailed<T>> for TextFault {
    ghost from_gives = { λ _ e. e ≡ OutOfMemory };

    fn from(_refused: AllocFailed<T>) -> TextFault {
        TextFault::OutOfMemory
    }
}
