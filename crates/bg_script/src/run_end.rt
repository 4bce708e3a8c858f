//! Why a run ends early.
ghost use Rattle.std.specs.Prelude.{◌≡◌};
ghost use Rattle.bg_script.specs.declared.run_end.RunEnd.TheVariants as run_end;

use bg_operator::ReadFault;
use std::alloc::AllocError;
use std::io;
use thiserror::Error;

/// Why a run of `check` or of `replay` ends early. The output up to then must not be used.
#[derive(Clone, Copy, Debug, Drop, PartialEq, Eq, Error)]
pub enum RunEnd {
    /// A read of the input failed, or 2^24 reads or 2^24 lines did not reach its end.
    #[error("the input could not be read")]
    ReadFailed,
    /// A write of the output failed.
    #[error("the output could not be written")]
    WriteFailed,
    /// An allocation failed.
    #[error("out of memory")]
    OutOfMemory,
}

impl From<AllocError> for RunEnd {
    ghost from_gives = { λ _ e. e ≡ run_end.OutOfMemory };

    fn from(_refused: AllocError) -> RunEnd {
        RunEnd::OutOfMemory
    }
}

/// Only output fails with such an error; input fails with a [`ReadFault`].
impl From<io::Error> for RunEnd {
    fn from(_unwritten: io::Error) -> RunEnd {
        RunEnd::WriteFailed
    }
}

impl From<ReadFault> for RunEnd {
    fn from(fault: ReadFault) -> RunEnd {
        match fault {
            ReadFault::ReadFailed => RunEnd::ReadFailed,
            ReadFault::OutOfMemory => RunEnd::OutOfMemory,
        }
    }
}
