//! Why a read gave no bytes.
use std::alloc::AllocError;
use thiserror::Error;

/// Why a read gave no bytes. The reader must not be used after it.
#[derive(Clone, Copy, Debug, Drop, PartialEq, Eq, Error)]
pub enum ReadFault {
    /// A read failed, or 2^24 reads did not reach the end.
    #[error("the input could not be read")]
    ReadFailed,
    /// The allocation for the bytes that were read failed.
    #[error("out of memory")]
    OutOfMemory,
}

impl From<AllocError> for ReadFault {
    fn from(_refused: AllocError) -> ReadFault {
        ReadFault::OutOfMemory
    }
}
