//! Why a body is not passed on to its end.

use thiserror::Error;

/// Why a body is not passed on to its end.
#[derive(Clone, Copy, PartialEq, Eq, Debug, Drop, Error)]
pub enum RelayFault {
    /// The line of a chunk, the CR LF after its data, or the trailers are malformed or exceed their limits.
    #[error("the body is malformed")]
    Malformed,
    /// The input ended before the end of the body.
    #[error("the body was cut off")]
    Cut,
    /// More bytes came than the body may have.
    #[error("the body is too large")]
    TooLarge,
    /// An allocation failed.
    #[error("out of memory")]
    OutOfMemory,
}
