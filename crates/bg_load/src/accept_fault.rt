//! Why a connection is not accepted.

/// Why a connection is not accepted.
#[derive(Clone, Copy, PartialEq, Eq, Debug, Drop)]
pub enum AcceptFault {
    /// The key is 2 to the power of 20 or more.
    KeyTooGreat,
    /// Another connection has the key.
    KeyInUse,
    /// All numbers were given: there are 2 to the power of 64, less one.
    NoNumber,
    /// An allocation failed.
    OutOfMemory,
}
