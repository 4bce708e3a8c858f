//! Why a line of a script gives no command.
ghost use Rattle.std.specs.Prelude.{◌≡◌};
ghost use Rattle.bg_operator.specs.declared.line_fault.LineFault.TheVariants as line_fault;

use std::alloc::{AllocError, AllocFailed};
use thiserror::Error;

/// Why a line of a script gives no command. If several of these apply, it is the first in this
/// order. Between `BadWord` and `BadNumber`, the first wrong word from the left decides. After
/// `before`, a missing word and then the time limit are judged first, and then LINE by itself.
#[derive(Clone, Copy, PartialEq, Eq, Debug, Drop, Error)]
pub enum LineFault {
    /// It has more than 4,096 bytes.
    #[error("the line has more than 4,096 bytes")]
    TooLong,
    /// One of its bytes is outside 32 to 126.
    #[error("the line has a byte that is no printable ASCII character")]
    NotAscii,
    /// It has no words.
    #[error("the line has no word")]
    Empty,
    /// No line begins with its first word.
    #[error("the first word of the line is none that is known")]
    UnknownWord,
    /// Too few or too many words follow its first word.
    #[error("the line has too few or too many words")]
    WrongCount,
    /// A word is not one of those that its place allows, or the line after a time limit gives no event.
    #[error("a word of the line is none that its place allows")]
    BadWord,
    /// A word in the place of a number is not 1 to 20 digits, or its value is too large for that
    /// place.
    #[error("a word of the line is not a number that its place allows")]
    BadNumber,
    /// It is well formed, and the allocation for its name or its ports failed.
    #[error("out of memory")]
    OutOfMemory,
}

impl LineFault {
    ghost use Rattle.bg_operator.specs.FaultNames.{line_fault_name};

    /// The name of the fault: that of its variant.
    pub fn name(&self) -> &'static str
        ensures { result.now ≡ line_fault_name self.now }
    {
        match self {
            LineFault::TooLong => "TooLong",
            LineFault::NotAscii => "NotAscii",
            LineFault::Empty => "Empty",
            LineFault::UnknownWord => "UnknownWord",
            LineFault::WrongCount => "WrongCount",
            LineFault::BadWord => "BadWord",
            LineFault::BadNumber => "BadNumber",
            LineFault::OutOfMemory => "OutOfMemory",
        }
    }
}

impl From<AllocError> for LineFault {
    ghost from_gives = { λ _ e. e ≡ line_fault.OutOfMemory };

    fn from(_refused: AllocError) -> LineFault {
        LineFault::OutOfMemory
    }
}

impl<T: Drop> From<AllocFailed<T>> for LineFault {
    ghost from_gives = { λ _ e. e ≡ line_fault.OutOfMemory };

    fn from(_refused: AllocFailed<T>) -> LineFault {
        LineFault::OutOfMemory
    }
}
