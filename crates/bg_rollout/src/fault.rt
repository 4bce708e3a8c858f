//! The errors of the calls of a book.

use std::alloc::AllocError;
use thiserror::Error;

/// The reason why a book isn't opened. The faults stand in the order in which they are checked.
#[derive(Clone, Copy, PartialEq, Eq, Debug, Drop, Error)]
pub enum OpenFault {
    #[error("a name is 1 to 63 lower-case letters, digits and hyphens, with no hyphen at its ends")]
    BadName,
    #[error("a revision has one port for each replica, all distinct and none of them 0")]
    BadPorts,
    #[error("a book has no such number of seats")]
    BadSeats,
    #[error("a limit is above the usual one")]
    BadLimits,
    #[error("out of memory")]
    OutOfMemory,
}

impl OpenFault {
    ghost use Rattle.std.specs.Prelude.{◌≡◌};
    ghost use Rattle.bg_rollout.specs.FaultNames.{open_fault_name};

    /// The name of the variant.
    pub fn name(&self) -> &'static str
        ensures { result.now ≡ open_fault_name self.now }
    {
        match self {
            OpenFault::BadName => "BadName",
            OpenFault::BadPorts => "BadPorts",
            OpenFault::BadSeats => "BadSeats",
            OpenFault::BadLimits => "BadLimits",
            OpenFault::OutOfMemory => "OutOfMemory",
        }
    }
}

/// The reason why a request doesn't enter. The faults stand in the order in which they are checked.
#[derive(Clone, Copy, PartialEq, Eq, Debug, Drop, Error)]
pub enum EnterFault {
    #[error("no preview service is set")]
    NoPreview,
    #[error("the selected revision has no available endpoint")]
    NoEndpoints,
    #[error("every request number has been given")]
    NumbersSpent,
    #[error("the history has no room left")]
    HistoryFull,
    #[error("out of memory")]
    OutOfMemory,
}

impl EnterFault {
    ghost use Rattle.std.specs.Prelude.{◌≡◌};
    ghost use Rattle.bg_rollout.specs.FaultNames.{enter_fault_name};

    /// The name of the variant.
    pub fn name(&self) -> &'static str
        ensures { result.now ≡ enter_fault_name self.now }
    {
        match self {
            EnterFault::NoPreview => "NoPreview",
            EnterFault::NoEndpoints => "NoEndpoints",
            EnterFault::NumbersSpent => "NumbersSpent",
            EnterFault::HistoryFull => "HistoryFull",
            EnterFault::OutOfMemory => "OutOfMemory",
        }
    }
}

/// The reason why the seats of a book aren't gathered. The faults stand in the order in which they are checked.
#[derive(Clone, Copy, PartialEq, Eq, Debug, Drop, Error)]
pub enum GatherFault {
    #[error("these are not exactly the seats of the book, in order of index")]
    WrongSeats,
    /// The seat of this index is the first that holds a request.
    #[error("seat {0} has a request in hand")]
    StillIn(u32),
}

impl From<AllocError> for OpenFault {
    ghost use Rattle.std.specs.Prelude.{◌≡◌};
    ghost use Rattle.bg_rollout.specs.declared.fault.OpenFault.TheVariants.{OutOfMemory};

    ghost from_gives = { λ _ e. e ≡ OutOfMemory };

    fn from(_refused: AllocError) -> OpenFault {
        OpenFault::OutOfMemory
    }
}

impl From<AllocError> for EnterFault {
    ghost use Rattle.std.specs.Prelude.{◌≡◌};
    ghost use Rattle.bg_rollout.specs.declared.fault.EnterFault.TheVariants.{OutOfMemory};

    ghost from_gives = { λ _ e. e ≡ OutOfMemory };

    fn from(_refused: AllocError) -> EnterFault {
        EnterFault::OutOfMemory
    }
}
