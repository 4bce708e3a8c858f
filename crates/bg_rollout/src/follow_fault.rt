//! The reasons why a journal isn't followed.
ghost use Rattle.std.specs.Prelude.{◌≡◌};
ghost use Rattle.bg_rollout.specs.Following.{fault_at};

use std::alloc::AllocError;
use thiserror::Error;

/// The reason why an entry of a journal isn't followed.
#[derive(Clone, Copy, PartialEq, Eq, Debug, Drop, Error)]
pub enum FollowFault {
    #[error("a journal has no entry of a request")]
    OfRequest,
    #[error("the entries before it don't allow this entry")]
    NotAllowed,
    #[error("out of memory")]
    OutOfMemory,
}

impl FollowFault {
    /// The fault of a journal whose entry at a place isn't followed for this reason.
    pub fn at(self, place: u64) -> JournalFault
        ensures { result ≡ fault_at place self }
    {
        match self {
            FollowFault::OfRequest => JournalFault::OfRequest(place),
            FollowFault::NotAllowed => JournalFault::NotAllowed(place),
            FollowFault::OutOfMemory => JournalFault::OutOfMemory,
        }
    }
}

impl From<AllocError> for FollowFault {
    ghost use Rattle.bg_rollout.specs.declared.follow_fault.FollowFault.TheVariants.{OutOfMemory};

    ghost from_gives = { λ _ e. e ≡ OutOfMemory };

    fn from(_refused: AllocError) -> FollowFault {
        FollowFault::OutOfMemory
    }
}

/// The reason why a rollout isn't resumed from a journal. A place is that of an entry; the oldest one is at place 0.
#[derive(Clone, Copy, PartialEq, Eq, Debug, Drop, Error)]
pub enum JournalFault {
    #[error("the journal has more entries than a history has room for")]
    TooManyEntries,
    #[error("entry {0} is one of a request, which no journal has")]
    OfRequest(u64),
    #[error("the entries before entry {0} don't allow it")]
    NotAllowed(u64),
    #[error("out of memory")]
    OutOfMemory,
}

impl From<AllocError> for JournalFault {
    ghost use Rattle.bg_rollout.specs.declared.follow_fault.JournalFault.TheVariants.{OutOfMemory};

    ghost from_gives = { λ _ e. e ≡ OutOfMemory };

    fn from(_refused: AllocError) -> JournalFault {
        JournalFault::OutOfMemory
    }
}
