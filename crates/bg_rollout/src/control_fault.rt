//! The errors of an event.
ghost use Rattle.std.specs.Prelude.{◌≡◌};
ghost use Rattle.bg_rollout.specs.FaultNames.{control_fault_name, revision_fault_name};
ghost use Rattle.bg_rollout.specs.ControlFaults.{of_abort, of_promote, of_promote_full, of_retry};
ghost use Rattle.bg_rollout.specs.ControlFaults.{of_verdict};
ghost use Rattle.bg_rollout.specs.declared.control_fault.ControlFault.TheVariants.{OutOfMemory, Revision};

use bg_promotion::{AbortFault, PromoteFault, PromoteFullFault, RetryFault, VerdictFault};
use bg_revisions::RevisionFault;
use std::alloc::AllocError;
use thiserror::Error;

/// The reason why an event is refused. The faults of one event stand in the order in which they are checked;
/// `HistoryFull` and `OutOfMemory` come last.
#[derive(Clone, Copy, PartialEq, Eq, Debug, Drop, Error)]
pub enum ControlFault {
    #[error("a moment is at most 2^53 seconds")]
    MomentTooLarge,
    #[error("the moment lies before the book's")]
    MomentBack,
    /// A deploy or a report of availability is refused, and not for want of memory.
    #[error(transparent)]
    Revision(RevisionFault),
    #[error("this analysis is not awaited")]
    NoAnalysis,
    #[error("the last attempt was aborted")]
    Aborted,
    #[error("the rollout is not paused")]
    NotPaused,
    #[error("there is no attempt to promote")]
    NothingToPromote,
    #[error("this attempt was already promoted in full")]
    AlreadyFull,
    #[error("the last attempt was already aborted")]
    AlreadyAborted,
    #[error("there is no attempt to abort")]
    NothingToAbort,
    #[error("the last attempt was not aborted")]
    NotAborted,
    #[error("the history has no room left")]
    HistoryFull,
    #[error("out of memory")]
    OutOfMemory,
}

impl ControlFault {
    /// The name of the variant, or that of the fault of a revision.
    pub fn name(&self) -> &'static str
        ensures { result.now ≡ control_fault_name self.now }
    {
        match self {
            ControlFault::MomentTooLarge => "MomentTooLarge",
            ControlFault::MomentBack => "MomentBack",
            ControlFault::Revision(fault) => revision_fault_name(*fault),
            ControlFault::NoAnalysis => "NoAnalysis",
            ControlFault::Aborted => "Aborted",
            ControlFault::NotPaused => "NotPaused",
            ControlFault::NothingToPromote => "NothingToPromote",
            ControlFault::AlreadyFull => "AlreadyFull",
            ControlFault::AlreadyAborted => "AlreadyAborted",
            ControlFault::NothingToAbort => "NothingToAbort",
            ControlFault::NotAborted => "NotAborted",
            ControlFault::HistoryFull => "HistoryFull",
            ControlFault::OutOfMemory => "OutOfMemory",
        }
    }
}

/// The name of the variant.
fn revision_fault_name(fault: RevisionFault) -> &'static str
    ensures { result.now ≡ revision_fault_name fault }
{
    match fault {
        RevisionFault::BadName => "BadName",
        RevisionFault::BadPorts => "BadPorts",
        RevisionFault::SameTemplate => "SameTemplate",
        RevisionFault::PortsDiffer => "PortsDiffer",
        RevisionFault::TooManyRevisions => "TooManyRevisions",
        RevisionFault::NoSuchRevision => "NoSuchRevision",
        RevisionFault::MoreThanDesired => "MoreThanDesired",
        RevisionFault::OutOfMemory => "OutOfMemory",
    }
}

impl From<RevisionFault> for ControlFault {
    ghost from_gives = { λ fault e. e ≡ Revision fault };

    fn from(fault: RevisionFault) -> ControlFault {
        ControlFault::Revision(fault)
    }
}

impl From<VerdictFault> for ControlFault {
    ghost from_gives = { λ fault e. e ≡ of_verdict fault };

    fn from(fault: VerdictFault) -> ControlFault {
        match fault {
            VerdictFault::NoAnalysis => ControlFault::NoAnalysis,
        }
    }
}

impl From<PromoteFault> for ControlFault {
    ghost from_gives = { λ fault e. e ≡ of_promote fault };

    fn from(fault: PromoteFault) -> ControlFault {
        match fault {
            PromoteFault::Aborted => ControlFault::Aborted,
            PromoteFault::NotPaused => ControlFault::NotPaused,
        }
    }
}

impl From<PromoteFullFault> for ControlFault {
    ghost from_gives = { λ fault e. e ≡ of_promote_full fault };

    fn from(fault: PromoteFullFault) -> ControlFault {
        match fault {
            PromoteFullFault::Aborted => ControlFault::Aborted,
            PromoteFullFault::NothingToPromote => ControlFault::NothingToPromote,
            PromoteFullFault::AlreadyFull => ControlFault::AlreadyFull,
        }
    }
}

impl From<AbortFault> for ControlFault {
    ghost from_gives = { λ fault e. e ≡ of_abort fault };

    fn from(fault: AbortFault) -> ControlFault {
        match fault {
            AbortFault::AlreadyAborted => ControlFault::AlreadyAborted,
            AbortFault::NothingToAbort => ControlFault::NothingToAbort,
        }
    }
}

impl From<RetryFault> for ControlFault {
    ghost from_gives = { λ fault e. e ≡ of_retry fault };

    fn from(fault: RetryFault) -> ControlFault {
        match fault {
            RetryFault::NotAborted => ControlFault::NotAborted,
        }
    }
}

impl From<AllocError> for ControlFault {
    ghost from_gives = { λ _ e. e ≡ OutOfMemory };

    fn from(_refused: AllocError) -> ControlFault {
        ControlFault::OutOfMemory
    }
}
