//! The errors of the commands.

use thiserror::Error;

/// The reason why an abort is refused.
#[derive(Clone, Copy, PartialEq, Eq, Debug, Drop, Error)]
pub enum AbortFault {
    #[error("the last attempt was already aborted")]
    AlreadyAborted,
    #[error("there is no attempt to abort")]
    NothingToAbort,
}

/// The reason why a retry is refused.
#[derive(Clone, Copy, PartialEq, Eq, Debug, Drop, Error)]
pub enum RetryFault {
    #[error("the last attempt was not aborted")]
    NotAborted,
}

/// The reason why a promotion is refused.
#[derive(Clone, Copy, PartialEq, Eq, Debug, Drop, Error)]
pub enum PromoteFault {
    #[error("the last attempt was aborted")]
    Aborted,
    #[error("the rollout is not paused")]
    NotPaused,
}

/// The reason why a full promotion is refused.
#[derive(Clone, Copy, PartialEq, Eq, Debug, Drop, Error)]
pub enum PromoteFullFault {
    #[error("the last attempt was aborted")]
    Aborted,
    #[error("there is no attempt to promote")]
    NothingToPromote,
    #[error("this attempt was already promoted in full")]
    AlreadyFull,
}

/// The reason why a verdict is refused.
#[derive(Clone, Copy, PartialEq, Eq, Debug, Drop, Error)]
pub enum VerdictFault {
    #[error("this analysis is not awaited")]
    NoAnalysis,
}
