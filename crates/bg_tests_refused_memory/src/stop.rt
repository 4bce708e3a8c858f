//! Why a call has no answer.

use bg_audit::AuditFault;
use bg_book::{ControlFault, EnterFault, OpenFault, Reply, RunFault};
use bg_command_line::InvocationFault;
use bg_http::{RequestFault, ResponseFault};
use bg_operator::LineFault;
use bg_revisions::RevisionFault;
use bg_script::RunEnd;
use bg_strategy_text::StrategyFault;
use std::alloc::AllocError;
use std::{fmt, io};
use thiserror::Error;

/// Why a call has no answer; if the repeated call has none either, why the program ends.
#[derive(Clone, Copy, Debug, Drop, PartialEq, Eq, Error)]
pub enum Stop {
    #[error("memory was refused")]
    OutOfMemory,
    /// A fault other than an allocation failure, which no call of this program has.
    #[error("a call has another fault")]
    OtherFault,
    #[error("a state could not be written down")]
    StateTooLong,
    #[error("the output could not be written")]
    WriteFailed,
}

impl Stop {
    /// Why a call of a book with this reply was not done; Ok if it was done.
    pub fn unless_done(reply: &Reply) -> Result<(), Stop> {
        match reply {
            Reply::Entered(_) | Reply::Left(_) | Reply::Done(_) => Ok(()),
            Reply::EnterRefused(fault) => Err(Stop::from(*fault)),
            Reply::ControlRefused(fault) => Err(Stop::from(*fault)),
            Reply::NoSuchSeat | Reply::SeatBusy | Reply::SeatIdle => Err(Stop::OtherFault),
        }
    }
}

impl From<AllocError> for Stop {
    fn from(_refused: AllocError) -> Stop {
        Stop::OutOfMemory
    }
}

impl From<StrategyFault> for Stop {
    fn from(fault: StrategyFault) -> Stop {
        match fault {
            StrategyFault::OutOfMemory => Stop::OutOfMemory,
            StrategyFault::NotJson
            | StrategyFault::Missing(_)
            | StrategyFault::WrongType(_)
            | StrategyFault::OutOfRange(_)
            | StrategyFault::SameService => Stop::OtherFault,
        }
    }
}

impl From<RevisionFault> for Stop {
    fn from(fault: RevisionFault) -> Stop {
        match fault {
            RevisionFault::OutOfMemory => Stop::OutOfMemory,
            _ => Stop::OtherFault,
        }
    }
}

impl From<OpenFault> for Stop {
    fn from(fault: OpenFault) -> Stop {
        match fault {
            OpenFault::OutOfMemory => Stop::OutOfMemory,
            _ => Stop::OtherFault,
        }
    }
}

impl From<EnterFault> for Stop {
    fn from(fault: EnterFault) -> Stop {
        match fault {
            EnterFault::OutOfMemory => Stop::OutOfMemory,
            _ => Stop::OtherFault,
        }
    }
}

impl From<ControlFault> for Stop {
    fn from(fault: ControlFault) -> Stop {
        match fault {
            ControlFault::OutOfMemory => Stop::OutOfMemory,
            _ => Stop::OtherFault,
        }
    }
}

impl From<RunFault> for Stop {
    fn from(fault: RunFault) -> Stop {
        match fault {
            RunFault::OutOfMemory => Stop::OutOfMemory,
        }
    }
}

impl From<RequestFault> for Stop {
    fn from(fault: RequestFault) -> Stop {
        match fault {
            RequestFault::OutOfMemory => Stop::OutOfMemory,
            _ => Stop::OtherFault,
        }
    }
}

impl From<ResponseFault> for Stop {
    fn from(fault: ResponseFault) -> Stop {
        match fault {
            ResponseFault::OutOfMemory => Stop::OutOfMemory,
            _ => Stop::OtherFault,
        }
    }
}

impl From<AuditFault> for Stop {
    fn from(fault: AuditFault) -> Stop {
        match fault {
            AuditFault::OutOfMemory => Stop::OutOfMemory,
        }
    }
}

impl From<InvocationFault> for Stop {
    fn from(fault: InvocationFault) -> Stop {
        match fault {
            InvocationFault::OutOfMemory => Stop::OutOfMemory,
            InvocationFault::Words(_) => Stop::OtherFault,
        }
    }
}

impl From<LineFault> for Stop {
    fn from(fault: LineFault) -> Stop {
        match fault {
            LineFault::OutOfMemory => Stop::OutOfMemory,
            _ => Stop::OtherFault,
        }
    }
}

impl From<RunEnd> for Stop {
    fn from(end: RunEnd) -> Stop {
        match end {
            RunEnd::OutOfMemory => Stop::OutOfMemory,
            _ => Stop::OtherFault,
        }
    }
}

impl From<fmt::Error> for Stop {
    fn from(_error: fmt::Error) -> Stop {
        Stop::StateTooLong
    }
}

impl From<io::Error> for Stop {
    fn from(_error: io::Error) -> Stop {
        Stop::WriteFailed
    }
}
