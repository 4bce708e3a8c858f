//! Why the program ends without a shutdown.

use bg_book::OpenFault;
use bg_strategy_text::StrategyFault;
use std::alloc::AllocError;
use std::io;

/// Why the program ends without a shutdown.
#[derive(Clone, Copy, Debug, Drop)]
pub enum Stop {
    WrongWords,
    OutOfMemory,
    SystemCallFailed,
    /// No book opens with the strategy and the endpoint.
    NotOpened,
}

impl From<AllocError> for Stop {
    fn from(_refused: AllocError) -> Stop {
        Stop::OutOfMemory
    }
}

impl From<io::Error> for Stop {
    fn from(_error: io::Error) -> Stop {
        Stop::SystemCallFailed
    }
}

impl From<StrategyFault> for Stop {
    fn from(_fault: StrategyFault) -> Stop {
        Stop::NotOpened
    }
}

impl From<OpenFault> for Stop {
    fn from(_fault: OpenFault) -> Stop {
        Stop::NotOpened
    }
}
