//! The message timeout that the environment sets.
ghost use Rattle.std.specs.Prelude.{◌≡◌};
ghost use Rattle.bg_command_line.specs.ServeArguments.{IsBetween};
ghost use Rattle.bg_command_line.specs.MessageTimeout.{IsTimeoutIn, seconds_of};

use std::env;
use std::env::VarError;
use std::rt::Env;

/// The message timeout in seconds if the environment does not set it.
const DEFAULT_SECONDS: u64 = 60;

/// The largest timeout in seconds that the environment may set.
const MOST_SECONDS: u64 = 3_600;

/// The environment variable that sets the seconds.
pub const TIMEOUT_VARIABLE: &str = "BG_SWITCH_PATIENCE_SECONDS";

/// The timeout within which a message has to be complete, and whether the environment sets it.
#[derive(Clone, Copy, Debug, Drop, PartialEq, Eq)]
pub enum MessageTimeout {
    /// The variable is not set. The timeout is 60 seconds.
    Default,
    /// The variable sets this many seconds, 1 to 3,600.
    Given(u64),
    /// The variable is set, but not to a number from 1 to 3,600. The timeout is 60 seconds.
    Unusable,
}

impl MessageTimeout {
    /// The seconds, 1 to 3,600.
    pub fn seconds(self) -> u64
        ensures { result ≡ seconds_of self }
    {
        match self {
            Self::Given(seconds) => seconds,
            Self::Default | Self::Unusable => DEFAULT_SECONDS,
        }
    }

    /// The timeout that the text of the variable gives: `Given` if it is a number from 1 to 3,600, and
    /// otherwise `Unusable`.
    pub fn of_text(text: &str) -> MessageTimeout
        ensures value { IsTimeoutIn text.now result }
        ensures range { IsBetween 1 3600 (seconds_of result) }
    {
        match text.parse::<u64>() {
            Ok(seconds) if 1 <= seconds && seconds <= MOST_SECONDS => Self::Given(seconds),
            _ => Self::Unusable,
        }
    }

    /// The timeout that the environment's `BG_SWITCH_PATIENCE_SECONDS` gives. It is `Unusable` also if
    /// the variable is not a text, and if the allocation for its text fails.
    pub fn from_environment<R: Env + AllocGlobal>(rt: &R) -> MessageTimeout
        ensures { IsBetween 1 3600 (seconds_of result) }
    {
        match env::var(rt, TIMEOUT_VARIABLE) {
            Ok(text) => Self::of_text(text.as_str()),
            Err(VarError::NotPresent) => Self::Default,
            Err(_) => Self::Unusable,
        }
    }
}
