//! Among which connections a slow one is looked for.
ghost use Rattle.std.specs.Prelude.{◌≡◌};
ghost use Rattle.bg_load.specs.Loads.{is_among};

use crate::activity::Activity;

/// The connections among which a slow one is looked for.
#[derive(Clone, Copy, PartialEq, Eq, Debug, Drop)]
pub enum Among {
    /// Those that are to make progress: their request is arriving, or they were answered.
    All,
    /// Those that were answered.
    Responses,
}

impl Among {
    /// Whether a connection that does this is among these.
    pub(crate) fn has(self, activity: Activity) -> bool
        ensures { result ≡ is_among self activity }
    {
        match self {
            Among::All => true,
            Among::Responses => activity.is_answered(),
        }
    }
}
