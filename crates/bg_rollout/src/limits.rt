//! The limits of a rollout.
ghost use Rattle.std.specs.Prelude.{◌≡◌};
ghost use Rattle.bg_rollout.specs.Refusals.{usual_limits};

/// The number of entries that a history reserves for each open request: one for its Leave, and two for the
/// outcomes after it.
pub const PLACES_OF_A_REQUEST: u64 = 3;

/// A bound on the entries that an event makes: its own and at most 140 outcomes.
pub const MOST_ENTRIES: u64 = 141;

/// The greatest number of entries in a history, and the greatest number of requests that get a number.
#[derive(Clone, Copy, PartialEq, Eq, Debug, Drop)]
pub struct Limits {
    /// At most 1,000,000.
    pub entries: u64,
    /// At most 2^53.
    pub numbers: u64,
}

impl Limits {
    /// The usual limits: 1,000,000 entries and 2^53 numbers. A book with greater limits can't be opened.
    pub fn usual() -> Limits
        ensures { result ≡ usual_limits }
    {
        Limits {
            entries: 1_000_000,
            numbers: 1 << 53,
        }
    }
}
