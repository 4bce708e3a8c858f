//! What has happened in an attempt.
ghost use Rattle.std.specs.Prelude.{◌≡◌};

/// What has happened since the running attempt began.
#[derive(Clone, Copy, Drop, Debug)]
pub struct Attempt {
    /// The new revision has the endpoints that its preview needs.
    pub ready: bool,
    /// The pause is over.
    pub resumed: bool,
    /// The active service has switched to the new revision.
    pub switched: bool,
    /// An operator ended the pause.
    pub promote_given: bool,
    /// An operator skipped the analyses and pauses.
    pub promote_full_given: bool,
    /// The analysis after the switch has passed.
    pub post_passed: bool,
    /// The moment at which the new revision was ready and the analysis before the switch had passed.
    pub passed_at: Option<u64>,
}

impl Attempt {
    ghost use Rattle.bg_promotion.specs.Core.{begun};

    /// An attempt in which nothing has happened.
    pub fn new() -> Attempt
        ensures { result ≡ begun }
    {
        Attempt {
            ready: false,
            resumed: false,
            switched: false,
            promote_given: false,
            promote_full_given: false,
            post_passed: false,
            passed_at: None,
        }
    }
}
