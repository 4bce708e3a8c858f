//! What the running attempt has.
ghost use Rattle.std.specs.Prelude.{◌≡◌, ◌≤◌, length};
ghost use Rattle.bg_history.specs.AttemptBounds.{is_running};
ghost use Rattle.bg_audit.specs.AuditedState.{attempt_of, empty_attempt};
ghost use Rattle.bg_audit.specs.Openings.{oldest};

use crate::looking_back::{Step, has_step, passed_at};
use bg_history::History;
use bg_strategy::Strategy;

/// The steps that the running attempt has, each under the name of its `Step`, and the moment at which it passed its
/// first part.
#[derive(Clone, Copy, Drop)]
pub struct AuditedAttempt {
    pub ready: bool,
    pub resumed: bool,
    pub switched: bool,
    pub promote_given: bool,
    pub promote_full_given: bool,
    pub post_passed: bool,
    pub passed_at: Option<u64>,
}

impl AuditedAttempt {
    /// What an attempt has at its begin.
    pub fn new() -> AuditedAttempt
        ensures { result ≡ empty_attempt }
    {
        AuditedAttempt {
            ready: false,
            resumed: false,
            switched: false,
            promote_given: false,
            promote_full_given: false,
            post_passed: false,
            passed_at: None,
        }
    }

    /// What the running attempt has after the oldest `count` entries; `running` says whether one runs.
    pub fn after(
        history: &History,
        strategy: &Strategy,
        count: u64,
        running: bool,
    ) -> AuditedAttempt
        requires count { count ≤ length history.now.past }
        requires running { running ≡ is_running (oldest count history.now.past) }
        ensures { result ≡ attempt_of strategy.now (oldest count history.now.past) }
    {
        AuditedAttempt {
            ready: has_step(history, count, running, Step::Ready),
            resumed: has_step(history, count, running, Step::Resumed),
            switched: has_step(history, count, running, Step::Switched),
            promote_given: has_step(history, count, running, Step::Promote),
            promote_full_given: has_step(history, count, running, Step::PromoteFull),
            post_passed: has_step(history, count, running, Step::PostSuccess),
            passed_at: passed_at(history, strategy, count, running),
        }
    }
}
