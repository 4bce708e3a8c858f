//! What a past allows, as far as its state says.
ghost use Rattle.std.specs.Prelude.{◌≡◌, ◌&&◌, ◌||◌, not, ℕ, Bool, List, Option, Some, None, is_some, is_none, if◌then◌else◌};
ghost use Rattle.bg_history.specs.declared.entry.Entry.{Entry};
ghost use Rattle.bg_history.specs.AttemptBounds.{newest_of};
ghost use Rattle.bg_history.specs.Attempts.{has_promote, has_promote_full, pass_moment, is_passed};
ghost use Rattle.bg_history.specs.Phases.{awaits_pre, is_paused, awaits_post, needs_pause};
ghost use Rattle.bg_history.specs.Promotion.{may_be_ready, may_resume, may_switch, may_promote, waited};
ghost use Rattle.bg_history.specs.Sizes.{available as available_of};
ghost use Rattle.bg_history.specs.Allowed.{awaits, selection};
ghost use Rattle.bg_audit.specs.Selected.{selects_in};
ghost use Rattle.bg_audit.specs.AuditedState.{IsAuditedState};

use super::AuditedState;
use bg_history::Analysis;
use bg_revisions::Service;
use bg_strategy::Strategy;

impl AuditedState {
    /// Whether the rollout waits for the verdict of the analysis.
    pub fn awaits(&self, strategy: &Strategy, analysis: Analysis) -> bool
        ensures { (past : List Entry) → IsAuditedState strategy.now past self.now
            → result ≡ awaits analysis strategy.now past }
    {
        match analysis {
            Analysis::Pre => {
                self.attempt.ready
                    && !self.attempt.resumed
                    && strategy.pre
                    && self.attempt.passed_at.is_none()
            }
            Analysis::Post => self.attempt.switched && strategy.post,
        }
    }

    /// Whether the attempt is paused.
    pub fn is_paused(&self, strategy: &Strategy) -> bool
        ensures { (past : List Entry) → IsAuditedState strategy.now past self.now
            → result ≡ is_paused strategy.now past }
    {
        self.attempt.passed_at.is_some() && !self.attempt.resumed && needs_pause(strategy)
    }

    /// The revision that a service selects; `None` for a service that isn't set.
    pub fn selection(&self, strategy: &Strategy, service: Service) -> Option<u64>
        ensures { (past : List Entry) → IsAuditedState strategy.now past self.now
            → result ≡ selection strategy.now service past }
    {
        match service {
            Service::Active => Some(self.active),
            Service::Preview if strategy.preview_service.is_some() => Some(self.preview()),
            Service::Preview => None,
        }
    }

    /// Whether the revision is active, preview or stable.
    pub fn selects(&self, revision: u64) -> bool
        ensures { result ≡ selects_in self.now revision }
    {
        revision == self.active || revision == self.preview() || revision == self.stable
    }

    /// Whether the newest revision may become ready; it has `available` endpoints available.
    pub fn may_be_ready(&self, strategy: &Strategy, available: u32) -> bool
        ensures { (past : List Entry) → IsAuditedState strategy.now past self.now
            → available ≡ available_of (newest_of past) past
            → result ≡ may_be_ready strategy.now (newest_of past) past }
    {
        self.running && !self.attempt.ready && available >= strategy.preview_replicas
    }

    /// Whether the newest revision may grow to full size.
    pub fn may_resume(&self, strategy: &Strategy) -> bool
        ensures { (past : List Entry) → IsAuditedState strategy.now past self.now
            → result ≡ may_resume strategy.now (newest_of past) past }
    {
        self.running && self.attempt.ready && !self.attempt.resumed && self.ends_pause(strategy)
    }

    /// Whether the active service may switch to the newest revision, which has `available` endpoints available.
    pub fn may_switch(&self, strategy: &Strategy, available: u32) -> bool
        ensures { (past : List Entry) → IsAuditedState strategy.now past self.now
            → available ≡ available_of (newest_of past) past
            → result ≡ may_switch strategy.now (newest_of past) past }
    {
        self.running
            && self.attempt.resumed
            && !self.attempt.switched
            && available == strategy.replicas
    }

    /// Whether the newest revision may become the stable one.
    pub fn may_promote(&self, strategy: &Strategy) -> bool
        ensures { (past : List Entry) → IsAuditedState strategy.now past self.now
            → result ≡ may_promote strategy.now (newest_of past) past }
    {
        self.running
            && self.attempt.switched
            && (!strategy.post || self.attempt.post_passed || self.attempt.promote_full_given)
    }

    /// The revision that the preview service selects.
    fn preview(&self) -> u64
        ensures { result ≡ (if self.now.running then self.now.newest else self.now.stable) }
    {
        if self.running {
            self.newest
        } else {
            self.stable
        }
    }

    /// Whether the analysis and the pause before the switch are over.
    fn ends_pause(&self, strategy: &Strategy) -> bool
        ensures { (past : List Entry) → IsAuditedState strategy.now past self.now
            → result ≡ (has_promote_full past
            || (is_passed strategy.now past && not (needs_pause strategy.now))
            || (is_passed strategy.now past && has_promote past)
            || waited strategy.now.auto_promotion strategy.now.auto_seconds self.now.moment
            (pass_moment strategy.now past)) }
    {
        if self.attempt.promote_full_given {
            return true;
        }
        match self.attempt.passed_at {
            None => false,
            Some(at) => {
                !needs_pause(strategy)
                    || self.attempt.promote_given
                    || has_waited(strategy, at, self.moment)
            }
        }
    }
}

/// Whether the strategy has a pause before the switch.
fn needs_pause(strategy: &Strategy) -> bool
    ensures { result ≡ needs_pause strategy.now }
{
    !strategy.auto_promotion || strategy.auto_seconds > 0
}

/// Whether a pause that began at `at` ends by itself, and its seconds have passed.
fn has_waited(strategy: &Strategy, at: u64, now: u64) -> bool
    ensures { result ≡ waited strategy.now.auto_promotion strategy.now.auto_seconds now (Some at) }
{
    strategy.auto_promotion
        && strategy.auto_seconds > 0
        && now >= at
        && now - at >= strategy.auto_seconds as u64
}
