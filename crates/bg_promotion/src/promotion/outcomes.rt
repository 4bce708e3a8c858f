//! The steps of an attempt, which the switch itself takes.
ghost use Rattle.std.specs.Prelude.{◌≡◌, ◌&&◌, ◌||◌, false, not, List, ◌∷◌, Some};
ghost use Rattle.bg_strategy.specs.declared.strategy.Strategy.{Strategy};
ghost use Rattle.bg_history.specs.declared.entry.Entry.{Entry};
ghost use Rattle.bg_history.specs.AttemptBounds.{moment, newest_of};
ghost use Rattle.bg_history.specs.Attempts.{has_promote, has_promote_full, pass_moment, is_passed};
ghost use Rattle.bg_history.specs.Sizes.{available as available_of};
ghost use Rattle.bg_history.specs.Phases.{needs_pause as needs_pause_in};
ghost use Rattle.bg_history.specs.Promotion.{first_promotion, may_be_ready as may_be_ready_in, may_resume as may_resume_in, may_switch as may_switch_in, may_promote as may_promote_in, waited};
ghost use Rattle.bg_promotion.specs.Represents.{CoreRepresents};
ghost use Rattle.bg_promotion.specs.Answers.{is_step};

use super::Core;
use super::attempt::Attempt;
use bg_history::Outcome;

impl Core {
    /// The next step of the attempt at the moment `now`, if the newest revision has `available` endpoints available;
    /// `None` if no step is allowed.
    pub fn next_outcome(&self, available: u32, now: u64) -> Option<Outcome>
        ensures { (s : Strategy) (past : List Entry) → CoreRepresents s self.now past
            → available ≡ available_of (newest_of past) past → now ≡ moment past
            → result ≡ first_promotion s past }
    {
        if self.may_be_ready(available) {
            Some(Outcome::Ready(self.newest))
        } else if self.may_resume(now) {
            Some(Outcome::Resumed(self.newest))
        } else if self.may_switch(available) {
            Some(Outcome::Switched(self.newest))
        } else if self.may_promote() {
            Some(Outcome::Promoted(self.newest))
        } else {
            None
        }
    }

    /// Records the next step of the attempt at the moment `now`. An outcome that is no step of an attempt changes
    /// nothing.
    #[tactic(auto, using(crate::proofs::Attempts::unready_unpassed))]
    pub fn apply(&mut self, outcome: &Outcome, now: u64)
        ensures next { (s : Strategy) (past : List Entry) → CoreRepresents s self.old past
            → now ≡ moment past → first_promotion s past ≡ Some outcome.now
            → CoreRepresents s self.new (Entry.Outcome outcome.now ∷ past) }
        ensures other { is_step outcome.now ≡ false → self.new ≡ self.old }
    {
        match outcome {
            Outcome::Ready(_) => {
                self.attempt.ready = true;
                if !self.pre {
                    self.attempt.passed_at = Some(now);
                }
            }
            Outcome::Resumed(_) => self.attempt.resumed = true,
            Outcome::Switched(revision) => {
                self.attempt.switched = true;
                self.active = *revision;
            }
            Outcome::Promoted(revision) => {
                self.stable = *revision;
                self.running = false;
                self.halted = false;
                self.attempt = Attempt::new();
            }
            Outcome::ScaledDown(_) | Outcome::Removed(_) => {}
        }
    }

    /// Whether the new revision has the endpoints that its preview needs.
    fn may_be_ready(&self, available: u32) -> bool
        ensures { (s : Strategy) (past : List Entry) → CoreRepresents s self.now past
            → available ≡ available_of (newest_of past) past
            → result ≡ may_be_ready_in s (newest_of past) past }
    {
        self.running && !self.attempt.ready && available >= self.preview_replicas
    }

    /// Whether the new revision may grow to full size.
    fn may_resume(&self, now: u64) -> bool
        ensures { (s : Strategy) (past : List Entry) → CoreRepresents s self.now past
            → now ≡ moment past → result ≡ may_resume_in s (newest_of past) past }
    {
        self.running && self.attempt.ready && !self.attempt.resumed && self.ends_pause(now)
    }

    /// Whether the active service may switch to the new revision.
    fn may_switch(&self, available: u32) -> bool
        ensures { (s : Strategy) (past : List Entry) → CoreRepresents s self.now past
            → available ≡ available_of (newest_of past) past
            → result ≡ may_switch_in s (newest_of past) past }
    {
        self.running && self.attempt.resumed && !self.attempt.switched && available == self.replicas
    }

    /// Whether the new revision may become the stable one.
    fn may_promote(&self) -> bool
        ensures { (s : Strategy) (past : List Entry) → CoreRepresents s self.now past
            → result ≡ may_promote_in s (newest_of past) past }
    {
        self.running
            && self.attempt.switched
            && (!self.post || self.attempt.post_passed || self.attempt.promote_full_given)
    }

    /// Whether the analysis and the pause before the switch are over.
    fn ends_pause(&self, now: u64) -> bool
        ensures { (s : Strategy) (past : List Entry) → CoreRepresents s self.now past
            → result ≡ (has_promote_full past
            || (is_passed s past && not (needs_pause_in s))
            || (is_passed s past && has_promote past)
            || waited s.auto_promotion s.auto_seconds now (pass_moment s past)) }
    {
        if self.attempt.promote_full_given {
            return true;
        }
        match self.attempt.passed_at {
            None => false,
            Some(at) => {
                !self.needs_pause() || self.attempt.promote_given || self.has_waited(at, now)
            }
        }
    }

    /// Whether a pause that began at `at` ends by itself, and its seconds have passed.
    fn has_waited(&self, at: u64, now: u64) -> bool
        ensures { (s : Strategy) (past : List Entry) → CoreRepresents s self.now past
            → result ≡ waited s.auto_promotion s.auto_seconds now (Some at) }
    {
        self.auto_promotion
            && self.auto_seconds > 0
            && now >= at
            && now - at >= self.auto_seconds as u64
    }
}
