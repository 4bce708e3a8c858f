//! Finding and recording the outcomes that the past allows.
ghost use Rattle.std.specs.Prelude.{◌≡◌, ◌≤◌, ◌+◌, false, true, List, length, IsTrue, find, filter, option_copied};
ghost use Rattle.bg_history.specs.Allowed.{is_allowed};
ghost use Rattle.bg_history.specs.Deadlines.{may_remove, may_scale_down, is_empty};
ghost use Rattle.bg_history.specs.Requests.{open_at};
ghost use Rattle.bg_history.specs.Selections.{selectors_of};
ghost use Rattle.bg_history.specs.Sizes.{existing};
ghost use Rattle.bg_history.specs.Steps.{first_allowed, is_settled, Follows};
ghost use Rattle.bg_rollout.specs.Recording.{Recorded};
ghost use Rattle.bg_rollout.specs.Settling.{Reached, old_among};
ghost use Rattle.bg_history.specs.declared.entry.Entry.TheVariants as entry;
ghost use Rattle.bg_history.specs.declared.entry.Outcome.{Outcome};

use crate::rollout::Rollout;
use bg_history::{Entry, Outcome};
use bg_history_laws as laws;
use bg_ledger::Names;
use bg_promotion::laws as promotion_laws;
use bg_revisions::{Revision, Selectors};
use bg_scaledown::laws as scaledown_laws;

impl<N: Names> Rollout<N> {
    /// Records the first allowed outcome, and repeats this until none is allowed. Gives the number of recorded
    /// outcomes.
    pub fn settle(&mut self) -> u64
        requires { (outcomes : List Outcome) → Follows self.old.routing.strategy outcomes
            self.old.routing.past → length outcomes ≤ self.old.spare }
        ensures reached { Reached self.old.routing self.new.routing result }
        ensures settled { IsTrue (is_settled self.new.routing.strategy self.new.routing.past) }
        ensures spare { self.new.spare + result ≡ self.old.spare }
    {
        laws::reachable();
        laws::work_falls();
        laws::work_is_bounded();
        self.holds_invariant();
        let mut count = 0;
        while let Some(outcome) = self.next_outcome() {
            self.record_outcome(outcome);
            count += 1;
        }
        count
    }

    /// The first allowed outcome: a step of the attempt; else the scale-down of the least revision that may be scaled
    /// down; else the removal of the least revision that may be removed.
    fn next_outcome(&self) -> Option<Outcome>
        ensures { result ≡ first_allowed self.now.routing.strategy self.now.routing.past }
    {
        laws::finds();
        laws::reachable();
        let selectors = self.core.selectors();
        let newest = self.roster.find_number(selectors.newest).unwrap();
        if let Some(step) = self.core.next_outcome(newest.available, self.moment) {
            return Some(step);
        }
        let due = self.deadlines.next_due(
            self.moment,
            selectors,
            |revision| self.is_empty_at(revision),
        );
        if let Some(revision) = due {
            return Some(Outcome::ScaledDown(revision));
        }
        match self.next_removed(selectors) {
            Some(revision) => Some(Outcome::Removed(revision)),
            None => None,
        }
    }

    /// Settles, if nothing is allowed unless this revision may be scaled down. So a check of this revision is enough.
    pub fn settle_at(&mut self, revision: u64) -> u64
        requires room { (outcomes : List Outcome) → Follows self.old.routing.strategy outcomes
            self.old.routing.past → length outcomes ≤ self.old.spare }
        requires alone { let b = self.old.routing in
            may_scale_down b.strategy revision b.past ≡ false
            → IsTrue (is_settled b.strategy b.past) }
        ensures reached { Reached self.old.routing self.new.routing result }
        ensures settled { IsTrue (is_settled self.new.routing.strategy self.new.routing.past) }
        ensures spare { self.new.spare + result ≡ self.old.spare }
    {
        self.holds_invariant();
        if self.may_scale_down(revision) {
            self.settle()
        } else {
            0
        }
    }

    /// Whether a revision may be scaled down now: it is due, and no request is open at it.
    pub(super) fn may_scale_down(&self, revision: u64) -> bool
        ensures { result ≡ may_scale_down self.now.routing.strategy revision self.now.routing.past }
    {
        laws::reachable();
        self.deadlines
            .is_due(revision, self.moment, self.core.selectors())
            && self.is_empty_at(revision)
    }

    /// Whether no request is open at a revision.
    pub(super) fn is_empty_at(&self, revision: u64) -> bool
        ensures { result ≡ is_empty (open_at revision self.now.routing.past) }
    {
        laws::reachable();
        self.lists.count(revision) == 0
    }

    /// The least old revision, if more are old than the strategy keeps.
    pub(super) fn next_removed(&self, selectors: Selectors) -> Option<u64>
        requires { selectors ≡ selectors_of self.now.routing.past }
        ensures { let past = self.now.routing.past in
            result ≡ find (λ r. may_remove self.now.routing.strategy r past) (existing past) }
    {
        laws::oldest_is_removed();
        let revisions = self.roster.as_slice();
        if count_old(revisions, selectors) <= self.strategy.history_limit as usize {
            return None;
        }
        match first_old(revisions, selectors) {
            Some(revision) => Some(revision.number),
            None => None,
        }
    }

    /// Records an allowed outcome.
    pub(super) fn record_outcome(&mut self, outcome: Outcome)
        requires allowed { let b = self.old.routing in
            is_allowed b.strategy b.opening (entry.Outcome outcome) b.past ≡ true }
        requires spare { 1 ≤ self.old.spare }
        ensures { Recorded (entry.Outcome outcome) self.old self.new }
    {
        laws::reachable();
        laws::finds();
        laws::keeps();
        scaledown_laws::next_has_room();
        laws::removes();
        laws::resizes();
        promotion_laws::neutral(&self.core);
        let newest_is_scaled = self.newest_is_scaled();
        let entry = Entry::Outcome(outcome);
        self.deadlines.record(&entry, self.core.selectors(), newest_is_scaled, self.moment);
        match outcome {
            Outcome::Resumed(revision) => {
                self.roster.set_desired(revision, self.strategy.replicas);
            }
            Outcome::ScaledDown(revision) => self.roster.set_desired(revision, 0),
            Outcome::Removed(revision) => {
                self.roster.remove(revision);
                self.lists.drop_list(revision);
            }
            Outcome::Ready(_) => {}
            Outcome::Switched(_) => {}
            Outcome::Promoted(_) => {}
        }
        self.core.apply(&outcome, self.moment);
        self.history.push_reserved(entry);
    }
}

/// How many of the revisions are old.
fn count_old(revisions: &[Revision], selectors: Selectors) -> usize
    ensures { result ≡ length (filter (old_among selectors) revisions.now) }
{
    let mut count = 0;
    for revision in revisions {
        if is_old(revision, selectors) {
            count += 1;
        }
    }
    count
}

/// The first of the revisions that is old.
fn first_old(revisions: &[Revision], selectors: Selectors) -> Option<&Revision>
    ensures { option_copied result ≡ find (old_among selectors) revisions.now }
{
    revisions
        .iter()
        .find(|revision| is_old(revision, selectors))
}

/// Whether a revision is old: it wants no endpoint, and it is neither selected nor the newest.
fn is_old(revision: &Revision, selectors: Selectors) -> bool
    ensures { result ≡ old_among selectors revision.now }
{
    revision.desired == 0
        && revision.number != selectors.active
        && revision.number != selectors.preview
        && revision.number != selectors.stable
        && revision.number != selectors.newest
}
