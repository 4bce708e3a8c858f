//! The revisions that may be scaled down or removed, and whether an allowed outcome is left undone.
ghost use Rattle.std.specs.Prelude.{◌≡◌, ◌&&◌, ◌||◌, not, List, count_by, find, is_some};
ghost use Rattle.std.specs.List.{list_any};
ghost use Rattle.std.specs.Option.{option_copied};
ghost use Rattle.bg_strategy.specs.declared.strategy.Strategy.{Strategy};
ghost use Rattle.bg_revisions.specs.Rosters.{numbered};
ghost use Rattle.bg_history.specs.declared.entry.Entry.{Entry};
ghost use Rattle.bg_history.specs.Kept.{Opening};
ghost use Rattle.bg_history.specs.Promotion.{first_promotion};
ghost use Rattle.bg_history.specs.Deadlines.{reaches_limit, is_reached};
ghost use Rattle.bg_history.specs.Steps.{is_settled};
ghost use Rattle.bg_history_laws.specs.Reachable.{Reachable};
ghost use Rattle.bg_audit.specs.Marked.{mark_in};
ghost use Rattle.bg_audit.specs.Scans.{is_spare_in, left_later_in, time_in, count_left_later, marks_due_in, scales_down_in, is_old_in, is_numbered, removes_in};

use crate::facts::Facts;
use crate::marks::{Mark, MarkKind};
use crate::revisions::with_number;
use crate::{marks, requests};
use bg_history_laws as laws;
use bg_revisions::Revision;
use bg_strategy::Strategy;

impl Facts {
    ghost use Rattle.bg_audit.specs.Known.{Knows};

    /// Whether no allowed outcome is left undone.
    pub fn is_settled(&self, strategy: &Strategy) -> bool
        ensures { (o : Opening) (past : List Entry) → Knows strategy.now o past self.now
            → Reachable strategy.now o past → result ≡ is_settled strategy.now past }
    {
        laws::finds();
        let steps = self.has_step(strategy);
        let ends = self.has_end(strategy);
        is_neither(steps, ends)
    }

    /// Whether a step of the attempt is allowed.
    fn has_step(&self, strategy: &Strategy) -> bool
        ensures { (o : Opening) (past : List Entry) → Knows strategy.now o past self.now
            → Reachable strategy.now o past
            → result ≡ is_some (first_promotion strategy.now past) }
    {
        let available = self.newest_available();
        self.state.may_be_ready(strategy, available)
            || self.state.may_resume(strategy)
            || self.state.may_switch(strategy, available)
            || self.state.may_promote(strategy)
    }

    /// Whether a revision may be scaled down or removed.
    fn has_end(&self, strategy: &Strategy) -> bool
        ensures { result ≡ list_any (λ v. scales_down_in strategy.now self.now
            (numbered v.number self.now.revisions.items)
            || removes_in strategy.now self.now v.number) self.now.revisions.items }
    {
        self.revisions
            .iter()
            .any(|revision| self.ends(strategy, revision.number))
    }

    /// Whether the revision may be scaled down or removed.
    fn ends(&self, strategy: &Strategy, number: u64) -> bool
        ensures { result ≡ (scales_down_in strategy.now self.now
            (numbered number self.now.revisions.items)
            || removes_in strategy.now self.now number) }
    {
        self.may_scale_down(strategy, number) || self.may_remove(strategy, number)
    }

    /// Whether the revision may be scaled down.
    pub fn may_scale_down(&self, strategy: &Strategy, number: u64) -> bool
        ensures { result ≡ scales_down_in strategy.now self.now
            (numbered number self.now.revisions.items) }
    {
        match with_number(&self.revisions, number) {
            Some(revision) => {
                self.is_spare(revision)
                    && self.marks_due(strategy, marks::mark_of(&self.marks, revision.number))
                    && !requests::has_open_at(&self.requests, revision.number)
            }
            None => false,
        }
    }

    /// Whether the revision is scaled, and neither active nor preview nor stable.
    fn is_spare(&self, revision: &Revision) -> bool
        ensures { result ≡ is_spare_in self.now.state revision.now }
    {
        revision.desired >= 1 && !self.state.selects(revision.number)
    }

    /// Whether the mark makes its revision due.
    fn marks_due(&self, strategy: &Strategy, mark: Option<Mark>) -> bool
        ensures { result ≡ marks_due_in strategy.now self.now mark }
    {
        match mark {
            Some(mark) => {
                is_reached(strategy, mark, self.state.moment)
                    || (mark.kind == MarkKind::Left
                        && reaches_limit(strategy.revision_limit, self.rank_after(mark.position)))
            }
            None => false,
        }
    }

    /// The number of spare revisions that left the active service after more than `position` entries.
    fn rank_after(&self, position: u64) -> usize
        ensures { result ≡ count_left_later self.now position }
    {
        self.revisions
            .iter()
            .filter(|revision| self.is_later(revision, position))
            .count()
    }

    /// Whether the revision is spare and left the active service after more than `position` entries.
    fn is_later(&self, revision: &Revision, position: u64) -> bool
        ensures { result ≡ (is_spare_in self.now.state revision.now
            && left_later_in position (mark_in revision.now.number self.now.marks.items)) }
    {
        self.is_spare(revision)
            && left_later(position, marks::mark_of(&self.marks, revision.number))
    }

    /// Whether the revision may be removed.
    pub fn may_remove(&self, strategy: &Strategy, number: u64) -> bool
        ensures { result ≡ removes_in strategy.now self.now number }
    {
        self.old_count() > strategy.history_limit as usize && is_numbered(self.first_old(), number)
    }

    fn old_count(&self) -> usize
        ensures { result ≡ count_by (is_old_in self.now.state) self.now.revisions.items }
    {
        self.revisions
            .iter()
            .filter(|revision| self.is_old(revision))
            .count()
    }

    fn first_old(&self) -> Option<&Revision>
        ensures { option_copied result
            ≡ find (is_old_in self.now.state) self.now.revisions.items }
    {
        self.revisions.iter().find(|revision| self.is_old(revision))
    }

    /// Whether the revision isn't scaled, and neither active nor preview nor stable nor newest.
    fn is_old(&self, revision: &Revision) -> bool
        ensures { result ≡ is_old_in self.now.state revision.now }
    {
        revision.desired < 1
            && !self.state.selects(revision.number)
            && revision.number != self.state.newest
    }
}

/// Whether neither of the two holds.
fn is_neither(one: bool, other: bool) -> bool
    ensures { result ≡ (not one && not other) }
{
    !one && !other
}

/// Whether there is a revision, with this number.
fn is_numbered(revision: Option<&Revision>, number: u64) -> bool
    ensures { result ≡ is_numbered number (option_copied revision.entry) }
{
    match revision {
        Some(revision) => revision.number == number,
        None => false,
    }
}

/// Whether the mark says that its revision left the active service after more than `position` entries.
fn left_later(position: u64, mark: Option<Mark>) -> bool
    ensures { result ≡ left_later_in position mark }
{
    match mark {
        Some(mark) => mark.kind == MarkKind::Left && position < mark.position,
        None => false,
    }
}

/// Whether the deadline that the mark gives has come.
fn is_reached(strategy: &Strategy, mark: Mark, now: u64) -> bool
    ensures { result ≡ is_reached (time_in strategy.now mark.kind mark.moment) now }
{
    match mark.kind {
        MarkKind::Left => now >= mark.moment && now - mark.moment >= strategy.delay as u64,
        MarkKind::Superseded => now >= mark.moment,
        MarkKind::Aborted => {
            now >= mark.moment && now - mark.moment >= strategy.abort_delay as u64
        }
        MarkKind::Cleared => false,
    }
}

/// Whether there is a limit, and the count is at least that limit.
fn reaches_limit(limit: Option<u32>, count: usize) -> bool
    ensures { result ≡ reaches_limit limit count }
{
    match limit {
        Some(limit) => count >= limit as usize,
        None => false,
    }
}
