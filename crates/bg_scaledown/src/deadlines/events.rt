//! The effect of a history's entries on the deadlines.
ghost use Rattle.std.specs.Prelude.{◌≡◌, ◌≤◌, ◌^◌, true, List, [], ◌∷◌};
ghost use Rattle.bg_strategy.specs.declared.strategy.Strategy.{Strategy};
ghost use Rattle.bg_history.specs.declared.entry.Entry.{Entry};
ghost use Rattle.bg_history.specs.Selections.{selectors_of};
ghost use Rattle.bg_history.specs.AttemptBounds.{moment, newest_of};
ghost use Rattle.bg_history.specs.Sizes.{is_scaled};
ghost use Rattle.bg_scaledown.specs.Due.{has_room_for};
ghost use Rattle.bg_scaledown.specs.Events.{deployed, halted, switched};
ghost use Rattle.bg_scaledown.specs.Events.{marked_by_deploy, marked_by_halt, may_mark};
ghost use Rattle.bg_history.specs.Tables.{table_of};

use super::Deadlines;
use bg_history::{AnalysisResult, Entry, Outcome};
use bg_revisions::Selectors;

impl Deadlines {
    /// Records an entry of the history (Argo Rollouts, "BlueGreen Deployment Strategy": `scaleDownDelaySeconds` and
    /// `abortScaleDownDelaySeconds`). `selectors` are the selectors before the entry, `newest_is_scaled` says whether
    /// the newest revision was scaled before it, and `now` is the moment, in seconds from the start. If every entry of
    /// a history is recorded, the marks are those that the history makes.
    ///
    /// There must be room for each revision that the entry may mark (`may_mark`): those of them that have no mark yet
    /// and the existing marks are at most 64 together. An entry marks at most one revision, with two exceptions, which
    /// mark two: a deploy of the stable revision that supersedes the newest one while a third is active, and the halt
    /// of an attempt while an older revision than its own is active and not stable. For every halt there must be room
    /// for the newest and the active revision.
    pub fn record(&mut self, entry: &Entry, selectors: Selectors, newest_is_scaled: bool, now: u64)
        requires room { has_room_for (may_mark entry.now selectors) self.old.marks ≡ true }
        requires moment { now ≤ 2 ^ 53 }
        ensures { (s : Strategy) (past : List Entry) → self.old ≡ table_of s past
            → selectors ≡ selectors_of past
            → newest_is_scaled ≡ is_scaled s (newest_of past) past → now ≡ moment past
            → self.new ≡ table_of s (entry.now ∷ past) }
    {
        match entry {
            Entry::Deploy { revision, .. } => {
                self.record_deploy(*revision, selectors, newest_is_scaled, now);
            }
            Entry::Abort => self.record_halt(selectors, now),
            Entry::Verdict { result, .. } => match result {
                AnalysisResult::Successful => {}
                AnalysisResult::Failed | AnalysisResult::Error => {
                    self.record_halt(selectors, now);
                }
            },
            Entry::Retry => self.clear(selectors.newest),
            Entry::Outcome(Outcome::Switched(revision)) => {
                self.record_switch(*revision, selectors, now);
            }
            Entry::Outcome(Outcome::ScaledDown(revision)) => self.clear(*revision),
            _ => {}
        }
    }

    /// Records the deploy of a revision, which then has no deadline. If the newest revision was scaled and neither
    /// active nor stable, it is superseded. If the deploy goes back to the stable revision, the active one left.
    fn record_deploy(
        &mut self,
        revision: u64,
        selectors: Selectors,
        newest_is_scaled: bool,
        now: u64,
    )
        requires room { has_room_for (marked_by_deploy revision selectors) self.old.marks ≡ true }
        requires moment { now ≤ 2 ^ 53 }
        ensures { self.new ≡ record self.old {
          marks = deployed revision selectors newest_is_scaled now self.old.delay self.old.marks;
        } }
    {
        if revision != selectors.stable || selectors.active != revision {
            self.clear(revision);
        }
        if selectors.newest != selectors.active
            && selectors.newest != selectors.stable
            && newest_is_scaled
        {
            self.superseded(selectors.newest, now);
        }
        if revision == selectors.stable && selectors.active != revision {
            self.left_active(selectors.active, now);
        }
    }

    /// Records that the attempt was halted: its revision was aborted. If the stable revision is active again, it has no
    /// deadline. An active revision older than the attempt's own left.
    fn record_halt(&mut self, selectors: Selectors, now: u64)
        requires room { has_room_for (marked_by_halt selectors) self.old.marks ≡ true }
        requires moment { now ≤ 2 ^ 53 }
        ensures { self.new ≡ record self.old {
          marks = halted selectors now self.old.delay self.old.abort_delay self.old.marks;
        } }
    {
        if selectors.active != selectors.stable {
            self.clear(selectors.stable);
        }
        self.aborted(selectors.newest, now);
        if selectors.active != selectors.stable && selectors.active != selectors.newest {
            self.left_active(selectors.active, now);
        }
    }

    /// Records that the active service switched to the revision, which then has no deadline. The revision that was
    /// active before left.
    fn record_switch(&mut self, revision: u64, selectors: Selectors, now: u64)
        requires room { has_room_for (selectors.active ∷ []) self.old.marks ≡ true }
        requires moment { now ≤ 2 ^ 53 }
        ensures { self.new ≡ record self.old {
          marks = switched revision selectors now self.old.delay self.old.marks;
        } }
    {
        if selectors.active != revision {
            self.clear(revision);
            self.left_active(selectors.active, now);
        }
    }
}
