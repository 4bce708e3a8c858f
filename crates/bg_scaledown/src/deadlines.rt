//! The deadlines of the revisions that left the active service, were superseded or were aborted.
ghost use Rattle.std.specs.Prelude.{◌≡◌, ◌≤◌, ◌<◌, ◌+◌, ◌^◌, ℕ, Bool, true, List, [], ◌∷◌, length};
ghost use Rattle.std.specs.Prelude.{◌&&◌, find, IfSome, IfNone};
ghost use Rattle.bg_strategy.specs.declared.strategy.Strategy.{Strategy};
ghost use Rattle.bg_history.specs.declared.entry.Entry.{Entry};
ghost use Rattle.bg_history.specs.AttemptBounds.{moment};
ghost use Rattle.bg_history.specs.Selections.{selectors_of};
ghost use Rattle.bg_history.specs.Sizes.{existing};
ghost use Rattle.bg_history.specs.Deadlines.{deadline as deadline_of_past};
ghost use Rattle.bg_history.specs.Deadlines.{is_due as is_due_in_past};
ghost use Rattle.bg_scaledown.specs.Due.{marks_without, has_room_for, deadline_in};
ghost use Rattle.bg_scaledown.specs.Due.{exempts, is_due_in, IsLeastDue};
ghost use Rattle.bg_scaledown.specs.Events.{with_aborted};
ghost use Rattle.bg_history.specs.Tables.{table_of, DeadlinesInvariant};
ghost use Rattle.bg_history.specs.declared.mark.Cause.TheVariants.{Left, Superseded};

mod events;

use crate::laws as scaledown_laws;
use crate::marks::Marks;
use bg_history::{Cause, RevisionMark, laws as history_laws};
use bg_revisions::Selectors;
use std::marker::Model;

/// The newest mark of each revision that left the active service, was superseded or was aborted, with the delays and
/// the limit of the strategy (Argo Rollouts, "BlueGreen Deployment Strategy": `scaleDownDelaySeconds`,
/// `abortScaleDownDelaySeconds` and `scaleDownDelayRevisionLimit`). Contracts see the marks newest first.
///
/// No call allocates.
#[derive(Drop)]
pub struct Deadlines {
    delay: u32,
    abort_delay: u32,
    limit: Option<u32>,
    marks: Marks,
}

impl Model for Deadlines {
    ghost use Rattle.std.specs.Prelude.{◌≤◌, length};
    ghost use Rattle.bg_history.specs.Tables.{Table};

    ghost Value = { Table };

    ghost view = { λ d. record {
      delay = d.delay;
      abort_delay = d.abort_delay;
      limit = d.limit;
      marks = d.marks;
    } };

    ghost invariant = { λ d. length d.marks ≤ 64 };
}

impl Deadlines {
    /// A table without marks. The delays are in seconds. If `abort_delay` is 0, an aborted revision has no deadline.
    /// If `limit` is `None`, any number of revisions may stay scaled.
    pub fn new(delay: u32, abort_delay: u32, limit: Option<u32>) -> Deadlines
        ensures { result ≡ record {
          delay = delay;
          abort_delay = abort_delay;
          limit = limit;
          marks = [];
        } }
    {
        Deadlines {
            delay,
            abort_delay,
            limit,
            marks: Marks::new(),
        }
    }

    /// Records that the active service no longer selects the revision, which stays scaled for the delay. `now` is in
    /// seconds from the start. The revision must have a mark already, or fewer than 64 revisions have one.
    pub fn left_active(&mut self, revision: u64, now: u64)
        requires room { has_room_for (revision ∷ []) self.old.marks ≡ true }
        requires moment { now ≤ 2 ^ 53 }
        ensures { self.new ≡ record self.old {
          marks = record { revision = revision; cause = Left; deadline = now + self.old.delay }
              ∷ marks_without revision self.old.marks;
        } }
    {
        let deadline = now + self.delay as u64;
        self.set_mark(RevisionMark {
            revision,
            cause: Cause::Left,
            deadline,
        });
    }

    /// Records that a deploy took the place of the revision, which wasn't active and may be scaled down at once. `now`
    /// is in seconds from the start. The revision must have a mark already, or fewer than 64 revisions have one.
    pub fn superseded(&mut self, revision: u64, now: u64)
        requires room { has_room_for (revision ∷ []) self.old.marks ≡ true }
        ensures { self.new ≡ record self.old {
          marks = record { revision = revision; cause = Superseded; deadline = now }
              ∷ marks_without revision self.old.marks;
        } }
    {
        self.set_mark(RevisionMark {
            revision,
            cause: Cause::Superseded,
            deadline: now,
        });
    }

    /// Records that the attempt of the revision was halted. The revision stays scaled for the delay of an aborted
    /// revision; if that delay is 0, it has no deadline. `now` is in seconds from the start. The revision must have a
    /// mark already, or fewer than 64 revisions have one.
    pub fn aborted(&mut self, revision: u64, now: u64)
        requires room { has_room_for (revision ∷ []) self.old.marks ≡ true }
        requires moment { now ≤ 2 ^ 53 }
        ensures { self.new ≡ record self.old {
          marks = with_aborted revision now self.old.abort_delay self.old.marks;
        } }
    {
        if self.abort_delay > 0 {
            let deadline = now + self.abort_delay as u64;
            self.set_mark(RevisionMark {
                revision,
                cause: Cause::Aborted,
                deadline,
            });
        } else {
            self.clear(revision);
        }
    }

    /// Makes this the newest mark of its revision.
    fn set_mark(&mut self, mark: RevisionMark)
        requires room { has_room_for (mark.revision ∷ []) self.old.marks ≡ true }
        ensures { self.new ≡ record self.old {
          marks = mark ∷ marks_without mark.revision self.old.marks;
        } }
    {
        self.marks.put(mark);
    }

    /// Removes the deadline of the revision.
    pub fn clear(&mut self, revision: u64)
        ensures { self.new ≡ record self.old { marks = marks_without revision self.old.marks } }
    {
        self.marks.drop_mark(revision);
    }

    /// The deadline of the revision: the moment from which it may be scaled down, in seconds from the start. `None` if
    /// it has no mark. If the marks are those of a history, this is the deadline that the history gives.
    pub fn deadline(&self, revision: u64) -> Option<u64>
        ensures table { result ≡ deadline_in self.now revision }
        ensures past { (s : Strategy) (past : List Entry) → self.now ≡ table_of s past
            → result ≡ deadline_of_past s revision past }
    {
        for mark in self.marks.newest_first() {
            if mark.revision == revision {
                return Some(mark.deadline);
            }
        }
        None
    }

    /// Whether the revision is due. A due revision isn't exempt, and one of these holds: its deadline has come; or it
    /// left the active service, and at least `limit` revisions that aren't exempt left after it. The active, the
    /// preview and the stable revision are exempt; `exempt.newest` isn't read. If the marks are those of a history, and
    /// each marked revision exists and is scaled, the answer is the one that the history gives.
    pub fn is_due(&self, revision: u64, now: u64, exempt: Selectors) -> bool
        ensures table { result ≡ is_due_in self.now revision now exempt }
        ensures past { (s : Strategy) (past : List Entry) → self.now ≡ table_of s past
            → DeadlinesInvariant s past → exempt ≡ selectors_of past → now ≡ moment past
            → result ≡ is_due_in_past s revision past }
    {
        scaledown_laws::table_tells_due();
        self.has_due_mark(revision, now, exempt)
    }

    /// Whether the revision isn't exempt, and its mark makes it due.
    fn has_due_mark(&self, revision: u64, now: u64, exempt: Selectors) -> bool
        ensures { result ≡ is_due_in self.now revision now exempt }
    {
        if exempts(exempt, revision) {
            return false;
        }
        let mut rank: u64 = 0;
        for mark in self.marks.newest_first() {
            if mark.revision == revision {
                return mark.deadline <= now
                    || (mark.cause.has_left()
                        && self.limit.is_some_and(|limit| limit as u64 <= rank));
            }
            if mark.cause.has_left() && !exempts(exempt, mark.revision) {
                rank += 1;
            }
        }
        false
    }

    /// The least number of a revision that is due and for which `empty` gives true; `None` if there is none. If the
    /// marks are those of a history, and each marked revision exists and is scaled, this is the first existing revision
    /// that is due by the history and is empty.
    pub fn next_due<F: Fn(u64) -> bool>(&self, now: u64, exempt: Selectors, empty: F) -> Option<u64>
        requires { F.IsAlwaysCallable empty }
        // `p` is the test that `empty` computes.
        ensures table { (p : ℕ → Bool) → ((x : ℕ) (r : Bool) → F.post empty x r → r ≡ p x)
            → IsLeastDue self.now now exempt p result }
        ensures past { (s : Strategy) (past : List Entry) (p : ℕ → Bool)
            → self.now ≡ table_of s past → DeadlinesInvariant s past
            → exempt ≡ selectors_of past → now ≡ moment past
            → ((x : ℕ) (r : Bool) → F.post empty x r → r ≡ p x)
            → result ≡ find (λ r. is_due_in_past s r past && p r) (existing past) }
    {
        history_laws::existing_ascends();
        // Of the revisions that left, the latest `limit` ones stay.
        let over = self
            .limited()
            .iter()
            .filter(|mark| mark.cause.has_left() && !exempts(exempt, mark.revision))
            .skip(self.limit.unwrap_or(0) as usize)
            .map(|mark| mark.revision);
        self.marks
            .by_deadline()
            .iter()
            .take_while(|mark| mark.deadline <= now)
            .map(|mark| mark.revision)
            .chain(over)
            .filter(|revision| !exempts(exempt, *revision) && empty(*revision))
            .min()
    }

    /// The marks to which the limit applies, newest first; none without a limit.
    fn limited(&self) -> &[RevisionMark]
        ensures some { IfSome self.now.limit (λ _. result.now ≡ self.now.marks) }
        ensures none { IfNone self.now.limit (result.now ≡ []) }
    {
        match self.limit {
            Some(_) => self.marks.newest_first(),
            None => &[],
        }
    }
}

/// Whether the revision is active, preview or stable.
fn exempts(selectors: Selectors, revision: u64) -> bool
    ensures { result ≡ exempts selectors revision }
{
    revision == selectors.active || revision == selectors.preview || revision == selectors.stable
}
