//! The readers of a book's state.
ghost use Rattle.std.specs.Prelude.{◌≡◌, ◌≤◌, ◌+◌, length, nat_lt, slice_get, Some, option_copied};
ghost use Rattle.bg_history.specs.AttemptBounds.{moment as moment_of};
ghost use Rattle.bg_history.specs.Sizes.{existing};
ghost use Rattle.bg_history.specs.Requests.{open_at};
ghost use Rattle.bg_history.specs.Deadlines.{deadline};
ghost use Rattle.bg_history.specs.Selections.{selectors_of};
ghost use Rattle.bg_history_laws.specs.Listed.{revisions_of};
ghost use Rattle.bg_promotion.specs.Phases.{phase_of};
ghost use Rattle.bg_rollout.specs.PastState.{is_draining as is_draining_in, is_past_limit};
ghost use Rattle.bg_book.specs.Room.{entries_used as used_entries};
ghost use Rattle.bg_rollout.specs.Refusals.{is_full_for_control, is_full_for_enter};
ghost use Rattle.bg_rollout.specs.State.{deadline_at, open_count_at, revision_at};

use crate::book::Book;
use bg_history::History;
use bg_ledger::Names;
use bg_promotion::Phase;
use bg_revisions::{Revision, Selectors};
use bg_rollout::laws as rollout_laws;
use bg_strategy::Strategy;

impl<N: Names> Book<N> {
    /// The moment, in seconds from the start.
    pub fn moment(&self) -> u64
        ensures past { result ≡ moment_of self.now.past }
        ensures running { result ≡ self.now.running.moment }
    {
        self.rollout.holds_invariant();
        self.rollout.moment()
    }

    /// The phase of the rollout.
    pub fn phase(&self) -> Phase
        ensures past { phase_of self.now.strategy self.now.past ≡ Some result }
        ensures running { self.now.running.phase ≡ Some result }
    {
        self.rollout.holds_invariant();
        self.rollout.phase()
    }

    /// The numbers of the active, preview, stable and newest revisions.
    pub fn selectors(&self) -> Selectors
        ensures past { result ≡ selectors_of self.now.past }
        ensures running { result ≡ self.now.running.selectors }
    {
        self.rollout.holds_invariant();
        self.rollout.selectors()
    }

    /// The strategy that the book was opened with.
    pub fn strategy(&self) -> &Strategy
        ensures { result.now ≡ self.now.strategy }
    {
        self.rollout.strategy()
    }

    /// How many revisions exist.
    pub fn count(&self) -> usize
        ensures past { result ≡ length (existing self.now.past) }
        ensures running { result ≡ length self.now.running.revisions }
    {
        rollout_laws::state_tells();
        self.rollout.holds_invariant();
        self.rollout.revisions().len()
    }

    /// The revision at a place, in ascending order of the numbers; the first place is 0. `None` past the last.
    pub fn revision(&self, place: usize) -> Option<&Revision>
        ensures past { option_copied result ≡ slice_get
            (revisions_of self.now.strategy self.now.opening self.now.past) place }
        ensures running { option_copied result ≡ revision_at self.now.running place }
    {
        rollout_laws::state_tells();
        self.rollout.holds_invariant();
        self.rollout.revisions().get(place)
    }

    /// The deadline of the revision of this number, if it has one: the moment from which it may be scaled down, in
    /// seconds from the start.
    pub fn deadline_of(&self, number: u64) -> Option<u64>
        ensures past { result ≡ deadline self.now.strategy number self.now.past }
        ensures running { result ≡ deadline_at self.now.running number }
    {
        rollout_laws::state_tells();
        self.rollout.holds_invariant();
        self.rollout.deadline_of(number)
    }

    /// How many requests are open at the revision of this number; 0 if no such revision exists.
    pub fn open_count(&self, number: u64) -> usize
        ensures past { result ≡ length (open_at number self.now.past) }
        ensures running { result ≡ open_count_at self.now.running number }
    {
        rollout_laws::state_tells();
        self.rollout.holds_invariant();
        self.rollout.open_count(number)
    }

    /// Whether the revision of this number drains: only its open requests keep it from being scaled down.
    pub fn is_draining(&self, number: u64) -> bool
        ensures { result ≡ is_draining_in self.now.strategy number self.now.past }
    {
        self.rollout.is_draining(number)
    }

    /// Whether the drain limit of the revision of this number is over: the revision drains, and the strategy's
    /// `drainLimitSeconds` have passed since its deadline.
    pub fn past_limit(&self, number: u64) -> bool
        ensures { result ≡ is_past_limit self.now.strategy number self.now.past }
    {
        self.rollout.past_limit(number)
    }

    /// The number of entries in use: those in the history, and three that are reserved for each open request.
    /// [`Book::control`] has no room if 141 more would exceed the limit of entries ([`crate::Limits`]), and
    /// [`Book::enter`] has none if 4 more would. The time of the call doesn't depend on the length of the history.
    pub fn entries_used(&self) -> u64
        ensures used { result ≡ used_entries self.now.past }
        ensures few { result ≤ 1000000 }
        ensures control { is_full_for_control self.now.limits self.now.past
            ≡ nat_lt self.now.limits.entries (result + 141) }
        ensures enter { is_full_for_enter self.now.limits self.now.past
            ≡ nat_lt self.now.limits.entries (result + 4) }
    {
        self.rollout.holds_invariant();
        self.rollout.history().len() + self.rollout.places_kept()
    }

    /// The history since the opening.
    pub fn history(&self) -> &History
        ensures opening { result.now.opening ≡ self.now.opening }
        ensures closed { result.now.closed ≡ self.now.closed }
        ensures past { result.now.past ≡ self.now.past }
    {
        self.rollout.history()
    }
}
