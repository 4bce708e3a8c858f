//! The moment, the selectors and the attempt of a past.
ghost use Rattle.std.specs.Prelude.{◌≡◌, ◌≤◌, ◌<◌, ℕ, List, [], ◌∷◌, length, reverse, slice_get, Some};
ghost use Rattle.bg_strategy.specs.declared.strategy.Strategy.{Strategy};
ghost use Rattle.bg_history.specs.declared.entry.Entry.{Entry};
ghost use Rattle.bg_history.specs.AttemptBounds.{stable_of, is_running, is_halted};
ghost use Rattle.bg_audit.specs.AuditedState.{IsAuditedState, HasSelectors, attempt_of};
ghost use Rattle.bg_audit.specs.Openings.{oldest};

mod questions;

use crate::audited_attempt::AuditedAttempt;
use crate::looking_back::{is_halted, is_running};
use bg_history::{AnalysisResult, Entry, History, Outcome};
use bg_strategy::Strategy;

/// The moment, the selectors and the attempt of a past. The moment and the selectors follow from the past before and
/// the newest entry. What is said of the attempt is found by looking back.
#[derive(Clone, Copy, Drop)]
pub struct AuditedState {
    pub moment: u64,
    pub stable: u64,
    pub newest: u64,
    pub active: u64,
    /// The greatest number given to a revision.
    pub last: u64,
    pub running: bool,
    pub halted: bool,
    pub attempt: AuditedAttempt,
}

impl AuditedState {
    /// The state of a past without entries: revision 1 is active, stable and newest.
    pub fn new() -> AuditedState
        ensures { (s : Strategy) → IsAuditedState s [] result }
    {
        AuditedState {
            moment: 0,
            stable: 1,
            newest: 1,
            active: 1,
            last: 1,
            running: false,
            halted: false,
            attempt: AuditedAttempt::new(),
        }
    }

    /// Updates the state with an entry of the history, which stands at this place.
    pub fn take(&mut self, strategy: &Strategy, entry: &Entry, history: &History, place: u64)
        requires place { place < length history.now.past }
        requires entry { slice_get (reverse history.now.past) place ≡ Some entry.now }
        requires state { IsAuditedState strategy.now (oldest place history.now.past) self.old }
        ensures { IsAuditedState strategy.now (entry.now ∷ oldest place history.now.past) self.new }
    {
        self.select(entry);
        match entry {
            Entry::Tick(_) | Entry::Available { .. } => {}
            Entry::Enter { .. } | Entry::Leave { .. } => {}
            Entry::Outcome(Outcome::ScaledDown(_) | Outcome::Removed(_)) => {}
            _ => {
                prove!(place < history.len());
                self.look_back(strategy, history, place + 1);
            }
        }
    }

    /// Updates the moment and the revisions with an entry.
    fn select(&mut self, entry: &Entry)
        ensures selectors { (past : List Entry) → HasSelectors past self.old
            → HasSelectors (entry.now ∷ past) self.new }
        ensures running { self.new.running ≡ self.old.running }
        ensures halted { self.new.halted ≡ self.old.halted }
        ensures attempt { self.new.attempt ≡ self.old.attempt }
    {
        match entry {
            Entry::Tick(moment) => self.moment = *moment,
            Entry::Deploy { revision, .. } => self.deploy(*revision),
            Entry::Verdict { result, .. } => match result {
                AnalysisResult::Successful => {}
                AnalysisResult::Failed | AnalysisResult::Error => self.active = self.stable,
            },
            Entry::Abort => self.active = self.stable,
            Entry::Outcome(Outcome::Switched(revision)) => self.active = *revision,
            Entry::Outcome(Outcome::Promoted(revision)) => self.stable = *revision,
            _ => {}
        }
    }

    fn deploy(&mut self, revision: u64)
        ensures selectors { (past : List Entry) (name ports : List ℕ) → HasSelectors past self.old
            → HasSelectors (Entry.Deploy revision name ports ∷ past) self.new }
        ensures running { self.new.running ≡ self.old.running }
        ensures halted { self.new.halted ≡ self.old.halted }
        ensures attempt { self.new.attempt ≡ self.old.attempt }
    {
        if revision == self.stable {
            self.active = revision;
        }
        self.newest = revision;
        self.last = revision.max(self.last);
    }

    /// Finds out about the attempt after the oldest `count` entries.
    fn look_back(&mut self, strategy: &Strategy, history: &History, count: u64)
        requires count { count ≤ length history.now.past }
        requires stable { self.old.stable ≡ stable_of (oldest count history.now.past) }
        ensures { self.new ≡ record self.old {
          running = is_running (oldest count history.now.past);
          halted = is_halted (oldest count history.now.past);
          attempt = attempt_of strategy.now (oldest count history.now.past);
        } }
    {
        self.running = is_running(history, count, self.stable);
        self.halted = is_halted(history, count);
        self.attempt = AuditedAttempt::after(history, strategy, count, self.running);
    }
}
