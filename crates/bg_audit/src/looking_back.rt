//! What a history says of its attempts, found by looking back from its newest entry to the one that says it. The
//! crates that make histories keep this instead, and update it with each entry.
ghost use Rattle.std.specs.Prelude.{◌≡◌, ◌≤◌, ◌<◌, ◌∷◌, ◌&&◌, true, List, length, reverse, slice_get, is_none, unwrap_or, Some};
ghost use Rattle.bg_history.specs.declared.entry.Entry.{Entry};
ghost use Rattle.bg_history.specs.AttemptBounds.{moment, stable_of, is_attempt_bound, is_running, is_halted};
ghost use Rattle.bg_history.specs.Attempts.{in_attempt, passes, pass_moment};
ghost use Rattle.bg_audit.specs.Openings.{oldest};
ghost use Rattle.bg_audit.specs.Steps.{is_step};

use crate::numbers::entry_at;
use bg_history::{Analysis, AnalysisResult, Entry, History, Outcome};
use bg_strategy::Strategy;

/// A step of an attempt.
#[derive(Clone, Copy, Drop)]
pub enum Step {
    /// The new revision has the endpoints that its preview needs.
    Ready,
    /// The pause is over.
    Resumed,
    /// The active service has switched to the new revision.
    Switched,
    /// An operator ended the pause.
    Promote,
    /// An operator skipped the analyses and pauses.
    PromoteFull,
    /// The analysis after the switch has passed.
    PostSuccess,
}

/// Whether an attempt runs after the oldest `count` entries, after which the revision `stable` is stable.
pub fn is_running(history: &History, count: u64, stable: u64) -> bool
    requires count { count ≤ length history.now.past }
    requires stable { stable ≡ stable_of (oldest count history.now.past) }
    ensures { result ≡ is_running (oldest count history.now.past) }
{
    for place in (0..count).rev() {
        if let Some(runs) = runs_after(entry_at(history, place), stable) {
            return runs;
        }
    }
    false
}

/// Whether an attempt runs after this entry, if the entry is a bound of an attempt.
fn runs_after(entry: &Entry, stable: u64) -> Option<bool>
    ensures running { (past : List Entry) → stable ≡ stable_of (entry.now ∷ past)
        → is_running (entry.now ∷ past) ≡ unwrap_or result (is_running past) }
    ensures stable { (past : List Entry) → is_none result ≡ true
        → stable_of (entry.now ∷ past) ≡ stable_of past }
{
    match entry {
        Entry::Deploy { revision, .. } => Some(*revision != stable),
        Entry::Retry => Some(true),
        Entry::Abort | Entry::Outcome(Outcome::Promoted(_)) => Some(false),
        Entry::Verdict { result, .. } => match result {
            AnalysisResult::Successful => None,
            AnalysisResult::Failed | AnalysisResult::Error => Some(false),
        },
        _ => None,
    }
}

/// Whether the last attempt was halted, after the oldest `count` entries.
pub fn is_halted(history: &History, count: u64) -> bool
    requires { count ≤ length history.now.past }
    ensures { result ≡ is_halted (oldest count history.now.past) }
{
    for place in (0..count).rev() {
        if let Some(halts) = halts_after(entry_at(history, place)) {
            return halts;
        }
    }
    false
}

/// Whether the last attempt was halted after this entry, if the entry is a bound of an attempt.
fn halts_after(entry: &Entry) -> Option<bool>
    ensures { (past : List Entry)
        → is_halted (entry.now ∷ past) ≡ unwrap_or result (is_halted past) }
{
    match entry {
        Entry::Abort => Some(true),
        Entry::Deploy { .. } | Entry::Retry | Entry::Outcome(Outcome::Promoted(_)) => Some(false),
        Entry::Verdict { result, .. } => match result {
            AnalysisResult::Successful => None,
            AnalysisResult::Failed | AnalysisResult::Error => Some(true),
        },
        _ => None,
    }
}

/// Whether the running attempt has the step, after the oldest `count` entries; `running` says whether one runs.
pub fn has_step(history: &History, count: u64, running: bool, step: Step) -> bool
    requires count { count ≤ length history.now.past }
    requires running { running ≡ is_running (oldest count history.now.past) }
    ensures { result ≡ in_attempt (is_step step) (oldest count history.now.past) }
{
    for place in (0..count).rev() {
        let entry = entry_at(history, place);
        if is_bound(entry) {
            return false;
        }
        if is_taken(entry, step, running) {
            return true;
        }
    }
    false
}

/// Whether the entry is this step, and an attempt runs.
fn is_taken(entry: &Entry, step: Step, running: bool) -> bool
    ensures { result ≡ (is_step step entry.now && running) }
{
    is_step(entry, step) && running
}

/// Whether the entry begins or ends an attempt.
fn is_bound(entry: &Entry) -> bool
    ensures { result ≡ is_attempt_bound entry.now }
{
    match entry {
        Entry::Deploy { .. } | Entry::Retry | Entry::Abort => true,
        Entry::Verdict { result, .. } => match result {
            AnalysisResult::Successful => false,
            AnalysisResult::Failed | AnalysisResult::Error => true,
        },
        Entry::Outcome(Outcome::Promoted(_)) => true,
        _ => false,
    }
}

/// Whether the entry is this step.
fn is_step(entry: &Entry, step: Step) -> bool
    ensures { result ≡ is_step step entry.now }
{
    match (step, entry) {
        (Step::Ready, Entry::Outcome(Outcome::Ready(_))) => true,
        (Step::Resumed, Entry::Outcome(Outcome::Resumed(_))) => true,
        (Step::Switched, Entry::Outcome(Outcome::Switched(_))) => true,
        (Step::Promote, Entry::Promote) => true,
        (Step::PromoteFull, Entry::PromoteFull) => true,
        (
            Step::PostSuccess,
            Entry::Verdict {
                analysis: Analysis::Post,
                result: AnalysisResult::Successful,
            },
        ) => true,
        _ => false,
    }
}

/// The moment at which the running attempt passed its first part, after the oldest `count` entries; `running` says
/// whether one runs.
pub fn passed_at(history: &History, strategy: &Strategy, count: u64, running: bool) -> Option<u64>
    requires count { count ≤ length history.now.past }
    requires running { running ≡ is_running (oldest count history.now.past) }
    ensures { result ≡ pass_moment strategy.now (oldest count history.now.past) }
{
    let mut found = None;
    for place in (0..count).rev() {
        let entry = entry_at(history, place);
        if is_bound(entry) {
            return found;
        }
        if passes(history, strategy, place, running) {
            found = Some(moment_at(history, place));
        }
    }
    found
}

/// Whether the attempt passes its first part by the entry at this place, before which an attempt runs if `running`
/// says so.
fn passes(history: &History, strategy: &Strategy, place: u64, running: bool) -> bool
    requires place { place < length history.now.past }
    requires running { running ≡ is_running (oldest place history.now.past) }
    ensures { (e : Entry) → slice_get (reverse history.now.past) place ≡ Some e
        → result ≡ passes strategy.now e (oldest place history.now.past) }
{
    match entry_at(history, place) {
        Entry::Outcome(Outcome::Ready(_)) => !strategy.pre && running,
        Entry::Verdict {
            analysis: Analysis::Pre,
            result: AnalysisResult::Successful,
        } => strategy.pre && has_step(history, place, running, Step::Ready),
        _ => false,
    }
}

/// The moment after the oldest `count` entries.
fn moment_at(history: &History, count: u64) -> u64
    requires { count ≤ length history.now.past }
    ensures { result ≡ moment (oldest count history.now.past) }
{
    for place in (0..count).rev() {
        if let Some(moment) = ticks_to(entry_at(history, place)) {
            return moment;
        }
    }
    0
}

/// The moment to which the entry sets the clock, if it does.
fn ticks_to(entry: &Entry) -> Option<u64>
    ensures { (past : List Entry) → moment (entry.now ∷ past) ≡ unwrap_or result (moment past) }
{
    match entry {
        Entry::Tick(moment) => Some(*moment),
        _ => None,
    }
}
