//! Following the entries of a journal, so that the rollout is resumed from it.
ghost use Rattle.std.specs.Prelude.{◌≡◌, ◌≤◌, ◌+◌, ◌==◌, ◌∷◌, [], true, false, length, reverse, unwrap_or, IfErr, OnOk, OnErr, MatchOption};
ghost use Rattle.bg_history.specs.Allowed.{is_allowed};
ghost use Rattle.bg_history.specs.Deadlines.{may_remove};
ghost use Rattle.bg_history.specs.Promotion.{first_promotion};
ghost use Rattle.bg_history.specs.Requests.{open_requests};
ghost use Rattle.bg_history.specs.Sizes.{last_number};
ghost use Rattle.bg_history.specs.declared.entry.Entry.TheVariants as entry;
ghost use Rattle.bg_promotion.specs.Answers.{is_step};
ghost use Rattle.bg_rollout.specs.Changes.{with_past};
ghost use Rattle.bg_rollout.specs.Following.{is_event, is_event_allowed, may_follow, same_outcome, FollowFaultIs, JournalFaultIs, Resumes};
ghost use Rattle.bg_rollout.specs.Judging.{entry_of, IsAccepted};

use crate::accepted_event::AcceptedEvent;
use crate::follow_fault::{FollowFault, JournalFault};
use crate::limits::MOST_ENTRIES;
use crate::rollout::Rollout;
use bg_history::{Entry, Outcome};
use bg_history_laws as laws;
use bg_ledger::Names;
use bg_revisions::{Name, Ports};
use std::alloc::Global;

impl<N: Names> Rollout<N> {
    /// Resumes a rollout that was just opened from the entries of a journal, the oldest first: records each of them, if
    /// the entries before it allow it, and then the outcomes that are still allowed. After an error only the seats are
    /// known to be as before.
    ///
    /// The error is `TooManyEntries` if the history has no room for the entries and the outcomes after them. Else it is
    /// that of the first entry that isn't followed: `OfRequest` if it is the Enter or the Leave of a request;
    /// `NotAllowed` if the entries before it don't allow it. `OutOfMemory` comes if an allocation fails.
    pub fn resume(&mut self, alloc: Global, entries: &[Entry]) -> Result<(), JournalFault>
        requires fresh { self.old.routing.past ≡ [] }
        ensures ok { OnOk result (Resumes self.old.routing entries.now self.new.routing) }
        ensures room { OnOk result (length self.new.routing.past ≤ self.new.routing.limits.entries) }
        ensures err { let b = self.old.routing in
            IfErr result (JournalFaultIs b.strategy b.opening b.limits entries.now) }
        ensures opening { self.new.routing.opening ≡ self.old.routing.opening }
        ensures seats { self.new.routing.seats ≡ self.old.routing.seats }
    {
        laws::reachable();
        laws::work_is_bounded();
        crate::laws::few_follow();
        if entries.len() as u64 + MOST_ENTRIES > self.limits.entries {
            return Err(JournalFault::TooManyEntries);
        }
        self.follow_all(alloc, entries)?;
        self.reserve(MOST_ENTRIES)?;
        self.holds_invariant();
        self.settle();
        Ok(())
    }

    /// Follows the entries, the oldest first.
    fn follow_all(&mut self, alloc: Global, entries: &[Entry]) -> Result<(), JournalFault>
        requires fresh { self.old.routing.past ≡ [] }
        requires short { length entries.now ≤ 1000000 }
        ensures ok { OnOk result (self.new.routing
            ≡ with_past self.old.routing (reverse entries.now) self.old.routing.seats) }
        ensures none_open { OnOk result (open_requests (reverse entries.now) ≡ []) }
        ensures err { let b = self.old.routing in
            IfErr result (JournalFaultIs b.strategy b.opening b.limits entries.now) }
        ensures opening { self.new.routing.opening ≡ self.old.routing.opening }
        ensures seats { self.new.routing.seats ≡ self.old.routing.seats }
    {
        self.holds_invariant();
        for place in 0..entries.len() {
            self.holds_invariant();
            match self.follow(alloc, &entries[place]) {
                Ok(()) => {}
                Err(fault) => return Err(fault.at(place as u64)),
            }
        }
        Ok(())
    }

    /// Records an entry of a journal, if it belongs to no request and the past allows it. The error is `OfRequest` if it
    /// belongs to a request; else `NotAllowed` if the past doesn't allow it; else `OutOfMemory` if an allocation fails.
    /// An error changes no more than the number of reserved places.
    pub fn follow(&mut self, alloc: Global, entry: &Entry) -> Result<(), FollowFault>
        requires short { length self.old.routing.past ≤ 1000000 }
        ensures allowed { OnOk result (may_follow self.old.routing entry.now ≡ true) }
        ensures ok { OnOk result (self.new.routing ≡ with_past self.old.routing
            (entry.now ∷ self.old.routing.past) self.old.routing.seats) }
        ensures err { IfErr result (FollowFaultIs self.old.routing entry.now) }
        ensures unchanged { OnErr result (self.new.routing ≡ self.old.routing) }
    {
        match entry {
            Entry::Outcome(outcome) => self.follow_outcome(*outcome),
            Entry::Enter { .. } | Entry::Leave { .. } => Err(FollowFault::OfRequest),
            event => self.follow_event(alloc, event),
        }
    }

    /// Records an outcome of a journal.
    fn follow_outcome(&mut self, outcome: Outcome) -> Result<(), FollowFault>
        ensures allowed { OnOk result (may_follow self.old.routing (entry.Outcome outcome) ≡ true) }
        ensures ok { OnOk result (self.new.routing ≡ with_past self.old.routing
            (entry.Outcome outcome ∷ self.old.routing.past) self.old.routing.seats) }
        ensures err { IfErr result (FollowFaultIs self.old.routing (entry.Outcome outcome)) }
        ensures unchanged { OnErr result (self.new.routing ≡ self.old.routing) }
    {
        if !self.is_outcome_allowed(outcome) {
            return Err(FollowFault::NotAllowed);
        }
        self.history.reserve(1)?;
        self.record_outcome(outcome);
        Ok(())
    }

    /// Whether the outcome is allowed now.
    fn is_outcome_allowed(&self, outcome: Outcome) -> bool
        ensures { let b = self.now.routing in
            result ≡ is_allowed b.strategy b.opening (entry.Outcome outcome) b.past }
    {
        match outcome {
            Outcome::ScaledDown(revision) => self.may_scale_down(revision),
            Outcome::Removed(revision) => self.may_remove(revision),
            step => self.may_step(step),
        }
    }

    /// Whether a revision may be removed now.
    fn may_remove(&self, revision: u64) -> bool
        ensures { result ≡ may_remove self.now.routing.strategy revision self.now.routing.past }
    {
        laws::oldest_is_removed();
        match self.next_removed(self.core.selectors()) {
            Some(least) => least == revision,
            None => false,
        }
    }

    /// Whether a step of an attempt is allowed now.
    fn may_step(&self, step: Outcome) -> bool
        requires { is_step step ≡ true }
        ensures { let b = self.now.routing in
            result ≡ is_allowed b.strategy b.opening (entry.Outcome step) b.past }
    {
        self.holds_invariant();
        match self.next_step() {
            Some(next) => is_same(next, step),
            None => false,
        }
    }

    /// The next step of the attempt, if one is allowed.
    fn next_step(&self) -> Option<Outcome>
        ensures { result ≡ first_promotion self.now.routing.strategy self.now.routing.past }
    {
        laws::finds();
        laws::reachable();
        let selectors = self.core.selectors();
        let newest = self.roster.find_number(selectors.newest).unwrap();
        self.core.next_outcome(newest.available, self.moment)
    }

    /// Records an event of a journal.
    fn follow_event(&mut self, alloc: Global, entry: &Entry) -> Result<(), FollowFault>
        requires event { is_event entry.now ≡ true }
        requires short { length self.old.routing.past ≤ 1000000 }
        ensures allowed { OnOk result (may_follow self.old.routing entry.now ≡ true) }
        ensures ok { OnOk result (self.new.routing ≡ with_past self.old.routing
            (entry.now ∷ self.old.routing.past) self.old.routing.seats) }
        ensures err { IfErr result (FollowFaultIs self.old.routing entry.now) }
        ensures unchanged { OnErr result (self.new.routing ≡ self.old.routing) }
    {
        let Some(accepted) = self.judge_entry(entry) else {
            return Err(FollowFault::NotAllowed);
        };
        self.history.reserve(1)?;
        self.take_in(alloc, accepted)?;
        Ok(())
    }

    /// How to record an event of a journal, if the past allows it.
    fn judge_entry<'a>(&self, entry: &'a Entry) -> Option<AcceptedEvent<'a>>
        ensures { let b = self.now.routing in MatchOption result
            (is_event_allowed b entry.now ≡ false)
            (λ a. (entry_of b a ≡ entry.now) × IsAccepted b a) }
    {
        // A copy of the core takes the command.
        let mut core = self.core;
        match entry {
            Entry::Tick(moment) => {
                self.check_tick(*moment).ok()?;
                Some(AcceptedEvent::Tick(*moment))
            }
            Entry::Deploy {
                revision,
                name,
                ports,
            } => self.judge_deploy(*revision, name, ports),
            Entry::Available { revision, size } => {
                let (revision, size) = (*revision, *size);
                match self.check_report(revision, size) {
                    Ok(()) => Some(AcceptedEvent::Available { revision, size }),
                    Err(_) => None,
                }
            }
            Entry::Verdict { analysis, result } => {
                let (analysis, result) = (*analysis, *result);
                core.verdict(analysis, result, self.moment).ok()?;
                Some(AcceptedEvent::Command(Entry::Verdict { analysis, result }, core))
            }
            Entry::Promote => {
                core.promote().ok()?;
                Some(AcceptedEvent::Command(Entry::Promote, core))
            }
            Entry::PromoteFull => {
                match core.promote_full() {
                    Ok(()) => Some(AcceptedEvent::Command(Entry::PromoteFull, core)),
                    Err(_) => None,
                }
            }
            Entry::Abort => {
                match core.abort() {
                    Ok(()) => Some(AcceptedEvent::Command(Entry::Abort, core)),
                    Err(_) => None,
                }
            }
            Entry::Retry => {
                core.retry().ok()?;
                Some(AcceptedEvent::Command(Entry::Retry, core))
            }
            Entry::Enter { .. } | Entry::Leave { .. } | Entry::Outcome(_) => None,
        }
    }

    /// How to record a deploy of a journal, if the past allows it.
    fn judge_deploy<'a>(
        &self,
        revision: u64,
        name: &'a Name,
        ports: &'a Ports,
    ) -> Option<AcceptedEvent<'a>>
        ensures { let b = self.now.routing in
            let e = entry.Deploy revision name.now ports.now in MatchOption result
            (is_allowed b.strategy b.opening e b.past ≡ false)
            (λ a. (entry_of b a ≡ e) × IsAccepted b a) }
    {
        match self.check_deploy(name.get(), ports.get()) {
            Ok(namesake) => {
                if self.is_number_of(namesake, revision) {
                    Some(AcceptedEvent::Deploy {
                        namesake,
                        name,
                        ports,
                    })
                } else {
                    None
                }
            }
            Err(_) => None,
        }
    }

    /// Whether a deploy gets this number: that of the revision of its name, or the next one.
    fn is_number_of(&self, namesake: Option<u64>, revision: u64) -> bool
        ensures { result ≡ (unwrap_or namesake (last_number self.now.routing.past + 1) == revision) }
    {
        match namesake {
            Some(number) => number == revision,
            None => {
                let last = self.roster.last();
                last < revision && revision - last == 1
            }
        }
    }
}

/// Whether two outcomes are the same.
fn is_same(next: Outcome, step: Outcome) -> bool
    ensures { result ≡ same_outcome next step }
{
    match (next, step) {
        (Outcome::Ready(a), Outcome::Ready(b))
        | (Outcome::Resumed(a), Outcome::Resumed(b))
        | (Outcome::Switched(a), Outcome::Switched(b))
        | (Outcome::Promoted(a), Outcome::Promoted(b))
        | (Outcome::ScaledDown(a), Outcome::ScaledDown(b))
        | (Outcome::Removed(a), Outcome::Removed(b)) => a == b,
        _ => false,
    }
}
