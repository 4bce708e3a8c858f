//! The rollout, and the readers of its state.
ghost use Rattle.std.specs.Prelude.{◌≡◌, ◌≤◌, ◌*◌, OnOk, OnErr, length, Some, IsTrue, ◌+◌};
ghost use Rattle.bg_rollout.specs.Refusals.{all_open};
ghost use Rattle.bg_rollout.specs.Invariant.{RoutingInvariant};
ghost use Rattle.bg_history.specs.AttemptBounds.{moment as moment_of};
ghost use Rattle.bg_history.specs.Sizes.{existing};
ghost use Rattle.bg_history.specs.Requests.{open_at};
ghost use Rattle.bg_history.specs.Deadlines.{deadline, is_reached};
ghost use Rattle.bg_history.specs.Selections.{selectors_of};
ghost use Rattle.bg_history.specs.Steps.{is_settled};
ghost use Rattle.bg_history_laws.specs.Listed.{revisions_of};
ghost use Rattle.bg_promotion.specs.Phases.{phase_of};
ghost use Rattle.bg_rollout.specs.PastState.{drain_end, is_draining as is_draining_in, is_past_limit};
ghost use Rattle.bg_rollout.specs.Compaction.{part_compacted};

mod events;
mod following;
mod lifecycle;
mod requests;
mod settling;

use crate::limits::{Limits, PLACES_OF_A_REQUEST};
use crate::request_lists::RequestLists;
use bg_history::History;
use bg_history_laws as laws;
use bg_ledger::{Names, SeatRecord};
use bg_promotion::{Core, Phase};
use bg_revisions::{Revision, Roster, Selectors};
use bg_scaledown::Deadlines;
use bg_strategy::Strategy;
use std::alloc::AllocError;
use std::marker::Model;

/// A rollout, possibly in the middle of a call: its running state is what its history says, but outcomes may still
/// be to come.
///
/// Contracts see its routing, and the number of places that are reserved in the history. `N` names the tokens that
/// tie its records to the seats.
pub struct Rollout<N: Names> {
    strategy: Strategy,
    limits: Limits,
    core: Core,
    roster: Roster,
    deadlines: Deadlines,
    lists: RequestLists,
    /// The record of each seat, in order of index.
    records: Vec<SeatRecord<N>>,
    history: History,
    /// The moment.
    moment: u64,
    /// The greatest number given to a request.
    given: u64,
    /// The number of open requests of all revisions.
    open: u64,
}

impl<N: Names> Drop for Rollout<N> {
    /// Drops the fields by one call, so that the proofs of what owns a value are short (CONTRIBUTING.md, "What a check costs").
    fn drop(self) {
        let Rollout {
            strategy: _,
            limits: _,
            core: _,
            roster: _,
            deadlines: _,
            lists: _,
            records: _,
            history: _,
            moment: _,
            given: _,
            open: _,
        } = self;
    }
}

impl<N: Names> Model for Rollout<N> {
    ghost use Rattle.bg_rollout.specs.Invariant.{RolloutModel};

    ghost Value = { RolloutModel };

    ghost use Rattle.bg_rollout.specs.Invariant.{model_of, parts_of, PartsRepresent};

    ghost view = { model_of };

    ghost invariant = { λ r. PartsRepresent (model_of r).routing (parts_of r) };
}

impl<N: Names> Rollout<N> {
    /// Reserves at least `count` places in the history. The only error is an allocation failure, and it changes
    /// nothing.
    pub fn reserve(&mut self, count: u64) -> Result<(), AllocError>
        requires { count ≤ 2000000 }
        ensures routing { self.new.routing ≡ self.old.routing }
        ensures ok { OnOk result (count ≤ self.new.spare) }
        ensures err { OnErr result (self.new ≡ self.old) }
    {
        self.history.reserve(count as u32)?;
        Ok(())
    }

    /// The number of places that the history reserves for the open requests.
    pub fn places_kept(&self) -> u64
        requires { all_open self.now.routing.past ≤ 1000000 }
        ensures { result ≡ 3 * all_open self.now.routing.past }
    {
        PLACES_OF_A_REQUEST * self.open
    }

    /// Proves the invariant of a rollout in terms of its routing.
    pub fn holds_invariant(&self)
        ensures { RoutingInvariant self.now.routing }
    {
        // Reading a field makes the invariant of the type known.
        let _ = &self.strategy;
    }

    /// The moment, in seconds from the start.
    pub fn moment(&self) -> u64
        ensures { result ≡ moment_of self.now.routing.past }
    {
        self.moment
    }

    /// The phase of the rollout. While an allowed outcome is left undone, the history may have no phase.
    pub fn phase(&self) -> Phase
        ensures { let b = self.now.routing in IsTrue (is_settled b.strategy b.past)
            → phase_of b.strategy b.past ≡ Some result }
    {
        self.core.phase()
    }

    /// The numbers of the active, preview, stable and newest revisions.
    pub fn selectors(&self) -> Selectors
        ensures { result ≡ selectors_of self.now.routing.past }
    {
        self.core.selectors()
    }

    /// The strategy that the rollout was opened with.
    pub fn strategy(&self) -> &Strategy
        ensures { result.now ≡ self.now.routing.strategy }
    {
        &self.strategy
    }

    /// The revisions that exist, in ascending order of their numbers.
    pub fn revisions(&self) -> &[Revision]
        ensures revisions { let b = self.now.routing in
            result.now ≡ revisions_of b.strategy b.opening b.past }
        ensures count { length result.now ≡ length (existing self.now.routing.past) }
    {
        laws::finds();
        self.roster.as_slice()
    }

    /// The deadline of the revision of this number, if it has one: the moment from which it may be scaled down, in
    /// seconds from the start.
    pub fn deadline_of(&self, number: u64) -> Option<u64>
        ensures { result ≡ deadline self.now.routing.strategy number self.now.routing.past }
    {
        self.deadlines.deadline(number)
    }

    /// How many requests are open at the revision of this number; 0 if no such revision exists.
    pub fn open_count(&self, number: u64) -> usize
        ensures { result ≡ length (open_at number self.now.routing.past) }
    {
        laws::reachable();
        self.lists.count(number)
    }

    /// Whether the revision of this number drains: only its open requests keep it from being scaled down.
    pub fn is_draining(&self, number: u64) -> bool
        ensures { let b = self.now.routing in
            result ≡ is_draining_in b.strategy number b.past }
    {
        laws::reachable();
        let exempt = self.core.selectors();
        self.deadlines.is_due(number, self.moment, exempt) && !self.is_empty_at(number)
    }

    /// Whether the drain limit of the revision of this number is over: the revision drains, and the strategy's
    /// `drainLimitSeconds` have passed since its deadline.
    pub fn past_limit(&self, number: u64) -> bool
        ensures { let b = self.now.routing in
            result ≡ is_past_limit b.strategy number b.past }
    {
        let limit = self.strategy.drain_limit;
        self.is_draining(number) && has_passed(self.deadline_of(number), limit, self.moment)
    }

    /// The history since the opening.
    pub fn history(&self) -> &History
        ensures opening { result.now.opening ≡ self.now.routing.opening }
        ensures closed { result.now.closed ≡ self.now.routing.closed }
        ensures past { result.now.past ≡ self.now.routing.past }
    {
        &self.history
    }

    /// Compacts the history: drops the entries of each closed request, counts the request for its seat, and drops each
    /// tick that another tick directly follows. Gives the number of dropped entries. The call allocates nothing.
    pub fn compact(&mut self) -> u64
        ensures new { self.new ≡ part_compacted self.old }
        ensures dropped { result + length self.new.routing.past
            ≡ length self.old.routing.past }
    {
        laws::compacts();
        laws::keeps_table();
        laws::is_sound();
        self.history.compact()
    }
}

/// Whether there are a deadline and a limit, and `limit` seconds have passed since the deadline.
fn has_passed(deadline: Option<u64>, limit: Option<u32>, now: u64) -> bool
    ensures { result ≡ is_reached (drain_end deadline limit) now }
{
    match (deadline, limit) {
        (Some(deadline), Some(limit)) => deadline <= now && limit as u64 <= now - deadline,
        _ => false,
    }
}
