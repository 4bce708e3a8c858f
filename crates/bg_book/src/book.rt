//! The book: opening it, recording events, and ending it.
ghost use Rattle.std.specs.Prelude.{◌≡◌, ◌≤◌, true, IfOk, OnErr, ◌+◌, length, ℕ, List, [], IfErr, IsTrue, MatchResult, None, Some, slice_get};
ghost use Rattle.bg_ledger.specs.Blanks.{AreAllFor};
ghost use Rattle.bg_rollout.specs.Openings.{opening_fault, opened_by, IsSeatCount, OpensSeats};
ghost use Rattle.bg_rollout.specs.Refusals.{AnswersBy, control_refusal, event_of};
ghost use Rattle.bg_rollout.specs.Changes.{Stepped, with_past};
ghost use Rattle.bg_rollout.specs.Gathering.{are_all, gather_fault as fault_in};
ghost use Rattle.bg_rollout.specs.Compaction.{with_compacted};
ghost use Rattle.bg_history.specs.Requests.{open_requests, calls_of};
ghost use Rattle.bg_history.specs.Steps.{IsLegal, is_settled};
ghost use Rattle.bg_ledger.specs.declared.holding.Holding.{Holding};
ghost use Rattle.bg_rollout.specs.Routing.{Routing};
ghost use Rattle.bg_book.specs.Desks.{AnswersControl, control_reply};
ghost use Rattle.bg_book.specs.Runs.{AreOut, LeavesAll};
ghost use Rattle.bg_rollout.specs.declared.fault.OpenFault.TheVariants as open_fault;
ghost use Rattle.bg_rollout.specs.declared.control_fault.ControlFault.TheVariants as control_fault;

mod readers;
mod requests;
mod resuming;

use crate::laws as book_laws;
use bg_history::History;
use bg_history_laws as laws;
use bg_ledger::{Blanks, Names, Seat};
use bg_rollout::{
    Control, ControlFault, GatherFault, MOST_ENTRIES, OpenFault, Rollout, RolloutOpening,
    SeatLimit, laws as rollout_laws,
};
use std::alloc::Global;
use std::marker::Model;

/// The routing book of one rollout.
///
/// Contracts see its settings, its history, the list of open requests of each revision, and the book's record of
/// each seat. [`crate::laws::headline`] says what holds between calls. `N` names the tokens that tie the records to
/// the seats, so a caller opens and uses a book inside a function that is generic over `N`.
pub struct Book<N: Names> {
    pub(crate) alloc: Global,
    pub(crate) rollout: Rollout<N>,
}

impl<N: Names> Drop for Book<N> {
    /// Drops the fields by one call, so that the proofs of what owns a value are short (CONTRIBUTING.md, "What a check costs").
    fn drop(self) {
        let Book {
            alloc: _,
            rollout: _,
        } = self;
    }
}

impl<N: Names> Model for Book<N> {
    ghost use Rattle.bg_rollout.specs.Routing.{Routing};

    ghost Value = { Routing };

    ghost use Rattle.bg_book.specs.Invariant.{AtRest};

    ghost view = { λ b. b.rollout.routing };

    ghost invariant = { λ b. AtRest N.seats b.rollout };
}

impl<N: Names> Book<N> {
    /// Opens a book whose revision 1 has the opening's name and ports. Revision 1 wants its full size and has no
    /// endpoint available; both services select it. Gives the book, which keeps a copy of the strategy, and its seats
    /// in order of index, each without a call. `N` sets the number of seats and the names of the tokens in
    /// `blanks`. An error drops the blanks.
    ///
    /// The error is the first of these that applies: `BadName` if the name is not a DNS label; `BadPorts` if there are
    /// not exactly `replicas` distinct ports from 1; `BadSeats` if there is no seat, or if there are more than the limit
    /// allows; `BadLimits` if a limit is above the usual one; `OutOfMemory` if an allocation fails.
    pub fn open(
        alloc: Global,
        limit: SeatLimit,
        opening: &RolloutOpening,
        blanks: Blanks,
    ) -> Result<(Book<N>, Vec<Seat<N>>), OpenFault>
        requires blanks { AreAllFor N.Names blanks }
        requires count { IsSeatCount limit opening.now N.seats }
        ensures refusal { AnswersBy (opening_fault limit opening.now) open_fault.OutOfMemory result }
        ensures book { IfOk result (λ r. r.0 ≡ opened_by opening.now r.1.items) }
        ensures seats { IfOk result (λ r. OpensSeats opening.now N.seats r.1.items) }
    {
        let (rollout, handed_out) = Rollout::open(alloc, limit, opening, blanks)?;
        Ok((Book { alloc, rollout }, handed_out))
    }

    /// Records an event and the outcomes that it allows. Gives the number of these outcomes.
    ///
    /// An error changes nothing. It is the first of these that applies:
    ///
    /// - Tick: `MomentTooLarge` if the moment is above 2^53; `MomentBack` if it is below the book's moment.
    /// - Deploy: `BadName` if the name is not a DNS label; `BadPorts` if there are not exactly `replicas` distinct
    ///   ports from 1; `SameTemplate` if the newest revision has the name and the ports; `PortsDiffer` if a revision
    ///   has the name with other ports; `TooManyRevisions` if the name is new and 64 revisions exist.
    /// - Availability: `NoSuchRevision` if no revision has the number; `MoreThanDesired` if the size is above the size
    ///   that the revision wants.
    /// - Verdict: `NoAnalysis` if the rollout doesn't wait for that analysis.
    /// - Promotion: `Aborted` if the attempt was halted; `NotPaused` if it is in no pause.
    /// - Full promotion: `Aborted` if the attempt was halted; `NothingToPromote` if no attempt runs; `AlreadyFull` if
    ///   it was promoted in full before.
    /// - Abort: `AlreadyAborted` if the attempt was halted; `NothingToAbort` if no attempt runs.
    /// - Retry: `NotAborted` if no attempt was halted.
    /// - Each event: `HistoryFull` if the history has no room for the event, for the greatest number of outcomes, and
    ///   for three entries for each open request; `OutOfMemory` if an allocation fails.
    pub fn control(&mut self, control: &Control) -> Result<u64, ControlFault>
        ensures { AnswersControl self.old control.now (control_reply result) self.new }
    {
        book_laws::headline(self);
        let answer = self.record_event(control);
        book_laws::headline(self);
        answer
    }

    /// Records an event and the outcomes that it allows.
    fn record_event(&mut self, control: &Control) -> Result<u64, ControlFault>
        ensures refusal { AnswersBy (control_refusal self.old control.now) control_fault.OutOfMemory result }
        ensures step { IfOk result (Stepped self.old.strategy (event_of self.old control.now)
            self.old.past self.new.past) }
        ensures few { IfOk result (λ n. n ≤ 140) }
        ensures book { IfOk result
            (λ n. self.new ≡ with_past self.old self.new.past self.old.seats) }
        ensures unchanged { OnErr result (self.new ≡ self.old) }
    {
        rollout_laws::few_follow();
        laws::work_is_bounded();
        laws::reachable();
        self.rollout.holds_invariant();
        let accepted = self.rollout.judge(control)?;
        let reserved = MOST_ENTRIES + self.rollout.places_kept();
        self.rollout.reserve(reserved)?;
        self.rollout.take_in(self.alloc, accepted)?;
        self.rollout.holds_invariant();
        Ok(self.rollout.settle())
    }

    /// Compacts the history: drops the entries of each closed request, counts the request for its seat, and drops each
    /// tick that another tick directly follows. Gives the number of dropped entries. The call allocates nothing. All
    /// readers of the book give the same answers as before ([`crate::laws::compacted`]), except [`Book::history`] and
    /// [`Book::entries_used`].
    pub fn compact(&mut self) -> u64
        ensures new { self.new ≡ with_compacted self.old }
        ensures dropped { result + length self.new.past ≡ length self.old.past }
    {
        laws::compacts();
        laws::no_longer();
        self.rollout.holds_invariant();
        self.rollout.compact()
    }

    /// Ends the book and its seats, and gives the history. The error is `WrongSeats` if these are not exactly the
    /// book's seats, in order of index; else `StillIn`, with the least index of a seat that holds a request. An error
    /// gives back the book and the seats, unchanged. The call allocates nothing.
    pub fn gather(
        self,
        seats: Vec<Seat<N>>,
    ) -> Result<History, (Book<N>, Vec<Seat<N>>, GatherFault)>
        ensures answer { MatchResult result (λ h. fault_in N.seats seats.items ≡ None)
            (λ r. fault_in N.seats seats.items ≡ Some r.2) }
        ensures history { IfOk result (λ h. (h.opening ≡ self.opening)
            × (h.closed ≡ self.closed) × (h.past ≡ self.past)) }
        ensures seats { IfOk result (λ h. h.opening.seats ≡ N.seats) }
        ensures legal { IfOk result (λ h. IsLegal self.strategy h.opening h.closed h.past) }
        ensures settled { IfOk result (λ h. IsTrue (is_settled self.strategy h.past)) }
        ensures none_open { IfOk result (λ h. open_requests h.past ≡ []) }
        ensures calls { IfOk result (λ h. (i : ℕ) (seat : Holding)
            → slice_get seats.items i ≡ Some seat → seat.calls ≡ calls_of h.closed i h.past) }
        ensures unchanged { IfErr result (λ r. (r.0 ≡ self) × (r.1.items ≡ seats.items)) }
    {
        if let Some(fault) = self.rollout.gather_fault(&seats) {
            return Err((self, seats, fault));
        }
        self.rollout.holds_invariant();
        let Book { alloc: _, rollout } = self;
        Ok(rollout.end(seats))
    }

    /// Records that each open request leaves, in the order of the seats. Then ends the book and its seats as
    /// [`Book::gather`] does, and gives the history. The call allocates nothing.
    pub fn close(self, seats: Vec<Seat<N>>) -> History
        requires all { are_all N.seats seats.items ≡ true }
        ensures left { (new : Routing) × (left : List Holding)
            × LeavesAll self seats.items (length seats.items) new left × AreOut left
            × (result.opening ≡ new.opening) × (result.closed ≡ new.closed)
            × (result.past ≡ new.past)
            × ((i : ℕ) (seat : Holding) → slice_get left i ≡ Some seat
            → seat.calls ≡ calls_of result.closed i result.past) }
        ensures seats { result.opening.seats ≡ N.seats }
        ensures legal { IsLegal self.strategy result.opening result.closed result.past }
        ensures settled { IsTrue (is_settled self.strategy result.past) }
        ensures none_open { open_requests result.past ≡ [] }
    {
        rollout_laws::gathers();
        book_laws::lent();
        let mut book = self;
        let mut seats = seats;
        book.leave_all(seats.as_mut_slice());
        match book.gather(seats) {
            Ok(history) => history,
            Err(_) => unreachable!(),
        }
    }
}
