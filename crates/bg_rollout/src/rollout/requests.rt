//! Entering and leaving of requests, and comparing a seat with its record.
ghost use Rattle.std.specs.Prelude.{◌≡◌, ◌≤◌, ◌+◌, ◌*◌, ◌∷◌, length, Some, slice_get, slice_set, MatchResult, OnOk, None, ◌<◌};
ghost use Rattle.bg_history.specs.Allowed.{selection};
ghost use Rattle.bg_rollout.specs.Refusals.{all_open, enter_refusal, IsTicket};
ghost use Rattle.bg_rollout.specs.Changes.{with_past, enter_entry, seat_in};
ghost use Rattle.bg_rollout.specs.declared.fault.EnterFault.TheVariants.{NoPreview};
ghost use Rattle.bg_ledger.specs.Holdings.{after_leave};
ghost use Rattle.bg_rollout.specs.Meeting.{Meets};
ghost use Rattle.bg_rollout.specs.PastState.{goes_on};
ghost use Rattle.bg_history.specs.declared.entry.Entry.TheVariants as entry;

use crate::fault::EnterFault;
use crate::go_on::GoOn;
use crate::limits::PLACES_OF_A_REQUEST;
use crate::request_lists::OpenRequest;
use crate::rollout::Rollout;
use crate::ticket::{Left, Ticket};
use bg_history::Entry;
use bg_history_laws as laws;
use bg_ledger::{Names, Seat};
use bg_promotion::laws as promotion_laws;
use bg_revisions::Service;

impl<N: Names> Rollout<N> {
    /// Records that a request enters at a seat; the request has no fault. The call allocates nothing.
    pub fn record_enter(&mut self, seat: &mut Seat<N>, service: Service, ticket: Ticket)
        requires known { slice_get self.old.routing.seats seat.old.index ≡ Some seat.old }
        requires out { seat.old.number ≡ 0 }
        requires accepted { enter_refusal self.old.routing service ≡ None }
        requires ticket { IsTicket self.old.routing service ticket }
        requires short { length self.old.routing.past ≤ 1000000 }
        requires spare { 1 ≤ self.old.spare }
        ensures seat { seat.new ≡ seat_in seat.old ticket }
        ensures routing { self.new.routing ≡ with_past self.old.routing
            (enter_entry seat.old.index service ticket ∷ self.old.routing.past)
            (slice_set self.old.routing.seats seat.old.index (seat_in seat.old ticket)) }
        ensures one_more { all_open self.new.routing.past ≡ all_open self.old.routing.past + 1 }
        ensures spare { self.new.spare + 1 ≡ self.old.spare }
    {
        laws::existing_ascends();
        laws::reachable();
        promotion_laws::neutral(&self.core);
        let index = seat.index();
        self.lists.append(
            ticket.revision,
            OpenRequest {
                seat: index,
                number: ticket.number,
            },
        );
        self.given = ticket.number;
        self.open += 1;
        self.records[index as usize].enter(seat, ticket.number, ticket.revision, ticket.port);
        self.history.push_reserved(Entry::Enter {
            seat: index,
            service,
            number: ticket.number,
            revision: ticket.revision,
            port: ticket.port,
        });
    }

    /// The revision that a service selects. The error is `NoPreview` if it is the preview service and none is set.
    fn selected(&self, service: Service) -> Result<u64, EnterFault>
        ensures { let b = self.now.routing in
            let selected = selection b.strategy service b.past in
            MatchResult result (λ r. selected ≡ Some r)
            (λ e. (selected ≡ None) × (e ≡ NoPreview)) }
    {
        let selectors = self.core.selectors();
        match service {
            Service::Active => Ok(selectors.active),
            Service::Preview => {
                if self.strategy.preview_service.is_none() {
                    return Err(EnterFault::NoPreview);
                }
                Ok(selectors.preview)
            }
        }
    }

    /// The ticket of a request at a service, or the first fault other than an allocation failure.
    pub fn judge_enter(&self, service: Service) -> Result<Ticket, EnterFault>
        requires { length self.now.routing.past + 3 * all_open self.now.routing.past ≤ 1000000 }
        ensures judged { MatchResult result
            (λ t. (enter_refusal self.now.routing service ≡ None)
            × IsTicket self.now.routing service t)
            (λ e. enter_refusal self.now.routing service ≡ Some e) }
        ensures room { OnOk result (let b = self.now.routing in
            length b.past + 1 + 3 * (all_open b.past + 1) ≤ b.limits.entries) }
    {
        laws::finds();
        laws::reachable();
        let selected = self.selected(service)?;
        // The contract of `count` gives the invariant of a roster: a revision has a port for each replica.
        let _count = self.roster.count();
        let revision = self.roster.find_number(selected).unwrap();
        if revision.available == 0 {
            return Err(EnterFault::NoEndpoints);
        }
        if self.given >= self.limits.numbers {
            return Err(EnterFault::NumbersSpent);
        }
        if self.history.len() + 1 + self.places_kept() + PLACES_OF_A_REQUEST > self.limits.entries {
            return Err(EnterFault::HistoryFull);
        }
        let number = self.given + 1;
        let port_place = number % u64::from(revision.available);
        Ok(Ticket {
            number,
            revision: selected,
            port: revision.ports.get()[port_place as usize],
        })
    }

    /// Records that the seat's request leaves.
    pub fn record_leave(&mut self, seat: &mut Seat<N>) -> Left
        requires known { slice_get self.old.routing.seats seat.old.index ≡ Some seat.old }
        requires within { 0 < seat.old.number }
        requires short { length self.old.routing.past ≤ 1000000 }
        requires spare { 1 ≤ self.old.spare }
        ensures left { result ≡ record { number = seat.old.number; revision = seat.old.revision } }
        ensures seat { seat.new ≡ after_leave seat.old }
        ensures routing { self.new.routing ≡ with_past self.old.routing
            (entry.Leave seat.old.index seat.old.number seat.old.revision ∷ self.old.routing.past)
            (slice_set self.old.routing.seats seat.old.index (after_leave seat.old)) }
        ensures spare { self.new.spare + 1 ≡ self.old.spare }
    {
        laws::reachable();
        promotion_laws::neutral(&self.core);
        let index = seat.index();
        let (number, revision) = self.records[index as usize].leave(seat);
        let left = Left { number, revision };
        self.lists.remove(index);
        self.open -= 1;
        self.history.push_reserved(Entry::Leave {
            seat: index,
            number: left.number,
            revision: left.revision,
        });
        left
    }

    /// Changes nothing. It proves that the record of a seat equals the seat, so the history tells what the seat has.
    pub fn meet(&mut self, seat: &mut Seat<N>)
        requires { self.old.routing.opening.seats ≡ N.seats }
        ensures met { Meets self.old.routing seat.old }
        ensures rollout { self.new ≡ self.old }
        ensures seat { seat.new ≡ seat.old }
    {
        laws::reachable();
        self.holds_invariant();
        let index = seat.index();
        self.agree(index, seat);
    }

    /// Whether the seat's request goes on; `Keep` if the seat holds none. The call changes nothing.
    pub fn may_go_on(&mut self, seat: &mut Seat<N>) -> GoOn
        requires { self.old.routing.opening.seats ≡ N.seats }
        ensures met { Meets self.old.routing seat.old }
        ensures goes_on { let b = self.old.routing in
            result ≡ goes_on b.strategy seat.old.index b.past }
        ensures rollout { self.new ≡ self.old }
        ensures seat { seat.new ≡ seat.old }
    {
        self.holds_invariant();
        self.meet(seat);
        if !seat.is_in() {
            return GoOn::Keep;
        }
        if self.past_limit(seat.revision()) {
            GoOn::Cut
        } else {
            GoOn::Keep
        }
    }

    /// Changes nothing. It proves that the record of a seat equals the seat.
    fn agree(&mut self, index: u32, seat: &mut Seat<N>)
        requires index { seat.old.index ≡ index }
        requires within { index < self.old.routing.opening.seats }
        ensures known { slice_get self.old.routing.seats index ≡ Some seat.old }
        ensures rollout { self.new ≡ self.old }
        ensures seat { seat.new ≡ seat.old }
    {
        self.records[index as usize].agree(seat);
    }
}
