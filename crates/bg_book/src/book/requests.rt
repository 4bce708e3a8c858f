//! Entering and leaving of requests, and lists of calls.
ghost use Rattle.std.specs.Prelude.{◌≡◌, IfOk, OnErr, Some, slice_get, slice_set, ◌<◌, ◌≤◌, ℕ, length};
ghost use Rattle.bg_rollout.specs.Refusals.{enter_refusal, AnswersBy, IsTicket};
ghost use Rattle.bg_rollout.specs.Changes.{Stepped, with_past, enter_entry, seat_in};
ghost use Rattle.bg_rollout.specs.Meeting.{Meets};
ghost use Rattle.bg_rollout.specs.declared.fault.EnterFault.TheVariants.{OutOfMemory};
ghost use Rattle.bg_ledger.specs.Holdings.{after_leave};
ghost use Rattle.bg_rollout.specs.PastState.{goes_on};
ghost use Rattle.bg_rollout.specs.Gathering.{indices};
ghost use Rattle.bg_book.specs.Desks.{AnswersEnter, AnswersLeave, enter_reply};
ghost use Rattle.bg_book.specs.Runs.{AreOut, EnterAt, LeaveAt, LeavesAll, CallStep, Runs, Unchanged};
ghost use Rattle.bg_history.specs.declared.entry.Entry.TheVariants as entry;

use crate::book::Book;
use crate::calls::{Call, Reply};
use crate::fault::RunFault;
use crate::laws as book_laws;
use bg_history_laws as laws;
use bg_ledger::{Names, Seat};
use bg_revisions::Service;
use bg_rollout::{EnterFault, GoOn, Left, PLACES_OF_A_REQUEST, Ticket, laws as rollout_laws};

impl<N: Names> Book<N> {
    /// Records that a request enters at a service. The request gets the next number, from 1, the revision that the
    /// service selects, and the port of that revision's available ones at the place that is the request's number
    /// modulo how many are available. Both services share the numbers.
    ///
    /// An error changes nothing. It is the first of these that applies: `NoPreview` if the service is the preview
    /// service and none is set; `NoEndpoints` if the revision has no endpoint available; `NumbersSpent` if all numbers
    /// are given; `HistoryFull` if the history has no room for the Enter and for three entries for each open request,
    /// including this one; `OutOfMemory` if an allocation fails.
    ///
    /// The book's record of the seat equals the seat before the call, regardless of the calls in between.
    pub fn enter(&mut self, seat: &mut Seat<N>, service: Service) -> Result<Ticket, EnterFault>
        requires { seat.old.number ≡ 0 }
        ensures told { AnswersEnter self.old seat.old service (enter_reply result) self.new seat.new }
        ensures seat { IfOk result (λ t. seat.new ≡ seat_in seat.old t) }
        ensures seat_unchanged { OnErr result (seat.new ≡ seat.old) }
    {
        book_laws::headline(self);
        self.meet(seat);
        let answer = self.enter_met(seat, service);
        book_laws::headline(self);
        answer
    }

    /// Records that a request enters at a seat that equals the book's record of it.
    fn enter_met(&mut self, seat: &mut Seat<N>, service: Service) -> Result<Ticket, EnterFault>
        requires known { slice_get self.old.seats seat.old.index ≡ Some seat.old }
        requires out { seat.old.number ≡ 0 }
        ensures refusal { AnswersBy (enter_refusal self.old service) OutOfMemory result }
        ensures ticket { IfOk result (IsTicket self.old service) }
        ensures seat { IfOk result (λ t. seat.new ≡ seat_in seat.old t) }
        ensures step { IfOk result (λ t. Stepped self.old.strategy
            (enter_entry seat.old.index service t) self.old.past self.new.past 0) }
        ensures book { IfOk result (λ t. self.new ≡ with_past self.old
            self.new.past (slice_set self.old.seats seat.old.index seat.new)) }
        ensures unchanged { OnErr result (self.new ≡ self.old) }
        ensures seat_unchanged { OnErr result (seat.new ≡ seat.old) }
    {
        laws::entering_settles();
        self.rollout.holds_invariant();
        let ticket = self.rollout.judge_enter(service)?;
        let reserved = 1 + self.rollout.places_kept() + PLACES_OF_A_REQUEST;
        self.rollout.reserve(reserved)?;
        self.rollout.record_enter(seat, service, ticket);
        Ok(ticket)
    }

    /// Records that the seat's request leaves, and gives its number and revision. The call allocates nothing and
    /// can't fail.
    ///
    /// The book's record of the seat equals the seat before the call, regardless of the calls in between. So the
    /// request's revision is still scaled, its list has the request, and the port is one of its ports.
    pub fn leave(&mut self, seat: &mut Seat<N>) -> Left
        requires { 0 < seat.old.number }
        ensures told { AnswersLeave self.old seat.old result self.new seat.new }
        ensures seat { seat.new ≡ after_leave seat.old }
    {
        book_laws::headline(self);
        self.meet(seat);
        let left = self.leave_met(seat);
        book_laws::headline(self);
        left
    }

    /// Records that the request of a seat leaves; the seat equals the book's record of it.
    fn leave_met(&mut self, seat: &mut Seat<N>) -> Left
        requires known { slice_get self.old.seats seat.old.index ≡ Some seat.old }
        requires within { 0 < seat.old.number }
        ensures left { result ≡ record { number = seat.old.number; revision = seat.old.revision } }
        ensures seat { seat.new ≡ after_leave seat.old }
        ensures step { (n : ℕ) × Stepped self.old.strategy
            (entry.Leave seat.old.index seat.old.number seat.old.revision)
            self.old.past self.new.past n × (n ≤ 2) }
        ensures book { self.new ≡ with_past self.old self.new.past
            (slice_set self.old.seats seat.old.index seat.new) }
    {
        rollout_laws::has_request();
        laws::leaving_allows_two();
        laws::leaving_settles();
        self.rollout.holds_invariant();
        let left = self.rollout.record_leave(seat);
        self.rollout.settle_at(left.revision);
        left
    }

    /// Changes nothing. It proves that the book's record of a seat equals the seat, so the history tells what the seat
    /// has.
    fn meet(&mut self, seat: &mut Seat<N>)
        ensures met { Meets self.old seat.old }
        ensures book { self.new ≡ self.old }
        ensures seat { seat.new ≡ seat.old }
    {
        self.rollout.meet(seat);
    }

    /// Whether the seat's request goes on. The answer is `Cut` if its revision drains and the strategy's
    /// `drainLimitSeconds` have passed since that revision's deadline; else `Keep`. It is `Keep` for a seat without a
    /// request. The call allocates nothing, can't fail, and changes nothing. The tokens of the seat and of
    /// the book's record show that the two agree, so the history tells what the seat has.
    pub fn may_go_on(&mut self, seat: &mut Seat<N>) -> GoOn
        ensures met { Meets self.old seat.old }
        ensures goes_on { result ≡ goes_on self.old.strategy seat.old.index self.old.past }
        ensures book { self.new ≡ self.old }
        ensures seat { seat.new ≡ seat.old }
    {
        self.rollout.may_go_on(seat)
    }

    /// Makes the calls one after the other, and gives a reply for each. The reply to a call of a seat is `NoSuchSeat`
    /// if the slice has no seat at that place, `SeatBusy` if a request would enter at a seat that holds one, and
    /// `SeatIdle` if one would leave a seat that holds none.
    ///
    /// The error is `OutOfMemory` if the allocation of the replies fails; then no call is made.
    pub fn run(&mut self, seats: &mut [Seat<N>], calls: &[Call]) -> Result<Vec<Reply>, RunFault>
        ensures replies { IfOk result
            (λ replies. Runs self.old seats.old calls.now replies.items self.new seats.new) }
        ensures unchanged { OnErr result (Unchanged self.old seats.old self.new seats.new) }
        ensures order { indices seats.new ≡ indices seats.old }
    {
        let mut replies = Vec::with_capacity(self.alloc, calls.len())?;
        for call in calls {
            let reply = self.call(seats, call);
            replies.push_reserved(reply);
        }
        Ok(replies)
    }

    /// Makes one call, and gives the reply that [`Book::run`] gives to it. The reply itself allocates nothing, so a
    /// request can always leave.
    pub fn call(&mut self, seats: &mut [Seat<N>], call: &Call) -> Reply
        ensures reply { CallStep self.old seats.old call.now result self.new seats.new }
        ensures order { indices seats.new ≡ indices seats.old }
    {
        match call {
            Call::Enter { seat, service } => self.enter_at(seats, *seat as usize, *service),
            Call::Leave { seat } => self.leave_at(seats, *seat as usize),
            Call::Control(control) => match self.control(control) {
                Ok(outcomes) => Reply::Done(outcomes),
                Err(fault) => Reply::ControlRefused(fault),
            },
        }
    }

    /// Records that each open request of these seats leaves, in the order of the places. The call allocates nothing.
    pub fn leave_all(&mut self, seats: &mut [Seat<N>])
        ensures left { LeavesAll self.old seats.old (length seats.old) self.new seats.new }
        ensures out { AreOut seats.new }
        ensures order { indices seats.new ≡ indices seats.old }
    {
        for place in 0..seats.len() {
            // A seat without a request doesn't change.
            let _reply = self.leave_at(seats, place);
        }
    }

    /// Records that a request enters at the seat of this place.
    fn enter_at(&mut self, seats: &mut [Seat<N>], place: usize, service: Service) -> Reply
        ensures reply { EnterAt self.old seats.old place
            (slice_get seats.old place) service result self.new seats.new }
        ensures order { indices seats.new ≡ indices seats.old }
    {
        if place >= seats.len() {
            return Reply::NoSuchSeat;
        }
        let seat = &mut seats[place];
        if seat.is_in() {
            return Reply::SeatBusy;
        }
        match self.enter(seat, service) {
            Ok(ticket) => Reply::Entered(ticket),
            Err(fault) => Reply::EnterRefused(fault),
        }
    }

    /// Records that the request of the seat of this place leaves.
    fn leave_at(&mut self, seats: &mut [Seat<N>], place: usize) -> Reply
        ensures reply { LeaveAt self.old seats.old place
            (slice_get seats.old place) result self.new seats.new }
        ensures order { indices seats.new ≡ indices seats.old }
    {
        if place >= seats.len() {
            return Reply::NoSuchSeat;
        }
        let seat = &mut seats[place];
        if !seat.is_in() {
            return Reply::SeatIdle;
        }
        Reply::Left(self.leave(seat))
    }
}
