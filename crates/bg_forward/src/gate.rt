//! The gate that a request passes before and after it is forwarded.
ghost use Rattle.std.specs.Prelude.{◌≡◌, ◌<◌, IfOk, OnErr, ⊤};
ghost use Rattle.bg_rollout.specs.Changes.{seat_in};
ghost use Rattle.bg_rollout.specs.declared.go_on.GoOn.TheVariants as go_on;
ghost use Rattle.bg_rollout.specs.declared.ticket.Ticket.{Ticket};
ghost use Rattle.bg_ledger.specs.Holdings.{after_leave};
ghost use Rattle.bg_ledger.specs.declared.holding.Holding.{Holding};
ghost use Rattle.bg_revisions.specs.declared.revision.Service.{Service};

use bg_book::{EnterFault, GoOn, Left, Ticket};
use bg_ledger::{Names, Seat};
use bg_revisions::Service;

/// The place where requests enter and leave. While a request is forwarded, the worker asks here
/// whether it goes on. All workers share the gate.
///
/// No method takes a handle. A gate that waits for a lock has its own handle, as
/// [`DeskGate`](crate::DeskGate) does, so that its callers see no lock.
pub trait Gate<N: Names> {
    /// The fact that holds for a ticket that is given at a seat for a service.
    ghost gives: { Self → Service → Holding → Ticket → Type 0 } = { λ _ _ _ _. ⊤ };

    /// The fact that holds for a request that is given up, by the seat that holds it.
    ghost gives_up: { Self → Holding → Type 0 } = { λ _ _. ⊤ };

    /// Gives the request a number, a revision and a port, which the seat holds. A refusal does not
    /// change the seat.
    fn enter(&self, seat: &mut Seat<N>, service: Service) -> Result<Ticket, EnterFault>
        requires out { seat.old.number ≡ 0 }
        ensures seat { IfOk result (λ t. seat.new ≡ seat_in seat.old t) }
        ensures number { IfOk result (λ t. 0 < t.number) }
        ensures gives { IfOk result (λ t. gives self.now service seat.old t) }
        ensures seat_unchanged { OnErr result (seat.new ≡ seat.old) };

    /// Whether the request that the seat holds goes on or is given up. Does not change the seat.
    fn may_go_on(&self, seat: &mut Seat<N>) -> GoOn
        requires within { 0 < seat.old.number }
        ensures seat { seat.new ≡ seat.old }
        ensures gives_up { result ≡ go_on.Cut → gives_up self.now seat.old };

    /// Ends the request that the seat holds, and gives the request.
    fn leave(&self, seat: &mut Seat<N>) -> Left
        requires within { 0 < seat.old.number }
        ensures left { result ≡ record { number = seat.old.number; revision = seat.old.revision } }
        ensures seat { seat.new ≡ after_leave seat.old };
}
