//! The gate of a running program.
ghost use Rattle.std.specs.Prelude.{◌≡◌, None};
ghost use Rattle.bg_book.specs.Headline.{Headline};
ghost use Rattle.bg_rollout.specs.Meeting.{Meets};
ghost use Rattle.bg_rollout.specs.PastState.{goes_on};
ghost use Rattle.bg_rollout.specs.Refusals.{IsTicket, enter_refusal};
ghost use Rattle.bg_rollout.specs.Routing.{Routing};
ghost use Rattle.bg_rollout.specs.declared.go_on.GoOn.TheVariants as go_on;

use crate::gate::Gate;
use bg_book::{Desk, EnterFault, GoOn, Left, Ticket};
use bg_ledger::{Names, Seat};
use bg_revisions::Service;
use std::sync::Wait;

/// When a request whose number is a multiple of this has left, the entries of closed requests are dropped. This keeps
/// the history small and each compaction short, at a negligible cost.
const REQUESTS_BETWEEN_COMPACTIONS: u64 = 1 << 15;

/// A desk, with the handle that waits for its lock. It implements [`Gate`] by
/// [`Desk::enter_with_compaction`], [`Desk::may_go_on`] and
/// [`Desk::leave`]. It keeps the history small: it compacts the history from time to time, and when it is full.
#[derive(Drop)]
pub struct DeskGate<'a, N: Names, R> {
    rt: &'a R,
    desk: &'a Desk<N>,
}

impl<'a, N: Names, R> DeskGate<'a, N, R> {
    /// The gate over a desk.
    pub fn new(rt: &'a R, desk: &'a Desk<N>) -> DeskGate<'a, N, R> {
        DeskGate { rt, desk }
    }
}

impl<N: Names, R: Wait> Gate<N> for DeskGate<'_, N, R> {
    ghost gives = { λ _ service seat t.
        (b : Routing) × Headline b × Meets b seat
        × (enter_refusal b service ≡ None) × IsTicket b service t };

    // the drain limit of its revision is over
    ghost gives_up = { λ _ seat. (b : Routing) × Headline b × Meets b seat
        × (goes_on b.strategy seat.index b.past ≡ go_on.Cut) };

    fn enter(&self, seat: &mut Seat<N>, service: Service) -> Result<Ticket, EnterFault> {
        self.desk.enter_with_compaction(self.rt, seat, service)
    }

    fn may_go_on(&self, seat: &mut Seat<N>) -> GoOn {
        self.desk.may_go_on(self.rt, seat)
    }

    fn leave(&self, seat: &mut Seat<N>) -> Left {
        let left = self.desk.leave(self.rt, seat);
        if left.number % REQUESTS_BETWEEN_COMPACTIONS == 0 {
            let _dropped = self.desk.compact(self.rt);
        }
        left
    }
}
