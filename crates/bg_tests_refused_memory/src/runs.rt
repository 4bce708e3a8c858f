//! The calls of `bg_book` that name their seats: one alone, and a list of them.

use crate::asking::{change, say_made, show};
use crate::books::{Calls, Desk, DeskCall, Opening, enter, leave, make_at_desk};
use crate::desks::available;
use crate::stop::Stop;
use crate::strategies::base_strategy;
use bg_book::Call;
use bg_ledger::Names;
use bg_revisions::Service;

pub fn make_calls<R: AllocGlobal + Print + Eprint>(rt: &R) -> Result<(), Stop> {
    let strategy = base_strategy(rt)?;
    make_at_desk(rt, &Opening::of_few(&strategy, 2), &AtTwoSeats)
}

/// The calls at two seats.
#[derive(Drop)]
struct AtTwoSeats;

impl<R: Print + Eprint> Calls<R> for AtTwoSeats {
    /// The first event allocates. After it the book has room, and a list of calls allocates only for its replies.
    fn make<N: Names>(&self, rt: &R, desk: &mut Desk<N>) -> Result<(), Stop> {
        say_made(rt, "Book::open")?;
        let event = DeskCall::Alone(Call::Control(available()));
        let calls = DeskCall::Run([leave(0), enter(0, Service::Active), leave(0)]);
        change(rt, "Book::call of an event", desk, &[event])?;
        desk.call(&enter(0, Service::Active))?;
        change(rt, "Book::run", desk, &[calls])?;
        show(rt, desk)
    }
}
