//! The calls of `bg_book` at a book of two hundred seats, each of which holds a request.

use crate::asking::{Subject, change, make, say_made};
use crate::books::{Calls, Desk, Opening, enter, leave, make_at_desk};
use crate::desks::available;
use crate::stop::Stop;
use crate::strategies::base_strategy;
use bg_book::{Call, Control, SeatLimit};
use bg_ledger::Names;
use bg_revisions::Service;
use std::fmt;

const OPEN: &str = "Book::open with many seats";

/// The number of seats.
const SEATS: u32 = 200;

/// The number of moments that are recorded beside a request at each seat. The history has grown for requests before,
/// to at most twice what they need, and these fill it.
const MOMENTS: u64 = 1_000;

/// A desk whose display is short, since that of two hundred seats fits no page.
#[derive(Drop)]
struct ManySeats<'a, N: Names> {
    desk: &'a mut Desk<N>,
}

impl<N: Names> fmt::Display for ManySeats<'_, N> {
    fn fmt<W: fmt::Write>(&self, f: &mut fmt::Formatter<W>) -> fmt::Result {
        self.desk.write_summary(f)
    }
}

impl<N: Names> Subject for ManySeats<'_, N> {
    type Call = Call;

    fn make(&mut self, call: &Call) -> Result<(), Stop> {
        self.desk.call(call)
    }
}

pub fn make_calls<R: AllocGlobal + Print + Eprint>(rt: &R) -> Result<(), Stop> {
    let strategy = base_strategy(rt)?;
    let opening = Opening {
        name: OPEN,
        strategy: &strategy,
        limit: SeatLimit::Many,
        seats: SEATS,
    };
    make_at_desk(rt, &opening, &AtManySeats)
}

/// The calls at many seats.
#[derive(Drop)]
struct AtManySeats;

impl<R: Print + Eprint> Calls<R> for AtManySeats {
    fn make<N: Names>(&self, rt: &R, desk: &mut Desk<N>) -> Result<(), Stop> {
        say_made(rt, OPEN)?;
        let mut seats = ManySeats { desk };
        let event = Call::Control(available());
        change(rt, "Book::control at many seats", &mut seats, &[event])?;
        enter_all(rt, &mut seats)?;
        record_moments(rt, &mut seats)?;
        leave_all(seats.desk)
    }
}

/// Records so many moments that the history has to grow. Each reserves room for the open requests too.
fn record_moments<N: Names, R: Print + Eprint>(
    rt: &R,
    seats: &mut ManySeats<'_, N>,
) -> Result<(), Stop> {
    let name = "Book::control beside many requests";
    for moment in 1..=MOMENTS {
        make(rt, name, seats, &Call::Control(Control::Tick(moment)))?;
    }
    say_made(rt, name)
}

/// Lets a request enter at each seat.
fn enter_all<N: Names, R: Print + Eprint>(
    rt: &R,
    seats: &mut ManySeats<'_, N>,
) -> Result<(), Stop> {
    for place in 0..SEATS {
        let entering = enter(place, Service::Active);
        change(rt, "Book::enter at many seats", seats, &[entering])?;
    }
    Ok(())
}

fn leave_all<N: Names>(desk: &mut Desk<N>) -> Result<(), Stop> {
    for place in 0..SEATS {
        desk.call(&leave(place))?;
    }
    Ok(())
}
