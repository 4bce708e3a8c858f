//! The calls of `bg_book` that are made at a seat, and events. A book allocates rarely, so each call is made often
//! enough to include a growth.

use crate::asking::{change, made, make, say_made, show};
use crate::books::{Calls, Desk, DeskCall, Opening, enter, leave, make_at_desk};
use crate::stop::Stop;
use crate::strategies::base_strategy;
use bg_book::{Call, Control};
use bg_ledger::Names;
use bg_revisions::{Name, Ports, Service};
use std::alloc::Global;

/// Revision 1 has both its endpoints.
pub fn available() -> Control {
    Control::Available {
        revision: 1,
        size: 2,
    }
}

pub fn make_calls<R: AllocGlobal + Print + Eprint>(rt: &R) -> Result<(), Stop> {
    let strategy = base_strategy(rt)?;
    make_at_desk(rt, &Opening::of_few(&strategy, 8), &AtEightSeats)
}

/// The calls at eight seats.
#[derive(Drop)]
struct AtEightSeats;

impl<R: AllocGlobal + Print + Eprint> Calls<R> for AtEightSeats {
    fn make<N: Names>(&self, rt: &R, desk: &mut Desk<N>) -> Result<(), Stop> {
        say_made(rt, "Book::open")?;
        record_events(rt, desk)?;
        deploy_revisions(rt, desk)?;
        fill_seats(desk)?;
        show(rt, desk)?;
        empty_seats(desk)?;
        enter_often(rt, desk)?;
        show(rt, desk)
    }
}

/// An event reserves the room that its outcomes may need.
fn record_events<N: Names, R: Print + Eprint>(rt: &R, desk: &mut Desk<N>) -> Result<(), Stop> {
    let events = [
        DeskCall::Alone(Call::Control(available())),
        DeskCall::Alone(Call::Control(Control::Tick(1))),
        DeskCall::Alone(Call::Control(Control::Tick(2))),
    ];
    change(rt, "Book::control", desk, &events)
}

/// A deploy allocates memory for its name and ports, in the history and for a new revision.
fn deploy_revisions<N: Names, R: AllocGlobal + Print + Eprint>(
    rt: &R,
    desk: &mut Desk<N>,
) -> Result<(), Stop> {
    let deploys = [
        DeskCall::Alone(Call::Control(make_deploy(rt, "v2", &[9101, 9102])?)),
        DeskCall::Alone(Call::Control(make_deploy(rt, "v3", &[9101, 9102])?)),
        DeskCall::Alone(Call::Control(make_deploy(rt, "v2", &[9101, 9102])?)),
    ];
    change(rt, "Book::control of a deploy", desk, &deploys)
}

/// A deploy with this name and these ports.
pub fn make_deploy<R: AllocGlobal + Print + Eprint>(
    rt: &R,
    name: &str,
    ports: &[u16],
) -> Result<Control, Stop> {
    made(
        rt,
        "Name::new, Ports::new",
        || new_deploy(rt.alloc(), name, ports),
    )
}

fn new_deploy(alloc: Global, name: &str, ports: &[u16]) -> Result<Control, Stop> {
    Ok(Control::Deploy {
        name: Name::new(alloc, name)?,
        ports: Ports::new(alloc, ports)?,
    })
}

/// Eight requests have room, because the history reserved some for the outcomes of the deploys.
fn fill_seats<N: Names>(desk: &mut Desk<N>) -> Result<(), Stop> {
    for place in 0..8 {
        desk.call(&enter(place, Service::Active))?;
    }
    Ok(())
}

fn empty_seats<N: Names>(desk: &mut Desk<N>) -> Result<(), Stop> {
    for place in 0..8 {
        desk.call(&leave(place))?;
    }
    Ok(())
}

/// One of hundreds of requests needs a longer history.
fn enter_often<N: Names, R: Print + Eprint>(rt: &R, desk: &mut Desk<N>) -> Result<(), Stop> {
    let name = "Book::enter with a longer history";
    for _ in 0..200 {
        make(rt, name, desk, &DeskCall::EnterAndLeave(0))?;
    }
    say_made(rt, name)
}
