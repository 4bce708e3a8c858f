//! Clients that wait for seats, enter, leave and are withdrawn.

use crate::seats::{Entered, Seats};
use std::alloc::Global;

/// What happens to clients and seats, with what it gives.
enum Event {
    Waits(usize, bool),
    Enters(Option<Entered>),
    Leaves(usize, bool),
    Withdraws(usize, bool),
}

/// Whether the event gives what it should.
fn gives(seats: &mut Seats, event: &Event) -> bool {
    match event {
        Event::Waits(key, waits) => seats.wait(*key) == *waits,
        Event::Enters(entered) => seats.enter() == *entered,
        Event::Leaves(seat, was_taken) => seats.leave(*seat) == *was_taken,
        Event::Withdraws(key, waited) => seats.withdraw(*key) == *waited,
    }
}

/// The index of the first event that does not give what it should, of clients for two seats, for which three may wait.
fn first_wrong(alloc: Global, events: &[Event]) -> Option<usize> {
    let Ok(mut seats) = Seats::new(alloc, 2, 3) else {
        return Some(0);
    };
    events.iter().position(|event| !gives(&mut seats, event))
}

static EVENTS: [Event; 19] = [
    Event::Enters(None),
    Event::Waits(10, true),
    Event::Waits(11, true),
    Event::Waits(12, true),
    Event::Waits(13, false),
    Event::Enters(Some(Entered { key: 10, seat: 0 })),
    Event::Enters(Some(Entered { key: 11, seat: 1 })),
    Event::Enters(None),
    Event::Waits(13, true),
    Event::Waits(14, true),
    Event::Withdraws(12, true),
    Event::Withdraws(12, false),
    Event::Leaves(1, true),
    Event::Leaves(1, false),
    Event::Leaves(2, false),
    Event::Enters(Some(Entered { key: 13, seat: 1 })),
    Event::Leaves(0, true),
    Event::Enters(Some(Entered { key: 14, seat: 0 })),
    Event::Enters(None),
];

#[test]
fn clients_enter_in_their_order(rt: HostRuntime) {
    assert_eq!(rt; first_wrong(rt.alloc(), &EVENTS), None);
}
