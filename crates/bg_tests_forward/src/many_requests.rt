//! Many requests at the gate of a desk, one after the other. The gate compacts the history when it is full, and from time
//! to time.
ghost use Rattle.std.specs.Prelude.{◌≡◌};
ghost use Rattle.bg_rollout.specs.Gathering.{indices};
ghost use Rattle.bg_ledger.specs.Blanks.{AreAllFor};

use crate::books::{close, entry_count, open};
use crate::samples::{opening, strategy};
use bg_audit::audit;
use bg_book::{Desk, Limits, RolloutOpening, laws as book_laws};
use bg_forward::{DeskGate, Gate};
use bg_ledger::{Blanks, Names, Seat};
use bg_revisions::Service;
use std::alloc::Global;
use std::marker::Brand;
use std::sync::Wait;
use std::test::Fail;

/// The gate compacts when a request whose number is a multiple of this has left.
const BETWEEN: u64 = 32_768;

/// The number of entries after the request with this number has left, if the history was never full: the report of
/// availability, and two for each request since the last compaction.
fn entries_after(number: u64) -> u64 {
    1 + 2 * (number % BETWEEN)
}

/// Lets a request enter and leave. Gives its number, if it entered and left with the same.
fn pass_one<N: Names, R: Wait>(desk_gate: &DeskGate<N, R>, seat: &mut Seat<N>) -> Option<u64>
    ensures { seat.new.index ≡ seat.old.index }
{
    if seat.is_in() {
        return None;
    }
    let Ok(ticket) = desk_gate.enter(seat, Service::Active) else {
        return None;
    };
    let left = desk_gate.leave(seat);
    if left.number == ticket.number {
        Some(left.number)
    } else {
        None
    }
}

/// How many requests passed.
#[derive(Clone, Copy, Drop)]
struct Passed {
    /// The number of those that entered and left with the next number.
    in_order: u64,
    /// The number of those after which the history had the length that `entries_after` gives.
    expected_lengths: u64,
}

/// Lets requests enter and leave, one after the other.
fn pass_all<N: Names, R: Wait>(rt: &R, desk: &Desk<N>, seat: &mut Seat<N>, requests: u64) -> Passed
    ensures { seat.new.index ≡ seat.old.index }
{
    let desk_gate = DeskGate::new(rt, desk);
    let mut passed = Passed {
        in_order: 0,
        expected_lengths: 0,
    };
    for number in 1..=requests {
        if pass_one(&desk_gate, seat) == Some(number) {
            passed.in_order = passed.in_order.saturating_add(1);
        }
        if entry_count(rt, desk) == entries_after(number) {
            passed.expected_lengths = passed.expected_lengths.saturating_add(1);
        }
    }
    passed
}

/// Lets the requests enter at the first of the seats.
fn pass_at_first<N: Names, R: Wait>(
    rt: &R,
    desk: &Desk<N>,
    seats: &mut [Seat<N>],
    requests: u64,
) -> Option<Passed>
    ensures { indices seats.new ≡ indices seats.old }
{
    book_laws::same_order();
    if seats.is_empty() {
        return None;
    }
    Some(pass_all(rt, desk, &mut seats[0], requests))
}

/// The requests that passed, and the history at their end.
#[derive(Clone, Copy, Drop)]
struct Ended {
    passed: Passed,
    /// The number of requests that the history has closed, and the number of its entries.
    closed: u64,
    entries: u64,
    /// Whether the history is legal, with nothing left undone.
    is_legal: bool,
}

/// Lets requests pass the gate of a book of one seat.
fn pass<N: Names, R: Wait>(
    rt: &R,
    alloc: Global,
    opening: &RolloutOpening,
    requests: u64,
    blanks: Blanks,
) -> Result<Ended, Fail>
    requires blanks { AreAllFor N.Names blanks }
    requires seats { N.seats ≡ opening.now.seats }
{
    book_laws::lent();
    let (desk, mut seats) = open::<N, R>(rt, alloc, opening, 2, blanks)?;
    let passed = pass_at_first(rt, &desk, seats.as_mut_slice(), requests);
    let history = close(desk, seats);
    let Some(passed) = passed else {
        return Err(Fail::new("the book has no seat"));
    };
    Ok(Ended {
        passed,
        closed: history.closed(0),
        entries: history.len(),
        is_legal: audit(alloc, &history, opening.strategy)?,
    })
}

fn with_new_names<R: Wait>(
    rt: &R,
    alloc: Global,
    requests: u64,
    limits: Limits,
) -> Result<Ended, Fail> {
    let strategy = strategy(alloc)?;
    let opening = RolloutOpening {
        limits,
        ..opening(&strategy, 1)
    };
    pass::<Brand, R>(rt, alloc, &opening, requests, Blanks::new())
}

#[test]
fn a_desk_gate_makes_room(rt: HostRuntime) -> Result<(), Fail> {
    let limits = Limits {
        entries: 150,
        numbers: 1 << 53,
    };
    let ended = with_new_names(&rt, rt.alloc(), 1000, limits)?;
    assert_eq!(rt; ended.passed.in_order, 1000);
    // the report of availability, and two entries for each request, dropped or held
    let recorded = ended.closed.saturating_mul(2).saturating_add(ended.entries);
    assert_eq!(rt; recorded, 2001);
    assert!(rt; ended.entries <= 150);
    assert!(rt; ended.is_legal);
    Ok(())
}

#[test]
fn a_desk_gate_compacts_at_its_numbers_and_not_before(rt: HostRuntime) -> Result<(), Fail> {
    let requests = 2 * BETWEEN + 2;
    let ended = with_new_names(&rt, rt.alloc(), requests, Limits::usual())?;
    assert_eq!(rt; ended.passed.in_order, requests);
    assert_eq!(rt; ended.passed.expected_lengths, requests);
    assert_eq!(rt; ended.closed, 2 * BETWEEN);
    assert_eq!(rt; ended.entries, 5);
    assert!(rt; ended.is_legal);
    Ok(())
}
