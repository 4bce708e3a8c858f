//! The limits with which a book may be opened, and its number of seats.
ghost use Rattle.std.specs.Prelude.{◌≡◌, ◌≤◌};
ghost use Rattle.bg_ledger.specs.Blanks.{AreAllFor};

use super::samples::{opening_within, strategy};
use crate::history::gathered::expect_audited;
use bg_book::{Book, Limits, OpenFault, SeatLimit, laws as book_laws};
use bg_ledger::{Blanks, Names};
use std::alloc::Global;
use std::marker::Brand;
use std::test::Fail;

/// A number of seats and limits, and the fault of the opening.
static OPENINGS: [(u32, Limits, Option<OpenFault>); 8] = [
    (0, USUAL, Some(OpenFault::BadSeats)),
    (1, USUAL, None),
    (8, USUAL, None),
    (9, USUAL, Some(OpenFault::BadSeats)),
    (
        1,
        Limits {
            entries: 1_000_001,
            numbers: 1 << 53,
        },
        Some(OpenFault::BadLimits),
    ),
    (
        1,
        Limits {
            entries: 1_000_000,
            numbers: (1 << 53) + 1,
        },
        Some(OpenFault::BadLimits),
    ),
    (
        1,
        Limits {
            entries: 0,
            numbers: 0,
        },
        None,
    ),
    // the fault of the seats comes first
    (
        9,
        Limits {
            entries: 1_000_001,
            numbers: 1 << 53,
        },
        Some(OpenFault::BadSeats),
    ),
];

/// The greatest limits.
const USUAL: Limits = Limits {
    entries: 1_000_000,
    numbers: 1 << 53,
};

/// The fault of an opening. A book that was opened is closed.
fn fault_of<N: Names>(
    alloc: Global,
    seats: u32,
    limits: Limits,
    blanks: Blanks,
) -> Result<Option<OpenFault>, Fail>
    requires blanks { AreAllFor N.Names blanks }
    requires seats { 1 ≤ seats → seats ≤ 8 → N.seats ≡ seats }
{
    book_laws::lent();
    let strategy = strategy(alloc)?;
    let opening = opening_within(&strategy, seats, limits);
    match Book::<N>::open(alloc, SeatLimit::Few, &opening, blanks) {
        Ok((book, seats)) => {
            expect_audited(alloc, &book.close(seats), &strategy)?;
            Ok(None)
        }
        Err(fault) => Ok(Some(fault)),
    }
}

fn fault(alloc: Global, seats: u32, limits: Limits) -> Result<Option<OpenFault>, Fail> {
    fault_of::<Brand>(alloc, seats, limits, Blanks::new())
}

#[test]
fn opens_within_the_limits(rt: HostRuntime) -> Result<(), Fail> {
    for (seats, limits, expected) in &OPENINGS {
        let fault = fault(rt.alloc(), *seats, *limits)?;
        assert_eq!(rt; fault, *expected, "{seats} seats, {limits:?}");
    }
    Ok(())
}
