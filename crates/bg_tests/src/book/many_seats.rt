//! Books with up to 2,048 seats.
ghost use Rattle.std.specs.Prelude.{◌≡◌, ◌≤◌};
ghost use Rattle.bg_ledger.specs.Blanks.{AreAllFor};

use super::samples::{opening, strategy};
use crate::history::gathered::expect_audited;
use bg_book::{Book, Call, Control, OpenFault, Reply, SeatLimit, laws as book_laws};
use bg_ledger::{Blanks, Names};
use bg_revisions::Service;
use bg_strategy::Strategy;
use std::alloc::Global;
use std::marker::Brand;
use std::test::Fail;

/// The replies of a book with this many seats, or the fault of its opening.
fn replies_of<N: Names>(
    alloc: Global,
    strategy: &Strategy,
    count: u32,
    calls: &[Call],
    blanks: Blanks,
) -> Result<Result<Vec<Reply>, OpenFault>, Fail>
    requires blanks { AreAllFor N.Names blanks }
    requires seats { 1 ≤ count → count ≤ 2048 → N.seats ≡ count }
{
    book_laws::lent();
    let opening = opening(strategy, count);
    match Book::<N>::open(alloc, SeatLimit::Many, &opening, blanks) {
        Ok((mut book, mut seats)) => {
            let replies = book.run(seats.as_mut_slice(), calls);
            let history = book.close(seats);
            expect_audited(alloc, &history, strategy)?;
            Ok(Ok(replies?))
        }
        Err(fault) => Ok(Err(fault)),
    }
}

fn replies(
    alloc: Global,
    strategy: &Strategy,
    count: u32,
    calls: &[Call],
) -> Result<Result<Vec<Reply>, OpenFault>, Fail> {
    replies_of::<Brand>(alloc, strategy, count, calls, Blanks::new())
}

/// A request enters at each of these seats, after an endpoint became available.
fn enter_all(alloc: Global, count: u32) -> Result<Vec<Call>, Fail> {
    let mut calls = Vec::new(alloc);
    calls.push(Call::Control(Control::Available {
        revision: 1,
        size: 1,
    }))?;
    for seat in 0..count {
        calls.push(Call::Enter {
            seat,
            service: Service::Active,
        })?;
    }
    Ok(calls)
}

#[test]
fn has_one_to_2048_seats(rt: HostRuntime) -> Result<(), Fail> {
    let alloc = rt.alloc();
    let strategy = strategy(alloc)?;
    for (count, is_good) in [
        (0, false),
        (1, true),
        (9, true),
        (2048, true),
        (2049, false),
    ] {
        let calls = enter_all(alloc, count)?;
        match replies(alloc, &strategy, count, calls.as_slice())? {
            Ok(replies) => {
                assert!(rt; is_good, "{count}");
                let entered = replies
                    .iter()
                    .filter(|reply| matches!(reply, Reply::Entered(_)))
                    .count();
                assert_eq!(rt; entered, count as usize);
            }
            Err(fault) => {
                assert!(rt; !is_good, "{count}");
                assert_eq!(rt; fault, OpenFault::BadSeats);
            }
        }
    }
    Ok(())
}
