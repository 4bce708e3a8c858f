//! Threads at one desk.
ghost use Rattle.std.specs.Prelude.{◌≡◌, ◌≤◌, IfOk};
ghost use Rattle.bg_rollout.specs.Gathering.{indices};
ghost use Rattle.bg_book.specs.Runs.{AreOut};
ghost use Rattle.bg_ledger.specs.Blanks.{AreAllFor};

use crate::book::samples::{available, opening, strategy};
use crate::history::gathered::expect_audited;
use bg_book::{Book, Control, Desk, SeatLimit, laws as book_laws};
use bg_history::History;
use bg_ledger::{Blanks, Names, Seat};
use bg_revisions::Service;
use std::alloc::{AllocError, Global};
use std::marker::Brand;
use std::process::Abort;
use std::sync::Wait;
use std::test::Fail;
use std::thread::{Threads, for_each_mut, join_mut};

/// The number of times that each worker enters and leaves.
const ROUNDS: u32 = 1000;

/// The last of the ticks.
const LAST_MOMENT: u64 = 100;

/// A worker: each round enters and leaves. A refused round is not repeated.
fn work<N: Names, R: Wait>(rt: &R, desk: &Desk<N>, seat: &mut Seat<N>)
    requires { seat.old.number ≡ 0 }
    ensures out { seat.new.number ≡ 0 }
    ensures index { seat.new.index ≡ seat.old.index }
{
    for _ in 0..ROUNDS {
        if desk
            .enter_with_compaction(rt, seat, Service::Active)
            .is_ok()
        {
            let _left = desk.leave(rt, seat);
        }
    }
}

/// Works each seat in a thread of its own.
fn work_all<N: Names + Send + Sync, R: Threads + Wait + Sync>(
    rt: &R,
    desk: &Desk<N>,
    seats: &mut [Seat<N>],
)
    requires { AreOut seats.old }
    ensures { indices seats.new ≡ indices seats.old }
{
    book_laws::same_order();
    let threads = seats.len();
    if threads == 0 {
        return;
    }
    for_each_mut(
        rt,
        seats,
        threads,
        &|_place, seat: &mut Seat<N>|
            requires { seat.now.number ≡ 0 }
            ensures { seat.exit.now.index ≡ seat.entry.now.index }
        { work(rt, desk, seat) },
    );
}

/// Makes the ticks. A refused tick is not repeated.
fn tick<N: Names, R: Wait>(rt: &R, desk: &Desk<N>) {
    for moment in 1..=LAST_MOMENT {
        let _told = desk.control_with_compaction(rt, &Control::Tick(moment));
    }
}

/// Serves the seats, and makes the ticks in parallel.
pub(super) fn work_and_tick<N: Names + Send + Sync, R: Threads + Wait + Sync>(
    rt: &R,
    desk: &Desk<N>,
    seats: &mut [Seat<N>],
)
    requires { AreOut seats.old }
    ensures { indices seats.new ≡ indices seats.old }
{
    join_mut(
        rt,
        &mut ||
            requires { AreOut seats.now }
            ensures { indices seats.exit.now ≡ indices seats.entry.now }
        { work_all(rt, desk, seats) },
        &mut || tick(rt, desk),
    );
}

/// How the seats of a book are worked.
#[derive(Clone, Copy, Drop)]
pub(super) struct Plan {
    pub(super) limit: SeatLimit,
    pub(super) seats: u32,
    /// Whether the entries of the closed requests are dropped before the seats are gathered.
    pub(super) compacts: bool,
}

/// The results that the tests check: the number of calls of each seat, and the history.
#[derive(Drop)]
pub(super) struct Worked {
    pub(super) calls: Vec<u64>,
    pub(super) history: History,
}

/// The number of calls of each seat.
fn calls_of<N: Names>(alloc: Global, seats: &[Seat<N>]) -> Result<Vec<u64>, AllocError> {
    let mut calls = Vec::new(alloc);
    for seat in seats {
        calls.push(seat.calls())?;
    }
    Ok(calls)
}

/// Opens a book with both endpoints, serves its seats, and gathers them.
fn open_and_work<N: Names + Send + Sync, R: Threads + Wait + Sync + Abort>(
    rt: &R,
    alloc: Global,
    plan: Plan,
    blanks: Blanks,
) -> Result<Worked, Fail>
    requires blanks { AreAllFor N.Names blanks }
    requires seats { N.seats ≡ plan.seats }
    ensures { IfOk result (λ worked. worked.history.opening.seats ≡ plan.seats) }
{
    book_laws::lent();
    let strategy = strategy(alloc)?;
    let opening = opening(&strategy, plan.seats);
    let (book, mut seats) = Book::<N>::open(alloc, plan.limit, &opening, blanks)?;
    let desk = Desk::new(book);
    let told = desk.control_with_compaction(rt, &available());
    work_and_tick(rt, &desk, seats.as_mut_slice());
    let calls = calls_of(alloc, &seats);
    if plan.compacts {
        let _dropped = desk.compact(rt);
    }
    let history = match desk.into_book().gather(seats) {
        Ok(history) => history,
        Err(_handed_back) => rt.abort(),
    };
    let _outcomes = told?;
    expect_audited(alloc, &history, &strategy)?;
    Ok(Worked {
        calls: calls?,
        history,
    })
}

pub(super) fn with_new_names<R: Threads + Wait + Sync + Abort>(
    rt: &R,
    alloc: Global,
    plan: Plan,
) -> Result<Worked, Fail>
    requires least { 1 ≤ plan.seats }
    requires most { plan.seats ≤ 2048 }
    ensures { IfOk result (λ worked. worked.history.opening.seats ≡ plan.seats) }
{
    open_and_work::<Brand, R>(rt, alloc, plan, Blanks::new())
}

#[test]
fn desk_threads(rt: HostRuntime) -> Result<(), Fail> {
    let plan = Plan {
        limit: SeatLimit::Few,
        seats: 2,
        compacts: false,
    };
    let worked = with_new_names(&rt, rt.alloc(), plan)?;
    assert_eq!(rt; worked.calls.as_slice(), [2000, 2000].as_slice());
    assert_eq!(rt; worked.history.len(), 4101);
    assert_eq!(rt; worked.history.closed(0), 0);
    assert_eq!(rt; worked.history.closed(1), 0);
    Ok(())
}
