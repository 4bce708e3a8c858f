//! The intended use of the crate: new tokens, a function over `Names` that pairs four seats, uses them from two
//! threads and reunites them, and a caller that picks their names.
ghost use Rattle.std.specs.Prelude.{◌≡◌, ◌<◌, ◌+◌, ◌*◌, ◌^◌, [], ◌∷◌};
ghost use Rattle.bg_ledger.specs.Blanks.{AreAllFor};
ghost use Rattle.bg_ledger.specs.Holdings.{fresh, after_enter, after_leave};

use bg_ledger::{Blanks, Names, Seat, SeatRecord, pair};
use std::marker::Brand;
use std::sync::{Mutex, Wait};
use std::thread::{Threads, join_mut};

/// The data under the lock: the record of each seat.
#[derive(Drop)]
struct Records<N: Names> {
    first: SeatRecord<N>,
    second: SeatRecord<N>,
    third: SeatRecord<N>,
    fourth: SeatRecord<N>,
    ghost in_order: { (first.index ≡ 0) × (second.index ≡ 1) × (third.index ≡ 2) × (fourth.index ≡ 3) },
}

/// Four seats. The threads that use them borrow them.
struct Seats<N: Names> {
    first: Seat<N>,
    second: Seat<N>,
    third: Seat<N>,
    fourth: Seat<N>,
}

impl<N: Names> Records<N> {
    fn enter(&mut self, seat: &mut Seat<N>, number: u64)
        requires index { seat.old.index < 4 }
        requires out { seat.old.number ≡ 0 }
        requires number { 0 < number }
        requires calls { seat.old.calls < 2 ^ 60 }
        ensures { seat.new ≡ after_enter seat.old number 1 8080 }
    {
        match seat.index() {
            0 => self.first.enter(seat, number, 1, 8080),
            1 => self.second.enter(seat, number, 1, 8080),
            2 => self.third.enter(seat, number, 1, 8080),
            _ => self.fourth.enter(seat, number, 1, 8080),
        }
    }

    fn leave(&mut self, seat: &mut Seat<N>)
        requires index { seat.old.index < 4 }
        requires is_in { 0 < seat.old.number }
        ensures { seat.new ≡ after_leave seat.old }
    {
        let _request = match seat.index() {
            0 => self.first.leave(seat),
            1 => self.second.leave(seat),
            2 => self.third.leave(seat),
            _ => self.fourth.leave(seat),
        };
    }
}

/// A worker: each round enters and leaves by the lock.
fn work<N: Names, R: Wait>(rt: &R, records: &Mutex<Records<N>>, seat: &mut Seat<N>, rounds: u32)
    requires index { seat.old.index < 4 }
    requires unused { seat.old ≡ fresh seat.old.index }
    ensures { seat.new ≡ record seat.old { calls = 2 * rounds } }
{
    for round in 0..rounds {
        records.lock(rt).enter(seat, round as u64 + 1);
        records.lock(rt).leave(seat);
    }
}

/// Uses two seats in each of two threads.
fn work_in_two_threads<N: Names + Send + Sync, R: Threads + Wait + Sync>(
    rt: &R,
    records: &Mutex<Records<N>>,
    seats: &mut Seats<N>,
    few: u32,
    many: u32,
)
    requires { seats.old ≡ record { first = fresh 0; second = fresh 1; third = fresh 2; fourth = fresh 3 } }
    ensures first { seats.new.first ≡ record (fresh 0) { calls = 2 * few } }
    ensures second { seats.new.second ≡ record (fresh 1) { calls = 2 * few } }
    ensures third { seats.new.third ≡ record (fresh 2) { calls = 2 * many } }
    ensures fourth { seats.new.fourth ≡ record (fresh 3) { calls = 2 * many } }
{
    let Seats {
        first,
        second,
        third,
        fourth,
    } = seats;
    join_mut(
        rt,
        &mut ||
            requires { (first.now ≡ fresh 0) × (second.now ≡ fresh 1) }
            ensures { (first.exit.now ≡ record first.entry.now { calls = 2 * few }) × (second.exit.now ≡ record second.entry.now { calls = 2 * few }) }
        {
            work(rt, records, first, few);
            work(rt, records, second, few)
        },
        &mut ||
            requires { (third.now ≡ fresh 2) × (fourth.now ≡ fresh 3) }
            ensures { (third.exit.now ≡ record third.entry.now { calls = 2 * many }) × (fourth.exit.now ≡ record fourth.entry.now { calls = 2 * many }) }
        {
            work(rt, records, third, many);
            work(rt, records, fourth, many)
        },
    );
}

/// Pairs four seats, uses them and reunites them. Returns the number of calls of each.
fn work_four_seats<N: Names + Send + Sync, R: Threads + Wait + Sync>(
    rt: &R,
    blanks: Blanks,
    few: u32,
    many: u32,
) -> [u64; 4]
    requires blanks { AreAllFor N.Names blanks }
    requires seats { N.seats ≡ 4 }
    ensures { result ≡ (2 * few) ∷ (2 * few) ∷ (2 * many) ∷ (2 * many) ∷ [] }
{
    let mut blanks = blanks;
    let (first_record, first) = pair::<N>(0, &mut blanks);
    let (second_record, second) = pair::<N>(1, &mut blanks);
    let (third_record, third) = pair::<N>(2, &mut blanks);
    let (fourth_record, fourth) = pair::<N>(3, &mut blanks);
    let records = Mutex::new(Records {
        first: first_record,
        second: second_record,
        third: third_record,
        fourth: fourth_record,
    });
    let mut seats = Seats {
        first,
        second,
        third,
        fourth,
    };
    work_in_two_threads(rt, &records, &mut seats, few, many);
    let records = records.into_inner();
    let Seats {
        first,
        second,
        third,
        fourth,
    } = seats;
    [
        records.first.reunite(first),
        records.second.reunite(second),
        records.third.reunite(third),
        records.fourth.reunite(fourth),
    ]
}

/// The caller passes `Brand` for the names, and its proof picks the names of the blanks that it passes.
fn with_new_names<R: Threads + Wait + Sync>(rt: &R, few: u32, many: u32) -> [u64; 4]
    ensures { result ≡ (2 * few) ∷ (2 * few) ∷ (2 * many) ∷ (2 * many) ∷ [] }
{
    work_four_seats::<Brand, R>(rt, Blanks::new(), few, many)
}

#[test]
fn two_threads_work_four_seats(rt: HostRuntime) {
    let calls = with_new_names(&rt, 300, 500);
    assert_eq!(rt; calls, [600, 600, 1000, 1000]);
}
