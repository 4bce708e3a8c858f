//! Two hundred threads at one desk.

use super::threads::{Plan, with_new_names};
use bg_book::SeatLimit;
use std::test::Fail;

/// The number of seats, and of threads.
const SEATS: u32 = 200;

/// The number of requests that enter and leave at each seat.
const REQUESTS_OF_A_SEAT: u64 = 1000;

#[test]
fn two_hundred_seats(rt: HostRuntime) -> Result<(), Fail> {
    let plan = Plan {
        limit: SeatLimit::Many,
        seats: SEATS,
        compacts: true,
    };
    let worked = with_new_names(&rt, rt.alloc(), plan)?;
    assert_eq!(rt; worked.calls.len(), SEATS as usize);
    for calls in &worked.calls {
        assert_eq!(rt; *calls, 2 * REQUESTS_OF_A_SEAT);
    }
    for seat in 0..SEATS {
        assert_eq!(rt; worked.history.closed(seat), REQUESTS_OF_A_SEAT);
    }
    // the `available` and the last tick
    assert_eq!(rt; worked.history.len(), 2);
    Ok(())
}
