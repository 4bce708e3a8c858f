//! The laws of the seats, over all calls of a `Seats`.
ghost use Rattle.std.specs.Prelude.{◌≡◌, ◌<◌, ◌≤◌, ℕ, List};
ghost use Rattle.bg_client_side.specs.SeatRuns.{NoneIsLost, NoneOvertakes, SeatCall, SeatsLeaveOnce, SeatsStay, times};
ghost use Rattle.bg_client_side.specs.Seating.{Seating, first_seats};

/// Free and taken seats are together all seats, once each: so it is with the seats of `Seats::new`, and no call changes how
/// often a seat is free or taken.
pub fn seats_are_free_or_taken()
    ensures first { (count seat : ℕ) → seat < count → times seat (first_seats count) ≡ 1 }
    ensures others { (count seat : ℕ) → count ≤ seat → times seat (first_seats count) ≡ 0 }
    ensures stay { (seat : ℕ) (calls : List SeatCall) (old new : Seating) → SeatsStay seat old calls new }
{}

/// A seat that a client entered on is taken until it is left, and is left once.
pub fn a_seat_is_left_once()
    ensures { (seat : ℕ) (calls : List SeatCall) (old new : Seating) → SeatsLeaveOnce seat old calls new }
{}

/// A client that waits enters once, or is withdrawn, or waits still.
pub fn no_client_is_lost()
    ensures { (key : ℕ) (calls : List SeatCall) (old new : Seating) → NoneIsLost key old calls new }
{}

/// Clients enter in the order in which they began to wait, and none enters before one that waited before it and still
/// waits.
pub fn no_client_overtakes()
    ensures { (calls : List SeatCall) (old new : Seating) → NoneOvertakes old calls new }
{}
