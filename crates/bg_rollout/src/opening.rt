//! With what a rollout is opened.
ghost use Rattle.std.specs.Prelude.{◌≡◌, ◌≤◌};
ghost use Rattle.bg_rollout.specs.Refusals.{most_seats};

use crate::limits::Limits;
use crate::request_lists::MOST_SEATS;
use bg_strategy::Strategy;

/// With what a rollout is opened.
#[derive(Clone, Copy, Debug, Drop)]
pub struct RolloutOpening<'a> {
    /// The settings of the rollout.
    pub strategy: &'a Strategy,
    /// The name of revision 1, a DNS label.
    pub name: &'a str,
    /// The ports of revision 1: one for each replica, distinct and from 1.
    pub ports: &'a [u16],
    /// The number of seats.
    pub seats: u32,
    /// The limits of the rollout.
    pub limits: Limits,
}

/// How many seats an opening may have.
#[derive(Clone, Copy, PartialEq, Eq, Debug, Drop)]
pub enum SeatLimit {
    /// 1 to 8 seats, as in a script.
    Few,
    /// 1 to 2,048 seats.
    Many,
}

impl SeatLimit {
    /// The greatest number of seats.
    pub fn most(self) -> u32
        ensures most { result ≡ most_seats self }
        ensures fits { result ≤ 2048 }
    {
        match self {
            SeatLimit::Few => FEW_SEATS,
            SeatLimit::Many => MOST_SEATS,
        }
    }
}

/// The greatest number of seats of a book in a script.
const FEW_SEATS: u32 = 8;
