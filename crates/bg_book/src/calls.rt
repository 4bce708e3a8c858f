//! The calls of a book, and their replies.

use bg_revisions::Service;
use bg_rollout::{Control, ControlFault, EnterFault, Left, Ticket};

/// A call of a book. It names a seat by its place in the slice of seats that comes with the call.
#[derive(Debug, Drop)]
pub enum Call {
    Enter { seat: u32, service: Service },
    Leave { seat: u32 },
    Control(Control),
}

/// The reply to a call.
#[derive(Clone, Copy, PartialEq, Eq, Debug, Drop)]
pub enum Reply {
    Entered(Ticket),
    EnterRefused(EnterFault),
    Left(Left),
    /// The event was recorded, and then this many outcomes.
    Done(u64),
    ControlRefused(ControlFault),
    /// No seat has this place.
    NoSuchSeat,
    /// The seat holds a request, so none can enter at it.
    SeatBusy,
    /// The seat holds no request, so none can leave it.
    SeatIdle,
}
