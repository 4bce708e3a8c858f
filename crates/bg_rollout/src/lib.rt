//! One rollout: checking, recording and settling its events.
//!
//! A [`Rollout`] has the running state and the history. The running state is what the history says (`specs/`), also
//! in the middle of a call, while outcomes are still to come. The caller, which is the routing book, makes sure that
//! no allowed outcome is left undone and that the history has room for each request to leave.
#![tactic(auto)]

mod accepted_event;
mod control_fault;
mod fault;
mod follow_fault;
mod go_on;
pub mod laws;
mod limits;
mod opening;
mod request_lists;
mod rollout;
mod ticket;

pub use accepted_event::AcceptedEvent;
pub use bg_history::Control;
pub use control_fault::ControlFault;
pub use fault::{EnterFault, GatherFault, OpenFault};
pub use follow_fault::{FollowFault, JournalFault};
pub use go_on::GoOn;
pub use limits::{Limits, MOST_ENTRIES, PLACES_OF_A_REQUEST};
pub use opening::{RolloutOpening, SeatLimit};
pub use request_lists::{MOST_SEATS, OpenRequest, RequestLists};
pub use rollout::Rollout;
pub use ticket::{Left, Ticket};
